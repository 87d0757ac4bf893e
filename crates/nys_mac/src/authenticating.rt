//! HMAC with SHA-256 (RFC 2104, FIPS 180-4).

ghost use Rattle.std.specs.Prelude.{◌≡◌, ◌≤◌, ◌+◌, ◌-◌, ◌++◌, ℕ, List, length, replicate};
ghost use Rattle.nys_mac.specs.Hmac.{key_block, masked, hmac_of};

use sha2::{Digest, Sha256};

/// The bytes of a tag, as many as of a digest of SHA-256.
pub const TAG_LEN: usize = 32;

/// The most bytes of a key, and of a text that is authenticated.
pub const MAX_TEXT_LEN: usize = 1 << 60;

/// A tag: the HMAC of what is said.
pub type Tag = [u8; TAG_LEN];

/// The bytes of a block of SHA-256.
const BLOCK_LEN: usize = 64;

/// The byte of the inner pad.
const INNER: u8 = 0x36;

/// The byte of the outer pad.
const OUTER: u8 = 0x5c;

fn with_mask(block: &[u8; BLOCK_LEN], mask: u8) -> [u8; BLOCK_LEN]
    ensures { result ≡ masked mask block.now }
{
    let mut out = [0u8; BLOCK_LEN];
    for i in 0..BLOCK_LEN {
        out[i] = block[i] ^ mask;
    }
    out
}

fn padded(short: &[u8]) -> [u8; BLOCK_LEN]
    requires { length short.now ≤ 64 }
    ensures { result ≡ short.now ++ replicate (64 - length short.now) 0 }
{
    let mut block = [0u8; BLOCK_LEN];
    let n = short.len();
    block[..n].copy_from_slice(short);
    block
}

fn block_of(key: &[u8]) -> [u8; BLOCK_LEN]
    ensures { result ≡ key_block key.now }
{
    if key.len() > BLOCK_LEN {
        padded(&Sha256::digest(key))
    } else {
        padded(key)
    }
}

/// A copy of a hasher.
fn copy_of(hasher: &Sha256) -> Sha256
    ensures { result ≡ hasher.now }
{
    hasher.clone().unwrap()
}

/// The hash states of HMAC under one key: what each of its two hashes has taken before the text is
/// the key's block under a pad, so these blocks need no second hashing (RFC 2104, section 4).
#[derive(Drop)]
pub(crate) struct KeyStates {
    inner: Sha256,
    outer: Sha256,
}

impl KeyStates {
    ghost use Rattle.nys_mac.specs.States.{AreStatesOf};

    /// The states of a key. A key longer than a block of 64 bytes is hashed first.
    pub(crate) fn of(key: &[u8]) -> KeyStates
        ensures { AreStatesOf result key.now }
    {
        let block = block_of(key);
        KeyStates {
            inner: Sha256::new_with_prefix(&with_mask(&block, INNER)),
            outer: Sha256::new_with_prefix(&with_mask(&block, OUTER)),
        }
    }

    /// The HMAC of `head` followed by `text` under the key that the states are of. Both together up
    /// to 55 bytes are one block, as is the digest of the inner hash.
    #[tactic(auto, unfolding(crate::specs::Hmac::hmac_of))]
    pub(crate) fn hmac(&self, head: &[u8], text: &[u8]) -> Tag
        ensures { (key : List ℕ) → AreStatesOf self.now key → result ≡ hmac_of key (head.now ++ text.now) }
    {
        let mut inner = copy_of(&self.inner);
        inner.update(head);
        inner.update(text);
        let mut outer = copy_of(&self.outer);
        outer.update(&inner.finalize());
        outer.finalize()
    }
}

/// The HMAC (RFC 2104, section 2) with SHA-256 (FIPS 180-4) of `head` followed by `text`. A key
/// longer than a block of 64 bytes is hashed first.
pub fn hmac(key: &[u8], head: &[u8], text: &[u8]) -> Tag
    requires key { length key.now ≤ MAX_TEXT_LEN }
    requires message { length head.now + length text.now ≤ MAX_TEXT_LEN }
    ensures { result ≡ hmac_of key.now (head.now ++ text.now) }
{
    KeyStates::of(key).hmac(head, text)
}
