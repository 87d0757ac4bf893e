//! The keys of pairs of parties, and the tags under them.

ghost use Rattle.std.specs.Prelude.{◌≡◌, ◌≤◌, ◌<◌, ◌-◌, ◌↔◌, length, IfOk, IfSome, IsTrue};
ghost use Rattle.nys_mac.specs.States.{AreStatesOf};
ghost use Rattle.nys_mac.specs.Tags.{pair_key, tag_of};

use crate::authenticating::{KeyStates, MAX_TEXT_LEN, Tag, hmac};
use crate::pairs::{PairStates, key_of_pair, states_in, table_of};
use nys_bytes::NoMemory;
use nys_hosts::MAX_HOSTS;
use std::alloc::Global;
use std::marker::Model;

/// The greatest number of a party: hosts are below `MAX_HOSTS`, and the Olympus is that number.
pub const LAST_PARTY: u32 = MAX_HOSTS as u32;

/// The keys of all pairs of parties, by the master key that they are made from. What is kept beside it
/// makes tags cheaper, and no tag another.
#[derive(Drop)]
pub struct Keys {
    master: [u8; 32],
    pairs: Option<Vec<PairStates>>,
}

impl Model for Keys {
    ghost use Rattle.std.specs.Prelude.{ℕ, All, IfSome, List};

    ghost Value = { List ℕ };

    ghost use Rattle.nys_mac.specs.States.{IsPairUnder};

    ghost view = { λ k. k.master };

    ghost invariant = { λ k. IfSome k.pairs (λ pairs. All (IsPairUnder k.master) pairs.items) };
}

impl Keys {
    /// The keys of the pairs under this master key.
    pub fn from_master(master: [u8; 32]) -> Keys
        ensures { result ≡ master }
    {
        Keys {
            master,
            pairs: None,
        }
    }

    /// The same keys, with the hash states after the key's blocks kept for each pair of the hosts below
    /// `hosts` and the Olympus: a tag of a short text then takes two blocks and not eight. At most 561
    /// pairs, each of some 200 bytes.
    pub fn ready_for(self, alloc: Global, hosts: u32) -> Result<Keys, NoMemory>
        requires { hosts ≤ LAST_PARTY }
        ensures { IfOk result (λ keys. keys ≡ self) }
    {
        let pairs = table_of(alloc, &self.master, hosts)?;
        Ok(Keys {
            master: self.master,
            pairs: Some(pairs),
        })
    }

    /// The key that the two parties share, the same whichever is named first.
    pub fn pair(&self, i: u32, j: u32) -> [u8; 32]
        requires i { i ≤ LAST_PARTY }
        requires j { j ≤ LAST_PARTY }
        ensures { result ≡ pair_key self.now i j }
    {
        key_of_pair(&KeyStates::of(&self.master), i, j)
    }

    /// What is kept for two parties.
    fn kept(&self, i: u32, j: u32) -> Option<&KeyStates>
        requires i { i ≤ LAST_PARTY }
        requires j { j ≤ LAST_PARTY }
        ensures { IfSome result (λ states. AreStatesOf states.now (pair_key self.now i j)) }
    {
        match &self.pairs {
            Some(pairs) => states_in(pairs, i, j),
            None => None,
        }
    }

    /// The tag of what `from` says to `to`: the HMAC, under the key that they share, of the byte
    /// `from`, the byte `to`, then the bytes.
    #[tactic(auto, unfolding(crate::specs::Tags::tag_of))]
    pub fn tag(&self, from: u32, to: u32, bytes: &[u8]) -> Tag
        requires from { from ≤ LAST_PARTY }
        requires to { to ≤ LAST_PARTY }
        requires bytes { length bytes.now < MAX_TEXT_LEN - 2 }
        ensures { result ≡ tag_of self.now from to bytes.now }
    {
        let head = [from as u8, to as u8];
        match self.kept(from, to) {
            Some(states) => states.hmac(&head, bytes),
            None => hmac(&self.pair(from, to), &head, bytes),
        }
    }

    /// Whether this is the tag of what `from` says to `to`, all its bytes.
    pub fn verify(&self, from: u32, to: u32, bytes: &[u8], tag: &Tag) -> bool
        requires from { from ≤ LAST_PARTY }
        requires to { to ≤ LAST_PARTY }
        requires bytes { length bytes.now < MAX_TEXT_LEN - 2 }
        ensures { IsTrue result ↔ (tag.now ≡ tag_of self.now from to bytes.now) }
    {
        self.tag(from, to, bytes) == *tag
    }
}
