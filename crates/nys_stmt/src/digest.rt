//! The digest of a payload, which stands for it in the bytes that are tagged.

ghost use Rattle.std.specs.Prelude.{◌≡◌, ℕ, ℤ, List, ◌++◌, length, All, FitsSigned};
ghost use Rattle.std.specs.Int.{w64};
ghost use Rattle.std.specs.List.{flat_map};
ghost use Rattle.byteorder.specs.Endian.{big_bytes};
ghost use Rattle.sha2.specs.Hashers.{Holds256};
ghost use Rattle.nys_stmt.specs.Ranges.{IsPayload};
ghost use Rattle.nys_stmt.specs.Spelling.{digest, number_bytes};

use byteorder::{BigEndian, ByteOrder};
use nys_bytes::Payload;
use sha2::{Digest, Sha256};

/// The bytes of a digest.
pub const DIGEST_LEN: usize = 32;

/// The SHA-256 (FIPS 180-4) of the bytes of a payload (docs/FORMATS.md). Takes no memory.
#[tactic(auto, unfolding(crate::specs::Spelling::digest, crate::specs::Spelling::payload_bytes))]
pub fn digest_of(payload: &Payload) -> [u8; DIGEST_LEN]
    ensures value { result ≡ digest payload.now }
    // Its numbers are what its type keeps.
    ensures sound { IsPayload payload.now }
{
    let numbers = payload.numbers();
    let mut count = [0u8; 2];
    BigEndian::write_u16(&mut count, numbers.len() as u16);
    let mut hasher = Sha256::new();
    hasher.update(&count);
    hash_numbers(&mut hasher, numbers);
    hasher.finalize()
}

fn hash_numbers(hasher: &mut Sha256, numbers: &[i64])
    ensures holds { (m : List ℕ) → Holds256 hasher.old m → Holds256 hasher.new (m
        ++ flat_map number_bytes numbers.now) }
    ensures fit { All (λ z. FitsSigned w64 z) numbers.now }
{
    for number in numbers {
        hash_number(hasher, *number);
    }
}

#[tactic(auto, unfolding(crate::specs::Spelling::number_bytes))]
fn hash_number(hasher: &mut Sha256, number: i64)
    ensures { (m : List ℕ) → Holds256 hasher.old m → Holds256 hasher.new (m ++ number_bytes number) }
{
    let mut field = [0u8; 8];
    BigEndian::write_u64(&mut field, number.cast_unsigned());
    hasher.update(&field);
}
