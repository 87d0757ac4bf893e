//! Bytes as hexadecimal digits.

ghost use Rattle.std.specs.Prelude.{◌≡◌, IfOk, length, Ok};
ghost use Rattle.std.specs.Option.{option_map};
ghost use Rattle.hex.specs.Hex.{decode_of};
ghost use Rattle.nys_schedule.specs.Hexes.{bytes_in, hexes_of};

use hex::FromHexError;
use nys_bytes::NoMemory;
use std::alloc::Global;

/// The most digits of the bytes of a frame, two for each.
pub(crate) const MAX_DIGITS: usize = 131_072;

/// The bytes that a word writes: two digits for each, in either case, for one byte or more.
#[tactic(auto, unfolding(crate::specs::Hexes::hexes_of))]
pub(crate) fn hexes_of(alloc: Global, word: &[u8]) -> Result<Option<Vec<u8>>, NoMemory>
    ensures { IfOk result (λ bytes. option_map (λ b. b.items) bytes ≡ hexes_of word.now) }
{
    if word.len() < 2 {
        return Ok(None);
    }
    if word.len() > MAX_DIGITS {
        return Ok(None);
    }
    decoded(alloc, word)
}

fn decoded(alloc: Global, word: &[u8]) -> Result<Option<Vec<u8>>, NoMemory>
    ensures { IfOk result (λ bytes. option_map (λ b. b.items) bytes ≡ bytes_in (decode_of word.now)) }
{
    match hex::decode(alloc, word) {
        Ok(bytes) => Ok(Some(bytes)),
        Err(FromHexError::OutOfMemory) => Err(NoMemory),
        Err(_) => Ok(None),
    }
}
