//! The numbers that show a state, as bytes.

ghost use Rattle.std.specs.Prelude.{◌≡◌, ◌++◌, ℤ, List, IfOk, OnOk};
ghost use Rattle.nys_replica.specs.Packing.{IsPacked, number_bytes};

use nys_bytes::{Cursor, NoMemory, Out};
use std::alloc::Global;

/// The bytes of a number.
const NUMBER_LEN: usize = 8;

/// The bytes of numbers, eight for each.
pub(crate) fn pack(alloc: Global, numbers: &[i64]) -> Result<Vec<u8>, NoMemory>
    ensures { IfOk result (λ bytes. IsPacked bytes.items numbers.now) }
{
    let mut out = Out::new(alloc);
    for number in numbers {
        put_number(&mut out, *number)?;
    }
    Ok(out.into_bytes())
}

/// The bytes of one number more.
#[tactic(auto, unfolding(crate::specs::Packing::number_bytes))]
fn put_number(out: &mut Out, number: i64) -> Result<(), NoMemory>
    ensures { OnOk result (out.new ≡ out.old ++ number_bytes number) }
{
    out.put_u64(number.cast_unsigned())
}

/// The numbers of which these are the bytes.
pub(crate) fn unpack(alloc: Global, bytes: &[u8]) -> Result<Vec<i64>, NoMemory>
    ensures { IfOk result (λ found. (numbers : List ℤ) → IsPacked bytes.now numbers → found.items ≡ numbers) }
{
    let mut found = Vec::with_capacity(alloc, bytes.len() / NUMBER_LEN)?;
    let mut cursor = Cursor::new(bytes);
    while let Ok(bits) = cursor.u64() {
        found.push(bits.cast_signed())?;
    }
    Ok(found)
}
