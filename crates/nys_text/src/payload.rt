//! Payloads that words write.

ghost use Rattle.std.specs.Prelude.{◌≡◌, ◌++◌, ◌+◌, ◌∷◌, [], ◌==◌, ◌≤◌, if◌then◌else◌, length, IfOk, IfSome, OnOk, map, vec_len};
ghost use Rattle.std.specs.Option.{option_map};
ghost use Rattle.nys_text.specs.Numbers.{ints_of, payload_of};

use crate::number::int;
use nys_bytes::{MAX_NUMBERS, NoMemory, Payload, PayloadFault};
use std::alloc::Global;

/// The payload that words write: one to `MAX_NUMBERS` words, each an INT. None where they write none.
pub fn payload_of(alloc: Global, words: &[&[u8]]) -> Result<Option<Payload>, NoMemory>
    ensures { IfOk result (λ payload. payload ≡ payload_of (map (λ word. word.now) words.now)) }
{
    if words.len() > MAX_NUMBERS {
        return Ok(None);
    }
    match ints_of(alloc, words)? {
        None => Ok(None),
        Some(numbers) => listed(alloc, &numbers),
    }
}

/// The payload of at most `MAX_NUMBERS` numbers. None where there are none.
fn listed(alloc: Global, numbers: &[i64]) -> Result<Option<Payload>, NoMemory>
    requires { length numbers.now ≤ MAX_NUMBERS }
    ensures { IfOk result (λ payload. payload
        ≡ (if length numbers.now == 0 then None else Some numbers.now)) }
{
    match Payload::new(alloc, numbers) {
        Ok(payload) => Ok(Some(payload)),
        Err(PayloadFault::Length) => Ok(None),
        Err(PayloadFault::NoMemory) => Err(NoMemory),
    }
}

/// The numbers of words of which each is an INT. None where one isn't.
fn ints_of(alloc: Global, words: &[&[u8]]) -> Result<Option<Vec<i64>>, NoMemory>
    ensures value { IfOk result (λ numbers. option_map (λ n. n.items) numbers
        ≡ ints_of (map (λ word. word.now) words.now)) }
    ensures count { IfOk result (λ numbers. IfSome numbers (λ n. vec_len n ≡ length words.now)) }
{
    let mut numbers = Vec::new(alloc);
    for word in words {
        match int(word) {
            None => return Ok(None),
            Some(number) => push(&mut numbers, number)?,
        }
    }
    Ok(Some(numbers))
}

fn push(numbers: &mut Vec<i64>, number: i64) -> Result<(), NoMemory>
    ensures items { OnOk result (numbers.new.items ≡ numbers.old.items ++ number ∷ []) }
    ensures count { OnOk result (vec_len numbers.new ≡ vec_len numbers.old + 1) }
{
    numbers.push(number)?;
    Ok(())
}
