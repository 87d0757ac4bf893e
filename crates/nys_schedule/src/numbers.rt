//! Numbers within a range, and lists of numbers.

ghost use Rattle.std.specs.Prelude.{◌≡◌, ◌≤◌, ◌++◌, ◌∷◌, [], IfOk, IfSome, OnOk, map};
ghost use Rattle.std.specs.Option.{option_map};
ghost use Rattle.nys_schedule.specs.Choices.{nums_of, upto};

use nys_bytes::NoMemory;
use nys_text::num;
use std::alloc::Global;

/// The NUM of a word, where it is at most this.
pub(crate) fn upto(most: u32, word: &[u8]) -> Option<u32>
    ensures value { result ≡ upto most word.now }
    ensures range { IfSome result (λ n. n ≤ most) }
{
    let n = num(word)?;
    if n <= most { Some(n) } else { None }
}

/// The NUMs that words are. None where one is none.
pub(crate) fn nums_of(alloc: Global, words: &[&[u8]]) -> Result<Option<Vec<u32>>, NoMemory>
    ensures { IfOk result (λ numbers. option_map (λ n. n.items) numbers
        ≡ nums_of (map (λ word. word.now) words.now)) }
{
    let mut numbers = Vec::new(alloc);
    for word in words {
        match num(word) {
            None => return Ok(None),
            Some(number) => push(&mut numbers, number)?,
        }
    }
    Ok(Some(numbers))
}

fn push(numbers: &mut Vec<u32>, number: u32) -> Result<(), NoMemory>
    ensures { OnOk result (numbers.new.items ≡ numbers.old.items ++ number ∷ []) }
{
    numbers.push(number)?;
    Ok(())
}
