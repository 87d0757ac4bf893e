//! Texts of which each line that tells something is one item.

ghost use Rattle.std.specs.Prelude.{◌≡◌, ◌<◌, ◌⊎◌, ℕ, List, Result, Ok, Err, IfErr, IfOk, OnOk, length, map};
ghost use Rattle.nys_text.specs.Lines.{words_of};
ghost use Rattle.nys_text.specs.FirstFault.{AllSaid, IsFirstFault};
ghost use Rattle.nys_text.specs.Reading.{kept, reading, told, with_line};

use crate::words::{is_skipped, words_of};
use nys_bytes::NoMemory;
use std::alloc::Global;

/// What the words of one line may be.
pub trait Grammar: Drop {
    /// What a line says.
    type Item: Drop;
    /// How a line may be at fault.
    type Kind: Drop;

    ghost says: { Self → List (List ℕ) → Result Self.Item Self.Kind };

    /// What the words of a line say, or how they are at fault.
    fn read(
        &self,
        alloc: Global,
        words: &[&[u8]],
    ) -> Result<Result<Self::Item, Self::Kind>, NoMemory>
        ensures { IfOk result (λ said. said ≡ says self.now (map (λ word. word.now) words.now)) };
}

/// Why a text is refused.
#[derive(Clone, Copy, Debug, Drop, PartialEq, Eq)]
pub enum TextFault<K> {
    /// The number of the first line at fault, counted from 1, and how it is.
    Line { line: u32, kind: K },
    /// A line says an item past the most.
    TooMany,
    /// The allocator had no room.
    NoMemory,
}

/// What the lines of a text say, at most `most` items, in order. Lines that tell nothing are passed, but
/// they count. The first line that is at fault, or that says one item too many, is answered.
pub fn read_lines<G: Grammar>(
    alloc: Global,
    grammar: &G,
    most: usize,
    text: &str,
) -> Result<Vec<G::Item>, TextFault<G::Kind>>
    requires { length text.now < 4294967295 }
    ensures ok { IfOk result (λ items. reading (G.says grammar.now) most (told text.now) ≡ Ok items.items) }
    ensures err { IfErr result (λ fault. (fault ≡ TextFault.NoMemory)
        ⊎ (reading (G.says grammar.now) most (told text.now) ≡ Err fault)) }
    ensures said { IfOk result (λ items. AllSaid (G.says grammar.now) most (told text.now) items.items) }
    ensures first { IfErr result (λ fault. IsFirstFault (G.says grammar.now) most (told text.now) fault) }
{
    read_each(alloc, grammar, most, text)
}

fn read_each<G: Grammar>(
    alloc: Global,
    grammar: &G,
    most: usize,
    text: &str,
) -> Result<Vec<G::Item>, TextFault<G::Kind>>
    requires { length text.now < 4294967295 }
    ensures ok { IfOk result (λ items. reading (G.says grammar.now) most (told text.now) ≡ Ok items.items) }
    ensures err { IfErr result (λ fault. (fault ≡ TextFault.NoMemory)
        ⊎ (reading (G.says grammar.now) most (told text.now) ≡ Err fault)) }
{
    let mut items = Vec::new(alloc);
    let mut number = 0;
    for line in text.lines() {
        number += 1;
        take_line(alloc, grammar, most, number, line.as_bytes(), &mut items)?;
    }
    Ok(items)
}

/// Keeps what one more line says.
fn take_line<G: Grammar>(
    alloc: Global,
    grammar: &G,
    most: usize,
    number: u32,
    line: &[u8],
    items: &mut Vec<G::Item>,
) -> Result<(), TextFault<G::Kind>>
    ensures ok { OnOk result (with_line (G.says grammar.now) most items.old.items number line.now
        ≡ Ok items.new.items) }
    ensures err { IfErr result (λ fault. (fault ≡ TextFault.NoMemory)
        ⊎ (with_line (G.says grammar.now) most items.old.items number line.now ≡ Err fault)) }
{
    if is_skipped(line) {
        return Ok(());
    }
    match read_line(alloc, grammar, line) {
        Err(NoMemory) => Err(TextFault::NoMemory),
        Ok(Err(kind)) => Err(TextFault::Line { line: number, kind }),
        Ok(Ok(item)) => keep(items, most, item),
    }
}

fn read_line<G: Grammar>(
    alloc: Global,
    grammar: &G,
    line: &[u8],
) -> Result<Result<G::Item, G::Kind>, NoMemory>
    ensures { IfOk result (λ said. said ≡ G.says grammar.now (words_of line.now)) }
{
    let words = words_of(alloc, line)?;
    grammar.read(alloc, &words)
}

fn keep<T: Drop, K: Drop>(items: &mut Vec<T>, most: usize, item: T) -> Result<(), TextFault<K>>
    ensures ok { OnOk result (kept {K = K} most items.old.items item ≡ Ok items.new.items) }
    ensures err { IfErr result (λ fault. (fault ≡ TextFault.NoMemory)
        ⊎ (kept {K = K} most items.old.items item ≡ Err fault)) }
{
    if items.len() >= most {
        return Err(TextFault::TooMany);
    }
    match items.push(item) {
        Ok(()) => Ok(()),
        Err(_) => Err(TextFault::NoMemory),
    }
}
