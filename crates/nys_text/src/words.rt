//! Lines: which of them tell something, and the words that they hold.

ghost use Rattle.std.specs.Prelude.{◌≡◌, IfOk, find, map, not};
ghost use Rattle.nys_text.specs.Lines.{is_blank, is_skipped, words_of};

use nys_bytes::NoMemory;
use std::alloc::{AllocError, Global};

/// Whether a line tells nothing: it is empty, has only spaces and tabs, or begins with `#` after them.
pub fn is_skipped(line: &[u8]) -> bool
    ensures { result ≡ is_skipped line.now }
{
    match first_filled(line) {
        None => true,
        Some(byte) => byte == b'#',
    }
}

/// The first byte of a line that is no space and no tab.
fn first_filled(line: &[u8]) -> Option<u8>
    ensures { result ≡ find (λ byte. not (is_blank byte)) line.now }
{
    line.iter().copied().find(|byte| !is_blank(*byte))
}

/// The words of a line, in order: its longest pieces without spaces and tabs.
pub fn words_of(alloc: Global, line: &[u8]) -> Result<Vec<&[u8]>, NoMemory>
    ensures { IfOk result (λ words. map (λ word. word.now) words.items ≡ words_of line.now) }
{
    let words = filled_pieces(alloc, line)?;
    Ok(words)
}

fn filled_pieces(alloc: Global, line: &[u8]) -> Result<Vec<&[u8]>, AllocError>
    ensures { IfOk result (λ words. map (λ word. word.now) words.items ≡ words_of line.now) }
{
    line.split(|byte| is_blank(*byte))
        .filter(|piece| !piece.is_empty())
        .collect(alloc)
}

fn is_blank(byte: u8) -> bool
    ensures { result ≡ is_blank byte }
{
    byte == b' ' || byte == b'\t'
}
