//! The program for a caller that hands in memory, such as a page in a browser: a static library with one
//! call.
//!
//! Below: `nys_top`, which does all the work, and `nys_outside` (what a source and a sink are). Above:
//! whoever calls C; `web/build.sh` makes a WebAssembly module of this library.
//! Contracts see the memory that is handed in as lists of bytes.
//! Begin at `nysiad_answer`, then `specs/Shown.antt`.
#![tactic(auto)]

mod document;
mod written;

ghost use Rattle.std.specs.Prelude.{◌≡◌, ◌≢◌, ◌≤◌, ◌∷◌, ◌⊎◌, [], length, take, IfOk};
ghost use Rattle.nys_words.specs.Words.{answer_to};
ghost use Rattle.nys_page.specs.Shown.{IsShown, IsTold};

use crate::document::Document;
use crate::written::Written;
use nys_answer::Status;
use nys_bytes::{NoMemory, Text};
use nys_outside::MemLinks;
use nys_top::run;
use std::alloc::Global;
use std::str::from_utf8;

/// Answers one word, such as `replay`, to the bytes of a document, as the program `nysiad` does, and gives
/// its status. The answer's text comes to the front of `text` where there is room for it, and its length in
/// bytes to `size`; where that is more than the room, the call can be made again with as much. A word that
/// is no UTF-8 is answered as any other that is no command. At 14 there was no memory for the answer.
#[unsafe(no_mangle)]
pub extern "C" fn nysiad_answer(
    alloc: Global,
    word: &[u8],
    document: &[u8],
    text: &mut [u8],
    size: &mut usize,
) -> u8
    // Unless memory ran out, what is shown is the answer to the word and to all the bytes of the document.
    ensures shown { result ≢ 14 → IsShown (word.now ∷ []) document.now text.new size.new result }
    // Memory has no faults, so of the statuses that name a fault of the outside there is only 14.
    ensures statuses { (result ≤ 10) ⊎ ((result ≡ 14) ⊎ (result ≡ 15)) }
{
    *size = 0;
    match tell(alloc, word, document) {
        Ok(told) => {
            *size = put(told.text.bytes(), text);
            told.status
        }
        Err(NoMemory) => Status::NoMemory.code(),
    }
}

/// What the program wrote, and the status that it gave.
#[derive(Drop)]
struct Told {
    status: u8,
    text: Written,
}

/// Runs the program on one word and a document.
fn tell(alloc: Global, word: &[u8], document: &[u8]) -> Result<Told, NoMemory>
    ensures told { IfOk result (λ told. told.status ≢ 14
        → IsTold (word.now ∷ []) document.now told.text told.status) }
    ensures statuses { IfOk result (λ told. (told.status ≤ 10) ⊎ ((told.status ≡ 14) ⊎ (told.status ≡ 15))) }
{
    let mut words = Vec::new(alloc);
    words.push(Text::new(alloc, word_of(word))?)?;
    let mut input = Document::new(alloc, document)?;
    let mut text = Written::new(alloc);
    let mut links = MemLinks::new(alloc, &[])?;
    let status = run(alloc, words.as_slice(), &mut input, &mut text, &mut links);
    Ok(Told { status, text })
}

/// A word that asks for the same: the bytes themselves, or where these are no UTF-8 the empty word, which is
/// no command either.
#[tactic(auto, using(crate::proofs::WordLemmas::refused))]
fn word_of(bytes: &[u8]) -> &str
    ensures same { answer_to (result.now ∷ []) ≡ answer_to (bytes.now ∷ []) }
{
    match from_utf8(bytes) {
        Ok(word) => word,
        Err(_) => "",
    }
}

/// Copies bytes to the front of the room where they fit, else as many as do. Gives how many there are.
fn put(bytes: &[u8], room: &mut [u8]) -> usize
    ensures size { result ≡ length bytes.now }
    ensures whole { result ≤ length room.new → take result room.new ≡ bytes.now }
{
    let count = bytes.len().min(room.len());
    room[..count].copy_from_slice(&bytes[..count]);
    bytes.len()
}
