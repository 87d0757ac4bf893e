//! The lines of words, documents and machines that are refused.

ghost use Rattle.std.specs.Prelude.{◌≡◌, IfOk};
ghost use Rattle.nys_top.specs.Refusals.{key_refused, machine_refused, words_refused};

use crate::words::machine_word;
use itoa::Buffer;
use nys_answer::{Answer, Status};
use nys_bytes::{NoMemory, Out, Text};
use nys_lex::MachineKind;
use nys_scenario::KeyKind;
use std::alloc::Global;

/// The answer where the word at this place is the first wrong one.
pub(crate) fn words_refused(alloc: Global, place: usize) -> Result<Answer, NoMemory>
    ensures { IfOk result (λ answer. answer ≡ words_refused place) }
{
    let mut line = Out::new(alloc);
    line.put(b"words: ")?;
    let mut buffer = Buffer::new();
    line.put(buffer.format(place).as_bytes())?;
    Answer::line(Status::Words, line)
}

/// The answer where a key of the document is at fault.
pub(crate) fn key_refused(alloc: Global, key: &Text, kind: KeyKind) -> Result<Answer, NoMemory>
    ensures { IfOk result (λ answer. answer ≡ key_refused key.now kind) }
{
    let mut line = Out::new(alloc);
    line.put(b"scenario: ")?;
    line.put(key.as_str().as_bytes())?;
    line.put(b": ")?;
    line.put(kind.word().as_bytes())?;
    Answer::line(Status::Scenario, line)
}

/// The answer where the text of the machine has its first fault at this line and column.
pub(crate) fn machine_refused(
    alloc: Global,
    line: u32,
    col: u32,
    kind: MachineKind,
) -> Result<Answer, NoMemory>
    ensures { IfOk result (λ answer. answer ≡ machine_refused line col kind) }
{
    let mut text = Out::new(alloc);
    text.put(b"machine: line ")?;
    let mut buffer = Buffer::new();
    text.put(buffer.format(line).as_bytes())?;
    text.put(b" column ")?;
    text.put(buffer.format(col).as_bytes())?;
    text.put(b": ")?;
    text.put(machine_word(kind).as_bytes())?;
    Answer::line(Status::Machine, text)
}
