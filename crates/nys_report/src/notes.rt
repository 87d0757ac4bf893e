//! The lines of notes.

ghost use Rattle.std.specs.Prelude.{◌≡◌, ◌++◌, OnOk, codes, decimal};
ghost use Rattle.nys_printed.specs.Lines.{decision_words, note_line, note_words, notes_text, opening_words, retirement_words};

use nys_bytes::{NoMemory, Out};
use nys_rules::{Decision, Note, NoteKind, Opened, Retired};
use nys_text::put_number;

/// Appends a line for each note, in order.
pub(crate) fn put_notes(notes: &[Note], out: &mut Out) -> Result<(), NoMemory>
    ensures { OnOk result (out.new ≡ out.old ++ notes_text notes.now) }
{
    for note in notes {
        put_note(note, out)?;
    }
    Ok(())
}

/// Appends the line of a note.
#[tactic(auto, unfolding(nys_printed::specs::Lines::note_line))]
fn put_note(note: &Note, out: &mut Out) -> Result<(), NoMemory>
    ensures { OnOk result (out.new ≡ out.old ++ note_line note.now) }
{
    put_named(b"event ", note.event, out)?;
    out.put(b" ")?;
    put_kind(&note.kind, out)?;
    out.put(b"\n")
}

/// Appends what a note tells.
fn put_kind(kind: &NoteKind, out: &mut Out) -> Result<(), NoMemory>
    ensures { OnOk result (out.new ≡ out.old ++ note_words kind.now) }
{
    match kind {
        NoteKind::Wedged { epoch } => put_named(b"wedged ", *epoch, out),
        NoteKind::AlreadyWedged => out.put(b"already wedged"),
        NoteKind::Decide { h, answer } => put_decision(*h, *answer, out),
        NoteKind::Retire { h, answer } => put_retirement(*h, *answer, out),
        NoteKind::Open { answer } => put_opening(*answer, out),
        NoteKind::QueueFull { h } => put_named(b"queue full ", *h, out),
    }
}

/// Appends the answer to a decision about host `h`.
fn put_decision(h: u32, answer: Decision, out: &mut Out) -> Result<(), NoMemory>
    ensures { OnOk result (out.new ≡ out.old ++ decision_words h answer) }
{
    match answer {
        Decision::Decided { len } => {
            put_named(b"decided ", h, out)?;
            put_named(b" at ", len, out)
        }
        Decision::Undecided { supported, frozen } => {
            put_named(b"undecided ", h, out)?;
            put_named(b" supported ", supported, out)?;
            put_named(b" frozen ", frozen, out)
        }
        Decision::NotWedged => out.put(b"not wedged"),
        Decision::Settled => put_named(b"settled ", h, out),
    }
}

/// Appends the answer to a retirement of host `h`.
fn put_retirement(h: u32, answer: Retired, out: &mut Out) -> Result<(), NoMemory>
    ensures { OnOk result (out.new ≡ out.old ++ retirement_words h answer) }
{
    match answer {
        Retired::Done => put_named(b"retired ", h, out),
        Retired::NotWedged => out.put(b"not wedged"),
        Retired::Settled => put_named(b"settled ", h, out),
    }
}

/// Appends the answer to an opening.
fn put_opening(answer: Opened, out: &mut Out) -> Result<(), NoMemory>
    ensures { OnOk result (out.new ≡ out.old ++ opening_words answer) }
{
    match answer {
        Opened::Done { epoch } => put_named(b"opened ", epoch, out),
        Opened::NotWedged => out.put(b"not wedged"),
        Opened::NoNext => out.put(b"no next"),
        Opened::NotAll { h } => put_named(b"not all ", h, out),
    }
}

/// Appends a word, then a number.
fn put_named(word: &[u8], number: u32, out: &mut Out) -> Result<(), NoMemory>
    ensures { OnOk result (out.new ≡ out.old ++ (word.now ++ decimal number)) }
{
    out.put(word)?;
    put_number(out, number)
}
