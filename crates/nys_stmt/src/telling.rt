//! The text of a statement, as schedules and refusals write it.

ghost use Rattle.std.specs.Prelude.{◌≡◌, ◌++◌, OnOk};
ghost use Rattle.std.specs.List.{flat_map};
ghost use Rattle.nys_text.specs.Printed.{spaced};
ghost use Rattle.nys_stmt.specs.Printed.{number_word, content_words, length_word, slot_words, filled_word, kind_word, body_words, statement_words};

use crate::lengths::Lengths;
use crate::statement::{Body, FilledKind, Statement};
use nys_bytes::{Content, NoMemory, Out, Payload};
use nys_text::{put_number, put_spaced};

/// Appends the text of a statement (docs/FORMATS.md). Want of memory may leave a part of it.
#[tactic(auto, unfolding(crate::specs::Printed::statement_words))]
pub fn statement_text(statement: &Statement, out: &mut Out) -> Result<(), NoMemory>
    ensures { OnOk result (out.new ≡ out.old ++ statement_words statement.now) }
{
    put_kind(out, &statement.body)?;
    put_word(out, statement.epoch)?;
    put_words(out, &statement.body)
}

fn put_kind(out: &mut Out, body: &Body) -> Result<(), NoMemory>
    ensures { OnOk result (out.new ≡ out.old ++ kind_word body.now) }
{
    match body {
        Body::Filled { kind, .. } => put_filled_kind(out, *kind),
        Body::Attest { .. } => out.put(b"attest"),
        Body::Ask { .. } => out.put(b"ask"),
        Body::Wedge => out.put(b"wedge"),
        Body::Frozen { .. } => out.put(b"frozen"),
        Body::Open { .. } => out.put(b"open"),
    }
}

fn put_filled_kind(out: &mut Out, kind: FilledKind) -> Result<(), NoMemory>
    ensures { OnOk result (out.new ≡ out.old ++ filled_word kind) }
{
    match kind {
        FilledKind::Offer => out.put(b"offer"),
        FilledKind::Order => out.put(b"order"),
        FilledKind::Deliver => out.put(b"deliver"),
        FilledKind::Report => out.put(b"report"),
        FilledKind::Inherit => out.put(b"inherit"),
    }
}

#[tactic(auto, unfolding(crate::specs::Printed::body_words))]
fn put_words(out: &mut Out, body: &Body) -> Result<(), NoMemory>
    ensures { OnOk result (out.new ≡ out.old ++ body_words body.now) }
{
    match body {
        Body::Filled {
            h,
            slot,
            content,
            ..
        } => put_filled(out, *h, *slot, content),
        Body::Attest { p, h, k, payload } => put_attested(out, *p, *h, *k, payload),
        Body::Ask { h, slot } => put_slot(out, *h, *slot),
        Body::Wedge => Ok(()),
        Body::Frozen { h, slot } => put_slot(out, *h, *slot),
        Body::Open { lengths } => put_lengths(out, lengths),
    }
}

fn put_word(out: &mut Out, n: u32) -> Result<(), NoMemory>
    ensures { OnOk result (out.new ≡ out.old ++ number_word n) }
{
    out.put(b" ")?;
    put_number(out, n)
}

fn put_slot(out: &mut Out, h: u32, slot: u32) -> Result<(), NoMemory>
    ensures { OnOk result (out.new ≡ out.old ++ slot_words h slot) }
{
    put_word(out, h)?;
    put_word(out, slot)
}

fn put_filled(out: &mut Out, h: u32, slot: u32, content: &Content) -> Result<(), NoMemory>
    ensures { OnOk result (out.new ≡ out.old ++ (slot_words h slot ++ content_words content.now)) }
{
    put_slot(out, h, slot)?;
    put_content(out, content)
}

fn put_attested(out: &mut Out, p: u32, h: u32, k: u32, payload: &Payload) -> Result<(), NoMemory>
    ensures { OnOk result (out.new ≡ out.old ++ (number_word p
        ++ (number_word h ++ (number_word k ++ spaced payload.now)))) }
{
    put_word(out, p)?;
    put_word(out, h)?;
    put_word(out, k)?;
    put_spaced(out, payload.numbers())
}

#[tactic(auto, unfolding(crate::specs::Printed::content_words))]
fn put_content(out: &mut Out, content: &Content) -> Result<(), NoMemory>
    ensures { OnOk result (out.new ≡ out.old ++ content_words content.now) }
{
    match content {
        Content::External { payload } => {
            out.put(b" in")?;
            put_spaced(out, payload.numbers())
        }
        Content::Message { p, k, payload } => {
            out.put(b" msg")?;
            put_word(out, *p)?;
            put_word(out, *k)?;
            put_spaced(out, payload.numbers())
        }
    }
}

fn put_lengths(out: &mut Out, lengths: &Lengths) -> Result<(), NoMemory>
    ensures { OnOk result (out.new ≡ out.old ++ flat_map length_word lengths.now) }
{
    for i in 0..lengths.len() {
        put_length(out, lengths.get(i))?;
    }
    Ok(())
}

fn put_length(out: &mut Out, member: &Option<u32>) -> Result<(), NoMemory>
    ensures { OnOk result (out.new ≡ out.old ++ length_word member.now) }
{
    match member {
        Some(n) => put_word(out, *n),
        None => out.put(b" x"),
    }
}
