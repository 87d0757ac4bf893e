//! The bytes of a statement, which are what is tagged.

ghost use Rattle.std.specs.Prelude.{◌≡◌, ◌≤◌, ◌+◌, ◌∷◌, ◌++◌, length, OnOk};
ghost use Rattle.std.specs.List.{flat_map};
ghost use Rattle.nys_stmt.specs.declared.limits.TheConstants.{MAX_HOST, MAX_LENGTH};
ghost use Rattle.byteorder.specs.Endian.{big_bytes};
ghost use Rattle.nys_stmt.specs.Lists.{AreLengths, IsLength};
ghost use Rattle.nys_stmt.specs.Ranges.{IsBodyInRange, IsBodySound, IsContentInRange, IsContentSound, IsInRange, IsPayload};
ghost use Rattle.nys_stmt.specs.Records.{carried_bytes, payload_in, payload_within};
ghost use Rattle.nys_stmt.specs.Spelling.{number_bytes, payload_bytes, digest, content_bytes, length_bytes, slot_bytes, filled_byte, kind_byte, body_bytes, spelling};

use crate::digest::digest_of;
use crate::lengths::Lengths;
use crate::statement::{Body, FilledKind, Statement};
use nys_bytes::{Content, NoMemory, Out, Payload};

/// The most bytes that a statement has.
pub const MAX_STATEMENT: usize = 68;

/// What stands in the place of a length for a retired host.
const RETIRED: u16 = 0xffff;

/// Appends the one spelling of a statement (docs/FORMATS.md), at most `MAX_STATEMENT` bytes. Want of
/// memory may leave a part of it.
pub fn bytes_of(statement: &Statement, out: &mut Out) -> Result<(), NoMemory>
    requires { IsInRange statement.now }
    ensures ok { OnOk result (out.new ≡ out.old ++ spelling statement.now) }
    ensures size { OnOk result (length out.new ≤ length out.old + MAX_STATEMENT) }
    // Its payloads and lengths are what their types keep.
    ensures sound { OnOk result (IsBodySound statement.now.body) }
{
    put_statement(out, statement)?;
    Ok(())
}

#[tactic(auto, unfolding(crate::specs::Spelling::spelling))]
fn put_statement(out: &mut Out, statement: &Statement) -> Result<(), NoMemory>
    requires { IsInRange statement.now }
    ensures ok { OnOk result (out.new ≡ out.old ++ spelling statement.now) }
    ensures sound { OnOk result (IsBodySound statement.now.body) }
{
    out.put_u8(kind_of(&statement.body))?;
    out.put_u16(statement.epoch as u16)?;
    put_body(out, &statement.body)
}

fn kind_of(body: &Body) -> u8
    ensures { result ≡ kind_byte body.now }
{
    match body {
        Body::Filled { kind, .. } => filled_byte(*kind),
        Body::Attest { .. } => 0x04,
        Body::Ask { .. } => 0x05,
        Body::Wedge => 0x06,
        Body::Frozen { .. } => 0x08,
        Body::Open { .. } => 0x09,
    }
}

fn filled_byte(kind: FilledKind) -> u8
    ensures { result ≡ filled_byte kind }
{
    match kind {
        FilledKind::Offer => 0x01,
        FilledKind::Order => 0x02,
        FilledKind::Deliver => 0x03,
        FilledKind::Report => 0x07,
        FilledKind::Inherit => 0x0a,
    }
}

#[tactic(auto, unfolding(crate::specs::Spelling::body_bytes))]
fn put_body(out: &mut Out, body: &Body) -> Result<(), NoMemory>
    requires { IsBodyInRange body.now }
    ensures ok { OnOk result (out.new ≡ out.old ++ body_bytes body.now) }
    ensures sound { OnOk result (IsBodySound body.now) }
{
    match body {
        Body::Filled {
            h,
            slot,
            content,
            ..
        } => put_filled(out, *h, *slot, content),
        Body::Attest { p, h, k, payload } => put_attested(out, *p, *h, *k, payload),
        Body::Ask { h, slot } => put_slot(out, *h, *slot),
        Body::Wedge => Ok(()),
        Body::Frozen { h, slot } => put_slot(out, *h, *slot),
        Body::Open { lengths } => put_lengths(out, lengths),
    }
}

fn put_slot(out: &mut Out, h: u32, slot: u32) -> Result<(), NoMemory>
    requires h { h ≤ MAX_HOST }
    requires slot { slot ≤ MAX_LENGTH }
    ensures { OnOk result (out.new ≡ out.old ++ slot_bytes h slot) }
{
    out.put_u8(h as u8)?;
    out.put_u16(slot as u16)
}

fn put_filled(out: &mut Out, h: u32, slot: u32, content: &Content) -> Result<(), NoMemory>
    requires h { h ≤ MAX_HOST }
    requires slot { slot ≤ MAX_LENGTH }
    requires content { IsContentInRange content.now }
    ensures ok { OnOk result (out.new ≡ out.old ++ (slot_bytes h slot ++ content_bytes content.now)) }
    ensures sound { OnOk result (IsContentSound content.now) }
{
    put_slot(out, h, slot)?;
    put_content(out, content)
}

fn put_attested(out: &mut Out, p: u32, h: u32, k: u32, payload: &Payload) -> Result<(), NoMemory>
    requires p { p ≤ MAX_HOST }
    requires h { h ≤ MAX_HOST }
    requires k { k ≤ 65535 }
    ensures ok { OnOk result (out.new ≡ out.old ++ (p ∷ h ∷ big_bytes 2 k ++ digest payload.now)) }
    ensures sound { OnOk result (IsPayload payload.now) }
{
    out.put_u8(p as u8)?;
    out.put_u8(h as u8)?;
    out.put_u16(k as u16)?;
    put_digest(out, payload)
}

#[tactic(auto, unfolding(crate::specs::Spelling::content_bytes))]
fn put_content(out: &mut Out, content: &Content) -> Result<(), NoMemory>
    requires { IsContentInRange content.now }
    ensures ok { OnOk result (out.new ≡ out.old ++ content_bytes content.now) }
    ensures sound { OnOk result (IsContentSound content.now) }
{
    match content {
        Content::External { payload } => {
            out.put_u8(0)?;
            put_digest(out, payload)
        }
        Content::Message { p, k, payload } => put_message(out, *p, *k, payload),
    }
}

fn put_message(out: &mut Out, p: u32, k: u32, payload: &Payload) -> Result<(), NoMemory>
    requires p { p ≤ MAX_HOST }
    requires k { k ≤ 65535 }
    ensures ok { OnOk result (out.new ≡ out.old ++ (1 ∷ p ∷ big_bytes 2 k ++ digest payload.now)) }
    ensures sound { OnOk result (IsPayload payload.now) }
{
    out.put_u8(1)?;
    out.put_u8(p as u8)?;
    out.put_u16(k as u16)?;
    put_digest(out, payload)
}

fn put_digest(out: &mut Out, payload: &Payload) -> Result<(), NoMemory>
    ensures ok { OnOk result (out.new ≡ out.old ++ digest payload.now) }
    ensures sound { OnOk result (IsPayload payload.now) }
{
    out.put(&digest_of(payload))
}

/// Appends the bytes of the payload that a body has, which stand behind its statement in a record
/// (docs/FORMATS.md); nothing where its kind has none. Want of memory may leave a part of them.
pub fn put_carried(body: &Body, out: &mut Out) -> Result<(), NoMemory>
    ensures { OnOk result (out.new ≡ out.old ++ carried_bytes (payload_in body.now)) }
{
    match body {
        Body::Filled { content, .. } => put_within(out, content),
        Body::Attest { payload, .. } => put_payload(out, payload),
        Body::Ask { .. } => Ok(()),
        Body::Wedge => Ok(()),
        Body::Frozen { .. } => Ok(()),
        Body::Open { .. } => Ok(()),
    }
}

fn put_within(out: &mut Out, content: &Content) -> Result<(), NoMemory>
    ensures { OnOk result (out.new ≡ out.old ++ payload_bytes (payload_within content.now)) }
{
    match content {
        Content::External { payload } => put_payload(out, payload),
        Content::Message { payload, .. } => put_payload(out, payload),
    }
}

#[tactic(auto, unfolding(crate::specs::Spelling::payload_bytes))]
fn put_payload(out: &mut Out, payload: &Payload) -> Result<(), NoMemory>
    ensures { OnOk result (out.new ≡ out.old ++ payload_bytes payload.now) }
{
    let numbers = payload.numbers();
    out.put_u16(numbers.len() as u16)?;
    put_numbers(out, numbers)
}

fn put_numbers(out: &mut Out, numbers: &[i64]) -> Result<(), NoMemory>
    ensures { OnOk result (out.new ≡ out.old ++ flat_map number_bytes numbers.now) }
{
    for number in numbers {
        put_number(out, *number)?;
    }
    Ok(())
}

#[tactic(auto, unfolding(crate::specs::Spelling::number_bytes))]
fn put_number(out: &mut Out, number: i64) -> Result<(), NoMemory>
    ensures { OnOk result (out.new ≡ out.old ++ number_bytes number) }
{
    out.put_u64(number.cast_unsigned())
}

fn put_lengths(out: &mut Out, lengths: &Lengths) -> Result<(), NoMemory>
    ensures ok { OnOk result (out.new ≡ out.old ++ length lengths.now ∷ flat_map length_bytes lengths.now) }
    ensures sound { OnOk result (AreLengths lengths.now) }
{
    out.put_u8(lengths.len() as u8)?;
    put_each_length(out, lengths)
}

fn put_each_length(out: &mut Out, lengths: &Lengths) -> Result<(), NoMemory>
    ensures { OnOk result (out.new ≡ out.old ++ flat_map length_bytes lengths.now) }
{
    for i in 0..lengths.len() {
        put_length(out, lengths.get(i))?;
    }
    Ok(())
}

fn put_length(out: &mut Out, member: &Option<u32>) -> Result<(), NoMemory>
    requires { IsLength member.now }
    ensures { OnOk result (out.new ≡ out.old ++ length_bytes member.now) }
{
    match member {
        Some(n) => out.put_u16(*n as u16),
        None => out.put_u16(RETIRED),
    }
}
