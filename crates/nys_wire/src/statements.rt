//! Statements read in place. A payload is passed, and its digest tested over the bytes where they lie.

ghost use Rattle.std.specs.Prelude.{◌≡◌};
ghost use Rattle.nys_wire.specs.Answers.{Finds, Tells};
ghost use Rattle.nys_wire.specs.Reading.{attested_at, body_at, carried_at, content_at, filled_at, kind_at, message_at, slot_at, statement_at};
ghost use Rattle.nys_wire.specs.Shown.{body_shown, content_shown, statement_shown};

use crate::fault::RefFault;
use crate::fields::Fields;
use crate::kind::{Kind, kind_of};
use crate::opening::LengthsRef;
use crate::payload::PayloadRef;
use crate::statement::{BodyRef, ContentRef, StatementRef};
use nys_stmt::{DIGEST_LEN, FilledKind, MAX_EPOCH, MAX_LENGTH, MAX_NUMBER, MAX_SLOT, WireKind};

/// A statement.
#[tactic(auto, unfolding(crate::specs::Reading::statement_at))]
pub fn statement<'a>(fields: &mut Fields<'a>) -> Result<StatementRef<'a>, RefFault>
    ensures { Tells statement_shown result fields.new (statement_at carried_at fields.old) }
{
    let kind = kind(fields)?;
    let epoch = fields.upto(MAX_EPOCH as u16)?;
    let body = body(fields, kind)?;
    Ok(StatementRef { epoch, body })
}

#[tactic(auto, unfolding(crate::specs::Reading::kind_at))]
fn kind(fields: &mut Fields) -> Result<Kind, RefFault>
    ensures { Finds result fields.new (kind_at fields.old) }
{
    let place = fields.place();
    let byte = fields.byte()?;
    match kind_of(byte) {
        Some(kind) => Ok(kind),
        None => Err(RefFault {
            place,
            kind: WireKind::Kind,
        }),
    }
}

#[tactic(auto, unfolding(crate::specs::Reading::body_at))]
fn body<'a>(fields: &mut Fields<'a>, kind: Kind) -> Result<BodyRef<'a>, RefFault>
    ensures { Tells body_shown result fields.new (body_at carried_at kind fields.old) }
{
    match kind {
        Kind::Filled(kind) => filled(fields, kind),
        Kind::Attest => attested(fields),
        Kind::Ask => {
            let (h, slot) = slot(fields, MAX_SLOT as u16)?;
            Ok(BodyRef::Ask { h, slot })
        }
        Kind::Wedge => Ok(BodyRef::Wedge),
        Kind::Frozen => {
            let (h, slot) = slot(fields, MAX_LENGTH as u16)?;
            Ok(BodyRef::Frozen { h, slot })
        }
        Kind::Open => {
            let lengths = LengthsRef::read(fields)?;
            Ok(BodyRef::Open { lengths })
        }
    }
}

#[tactic(auto, unfolding(crate::specs::Reading::filled_at))]
fn filled<'a>(fields: &mut Fields<'a>, kind: FilledKind) -> Result<BodyRef<'a>, RefFault>
    ensures { Tells body_shown result fields.new (filled_at carried_at kind fields.old) }
{
    let h = fields.host()?;
    let slot = fields.upto(MAX_SLOT as u16)?;
    let content = content(fields)?;
    Ok(BodyRef::Filled {
        kind,
        h,
        slot,
        content,
    })
}

#[tactic(auto, unfolding(crate::specs::Reading::attested_at))]
fn attested<'a>(fields: &mut Fields<'a>) -> Result<BodyRef<'a>, RefFault>
    ensures { Tells body_shown result fields.new (attested_at carried_at fields.old) }
{
    let p = fields.host()?;
    let h = fields.host()?;
    let k = fields.upto(MAX_NUMBER as u16)?;
    let payload = carried(fields)?;
    Ok(BodyRef::Attest { p, h, k, payload })
}

fn slot(fields: &mut Fields, most: u16) -> Result<(u32, u32), RefFault>
    ensures { Finds result fields.new (slot_at most fields.old) }
{
    let h = fields.host()?;
    let slot = fields.upto(most)?;
    Ok((h, slot))
}

#[tactic(auto, unfolding(crate::specs::Reading::content_at))]
fn content<'a>(fields: &mut Fields<'a>) -> Result<ContentRef<'a>, RefFault>
    ensures { Tells content_shown result fields.new (content_at carried_at fields.old) }
{
    let which = fields.byte_within(0, 1, WireKind::Content)?;
    if which == 0 {
        let payload = carried(fields)?;
        Ok(ContentRef::External { payload })
    } else {
        message(fields)
    }
}

#[tactic(auto, unfolding(crate::specs::Reading::message_at))]
fn message<'a>(fields: &mut Fields<'a>) -> Result<ContentRef<'a>, RefFault>
    ensures { Tells content_shown result fields.new (message_at carried_at fields.old) }
{
    let p = fields.host()?;
    let k = fields.upto(MAX_NUMBER as u16)?;
    let payload = carried(fields)?;
    Ok(ContentRef::Message { p, k, payload })
}

/// A payload behind its digest.
#[tactic(auto, unfolding(crate::specs::Reading::carried_at))]
fn carried<'a>(fields: &mut Fields<'a>) -> Result<PayloadRef<'a>, RefFault>
    ensures { Finds result fields.new (carried_at fields.old) }
{
    let place = fields.place();
    let told = fields.take(DIGEST_LEN)?;
    let payload = PayloadRef::read(fields)?;
    if told == payload.digest().as_slice() {
        Ok(payload)
    } else {
        Err(RefFault {
            place,
            kind: WireKind::Digest,
        })
    }
}
