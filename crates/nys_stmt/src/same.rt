//! Equality of statements, and what those of one spelling have in common.

ghost use Rattle.std.specs.Prelude.{◌≡◌, ◌↔◌, [], IfNone, IfSome, None, Some, IsTrue};
ghost use Rattle.std.specs.Option.{option_map};
ghost use Rattle.nys_bytes.specs.declared.content.Content.TheVariants as content;
ghost use Rattle.nys_stmt.specs.Records.{payload_in, payload_within};
ghost use Rattle.nys_stmt.specs.Spelling.{digest};
ghost use Rattle.nys_stmt.specs.declared.statement.Body.TheVariants as body;
ghost use Rattle.nys_stmt.specs.Same.{DoClash, content_with, with_payload};

use crate::digest::{DIGEST_LEN, digest_of};
use crate::lengths::Lengths;
use crate::statement::{Body, FilledKind, Statement};
use nys_bytes::{Content, Payload};

/// Whether both say the same. Takes no memory.
pub fn is_same_statement(a: &Statement, b: &Statement) -> bool
    ensures { IsTrue result ↔ (a.now ≡ b.now) }
{
    a.epoch == b.epoch && is_same_body(&a.body, &b.body)
}

/// Whether both have one spelling without being the same: their payloads differ and have one digest. Takes no
/// memory.
pub fn do_clash(a: &Statement, b: &Statement) -> bool
    ensures { IsTrue result ↔ DoClash a.now b.now }
{
    a.epoch == b.epoch
        && is_same_beside(&a.body, &b.body)
        && !has_same_payload(&a.body, &b.body)
        && has_same_digest(&a.body, &b.body)
}

fn is_same_body(a: &Body, b: &Body) -> bool
    ensures { IsTrue result ↔ (a.now ≡ b.now) }
{
    is_same_beside(a, b) && has_same_payload(a, b)
}

/// Whether both have the same payload, or none.
fn has_same_payload(a: &Body, b: &Body) -> bool
    ensures { IsTrue result ↔ (payload_in a.now ≡ payload_in b.now) }
{
    match payload_of(a) {
        None => payload_of(b).is_none(),
        Some(payload) => has_payload(b, payload),
    }
}

fn has_payload(body: &Body, payload: &Payload) -> bool
    ensures { IsTrue result ↔ (Some payload.now ≡ payload_in body.now) }
{
    match payload_of(body) {
        None => false,
        Some(own) => payload.equals(own),
    }
}

/// Whether the payloads of both have the same digest, or both have none.
fn has_same_digest(a: &Body, b: &Body) -> bool
    ensures { IsTrue result ↔ (option_map digest (payload_in a.now) ≡ option_map digest (payload_in b.now)) }
{
    match payload_of(a) {
        None => payload_of(b).is_none(),
        Some(payload) => has_digest(b, digest_of(payload)),
    }
}

fn has_digest(body: &Body, of: [u8; DIGEST_LEN]) -> bool
    ensures { IsTrue result ↔ (Some of ≡ option_map digest (payload_in body.now)) }
{
    match payload_of(body) {
        None => false,
        Some(own) => of == digest_of(own),
    }
}

/// The payload of a body, where its kind has one.
fn payload_of(body: &Body) -> Option<&Payload>
    ensures some { IfSome result (λ payload. payload_in body.now ≡ Some payload.now) }
    ensures none { IfNone result (payload_in body.now ≡ None) }
{
    match body {
        Body::Filled { content, .. } => Some(payload_within(content)),
        Body::Attest { payload, .. } => Some(payload),
        Body::Ask { .. } => None,
        Body::Wedge => None,
        Body::Frozen { .. } => None,
        Body::Open { .. } => None,
    }
}

fn payload_within(content: &Content) -> &Payload
    ensures { result.now ≡ payload_within content.now }
{
    match content {
        Content::External { payload } => payload,
        Content::Message { payload, .. } => payload,
    }
}

/// Whether the bodies have all in common but their payloads.
fn is_same_beside(a: &Body, b: &Body) -> bool
    ensures { IsTrue result ↔ (with_payload [] a.now ≡ with_payload [] b.now) }
{
    match a {
        Body::Filled {
            kind,
            h,
            slot,
            content,
        } => is_filled(b, *kind, *h, *slot, content),
        Body::Attest { p, h, k, .. } => is_attest(b, *p, *h, *k),
        Body::Ask { h, slot } => is_ask(b, *h, *slot),
        Body::Wedge => is_wedge(b),
        Body::Frozen { h, slot } => is_frozen(b, *h, *slot),
        Body::Open { lengths } => is_open(b, lengths),
    }
}

fn is_content_beside(a: &Content, b: &Content) -> bool
    ensures { IsTrue result ↔ (content_with [] a.now ≡ content_with [] b.now) }
{
    match a {
        Content::External { .. } => matches!(b, Content::External { .. }),
        Content::Message { p, k, .. } => is_message(b, *p, *k),
    }
}

fn is_message(other: &Content, p: u32, k: u32) -> bool
    ensures { IsTrue result ↔ (content.Message p k [] ≡ content_with [] other.now) }
{
    match other {
        Content::Message {
            p: from,
            k: number,
            ..
        } => p == *from && k == *number,
        Content::External { .. } => false,
    }
}

fn is_filled(other: &Body, kind: FilledKind, h: u32, slot: u32, content: &Content) -> bool
    ensures { IsTrue result ↔ (body.Filled kind h slot (content_with [] content.now)
        ≡ with_payload [] other.now) }
{
    match other {
        Body::Filled {
            kind: of,
            h: host,
            slot: number,
            content: own,
        } => { kind == *of && h == *host && slot == *number && is_content_beside(content, own) }
        _ => false,
    }
}

fn is_ask(other: &Body, h: u32, slot: u32) -> bool
    ensures { IsTrue result ↔ (body.Ask h slot ≡ with_payload [] other.now) }
{
    match other {
        Body::Ask {
            h: host,
            slot: number,
        } => h == *host && slot == *number,
        _ => false,
    }
}

fn is_frozen(other: &Body, h: u32, slot: u32) -> bool
    ensures { IsTrue result ↔ (body.Frozen h slot ≡ with_payload [] other.now) }
{
    match other {
        Body::Frozen {
            h: host,
            slot: number,
        } => h == *host && slot == *number,
        _ => false,
    }
}

fn is_attest(other: &Body, p: u32, h: u32, k: u32) -> bool
    ensures { IsTrue result ↔ (body.Attest p h k [] ≡ with_payload [] other.now) }
{
    match other {
        Body::Attest {
            p: from,
            h: host,
            k: number,
            ..
        } => p == *from && h == *host && k == *number,
        _ => false,
    }
}

fn is_wedge(other: &Body) -> bool
    ensures { IsTrue result ↔ (body.Wedge ≡ with_payload [] other.now) }
{
    matches!(other, Body::Wedge)
}

fn is_open(other: &Body, lengths: &Lengths) -> bool
    ensures { IsTrue result ↔ (body.Open lengths.now ≡ with_payload [] other.now) }
{
    match other {
        Body::Open { lengths: of } => are_same_lengths(lengths, of),
        _ => false,
    }
}

fn are_same_lengths(a: &Lengths, b: &Lengths) -> bool
    ensures { IsTrue result ↔ (a.now ≡ b.now) }
{
    if a.len() != b.len() {
        return false;
    }
    for i in 0..a.len() {
        if !is_same_member(a.get(i), b.get(i)) {
            return false;
        }
    }
    true
}

fn is_same_member(a: &Option<u32>, b: &Option<u32>) -> bool
    ensures { IsTrue result ↔ (a.now ≡ b.now) }
{
    match a {
        None => b.is_none(),
        Some(length) => is_length(b, *length),
    }
}

fn is_length(member: &Option<u32>, length: u32) -> bool
    ensures { IsTrue result ↔ (Some length ≡ member.now) }
{
    match member {
        None => false,
        Some(other) => length == *other,
    }
}
