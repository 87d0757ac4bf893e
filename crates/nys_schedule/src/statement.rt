//! Statements written as words.

ghost use Rattle.std.specs.Prelude.{◌≡◌, ◌≤◌, ◌∷◌, ◌++◌, [], IfOk, IfSome, OnOk, length, map};
ghost use Rattle.std.specs.Option.{option_map};
ghost use Rattle.nys_stmt.specs.Lists.{IsLength};
ghost use Rattle.nys_schedule.specs.Choices.{each_of};
ghost use Rattle.nys_schedule.specs.Statements.{attested_of, body_of, length_of, lengths_of, slot_of, statement_of, wedge_of};

use crate::filled::filled_of;
use crate::kind::{Kind, kind_of};
use crate::numbers::upto;
use nys_bytes::NoMemory;
use nys_stmt::{
    Body, Lengths, MAX_EPOCH, MAX_HOST, MAX_LENGTH, MAX_LENGTHS, MAX_NUMBER, MAX_SLOT, Statement,
};
use nys_text::payload_of;
use std::alloc::Global;

/// The statement that words write.
#[tactic(auto, unfolding(crate::specs::Statements::statement_of))]
pub(crate) fn statement_of(alloc: Global, words: &[&[u8]]) -> Result<Option<Statement>, NoMemory>
    ensures { IfOk result (λ statement. statement ≡ statement_of (map (λ word. word.now) words.now)) }
{
    match words {
        [] => Ok(None),
        [_] => Ok(None),
        [kind, epoch, words @ ..] => {
            let Some(kind) = kind_of(kind) else {
                return Ok(None);
            };
            let Some(epoch) = upto(MAX_EPOCH, epoch) else {
                return Ok(None);
            };
            let Some(body) = body_of(alloc, kind, words)? else {
                return Ok(None);
            };
            Ok(Some(Statement { epoch, body }))
        }
    }
}

/// The body that the words behind the kind and the epoch write.
fn body_of(alloc: Global, kind: Kind, words: &[&[u8]]) -> Result<Option<Body>, NoMemory>
    ensures { IfOk result (λ body. body ≡ body_of kind (map (λ word. word.now) words.now)) }
{
    match kind {
        Kind::Filled { kind } => filled_of(alloc, kind, words),
        Kind::Attest => attested_of(alloc, words),
        Kind::Ask => Ok(ask_of(words)),
        Kind::Wedge => Ok(wedge_of(words)),
        Kind::Frozen => Ok(frozen_of(words)),
        Kind::Open => open_of(alloc, words),
    }
}

/// The attestation that words write.
#[tactic(auto, unfolding(crate::specs::Statements::attested_of))]
fn attested_of(alloc: Global, words: &[&[u8]]) -> Result<Option<Body>, NoMemory>
    ensures { IfOk result (λ body. body ≡ attested_of (map (λ word. word.now) words.now)) }
{
    match words {
        [] => Ok(None),
        [_] => Ok(None),
        [_, _] => Ok(None),
        [p, h, k, numbers @ ..] => {
            let Some(p) = upto(MAX_HOST, p) else {
                return Ok(None);
            };
            let Some(h) = upto(MAX_HOST, h) else {
                return Ok(None);
            };
            let Some(k) = upto(MAX_NUMBER, k) else {
                return Ok(None);
            };
            let Some(payload) = payload_of(alloc, numbers)? else {
                return Ok(None);
            };
            Ok(Some(Body::Attest { p, h, k, payload }))
        }
    }
}

fn ask_of(words: &[&[u8]]) -> Option<Body>
    ensures { result ≡ option_map (λ x. Body.Ask x.0 x.1)
        (slot_of MAX_SLOT (map (λ word. word.now) words.now)) }
{
    let (h, slot) = slot_of(MAX_SLOT, words)?;
    Some(Body::Ask { h, slot })
}

fn frozen_of(words: &[&[u8]]) -> Option<Body>
    ensures { result ≡ option_map (λ x. Body.Frozen x.0 x.1)
        (slot_of MAX_LENGTH (map (λ word. word.now) words.now)) }
{
    let (h, slot) = slot_of(MAX_LENGTH, words)?;
    Some(Body::Frozen { h, slot })
}

/// The host and the slot that words write, the slot at most this.
fn slot_of(most: u32, words: &[&[u8]]) -> Option<(u32, u32)>
    ensures { result ≡ slot_of most (map (λ word. word.now) words.now) }
{
    match words {
        [] => None,
        [_] => None,
        [h, slot] => {
            let h = upto(MAX_HOST, h)?;
            let slot = upto(most, slot)?;
            Some((h, slot))
        }
        [_, _, _, ..] => None,
    }
}

fn wedge_of(words: &[&[u8]]) -> Option<Body>
    ensures { result ≡ wedge_of (map (λ word. word.now) words.now) }
{
    match words {
        [] => Some(Body::Wedge),
        [_, ..] => None,
    }
}

fn open_of(alloc: Global, words: &[&[u8]]) -> Result<Option<Body>, NoMemory>
    ensures { IfOk result (λ body. body
        ≡ option_map Body.Open (lengths_of (map (λ word. word.now) words.now))) }
{
    match lengths_of(alloc, words)? {
        Some(lengths) => Ok(Some(Body::Open { lengths })),
        None => Ok(None),
    }
}

/// The lengths that words write, one or more, at most one a host.
#[tactic(auto, unfolding(crate::specs::Statements::lengths_of))]
fn lengths_of(alloc: Global, words: &[&[u8]]) -> Result<Option<Lengths>, NoMemory>
    ensures { IfOk result (λ lengths. lengths ≡ lengths_of (map (λ word. word.now) words.now)) }
{
    if words.is_empty() {
        return Ok(None);
    }
    if words.len() > MAX_LENGTHS as usize {
        return Ok(None);
    }
    each_length(alloc, words)
}

fn each_length(alloc: Global, words: &[&[u8]]) -> Result<Option<Lengths>, NoMemory>
    requires { length words.now ≤ MAX_LENGTHS }
    ensures { IfOk result (λ lengths. lengths ≡ each_of length_of (map (λ word. word.now) words.now)) }
{
    let mut lengths = Lengths::new(alloc);
    for word in words {
        match length_of(word) {
            None => return Ok(None),
            Some(member) => lengths.push(member)?,
        }
    }
    Ok(Some(lengths))
}

/// The length that a word writes, or none where it is `x`.
fn length_of(word: &[u8]) -> Option<Option<u32>>
    ensures value { result ≡ length_of word.now }
    ensures range { IfSome result IsLength }
{
    if word == b"x".as_slice() {
        return Some(None);
    }
    let length = upto(MAX_LENGTH, word)?;
    Some(Some(length))
}
