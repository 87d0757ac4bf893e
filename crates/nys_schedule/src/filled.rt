//! What is said of a content, written as words.

ghost use Rattle.std.specs.Prelude.{◌≡◌, IfOk, map};
ghost use Rattle.std.specs.Option.{option_map};
ghost use Rattle.nys_text.specs.Numbers.{payload_of};
ghost use Rattle.nys_schedule.specs.Statements.{content_of, filled_of, message_of};

use crate::numbers::upto;
use nys_bytes::{Content, NoMemory};
use nys_stmt::{Body, FilledKind, MAX_HOST, MAX_NUMBER, MAX_SLOT};
use nys_text::payload_of;
use std::alloc::Global;

/// What is said of the content of a slot of a host, which words write.
#[tactic(auto, unfolding(crate::specs::Statements::filled_of))]
pub(crate) fn filled_of(
    alloc: Global,
    kind: FilledKind,
    words: &[&[u8]],
) -> Result<Option<Body>, NoMemory>
    ensures { IfOk result (λ body. body ≡ filled_of kind (map (λ word. word.now) words.now)) }
{
    match words {
        [] => Ok(None),
        [_] => Ok(None),
        [h, slot, words @ ..] => {
            let Some(h) = upto(MAX_HOST, h) else {
                return Ok(None);
            };
            let Some(slot) = upto(MAX_SLOT, slot) else {
                return Ok(None);
            };
            let Some(content) = content_of(alloc, words)? else {
                return Ok(None);
            };
            Ok(Some(Body::Filled {
                kind,
                h,
                slot,
                content,
            }))
        }
    }
}

/// The content that words write.
#[tactic(auto, unfolding(crate::specs::Statements::content_of))]
fn content_of(alloc: Global, words: &[&[u8]]) -> Result<Option<Content>, NoMemory>
    ensures { IfOk result (λ content. content ≡ content_of (map (λ word. word.now) words.now)) }
{
    match words {
        [] => Ok(None),
        [kind, words @ ..] => {
            if *kind == b"in".as_slice() {
                return external_of(alloc, words);
            }
            if *kind == b"msg".as_slice() {
                return message_of(alloc, words);
            }
            Ok(None)
        }
    }
}

/// The input that the words behind `in` write.
fn external_of(alloc: Global, words: &[&[u8]]) -> Result<Option<Content>, NoMemory>
    ensures { IfOk result (λ content. content
        ≡ option_map Content.External (payload_of (map (λ word. word.now) words.now))) }
{
    match payload_of(alloc, words)? {
        Some(payload) => Ok(Some(Content::External { payload })),
        None => Ok(None),
    }
}

/// The message that the words behind `msg` write.
fn message_of(alloc: Global, words: &[&[u8]]) -> Result<Option<Content>, NoMemory>
    ensures { IfOk result (λ content. content ≡ message_of (map (λ word. word.now) words.now)) }
{
    match words {
        [] => Ok(None),
        [_] => Ok(None),
        [p, k, numbers @ ..] => {
            let Some(p) = upto(MAX_HOST, p) else {
                return Ok(None);
            };
            let Some(k) = upto(MAX_NUMBER, k) else {
                return Ok(None);
            };
            let Some(payload) = payload_of(alloc, numbers)? else {
                return Ok(None);
            };
            Ok(Some(Content::Message { p, k, payload }))
        }
    }
}
