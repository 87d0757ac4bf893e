//! Contents: what a host takes, one after another.

ghost use Rattle.std.specs.Prelude.{◌≡◌, ◌↔◌, IfOk, IsTrue};

use crate::fault::NoMemory;
use crate::payload::Payload;
use std::alloc::Global;

/// What a host takes in one step: an input, or a message of a neighbour.
#[derive(Debug, Drop)]
pub enum Content {
    /// An input from outside.
    External { payload: Payload },
    /// The message with the number `k`, counted from 0, on the link from host `p`.
    Message { p: u32, k: u32, payload: Payload },
}

impl Content {
    /// An equal content with memory of its own.
    pub fn copy(&self, alloc: Global) -> Result<Content, NoMemory>
        ensures { IfOk result (λ content. content ≡ self.now) }
    {
        match self {
            Content::External { payload } => {
                let payload = payload.copy(alloc)?;
                Ok(Content::External { payload })
            }
            Content::Message { p, k, payload } => {
                let payload = payload.copy(alloc)?;
                Ok(Content::Message {
                    p: *p,
                    k: *k,
                    payload,
                })
            }
        }
    }

    /// Whether both are the same.
    pub fn equals(&self, other: &Content) -> bool
        ensures { IsTrue result ↔ (self.now ≡ other.now) }
    {
        match self {
            Content::External { payload } => is_external(other, payload),
            Content::Message { p, k, payload } => is_message(other, *p, *k, payload),
        }
    }
}

fn is_external(content: &Content, payload: &Payload) -> bool
    ensures { IsTrue result ↔ (content.now ≡ Content.External payload.now) }
{
    match content {
        Content::External { payload: other } => other.equals(payload),
        Content::Message { .. } => false,
    }
}

fn is_message(content: &Content, p: u32, k: u32, payload: &Payload) -> bool
    ensures { IsTrue result ↔ (content.now ≡ Content.Message p k payload.now) }
{
    match content {
        Content::External { .. } => false,
        Content::Message {
            p: of,
            k: number,
            payload: other,
        } => *of == p && *number == k && other.equals(payload),
    }
}
