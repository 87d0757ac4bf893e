//! What one party says to others.

ghost use Rattle.std.specs.Prelude.{◌≡◌, IfOk};

use crate::lengths::Lengths;
use nys_bytes::{Content, NoMemory, Payload};
use std::alloc::Global;

/// What is said of a content in a slot of a host's log.
#[derive(Clone, Copy, Debug, PartialEq, Eq)]
pub enum FilledKind {
    /// The host offers it.
    Offer,
    /// A guard orders it.
    Order,
    /// A guard votes to deliver it.
    Deliver,
    /// A guard tells the Olympus that it logged it or voted to deliver it.
    Report,
    /// The Olympus hands it, decided, to the new guards of the host.
    Inherit,
}

/// What a statement says of its epoch, without the epoch. Hosts and senders are at most `MAX_HOST`, slots at
/// most `MAX_SLOT`, numbers of messages at most `MAX_NUMBER`.
#[derive(Debug, Drop)]
pub enum Body {
    /// A content in a slot of the log of `h`: it is offered, ordered, voted for, reported or handed over.
    Filled {
        kind: FilledKind,
        h: u32,
        slot: u32,
        content: Content,
    },
    /// A guard of both says that `p` sent this payload to `h` as number `k`.
    Attest {
        p: u32,
        h: u32,
        k: u32,
        payload: Payload,
    },
    /// A guard asks for what the others hold for a slot of `h`.
    Ask {
        h: u32,
        slot: u32,
    },
    /// The Olympus ends the epoch.
    Wedge,
    /// A guard tells the Olympus that it votes in no slot of `h` from here on. The slot is at most
    /// `MAX_LENGTH`.
    Frozen {
        h: u32,
        slot: u32,
    },
    /// The Olympus begins the epoch, with the length of each host's log. There is one length or more.
    Open {
        lengths: Lengths,
    },
}

/// What one party says to others of an epoch, which is at most `MAX_EPOCH`.
#[derive(Debug, Drop)]
pub struct Statement {
    pub epoch: u32,
    pub body: Body,
}

impl Body {
    /// An equal body with memory of its own.
    pub fn copy(&self, alloc: Global) -> Result<Body, NoMemory>
        ensures { IfOk result (λ copy. copy ≡ self.now) }
    {
        Ok(match self {
            Body::Filled {
                kind,
                h,
                slot,
                content,
            } => Body::Filled {
                kind: *kind,
                h: *h,
                slot: *slot,
                content: content.copy(alloc)?,
            },
            Body::Attest { p, h, k, payload } => Body::Attest {
                p: *p,
                h: *h,
                k: *k,
                payload: payload.copy(alloc)?,
            },
            Body::Ask { h, slot } => Body::Ask { h: *h, slot: *slot },
            Body::Wedge => Body::Wedge,
            Body::Frozen { h, slot } => Body::Frozen { h: *h, slot: *slot },
            Body::Open { lengths } => Body::Open {
                lengths: lengths.copy(alloc)?,
            },
        })
    }
}

impl Statement {
    /// An equal statement with memory of its own.
    pub fn copy(&self, alloc: Global) -> Result<Statement, NoMemory>
        ensures { IfOk result (λ copy. copy ≡ self.now) }
    {
        let body = self.body.copy(alloc)?;
        Ok(Statement {
            epoch: self.epoch,
            body,
        })
    }
}
