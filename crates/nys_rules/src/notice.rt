//! What a world tells of its events. Events are counted from 0.

use crate::cause::DropCause;
use crate::decision::{Decision, Opened, Retired};
use nys_bytes::NoMemory;
use nys_stmt::Statement;
use std::alloc::AllocFailed;
use std::marker::Model;

/// Bytes that were given to a party and that nobody sent. Contracts see it as the record `Given` of
/// `specs/Packets.antt`.
#[derive(Debug, Drop)]
pub struct Injected {
    /// The event that gave them.
    pub event: u32,
    /// The party to which they were given.
    pub to: u32,
    /// The bytes.
    pub frame: Vec<u8>,
}

impl Model for Injected {
    ghost use Rattle.nys_rules.specs.Packets.{Given};

    ghost Value = { Given };

    ghost view = { λ i. record { event = i.event; to = i.to; frame = i.frame.items } };
}

/// An honest host or the Olympus was given a packet or bytes.
#[derive(Clone, Copy, Debug, PartialEq, Eq)]
pub struct Take {
    /// The event in which it was given.
    pub event: u32,
    /// The party to which it was given.
    pub to: u32,
    /// The packet, or none for bytes that nobody sent.
    pub packet: Option<u32>,
    /// Why it was dropped, if it was.
    pub dropped: Option<DropCause>,
}

/// Something that a reader of a world wants to know.
#[derive(Clone, Copy, Debug, PartialEq, Eq)]
pub struct Note {
    /// The event of which it is told.
    pub event: u32,
    /// What is told.
    pub kind: NoteKind,
}

/// What a note tells: an answer of the Olympus, or an input that found no room.
#[derive(Clone, Copy, Debug, PartialEq, Eq)]
pub enum NoteKind {
    /// The epoch is ending.
    Wedged { epoch: u32 },
    /// The epoch was ending already.
    AlreadyWedged,
    /// The answer to a decision about a host.
    Decide { h: u32, answer: Decision },
    /// The answer to a retirement.
    Retire { h: u32, answer: Retired },
    /// The answer to an opening.
    Open { answer: Opened },
    /// The host has as many inputs waiting as it can.
    QueueFull { h: u32 },
}

/// Why a world ends. Nothing of it is left then.
#[derive(Debug, Drop)]
pub enum End {
    /// The event names a packet that wasn't sent by then: the first that it names, and how many were.
    NoPacket {
        event: u32,
        packet: u32,
        have: u32,
    },
    /// A party accepted a statement under a maker that doesn't lie and never made it, nor another of the
    /// same spelling; of several makers the lowest.
    Forged {
        event: u32,
        maker: u32,
        taker: u32,
        statement: Statement,
    },
    /// A party accepted a statement under a maker that doesn't lie and never made it, but made another of
    /// the same spelling, of which this is the first; of several makers the lowest.
    Clash {
        event: u32,
        maker: u32,
        taker: u32,
        made: Statement,
        taken: Statement,
    },
    /// A packet more would pass the limit of packets or of their bytes: what there is.
    PoolFull {
        event: u32,
        packets: u32,
        bytes: u64,
    },
    /// The allocator had no room.
    NoMemory,
}

impl From<NoMemory> for End {
    ghost use Rattle.std.specs.Prelude.{◌≡◌};
    ghost use Rattle.nys_rules.specs.declared.notice.End.TheVariants as end;

    ghost from_gives = { λ _ e. e ≡ end.NoMemory };

    fn from(_error: NoMemory) -> End {
        End::NoMemory
    }
}

impl<T: Drop> From<AllocFailed<T>> for End {
    ghost use Rattle.std.specs.Prelude.{◌≡◌};
    ghost use Rattle.nys_rules.specs.declared.notice.End.TheVariants as end;

    ghost from_gives = { λ _ e. e ≡ end.NoMemory };

    fn from(_error: AllocFailed<T>) -> End {
        End::NoMemory
    }
}
