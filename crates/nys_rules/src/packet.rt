//! Packets.

use std::marker::Model;

/// A record on its way: the bytes that one party sends to another. `from` is `STRANGER` where nobody
/// knows the sender. Contracts see it as the record `Packet` of `specs/Packets.antt`.
#[derive(Debug, Drop)]
pub struct Packet {
    /// The party that sent it, or `STRANGER`.
    pub from: u32,
    /// The party that it is for.
    pub to: u32,
    /// The bytes: a record, or anything where a liar made it.
    pub frame: Vec<u8>,
}

/// The number of a sender that nobody knows.
pub const STRANGER: u32 = 33;

impl Model for Packet {
    ghost use Rattle.nys_rules.specs.Packets.{Sent};

    ghost Value = { Sent };

    ghost view = { λ p. record { from = p.from; to = p.to; frame = p.frame.items } };
}
