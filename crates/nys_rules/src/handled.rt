//! What a call of a node or of the Olympus gives back.

use crate::cause::DropCause;
use crate::packet::Packet;
use nys_hosts::HostSet;
use nys_stmt::Statement;
use std::marker::Model;

/// What a party did in one call. Contracts see it as the record `Done` of `specs/Packets.antt`.
#[derive(Debug, Drop)]
pub struct Handled {
    /// The packets that it sends, in order of sending.
    pub packets: Vec<Packet>,
    /// The statement of the record, where the record isn't dropped.
    pub statement: Option<Statement>,
    /// The hosts whose tags on that statement were accepted.
    pub accepted: HostSet,
    /// Whether the Olympus's tag was accepted.
    pub olympus: bool,
    /// The statements that the party made, in order.
    pub made: Vec<Statement>,
    /// Each host and slot that it logged, in order.
    pub grew: Vec<(u32, u32)>,
    /// Why the record or the input was dropped, if it was.
    pub dropped: Option<DropCause>,
}

impl Model for Handled {
    ghost use Rattle.nys_hosts.specs.Sets.{members};
    ghost use Rattle.nys_rules.specs.Packets.{Done};

    ghost Value = { Done };

    ghost view = { λ d. record {
      acts = record { made = d.made.items; packets = d.packets.items; grew = d.grew.items };
      statement = d.statement;
      accepted = members d.accepted;
      olympus = d.olympus;
      dropped = d.dropped;
    } };
}
