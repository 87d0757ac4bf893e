//! What a party does in one call, piece by piece.

ghost use Rattle.std.specs.Prelude.{◌≡◌, ◌≤◌, [], ◌∷◌, length, OnOk, None};
ghost use Rattle.nys_hosts.specs.Sets.{members};
ghost use Rattle.nys_sending.specs.Receivers.{AreReceivers, made_with, replied, sent_others};
ghost use Rattle.nys_config.specs.Scopes.{scope_in};
ghost use Rattle.nys_rules.specs.Packets.{joined, nothing};
ghost use Rattle.nys_rules.specs.Scope.{olympus};
ghost use Rattle.nys_rules.specs.Sending.{announced, made_for, others};
ghost use Rattle.nys_stmt.specs.Ranges.{IsInRange};
ghost use Rattle.nys_stmt.specs.Records.{IsWhole};

use crate::sending::{others, record_by, tags_for, to_each};
use nys_bytes::NoMemory;
use nys_config::Config;
use nys_hosts::HostSet;
use nys_mac::LAST_PARTY;
use nys_rules::{Handled, Packet};
use nys_source::Protocol;
use nys_stmt::{Record, Statement, TagList};
use std::alloc::Global;
use std::marker::Model;

/// What a party did so far in one call.
#[derive(Debug, Drop)]
pub struct Outbox {
    made: Vec<Statement>,
    packets: Vec<Packet>,
    grew: Vec<(u32, u32)>,
}

impl Model for Outbox {
    ghost use Rattle.nys_rules.specs.Packets.{Acts};

    ghost Value = { Acts };

    ghost view = { λ o. record { made = o.made.items; packets = o.packets.items; grew = o.grew.items } };
}

impl Outbox {
    /// Nothing yet. Takes no memory.
    pub fn new(alloc: Global) -> Outbox
        ensures { result ≡ nothing }
    {
        Outbox {
            made: Vec::new(alloc),
            packets: Vec::new(alloc),
            grew: Vec::new(alloc),
        }
    }

    /// A packet with the record for each of the others, in this order; no statement is made.
    #[tactic(auto, unfolding(crate::specs::Receivers::sent_others))]
    pub fn send(
        &mut self,
        alloc: Global,
        me: u32,
        sent: &Record,
        receivers: &[u32],
    ) -> Result<(), NoMemory>
        requires { 1 ≤ length (others me receivers.now) → IsWhole sent.now }
        ensures { OnOk result (self.new ≡ joined self.old (sent_others me sent.now receivers.now)) }
    {
        let others = others(alloc, me, receivers)?;
        to_each(alloc, me, sent, others.as_slice(), &mut self.packets)
    }

    /// A packet with the record for one party; no statement is made.
    #[tactic(auto, unfolding(crate::specs::Receivers::replied, nys_rules::specs::Sending::to_each))]
    pub fn send_to(
        &mut self,
        alloc: Global,
        from: u32,
        to: u32,
        sent: &Record,
    ) -> Result<(), NoMemory>
        requires { IsWhole sent.now }
        ensures { OnOk result (self.new ≡ joined self.old (replied from to (sent.now ∷ []))) }
    {
        to_each(alloc, from, sent, &[to], &mut self.packets)
    }

    /// The party appended an entry to the log of a host, in this slot.
    pub fn grow(&mut self, h: u32, slot: u32) -> Result<(), NoMemory>
        ensures { OnOk result (self.new
            ≡ joined self.old (record { made = []; packets = []; grew = (h, slot) ∷ [] })) }
    {
        self.grew.push((h, slot))?;
        Ok(())
    }

    /// The party makes a statement with these tags, and sends the record to others.
    #[tactic(auto, unfolding(crate::specs::Receivers::made_with, crate::specs::Receivers::sent_others))]
    pub fn make_with(
        &mut self,
        alloc: Global,
        maker: u32,
        statement: Statement,
        tags: TagList,
        sent_to: &[u32],
    ) -> Result<(), NoMemory>
        requires maker { maker ≤ LAST_PARTY }
        requires range { IsInRange statement }
        requires some { 1 ≤ length (others maker sent_to.now) → 1 ≤ length tags }
        ensures { OnOk result (self.new ≡ joined self.old (made_with maker statement tags sent_to.now)) }
    {
        let own = record_by(alloc, maker, statement, tags)?;
        self.send(alloc, maker, &own, sent_to)?;
        self.made.push(own.statement)?;
        Ok(())
    }

    /// The party makes a statement, tags it for the receivers, and sends the record to others.
    #[tactic(auto, unfolding(crate::specs::Receivers::made_with, nys_rules::specs::Sending::made_for, nys_rules::specs::Sending::own_record))]
    pub fn make<P: Protocol>(
        &mut self,
        alloc: Global,
        cx: &Config<P>,
        maker: u32,
        statement: Statement,
        receivers: &[u32],
        sent_to: &[u32],
    ) -> Result<(), NoMemory>
        requires maker { maker ≤ LAST_PARTY }
        requires range { IsInRange statement }
        requires rule { AreReceivers receivers.now }
        requires some { 1 ≤ length (others maker sent_to.now) → 1 ≤ length (others maker receivers.now) }
        ensures { OnOk result (self.new
            ≡ joined self.old (made_for (scope_in P.rules cx.now) maker statement receivers.now
            sent_to.now)) }
    {
        let tags = tags_for(alloc, cx, maker, &statement, receivers)?;
        self.make_with(alloc, maker, statement, tags, sent_to)
    }

    /// The party makes a statement and sends it to all receivers.
    pub fn announce<P: Protocol>(
        &mut self,
        alloc: Global,
        cx: &Config<P>,
        maker: u32,
        statement: Statement,
        receivers: &[u32],
    ) -> Result<(), NoMemory>
        requires maker { maker ≤ LAST_PARTY }
        requires range { IsInRange statement }
        requires rule { AreReceivers receivers.now }
        ensures { OnOk result (self.new
            ≡ joined self.old (announced (scope_in P.rules cx.now) maker statement receivers.now)) }
    {
        self.make(alloc, cx, maker, statement, receivers, receivers)
    }

    /// The party makes a statement to the Olympus.
    pub fn to_olympus<P: Protocol>(
        &mut self,
        alloc: Global,
        cx: &Config<P>,
        maker: u32,
        statement: Statement,
    ) -> Result<(), NoMemory>
        requires maker { maker ≤ LAST_PARTY }
        requires range { IsInRange statement }
        ensures { OnOk result (self.new
            ≡ joined self.old (announced (scope_in P.rules cx.now) maker statement (olympus ∷ []))) }
    {
        self.announce(alloc, cx, maker, statement, &[LAST_PARTY])
    }

    /// All that was done, with what became of the record: it wasn't dropped.
    pub fn handled(self, statement: Option<Statement>, accepted: HostSet, olympus: bool) -> Handled
        ensures { result ≡ record {
          acts = self;
          statement = statement;
          accepted = members accepted;
          olympus
              = olympus;
          dropped = None;
        } }
    {
        Handled {
            packets: self.packets,
            statement,
            accepted,
            olympus,
            made: self.made,
            grew: self.grew,
            dropped: None,
        }
    }
}
