//! What a node answers to a question: what it said and holds of the slot, and what it attested.

ghost use Rattle.std.specs.Prelude.{◌≡◌, ◌<◌, ◌≤◌, ◌==◌, ◌∷◌, ◌++◌, [], length, IfOk, OnOk, filter, flat_map};
ghost use Rattle.std.specs.Option.{option_to_list};
ghost use Rattle.nys_node.specs.Means.{HasView, Known};
ghost use Rattle.nys_node.specs.Replies.{CanTell, kept_among, kept_record, window_of};
ghost use Rattle.nys_node.specs.Said.{said_record};
ghost use Rattle.nys_sending.specs.Receivers.{replied};
ghost use Rattle.nys_config.specs.Scopes.{scope_in};
ghost use Rattle.nys_config.specs.Config.{IsConfig};
ghost use Rattle.nys_rules.specs.Asking.{certificate_record, offer_record, open_records, order_record, attest_record, attest_records, kept_records, slot_records};
ghost use Rattle.nys_rules.specs.Packets.{joined};
ghost use Rattle.nys_rules.specs.Rules.{only_if};
ghost use Rattle.nys_rules.specs.Scope.{Scope};
ghost use Rattle.nys_rules.specs.Sending.{record_of, said_in};
ghost use Rattle.nys_rules.specs.Taking.{certificate};
ghost use Rattle.nys_stmt.specs.Ranges.{IsInRange};
ghost use Rattle.nys_stmt.specs.Records.{IsWhole};
ghost use Rattle.nys_hosts.specs.declared.limits.TheConstants.{MAX_HOSTS};
ghost use Rattle.nys_stmt.specs.declared.limits.TheConstants.{MAX_NUMBER};

use crate::node::Node;
use nys_bytes::{Content, NoMemory};
use nys_config::{Config, linked};
use nys_hosts::MAX_HOSTS;
use nys_rules::{Kept, WINDOW};
use nys_sending::outbox::Outbox;
use nys_sending::sending::{record_by, tags_for};
use nys_source::Protocol;
use nys_stmt::{Body, FilledKind, Record};
use std::alloc::Global;

impl<P: Protocol> Node<P> {
    /// The record of a statement of the node to the guards of a host, with its tags made again.
    fn own_record(
        &self,
        alloc: Global,
        cx: &Config<P>,
        h: u32,
        body: Body,
    ) -> Result<Record, NoMemory>
        requires means { HasView (scope_in P.rules cx.now) self.now }
        requires range { IsInRange (said_in self.now.epoch body) }
        requires some { CanTell (scope_in P.rules cx.now) self.now h }
        ensures value { IfOk result (λ own. Known (scope_in P.rules cx.now) self.now (λ v.
            own ≡ record_of (scope_in P.rules cx.now) v h body)) }
        ensures whole { IfOk result (λ own. IsWhole own) }
    {
        let statement = self.say(body);
        let guards = self.guards(alloc, cx, h)?;
        let tags = tags_for(alloc, cx, self.me, &statement, guards.as_slice())?;
        let own = record_by(alloc, self.me, statement, tags)?;
        Ok(own)
    }

    /// The record of a statement of the node to the guards of a host goes to one asker.
    pub(crate) fn reply(
        &self,
        alloc: Global,
        cx: &Config<P>,
        asker: u32,
        h: u32,
        body: Body,
        out: &mut Outbox,
    ) -> Result<(), NoMemory>
        requires means { HasView (scope_in P.rules cx.now) self.now }
        requires range { IsInRange (said_in self.now.epoch body) }
        requires some { CanTell (scope_in P.rules cx.now) self.now h }
        ensures { OnOk result (Known (scope_in P.rules cx.now) self.now (λ v.
            out.new ≡ joined out.old (replied v.me asker (record_of (scope_in P.rules cx.now) v h body
            ∷ [])))) }
    {
        let own = self.own_record(alloc, cx, h, body)?;
        out.send_to(alloc, self.me, asker, &own)?;
        Ok(())
    }

    /// What it said itself of a content in the open slot, if it did.
    fn reply_said(
        &self,
        alloc: Global,
        cx: &Config<P>,
        asker: u32,
        h: u32,
        kind: FilledKind,
        out: &mut Outbox,
    ) -> Result<(), NoMemory>
        requires config { IsConfig (P.rules cx.now.protocol).hosts cx.now }
        requires means { HasView (scope_in P.rules cx.now) self.now }
        requires host { h < MAX_HOSTS }
        requires some { CanTell (scope_in P.rules cx.now) self.now h }
        ensures { OnOk result (Known (scope_in P.rules cx.now) self.now (λ v.
            out.new ≡ joined out.old (replied v.me asker
            (option_to_list (said_record (scope_in P.rules cx.now) v h kind))))) }
    {
        match self.said(h, kind) {
            Some(content) => {
                let content = content.copy(alloc)?;
                let slot = self.log_len(h);
                let body = Body::Filled {
                    kind,
                    h,
                    slot,
                    content,
                };
                self.reply(alloc, cx, asker, h, body, out)?;
                Ok(())
            }
            None => Ok(()),
        }
    }

    /// The record of the orders that it collected for a content.
    pub(crate) fn certificate(
        &self,
        alloc: Global,
        h: u32,
        content: &Content,
    ) -> Result<Record, NoMemory>
        requires host { h < MAX_HOSTS }
        requires rows { length self.now.desks.items ≡ MAX_HOSTS }
        ensures { IfOk result (λ own. (scope : Scope P.State)
            → Known scope self.now (λ v. own ≡ certificate v h content.now)) }
    {
        let content = content.copy(alloc)?;
        let slot = self.log_len(h);
        let makers = self.desks[h as usize].orderers(alloc)?;
        let statement = self.say(Body::Filled {
            kind: FilledKind::Order,
            h,
            slot,
            content,
        });
        Ok(Record { statement, makers })
    }

    /// Its last certificate in its own open slot, if it sent one.
    fn reply_certificate(
        &self,
        alloc: Global,
        cx: &Config<P>,
        asker: u32,
        h: u32,
        out: &mut Outbox,
    ) -> Result<(), NoMemory>
        requires config { IsConfig (P.rules cx.now.protocol).hosts cx.now }
        requires means { HasView (scope_in P.rules cx.now) self.now }
        requires host { h < MAX_HOSTS }
        requires some { CanTell (scope_in P.rules cx.now) self.now h }
        ensures { OnOk result (Known (scope_in P.rules cx.now) self.now (λ v.
            out.new ≡ joined out.old (replied v.me asker (option_to_list (certificate_record v h))))) }
    {
        if self.desks[h as usize].sent() < 1 {
            return Ok(());
        }
        match self.desks[h as usize].offered() {
            Some(content) => {
                let own = self.certificate(alloc, h, content)?;
                out.send_to(alloc, self.me, asker, &own)?;
                Ok(())
            }
            None => Ok(()),
        }
    }

    /// What it has for its own open slot: its Offer, then its last certificate.
    fn reply_own(
        &self,
        alloc: Global,
        cx: &Config<P>,
        asker: u32,
        h: u32,
        out: &mut Outbox,
    ) -> Result<(), NoMemory>
        requires config { IsConfig (P.rules cx.now.protocol).hosts cx.now }
        requires means { HasView (scope_in P.rules cx.now) self.now }
        requires host { h < MAX_HOSTS }
        requires some { CanTell (scope_in P.rules cx.now) self.now h }
        ensures { OnOk result (Known (scope_in P.rules cx.now) self.now (λ v.
            out.new ≡ joined out.old (replied v.me asker (option_to_list (only_if (v.me == h)
            (offer_record (scope_in P.rules cx.now) v h))
            ++ option_to_list (only_if (v.me == h) (certificate_record v h)))))) }
    {
        if self.me != h {
            return Ok(());
        }
        self.reply_said(alloc, cx, asker, h, FilledKind::Offer, out)?;
        self.reply_certificate(alloc, cx, asker, h, out)?;
        Ok(())
    }

    /// Its Order, where the asker is the host.
    fn reply_to_host(
        &self,
        alloc: Global,
        cx: &Config<P>,
        asker: u32,
        h: u32,
        out: &mut Outbox,
    ) -> Result<(), NoMemory>
        requires config { IsConfig (P.rules cx.now.protocol).hosts cx.now }
        requires means { HasView (scope_in P.rules cx.now) self.now }
        requires host { h < MAX_HOSTS }
        requires some { CanTell (scope_in P.rules cx.now) self.now h }
        ensures { OnOk result (Known (scope_in P.rules cx.now) self.now (λ v.
            out.new ≡ joined out.old (replied v.me asker (option_to_list (only_if (asker == h)
            (order_record (scope_in P.rules cx.now) v h)))))) }
    {
        if asker != h {
            return Ok(());
        }
        self.reply_said(alloc, cx, asker, h, FilledKind::Order, out)?;
        Ok(())
    }

    /// All that it has for the open slot.
    pub(crate) fn reply_open(
        &self,
        alloc: Global,
        cx: &Config<P>,
        asker: u32,
        h: u32,
        out: &mut Outbox,
    ) -> Result<(), NoMemory>
        requires config { IsConfig (P.rules cx.now.protocol).hosts cx.now }
        requires means { HasView (scope_in P.rules cx.now) self.now }
        requires host { h < MAX_HOSTS }
        requires some { CanTell (scope_in P.rules cx.now) self.now h }
        ensures { OnOk result (Known (scope_in P.rules cx.now) self.now (λ v.
            out.new ≡ joined out.old (replied v.me asker
            (open_records (scope_in P.rules cx.now) v h asker)))) }
    {
        self.reply_own(alloc, cx, asker, h, out)?;
        self.reply_to_host(alloc, cx, asker, h, out)?;
        self.reply_said(alloc, cx, asker, h, FilledKind::Deliver, out)?;
        Ok(())
    }

    /// The record of the Deliver votes that are kept of a slot.
    fn vote_record(&self, alloc: Global, h: u32, kept: &Kept) -> Result<Record, NoMemory>
        ensures { IfOk result (λ own. own ≡ kept_record self.now.epoch h kept.now.slot kept.now) }
    {
        let content = kept.content.copy(alloc)?;
        let makers = kept.makers.copy(alloc)?;
        let statement = self.say(Body::Filled {
            kind: FilledKind::Deliver,
            h,
            slot: kept.slot,
            content,
        });
        Ok(Record { statement, makers })
    }

    /// The Deliver votes that are kept, where they are of the slot.
    fn reply_vote(
        &self,
        alloc: Global,
        asker: u32,
        h: u32,
        slot: u32,
        kept: &Kept,
        out: &mut Outbox,
    ) -> Result<(), NoMemory>
        requires whole { IsWhole (kept_record self.now.epoch h kept.now.slot kept.now) }
        ensures { OnOk result (out.new ≡ joined out.old
            (replied self.now.me asker (kept_among self.now.epoch h slot (kept.now ∷ [])))) }
    {
        if kept.slot != slot {
            return Ok(());
        }
        let own = self.vote_record(alloc, h, kept)?;
        out.send_to(alloc, self.me, asker, &own)?;
        Ok(())
    }

    /// The Deliver votes with which the slot was logged, where they are kept.
    fn reply_kept(
        &self,
        alloc: Global,
        cx: &Config<P>,
        asker: u32,
        h: u32,
        slot: u32,
        out: &mut Outbox,
    ) -> Result<(), NoMemory>
        requires config { IsConfig (P.rules cx.now.protocol).hosts cx.now }
        requires means { HasView (scope_in P.rules cx.now) self.now }
        requires host { h < MAX_HOSTS }
        requires some { CanTell (scope_in P.rules cx.now) self.now h }
        ensures { OnOk result (Known (scope_in P.rules cx.now) self.now (λ v.
            out.new ≡ joined out.old (replied v.me asker (kept_records v h slot)))) }
    {
        let kept = &self.kept[h as usize];
        for i in 0..kept.len() {
            self.reply_vote(alloc, asker, h, slot, kept.get(i), out)?;
        }
        Ok(())
    }

    /// All that the node has for a slot of the host.
    pub(crate) fn reply_slot(
        &self,
        alloc: Global,
        cx: &Config<P>,
        asker: u32,
        h: u32,
        slot: u32,
        out: &mut Outbox,
    ) -> Result<(), NoMemory>
        requires config { IsConfig (P.rules cx.now.protocol).hosts cx.now }
        requires means { HasView (scope_in P.rules cx.now) self.now }
        requires host { h < MAX_HOSTS }
        requires some { CanTell (scope_in P.rules cx.now) self.now h }
        ensures { OnOk result (Known (scope_in P.rules cx.now) self.now (λ v.
            out.new ≡ joined out.old (replied v.me asker
            (slot_records (scope_in P.rules cx.now) v h slot asker)))) }
    {
        if slot == self.log_len(h) {
            self.reply_open(alloc, cx, asker, h, out)?;
            Ok(())
        } else {
            self.reply_kept(alloc, cx, asker, h, slot, out)?;
            Ok(())
        }
    }

    /// Its attestation of a number of a link, if it made one.
    fn reply_attest(
        &self,
        alloc: Global,
        cx: &Config<P>,
        asker: u32,
        h: u32,
        p: u32,
        k: u32,
        out: &mut Outbox,
    ) -> Result<(), NoMemory>
        requires config { IsConfig (P.rules cx.now.protocol).hosts cx.now }
        requires means { HasView (scope_in P.rules cx.now) self.now }
        requires host { h < MAX_HOSTS }
        requires some { CanTell (scope_in P.rules cx.now) self.now h }
        requires sender { p < MAX_HOSTS }
        requires number { k ≤ MAX_NUMBER }
        ensures { OnOk result (Known (scope_in P.rules cx.now) self.now (λ v.
            out.new ≡ joined out.old (replied v.me asker
            (option_to_list (attest_record (scope_in P.rules cx.now) v p h k))))) }
    {
        match self.own_attest(p, h, k) {
            Some(payload) => {
                let payload = payload.copy(alloc)?;
                self.reply(alloc, cx, asker, h, Body::Attest { p, h, k, payload }, out)?;
                Ok(())
            }
            None => Ok(()),
        }
    }

    /// Its attestations of the numbers of a link that are in the window.
    fn reply_window(
        &self,
        alloc: Global,
        cx: &Config<P>,
        asker: u32,
        h: u32,
        p: u32,
        out: &mut Outbox,
    ) -> Result<(), NoMemory>
        requires config { IsConfig (P.rules cx.now.protocol).hosts cx.now }
        requires means { HasView (scope_in P.rules cx.now) self.now }
        requires host { h < MAX_HOSTS }
        requires some { CanTell (scope_in P.rules cx.now) self.now h }
        requires sender { p < MAX_HOSTS }
        ensures { OnOk result (Known (scope_in P.rules cx.now) self.now (λ v.
            out.new ≡ joined out.old (replied v.me asker (window_of (scope_in P.rules cx.now) v h p)))) }
    {
        let next = self.next_number(p, h);
        for i in 0..WINDOW as u32 {
            self.reply_attest(alloc, cx, asker, h, p, next + i, out)?;
        }
        Ok(())
    }

    /// The same, where the link's sender is a neighbour of the host.
    fn reply_neighbour(
        &self,
        alloc: Global,
        cx: &Config<P>,
        asker: u32,
        h: u32,
        p: u32,
        out: &mut Outbox,
    ) -> Result<(), NoMemory>
        requires config { IsConfig (P.rules cx.now.protocol).hosts cx.now }
        requires means { HasView (scope_in P.rules cx.now) self.now }
        requires host { h < MAX_HOSTS }
        requires some { CanTell (scope_in P.rules cx.now) self.now h }
        requires sender { p < MAX_HOSTS }
        ensures { OnOk result (Known (scope_in P.rules cx.now) self.now (λ v.
            out.new ≡ joined out.old (replied v.me asker (flat_map (window_of (scope_in P.rules cx.now) v h)
            (filter (λ q. (P.rules cx.now.protocol).linked q h) (p ∷ [])))))) }
    {
        if linked(cx, p, h) {
            self.reply_window(alloc, cx, asker, h, p, out)?;
        }
        Ok(())
    }

    /// Its attestations on each link into the host.
    pub(crate) fn reply_links(
        &self,
        alloc: Global,
        cx: &Config<P>,
        asker: u32,
        h: u32,
        out: &mut Outbox,
    ) -> Result<(), NoMemory>
        requires config { IsConfig (P.rules cx.now.protocol).hosts cx.now }
        requires means { HasView (scope_in P.rules cx.now) self.now }
        requires host { h < MAX_HOSTS }
        requires some { CanTell (scope_in P.rules cx.now) self.now h }
        ensures { OnOk result (Known (scope_in P.rules cx.now) self.now (λ v.
            out.new ≡ joined out.old (replied v.me asker (attest_records (scope_in P.rules cx.now) v h)))) }
    {
        for p in 0..MAX_HOSTS as u32 {
            self.reply_neighbour(alloc, cx, asker, h, p, out)?;
        }
        Ok(())
    }
}
