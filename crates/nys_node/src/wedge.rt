//! The rule Wedge: the epoch ends, and a guard tells the Olympus what it logged and voted for.

ghost use Rattle.std.specs.Prelude.{◌≡◌, ◌<◌, ◌≤◌, ◌+◌, ◌∷◌, [], filter, flat_map, OnOk, All, true, Some, None};
ghost use Rattle.nys_node.specs.Means.{HasView, IsViewOf, Known, Means};
ghost use Rattle.nys_config.specs.Scopes.{scope_in};
ghost use Rattle.nys_node.specs.Told.{reports_from, told};
ghost use Rattle.nys_config.specs.Config.{IsConfig};
ghost use Rattle.nys_rules.specs.Ending.{entry_reports, reporting, testimony, told_from, vote_report};
ghost use Rattle.nys_rules.specs.Packets.{joined};
ghost use Rattle.nys_rules.specs.Sending.{to_olympus};
ghost use Rattle.nys_rules.specs.View.{is_live, length_of, View};
ghost use Rattle.nys_stmt.specs.Ranges.{IsContentInRange};
ghost use Rattle.nys_stmt.specs.declared.limits.TheConstants.{MAX_SLOT};
ghost use Rattle.nys_node.specs.Hearing.{with_wedge};
ghost use Rattle.nys_rules.specs.Scope.{Scope};
ghost use Rattle.nys_hosts.specs.declared.limits.TheConstants.{MAX_HOSTS};
ghost use Rattle.nys_rules.specs.Dropping.{if_current};
ghost use Rattle.nys_stmt.specs.declared.statement.Body.TheVariants as said;

use crate::node::Node;
use nys_bytes::{Content, NoMemory};
use nys_config::Config;
use nys_hosts::MAX_HOSTS;
use nys_rules::DropCause;
use nys_sending::outbox::Outbox;
use nys_source::Protocol;
use nys_stmt::{Body, FilledKind};
use std::alloc::Global;

impl<P: Protocol> Node<P> {
    /// A Report for a content in a slot of a host.
    fn report(
        &self,
        alloc: Global,
        cx: &Config<P>,
        h: u32,
        slot: u32,
        content: &Content,
        out: &mut Outbox,
    ) -> Result<(), NoMemory>
        requires config { IsConfig (P.rules cx.now.protocol).hosts cx.now }
        requires means { HasView (scope_in P.rules cx.now) self.now }
        requires host { h < MAX_HOSTS }
        requires slot { slot ≤ MAX_SLOT }
        requires content { IsContentInRange content.now }
        ensures { OnOk result (Known (scope_in P.rules cx.now) self.now (λ v.
            out.new ≡ joined out.old (to_olympus (scope_in P.rules cx.now) v
            (said.Filled FilledKind.Report h slot content.now)))) }
    {
        let content = content.copy(alloc)?;
        let body = Body::Filled {
            kind: FilledKind::Report,
            h,
            slot,
            content,
        };
        self.tell_olympus(alloc, cx, body, out)?;
        Ok(())
    }

    /// A Report for the entry of a slot.
    fn report_entry(
        &self,
        alloc: Global,
        cx: &Config<P>,
        h: u32,
        slot: u32,
        out: &mut Outbox,
    ) -> Result<(), NoMemory>
        requires config { IsConfig (P.rules cx.now.protocol).hosts cx.now }
        requires means { (v : View) × IsViewOf (scope_in P.rules cx.now) self.now v
            × (slot < length_of v h) × (v.kept_from h ≤ slot) }
        requires host { h < MAX_HOSTS }
        ensures { OnOk result (Known (scope_in P.rules cx.now) self.now (λ v.
            joined out.new (told (scope_in P.rules cx.now) v
            (reports_from v h (slot + 1)))
            ≡ joined out.old (told (scope_in P.rules cx.now) v (reports_from v h slot)))) }
    {
        match self.replica(h) {
            Some(replica) => {
                self.report(alloc, cx, h, slot, replica.entry(slot), out)?;
                Ok(())
            }
            None => Ok(()),
        }
    }

    /// The slot from which on the node tells the entries of a host's log: the base, or the first that it keeps if
    /// that is later.
    fn told_from(&self, h: u32) -> u32
        requires host { h < MAX_HOSTS }
        ensures { (scope : Scope P.State) → Known scope self.now (λ v. result ≡ told_from v h) }
    {
        let base = self.base[h as usize];
        match self.replica(h) {
            Some(replica) => base.max(replica.kept_from()),
            None => base,
        }
    }

    /// A Report for each entry from the base on, or from the first that the node keeps if that is later.
    fn report_entries(
        &self,
        alloc: Global,
        cx: &Config<P>,
        h: u32,
        out: &mut Outbox,
    ) -> Result<(), NoMemory>
        requires config { IsConfig (P.rules cx.now.protocol).hosts cx.now }
        requires means { HasView (scope_in P.rules cx.now) self.now }
        requires host { h < MAX_HOSTS }
        ensures { OnOk result (Known (scope_in P.rules cx.now) self.now (λ v.
            out.new ≡ joined out.old (told (scope_in P.rules cx.now) v (entry_reports v h)))) }
    {
        for slot in self.told_from(h)..self.log_len(h) {
            self.report_entry(alloc, cx, h, slot, out)?;
        }
        Ok(())
    }

    /// A Report for the node's Deliver in the slot behind the log, if it made one.
    fn report_vote(
        &self,
        alloc: Global,
        cx: &Config<P>,
        h: u32,
        out: &mut Outbox,
    ) -> Result<(), NoMemory>
        requires config { IsConfig (P.rules cx.now.protocol).hosts cx.now }
        requires means { HasView (scope_in P.rules cx.now) self.now }
        requires host { h < MAX_HOSTS }
        ensures { OnOk result (Known (scope_in P.rules cx.now) self.now (λ v.
            out.new ≡ joined out.old (told (scope_in P.rules cx.now) v (vote_report v h)))) }
    {
        match self.desks[h as usize].delivered() {
            Some(content) => {
                self.report(alloc, cx, h, self.log_len(h), content, out)?;
                Ok(())
            }
            None => Ok(()),
        }
    }

    /// The slot from which on the node votes no more.
    fn report_end(
        &self,
        alloc: Global,
        cx: &Config<P>,
        h: u32,
        out: &mut Outbox,
    ) -> Result<(), NoMemory>
        requires config { IsConfig (P.rules cx.now.protocol).hosts cx.now }
        requires means { HasView (scope_in P.rules cx.now) self.now }
        requires host { h < MAX_HOSTS }
        ensures { OnOk result (Known (scope_in P.rules cx.now) self.now (λ v.
            out.new ≡ joined out.old (to_olympus (scope_in P.rules cx.now) v
            (said.Frozen h (v.voted_to h))))) }
    {
        let slot = self.voted_to[h as usize];
        self.tell_olympus(alloc, cx, Body::Frozen { h, slot }, out)?;
        Ok(())
    }

    /// All that the node tells about a host.
    fn report_host(
        &self,
        alloc: Global,
        cx: &Config<P>,
        h: u32,
        out: &mut Outbox,
    ) -> Result<(), NoMemory>
        requires config { IsConfig (P.rules cx.now.protocol).hosts cx.now }
        requires means { HasView (scope_in P.rules cx.now) self.now }
        requires host { h < MAX_HOSTS }
        ensures { OnOk result (Known (scope_in P.rules cx.now) self.now (λ v.
            out.new ≡ joined out.old (told (scope_in P.rules cx.now) v (testimony v h)))) }
    {
        self.report_entries(alloc, cx, h, out)?;
        self.report_vote(alloc, cx, h, out)?;
        self.report_end(alloc, cx, h, out)?;
        Ok(())
    }

    /// The same, where the host is live at the node.
    fn report_live(
        &self,
        alloc: Global,
        cx: &Config<P>,
        h: u32,
        out: &mut Outbox,
    ) -> Result<(), NoMemory>
        requires config { IsConfig (P.rules cx.now.protocol).hosts cx.now }
        requires means { HasView (scope_in P.rules cx.now) self.now }
        ensures { OnOk result (Known (scope_in P.rules cx.now) self.now (λ v.
            out.new ≡ joined out.old (told (scope_in P.rules cx.now) v
            (flat_map (testimony v) (filter (is_live (scope_in P.rules cx.now) v)
            (h ∷ [])))))) }
    {
        if self.live(h) {
            self.report_host(alloc, cx, h, out)?;
        }
        Ok(())
    }

    /// What the node tells about all hosts that are live at it.
    pub(crate) fn report_all(
        &self,
        alloc: Global,
        cx: &Config<P>,
        out: &mut Outbox,
    ) -> Result<(), NoMemory>
        requires config { IsConfig (P.rules cx.now.protocol).hosts cx.now }
        requires means { HasView (scope_in P.rules cx.now) self.now }
        ensures { OnOk result (Known (scope_in P.rules cx.now) self.now (λ v.
            out.new ≡ joined out.old (reporting (scope_in P.rules cx.now) v))) }
    {
        for h in 0..MAX_HOSTS as u32 {
            self.report_live(alloc, cx, h, out)?;
        }
        Ok(())
    }

    /// The epoch ends.
    pub(crate) fn note_wedge(&mut self)
        ensures { (scope : Scope P.State) (v : View) → Means scope self.old v
            → Means scope self.new (with_wedge v) }
    {
        self.wedged = true;
    }

    /// The first test that a Wedge fails before its makers are looked at.
    pub(crate) fn wedge_drop(&self, epoch: u32) -> Option<DropCause>
        ensures { (scope : Scope P.State) → Known scope self.now (λ v. result ≡ if_current v epoch None) }
    {
        if epoch != self.epoch {
            return Some(DropCause::Epoch);
        }
        if self.wedged {
            return Some(DropCause::Wedged);
        }
        None
    }
}
