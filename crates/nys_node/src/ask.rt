//! Questions: a node asks about each host that is live at it, and answers what others ask.

ghost use Rattle.std.specs.Prelude.{◌≡◌, ◌<◌, ◌∷◌, [], ◌&&◌, filter, map, OnOk, IsTrue, Some, None};
ghost use Rattle.nys_node.specs.Asked.{asked_all, asked_of, is_asked};
ghost use Rattle.nys_node.specs.Means.{HasView, IsViewOf, Known};
ghost use Rattle.nys_config.specs.Scopes.{scope_in};
ghost use Rattle.nys_config.specs.Config.{IsConfig};
ghost use Rattle.nys_rules.specs.Asking.{questions, answering};
ghost use Rattle.nys_rules.specs.Packets.{all_joined, joined};
ghost use Rattle.nys_rules.specs.Scope.{Scope};
ghost use Rattle.nys_rules.specs.View.{length_of, View};
ghost use Rattle.nys_rules.specs.Dropping.{ask_drop, if_current};
ghost use Rattle.nys_hosts.specs.declared.limits.TheConstants.{MAX_HOSTS};
ghost use Rattle.nys_node.specs.Replies.{answer_records, CanTell};
ghost use Rattle.nys_sending.specs.Receivers.{replied};

use crate::node::Node;
use nys_bytes::NoMemory;
use nys_config::Config;
use nys_hosts::{MAX_HOSTS, MAX_SLOTS};
use nys_rules::DropCause;
use nys_sending::outbox::Outbox;
use nys_source::Protocol;
use nys_stmt::{Body, Tags};
use std::alloc::Global;

impl<P: Protocol> Node<P> {
    /// Whether the node asks about a host: the host is live at it, and its log has room.
    fn is_asked(&self, h: u32) -> bool
        ensures value { (scope : Scope P.State) → Known scope self.now (λ v. result ≡ is_asked scope v h) }
        ensures host { IsTrue result → h < MAX_HOSTS }
        ensures room { (scope : Scope P.State) → Known scope self.now (λ v.
            IsTrue result → length_of v h < MAX_SLOTS) }
    {
        self.live(h) && self.log_len(h) < MAX_SLOTS as u32
    }

    /// The question about a host that the node asks about.
    fn ask_for(
        &self,
        alloc: Global,
        cx: &Config<P>,
        h: u32,
        out: &mut Outbox,
    ) -> Result<(), NoMemory>
        requires config { IsConfig (P.rules cx.now.protocol).hosts cx.now }
        requires means { (v : View) × IsViewOf (scope_in P.rules cx.now) self.now v
            × (length_of v h < MAX_SLOTS) }
        requires host { h < MAX_HOSTS }
        ensures { OnOk result (Known (scope_in P.rules cx.now) self.now (λ v.
            out.new ≡ joined out.old (asked_of (scope_in P.rules cx.now) v h))) }
    {
        let slot = self.log_len(h);
        self.tell_guards(alloc, cx, h, Body::Ask { h, slot }, out)?;
        Ok(())
    }

    /// The question about a host, where the node asks about it.
    fn ask_about(
        &self,
        alloc: Global,
        cx: &Config<P>,
        h: u32,
        out: &mut Outbox,
    ) -> Result<(), NoMemory>
        requires config { IsConfig (P.rules cx.now.protocol).hosts cx.now }
        requires means { HasView (scope_in P.rules cx.now) self.now }
        ensures { OnOk result (Known (scope_in P.rules cx.now) self.now (λ v.
            out.new ≡ joined out.old (all_joined (map (asked_of (scope_in P.rules cx.now) v)
            (filter (is_asked (scope_in P.rules cx.now) v) (h ∷ [])))))) }
    {
        if self.is_asked(h) {
            self.ask_for(alloc, cx, h, out)?;
        }
        Ok(())
    }

    /// The questions about all hosts.
    fn ask_each(&self, alloc: Global, cx: &Config<P>, out: &mut Outbox) -> Result<(), NoMemory>
        requires config { IsConfig (P.rules cx.now.protocol).hosts cx.now }
        requires means { HasView (scope_in P.rules cx.now) self.now }
        ensures { OnOk result (Known (scope_in P.rules cx.now) self.now (λ v.
            out.new ≡ joined out.old (asked_all (scope_in P.rules cx.now) v))) }
    {
        for h in 0..MAX_HOSTS as u32 {
            self.ask_about(alloc, cx, h, out)?;
        }
        Ok(())
    }

    /// The questions of a node: a wedged one asks nothing.
    #[tactic(auto, unfolding(nys_rules::specs::Asking::questions))]
    pub(crate) fn ask_all(
        &self,
        alloc: Global,
        cx: &Config<P>,
        out: &mut Outbox,
    ) -> Result<(), NoMemory>
        requires config { IsConfig (P.rules cx.now.protocol).hosts cx.now }
        requires means { HasView (scope_in P.rules cx.now) self.now }
        ensures { OnOk result (Known (scope_in P.rules cx.now) self.now (λ v.
            out.new ≡ joined out.old (questions (scope_in P.rules cx.now) v))) }
    {
        if self.wedged {
            return Ok(());
        }
        self.ask_each(alloc, cx, out)?;
        Ok(())
    }

    /// The first test that an Ask fails before its makers are looked at.
    pub(crate) fn ask_drop(&self, epoch: u32, h: u32, slot: u32) -> Option<DropCause>
        ensures { (scope : Scope P.State) → Known scope self.now (λ v.
            result ≡ if_current v epoch (ask_drop scope v h slot)) }
    {
        if epoch != self.epoch {
            return Some(DropCause::Epoch);
        }
        if self.wedged {
            return Some(DropCause::Wedged);
        }
        if !self.live(h) {
            return Some(DropCause::NotGuard);
        }
        if slot <= self.log_len(h) {
            None
        } else {
            Some(DropCause::Slot)
        }
    }

    /// All that it answers one asker.
    fn answer(
        &self,
        alloc: Global,
        cx: &Config<P>,
        asker: u32,
        h: u32,
        slot: u32,
        out: &mut Outbox,
    ) -> Result<(), NoMemory>
        requires config { IsConfig (P.rules cx.now.protocol).hosts cx.now }
        requires means { HasView (scope_in P.rules cx.now) self.now }
        requires host { h < MAX_HOSTS }
        requires some { CanTell (scope_in P.rules cx.now) self.now h }
        ensures { OnOk result (Known (scope_in P.rules cx.now) self.now (λ v.
            out.new ≡ joined out.old (replied v.me asker
            (answer_records (scope_in P.rules cx.now) v h slot asker)))) }
    {
        self.reply_slot(alloc, cx, asker, h, slot, out)?;
        self.reply_links(alloc, cx, asker, h, out)?;
        Ok(())
    }

    /// What it answers the makers of a question.
    pub(crate) fn answer_all(
        &self,
        alloc: Global,
        cx: &Config<P>,
        h: u32,
        slot: u32,
        makers: &[Tags],
        out: &mut Outbox,
    ) -> Result<(), NoMemory>
        requires config { IsConfig (P.rules cx.now.protocol).hosts cx.now }
        requires means { HasView (scope_in P.rules cx.now) self.now }
        requires host { h < MAX_HOSTS }
        requires some { CanTell (scope_in P.rules cx.now) self.now h }
        ensures { OnOk result (Known (scope_in P.rules cx.now) self.now (λ v.
            out.new ≡ joined out.old (answering (scope_in P.rules cx.now) v h slot
            makers.now))) }
    {
        for i in 0..makers.len() {
            let tags = &makers[i];
            self.answer(alloc, cx, tags.maker, h, slot, out)?;
        }
        Ok(())
    }
}
