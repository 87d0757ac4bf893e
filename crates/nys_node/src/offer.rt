//! The rule Offer: what a host offers next, of its own inputs and of the heads of links.

ghost use Rattle.std.specs.Prelude.{◌≡◌, ◌<◌, is_some, IfOk, ◌&&◌, ◌==◌, not, length, is_none, OnOk};
ghost use Rattle.nys_node.specs.Means.{Known, IsMeant, Means};
ghost use Rattle.nys_config.specs.Scopes.{scope_in};
ghost use Rattle.nys_rules.specs.Heads.{candidate, head, lowest_head, oldest_input, overdue_head};
ghost use Rattle.nys_rules.specs.Scope.{Scope};
ghost use Rattle.nys_hosts.specs.declared.limits.TheConstants.{MAX_HOSTS};
ghost use Rattle.nys_rules.specs.Rules.{to_offer};
ghost use Rattle.nys_rules.specs.View.{is_live, is_open, View};
ghost use Rattle.nys_node.specs.Ready.{IsReady};
ghost use Rattle.nys_node.specs.Sound.{IsScope};
ghost use Rattle.nys_rules.specs.Packets.{joined};
ghost use Rattle.nys_rules.specs.Taking.{acts_of, taken, with_offer};
ghost use Rattle.nys_rules.specs.Noting.{at_desk, with_held};

use crate::node::Node;
use nys_bytes::{Content, NoMemory};
use nys_config::Config;
use nys_rules::Rule;
use nys_sending::outbox::Outbox;
use nys_source::Protocol;
use nys_stmt::FilledKind;
use std::alloc::Global;

impl<P: Protocol> Node<P> {
    /// The oldest waiting input.
    fn oldest_input(&self, alloc: Global) -> Result<Option<Content>, NoMemory>
        ensures { IfOk result (λ content. (scope : Scope P.State)
            → Known scope self.now (λ v. content ≡ oldest_input v)) }
    {
        match self.waiting.front() {
            Some(payload) => {
                let payload = payload.copy(alloc)?;
                Ok(Some(Content::External { payload }))
            }
            None => Ok(None),
        }
    }

    /// What the host offers next: the head of the lowest overdue link, else its oldest waiting input,
    /// else the head of the lowest link that has one.
    #[tactic(auto, unfolding(nys_rules::specs::Heads::candidate))]
    pub(crate) fn candidate(
        &self,
        alloc: Global,
        cx: &Config<P>,
        h: u32,
    ) -> Result<Option<Content>, NoMemory>
        requires host { h < MAX_HOSTS }
        ensures { IfOk result (λ content. Known (scope_in P.rules cx.now) self.now (λ v.
            content ≡ candidate (scope_in P.rules cx.now) v h)) }
    {
        let overdue = self.overdue_head(alloc, cx, h)?;
        if overdue.is_some() {
            return Ok(overdue);
        }
        let input = self.oldest_input(alloc)?;
        if input.is_some() {
            return Ok(input);
        }
        self.lowest_head(alloc, cx, h)
    }

    /// Whether the node is the host's, and active.
    pub(crate) fn is_own_active(&self, h: u32) -> bool
        ensures { (scope : Scope P.State) → Known scope self.now (λ v.
            result ≡ (v.me == h && (is_live scope v h && not v.wedged))) }
    {
        self.me == h && (self.live(h) && !self.wedged)
    }

    /// Whether the node is the host's, the slot is open, and it made no Offer for it.
    fn may_offer(&self, cx: &Config<P>, h: u32) -> bool
        requires host { h < MAX_HOSTS }
        requires meant { IsMeant (scope_in P.rules cx.now) self.now }
        ensures { Known (scope_in P.rules cx.now) self.now (λ v.
            result ≡ (v.me == h && (is_open (scope_in P.rules cx.now) v h
            && is_none (v.desks h).offered))) }
    {
        self.me == h && self.may_say(cx, h, FilledKind::Offer)
    }

    /// What the host offers next, where the rule is enabled.
    pub(crate) fn to_offer(
        &self,
        alloc: Global,
        cx: &Config<P>,
        h: u32,
    ) -> Result<Option<Content>, NoMemory>
        requires host { h < MAX_HOSTS }
        requires meant { IsMeant (scope_in P.rules cx.now) self.now }
        ensures { IfOk result (λ found. Known (scope_in P.rules cx.now) self.now (λ v.
            found ≡ to_offer (scope_in P.rules cx.now) v h)) }
    {
        if self.may_offer(cx, h) {
            self.candidate(alloc, cx, h)
        } else {
            Ok(None)
        }
    }

    /// The host offers a content to its guards.
    pub(crate) fn take_offer(
        &mut self,
        alloc: Global,
        cx: &Config<P>,
        h: u32,
        content: Content,
        out: &mut Outbox,
    ) -> Result<(), NoMemory>
        requires scope { IsScope (scope_in P.rules cx.now) }
        requires ready { IsReady (scope_in P.rules cx.now) self.old (Rule.Offer h content) }
        ensures node { OnOk result ((v : View) → Means (scope_in P.rules cx.now) self.old v
            → Means (scope_in P.rules cx.now) self.new
            (taken (scope_in P.rules cx.now) v (Rule.Offer h content))) }
        ensures out { OnOk result ((v : View) → Means (scope_in P.rules cx.now) self.old v
            → out.new ≡ joined out.old (acts_of (scope_in P.rules cx.now) v (Rule.Offer h content))) }
    {
        let guards = self.guards(alloc, cx, h)?;
        let to = guards.as_slice();
        self.say_filled(alloc, cx, FilledKind::Offer, h, &content, to, out)?;
        self.set_offer(alloc, h, content)?;
        Ok(())
    }

    /// Its own Offer, which it holds from then on.
    pub(crate) fn set_offer(
        &mut self,
        alloc: Global,
        h: u32,
        content: Content,
    ) -> Result<(), NoMemory>
        requires host { h < MAX_HOSTS }
        requires rows { length self.old.desks.items ≡ MAX_HOSTS }
        ensures { OnOk result ((scope : Scope P.State) (v : View) → Means scope self.old v
            → Means scope self.new (at_desk h (with_offer content) v)) }
    {
        self.desks[h as usize].offer(alloc, content)?;
        Ok(())
    }

    /// An offer of the host takes the place of the one that is held.
    pub(crate) fn hold(&mut self, h: u32, content: Content)
        requires host { h < MAX_HOSTS }
        requires rows { length self.old.desks.items ≡ MAX_HOSTS }
        ensures { (scope : Scope P.State) (v : View) → Means scope self.old v
            → Means scope self.new (at_desk h (with_held content) v) }
    {
        self.desks[h as usize].hold(content);
    }

    /// An offer.
    pub(crate) fn note_offer(
        &mut self,
        alloc: Global,
        h: u32,
        content: &Content,
    ) -> Result<(), NoMemory>
        requires host { h < MAX_HOSTS }
        requires rows { length self.old.desks.items ≡ MAX_HOSTS }
        ensures { OnOk result ((scope : Scope P.State) (v : View) → Means scope self.old v
            → Means scope self.new (at_desk h (with_held content.now) v)) }
    {
        let content = content.copy(alloc)?;
        self.hold(h, content);
        Ok(())
    }
}
