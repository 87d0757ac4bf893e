//! The rule Order: a guard orders the offer that it holds for an open slot; its host collects the orders.

ghost use Rattle.std.specs.Prelude.{◌≡◌, ◌<◌, ◌&&◌, ◌==◌, ℕ, IfOk, length, option_copied, OnOk, ◌≤◌, All};
ghost use Rattle.nys_node.specs.Means.{IsMeant, Known, Means};
ghost use Rattle.nys_config.specs.Scopes.{scope_in};
ghost use Rattle.nys_config.specs.Config.{IsConfig};
ghost use Rattle.nys_rules.specs.Heads.{is_allowed, is_attested_next};
ghost use Rattle.nys_rules.specs.Rules.{passing_only, to_order};
ghost use Rattle.nys_rules.specs.Scope.{Scope};
ghost use Rattle.nys_hosts.specs.declared.limits.TheConstants.{MAX_HOSTS};
ghost use Rattle.nys_node.specs.Ready.{IsReady};
ghost use Rattle.nys_node.specs.Sound.{IsScope};
ghost use Rattle.nys_rules.specs.Packets.{joined};
ghost use Rattle.nys_rules.specs.Taking.{acts_of, taken, with_order};
ghost use Rattle.nys_rules.specs.View.{View};
ghost use Rattle.nys_rules.specs.Noting.{at_desk, with_orders, noted_body};
ghost use Rattle.nys_desk.specs.Makers.{IsHost};

use crate::node::Node;
use crate::reading::copied;
use nys_bytes::{Content, NoMemory};
use nys_config::Config;
use nys_rules::Rule;
use nys_sending::outbox::Outbox;
use nys_source::Protocol;
use nys_stmt::{Body, FilledKind, TagList, Tags};
use std::alloc::Global;

impl<P: Protocol> Node<P> {
    /// The offer that it holds.
    fn held_offer(&self, h: u32) -> Option<&Content>
        requires host { h < MAX_HOSTS }
        requires rows { length self.now.desks.items ≡ MAX_HOSTS }
        ensures { (scope : Scope P.State) → Known scope self.now (λ v.
            option_copied result ≡ (v.desks h).held) }
    {
        self.desk(h).held()
    }

    /// Whether a content is an input or attested and next, and the credit rule allows it.
    fn is_orderable(&self, cx: &Config<P>, h: u32, content: &Content) -> bool
        requires host { h < MAX_HOSTS }
        requires meant { IsMeant (scope_in P.rules cx.now) self.now }
        ensures { Known (scope_in P.rules cx.now) self.now (λ v.
            result ≡ (is_attested_next (scope_in P.rules cx.now) v h content.now
            && is_allowed (scope_in P.rules cx.now) v h content.now)) }
    {
        self.is_attested_next(cx, h, content) && self.is_allowed(h, content)
    }

    /// The held offer, where it may be ordered.
    fn held_next(&self, cx: &Config<P>, h: u32) -> Option<&Content>
        requires host { h < MAX_HOSTS }
        requires meant { IsMeant (scope_in P.rules cx.now) self.now }
        ensures { Known (scope_in P.rules cx.now) self.now (λ v.
            option_copied result ≡ passing_only (λ c.
            is_attested_next (scope_in P.rules cx.now) v h c
            && is_allowed (scope_in P.rules cx.now) v h c) (v.desks h).held) }
    {
        match self.held_offer(h) {
            Some(content) => {
                if self.is_orderable(cx, h, content) {
                    Some(content)
                } else {
                    None
                }
            }
            None => None,
        }
    }

    /// The held offer that the node orders, where the rule is enabled.
    fn orderable(&self, cx: &Config<P>, h: u32) -> Option<&Content>
        requires host { h < MAX_HOSTS }
        requires meant { IsMeant (scope_in P.rules cx.now) self.now }
        ensures { Known (scope_in P.rules cx.now) self.now (λ v.
            option_copied result ≡ to_order (scope_in P.rules cx.now) v h) }
    {
        if self.may_say(cx, h, FilledKind::Order) {
            self.held_next(cx, h)
        } else {
            None
        }
    }

    /// A copy of the offer that the node orders, where the rule is enabled.
    pub(crate) fn to_order(
        &self,
        alloc: Global,
        cx: &Config<P>,
        h: u32,
    ) -> Result<Option<Content>, NoMemory>
        requires host { h < MAX_HOSTS }
        requires meant { IsMeant (scope_in P.rules cx.now) self.now }
        ensures { IfOk result (λ found. Known (scope_in P.rules cx.now) self.now (λ v.
            found ≡ to_order (scope_in P.rules cx.now) v h)) }
    {
        copied(alloc, self.orderable(cx, h))
    }

    /// A guard orders the offer that it holds, to the host alone.
    pub(crate) fn take_order(
        &mut self,
        alloc: Global,
        cx: &Config<P>,
        h: u32,
        content: Content,
        out: &mut Outbox,
    ) -> Result<(), NoMemory>
        requires scope { IsScope (scope_in P.rules cx.now) }
        requires ready { IsReady (scope_in P.rules cx.now) self.old (Rule.Order h content) }
        ensures node { OnOk result ((v : View) → Means (scope_in P.rules cx.now) self.old v
            → Means (scope_in P.rules cx.now) self.new
            (taken (scope_in P.rules cx.now) v (Rule.Order h content))) }
        ensures out { OnOk result ((v : View) → Means (scope_in P.rules cx.now) self.old v
            → out.new ≡ joined out.old (acts_of (scope_in P.rules cx.now) v (Rule.Order h content))) }
    {
        let tags = self.say_filled(alloc, cx, FilledKind::Order, h, &content, &[h], out)?;
        self.set_order(h, content, tags);
        Ok(())
    }

    /// Its own Order, with these tags.
    pub(crate) fn set_order(&mut self, h: u32, content: Content, tags: TagList)
        requires host { h < MAX_HOSTS }
        requires rows { length self.old.desks.items ≡ MAX_HOSTS }
        requires me { self.old.me < MAX_HOSTS }
        ensures { (scope : Scope P.State) (v : View) → Means scope self.old v
            → Means scope self.new (at_desk h (with_order (v.me == h) v.me content tags) v) }
    {
        let me = self.me;
        self.desks[h as usize].order(me == h, me, content, tags);
    }

    /// Makers' orders of an offer of the node's own host.
    pub(crate) fn note_orders(&mut self, h: u32, content: &Content, makers: Vec<Tags>)
        requires host { h < MAX_HOSTS }
        requires rows { length self.old.desks.items ≡ MAX_HOSTS }
        requires hosts { All IsHost makers.items }
        ensures { (scope : Scope P.State) (v : View) → Means scope self.old v
            → Means scope self.new (at_desk h (with_orders content.now makers.items) v) }
    {
        self.desks[h as usize].note_orders(content, makers);
    }

    /// Makers' orders: at the host they are collected, elsewhere they may be a certificate.
    pub(crate) fn note_order(
        &mut self,
        alloc: Global,
        cx: &Config<P>,
        h: u32,
        content: &Content,
        makers: Vec<Tags>,
    ) -> Result<(), NoMemory>
        requires config { IsConfig (P.rules cx.now.protocol).hosts cx.now }
        requires host { h < MAX_HOSTS }
        requires rows { length self.old.desks.items ≡ MAX_HOSTS }
        requires hosts { All IsHost makers.items }
        requires few { length makers.items ≤ 33 }
        ensures { OnOk result ((v : View) (e slot : ℕ)
            → Means (scope_in P.rules cx.now) self.old v
            → Means (scope_in P.rules cx.now) self.new (noted_body (scope_in P.rules cx.now) e
            (Body.Filled FilledKind.Order h slot content.now) makers.items v)) }
    {
        if self.me == h {
            self.note_orders(h, content, makers);
            Ok(())
        } else {
            let content = content.copy(alloc)?;
            self.note_certificate(h, self.quorum(cx, h), content, makers.as_slice());
            Ok(())
        }
    }
}
