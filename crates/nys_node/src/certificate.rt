//! The rule Certificate: the host sends the orders that it collected, and a guard counts them.

ghost use Rattle.std.specs.Prelude.{◌≡◌, ◌<◌, ◌&&◌, ◌==◌, not, nat_lt, IfOk, length, option_copied, OnOk, ◌≤◌};
ghost use Rattle.nys_node.specs.Means.{IsMeant, Known, Means};
ghost use Rattle.nys_config.specs.Scopes.{scope_in};
ghost use Rattle.nys_config.specs.Config.{IsConfig};
ghost use Rattle.nys_rules.specs.Rules.{is_certified, only_if, ordered_content, to_certify};
ghost use Rattle.nys_rules.specs.Scope.{Scope};
ghost use Rattle.nys_rules.specs.View.{is_live, View};
ghost use Rattle.nys_votes.specs.Seats.{count_all};
ghost use Rattle.nys_hosts.specs.declared.limits.TheConstants.{MAX_HOSTS};
ghost use Rattle.nys_node.specs.Ready.{IsReady};
ghost use Rattle.nys_node.specs.Sound.{IsScope};
ghost use Rattle.nys_rules.specs.Packets.{joined};
ghost use Rattle.nys_rules.specs.Taking.{acts_of, taken, with_sent};
ghost use Rattle.nys_rules.specs.Noting.{at_desk, with_certificate};

use crate::node::Node;
use crate::reading::copied;
use nys_bytes::{Content, NoMemory};
use nys_config::Config;
use nys_rules::Rule;
use nys_sending::outbox::Outbox;
use nys_source::Protocol;
use nys_stmt::{FilledKind, Tags};
use std::alloc::Global;

impl<P: Protocol> Node<P> {
    /// The content of the certificate that it counted.
    fn certified(&self, h: u32) -> Option<&Content>
        requires host { h < MAX_HOSTS }
        requires rows { length self.now.desks.items ≡ MAX_HOSTS }
        ensures { (scope : Scope P.State) → Known scope self.now (λ v.
            option_copied result ≡ (v.desks h).certified) }
    {
        self.desk(h).certified()
    }

    /// Whether the makers that it collected are a quorum.
    fn is_certified(&self, cx: &Config<P>, h: u32) -> bool
        requires host { h < MAX_HOSTS }
        requires config { IsConfig (P.rules cx.now.protocol).hosts cx.now }
        requires meant { IsMeant (scope_in P.rules cx.now) self.now }
        ensures { Known (scope_in P.rules cx.now) self.now (λ v.
            result ≡ is_certified (scope_in P.rules cx.now) v h) }
    {
        self.quorum(cx, h) <= self.desk(h).collected()
    }

    /// Whether it collected orders of more makers than it sent last.
    fn has_more_makers(&self, h: u32) -> bool
        requires host { h < MAX_HOSTS }
        requires rows { length self.now.desks.items ≡ MAX_HOSTS }
        ensures { (scope : Scope P.State) → Known scope self.now (λ v.
            result ≡ nat_lt (v.desks h).sent (count_all (v.desks h).orders)) }
    {
        self.desk(h).sent() < self.desk(h).collected()
    }

    /// Whether the node is the host's and active, and has orders of a quorum and of more makers than it
    /// sent last.
    fn may_certify(&self, cx: &Config<P>, h: u32) -> bool
        requires host { h < MAX_HOSTS }
        requires config { IsConfig (P.rules cx.now.protocol).hosts cx.now }
        requires meant { IsMeant (scope_in P.rules cx.now) self.now }
        ensures { Known (scope_in P.rules cx.now) self.now (λ v.
            result ≡ ((v.me == h && (is_live (scope_in P.rules cx.now) v h
            && not v.wedged)) && (is_certified (scope_in P.rules cx.now) v h
            && nat_lt (v.desks h).sent (count_all (v.desks h).orders)))) }
    {
        self.is_own_active(h) && (self.is_certified(cx, h) && self.has_more_makers(h))
    }

    /// The offer that the host certifies, where the rule is enabled.
    fn certifiable(&self, cx: &Config<P>, h: u32) -> Option<&Content>
        requires host { h < MAX_HOSTS }
        requires config { IsConfig (P.rules cx.now.protocol).hosts cx.now }
        requires meant { IsMeant (scope_in P.rules cx.now) self.now }
        ensures { Known (scope_in P.rules cx.now) self.now (λ v.
            option_copied result ≡ to_certify (scope_in P.rules cx.now) v h) }
    {
        if self.may_certify(cx, h) {
            self.said(h, FilledKind::Offer)
        } else {
            None
        }
    }

    /// A copy of the content that the host certifies, where the rule is enabled.
    pub(crate) fn to_certify(
        &self,
        alloc: Global,
        cx: &Config<P>,
        h: u32,
    ) -> Result<Option<Content>, NoMemory>
        requires host { h < MAX_HOSTS }
        requires config { IsConfig (P.rules cx.now.protocol).hosts cx.now }
        requires meant { IsMeant (scope_in P.rules cx.now) self.now }
        ensures { IfOk result (λ found. Known (scope_in P.rules cx.now) self.now (λ v.
            found ≡ to_certify (scope_in P.rules cx.now) v h)) }
    {
        copied(alloc, self.certifiable(cx, h))
    }

    /// Its offer, where it collected orders of a quorum.
    fn ordered_here(&self, cx: &Config<P>, h: u32) -> Option<&Content>
        requires host { h < MAX_HOSTS }
        requires config { IsConfig (P.rules cx.now.protocol).hosts cx.now }
        requires meant { IsMeant (scope_in P.rules cx.now) self.now }
        ensures { Known (scope_in P.rules cx.now) self.now (λ v.
            option_copied result ≡ only_if (is_certified (scope_in P.rules cx.now) v h) (v.desks h).offered) }
    {
        if self.is_certified(cx, h) {
            self.said(h, FilledKind::Offer)
        } else {
            None
        }
    }

    /// The content that is ordered.
    pub(crate) fn ordered_content(&self, cx: &Config<P>, h: u32) -> Option<&Content>
        requires host { h < MAX_HOSTS }
        requires config { IsConfig (P.rules cx.now.protocol).hosts cx.now }
        requires meant { IsMeant (scope_in P.rules cx.now) self.now }
        ensures { Known (scope_in P.rules cx.now) self.now (λ v.
            option_copied result ≡ ordered_content (scope_in P.rules cx.now) v h) }
    {
        if self.me == h {
            self.ordered_here(cx, h)
        } else {
            self.certified(h)
        }
    }

    /// The host sends the orders that it collected to its other guards.
    pub(crate) fn take_certificate(
        &mut self,
        alloc: Global,
        cx: &Config<P>,
        h: u32,
        content: Content,
        out: &mut Outbox,
    ) -> Result<(), NoMemory>
        requires scope { IsScope (scope_in P.rules cx.now) }
        requires ready { IsReady (scope_in P.rules cx.now) self.old (Rule.Certificate h content) }
        ensures node { OnOk result ((v : View) → Means (scope_in P.rules cx.now) self.old v
            → Means (scope_in P.rules cx.now) self.new
            (taken (scope_in P.rules cx.now) v (Rule.Certificate h content))) }
        ensures out { OnOk result ((v : View) → Means (scope_in P.rules cx.now) self.old v
            → out.new ≡ joined out.old (acts_of (scope_in P.rules cx.now) v (Rule.Certificate h content))) }
    {
        let own = self.certificate(alloc, h, &content)?;
        let guards = self.guards(alloc, cx, h)?;
        out.send(alloc, self.me, &own, guards.as_slice())?;
        self.set_sent(h);
        Ok(())
    }

    /// It sent a certificate with all makers that it collected.
    pub(crate) fn set_sent(&mut self, h: u32)
        requires host { h < MAX_HOSTS }
        requires rows { length self.old.desks.items ≡ MAX_HOSTS }
        ensures { (scope : Scope P.State) (v : View) → Means scope self.old v
            → Means scope self.new (at_desk h with_sent v) }
    {
        self.desks[h as usize].mark_sent();
    }

    /// A record with makers' orders of an offer of another host.
    pub(crate) fn note_certificate(
        &mut self,
        h: u32,
        quorum: u32,
        content: Content,
        makers: &[Tags],
    )
        requires host { h < MAX_HOSTS }
        requires rows { length self.old.desks.items ≡ MAX_HOSTS }
        requires few { length makers.now ≤ 33 }
        ensures { (scope : Scope P.State) (v : View) → Means scope self.old v
            → Means scope self.new (at_desk h (with_certificate quorum content makers.now) v) }
    {
        self.desks[h as usize].note_certificate(quorum, content, makers);
    }
}
