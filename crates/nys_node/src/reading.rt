//! What a node has of a host: its replica, its log, what it keeps about the open slot.

ghost use Rattle.std.specs.Prelude.{◌≡◌, ◌<◌, length, slice_get, IfNone, IfSome, IsTrue, Some, None, ◌&&◌, ◌==◌, IfOk, is_none, option_copied};
ghost use Rattle.nys_hosts.specs.Sets.{has};
ghost use Rattle.nys_node.specs.Means.{IsMeant, Known};
ghost use Rattle.nys_config.specs.Scopes.{scope_in};
ghost use Rattle.nys_rules.specs.Logging.{fits};
ghost use Rattle.nys_rules.specs.Scope.{Scope, quorum_at};
ghost use Rattle.nys_rules.specs.View.{has_reached, is_live, is_open, length_of, next_number};
ghost use Rattle.nys_hosts.specs.declared.limits.TheConstants.{MAX_HOSTS};
ghost use Rattle.nys_node.specs.Said.{said_at};
ghost use Rattle.nys_config.specs.Config.{IsConfig};

use crate::node::Node;
use nys_bytes::{Content, NoMemory};
use nys_config::{Config, guards_of, hosts, linked, threshold};
use nys_desk::Desk;
use nys_hosts::{MAX_SLOTS, quorum};
use nys_replica::Replica;
use nys_source::Protocol;
use nys_stmt::FilledKind;
use std::alloc::Global;

/// A copy of the content that was found, if one was.
pub(crate) fn copied(alloc: Global, found: Option<&Content>) -> Result<Option<Content>, NoMemory>
    ensures { IfOk result (λ copy. copy ≡ option_copied found.entry) }
{
    match found {
        Some(content) => Ok(Some(content.copy(alloc)?)),
        None => Ok(None),
    }
}

impl<P: Protocol> Node<P> {
    /// Whether the node accepted that its epoch ends.
    pub fn wedged(&self) -> bool
        ensures { (scope : Scope P.State) → Known scope self.now (λ v. result ≡ v.wedged) }
    {
        self.wedged
    }

    /// Whether the node guards the host in its epoch and the host isn't retired.
    #[tactic(auto, unfolding(nys_hosts::specs::Masks::in_mask))]
    pub fn live(&self, h: u32) -> bool
        ensures value { (scope : Scope P.State) → Known scope self.now (λ v. result ≡ is_live scope v h) }
        ensures host { IsTrue result → h < MAX_HOSTS }
    {
        self.live.contains(h)
    }

    /// The replica of a host, if the node guards it or did.
    pub fn replica(&self, h: u32) -> Option<&Replica<P>>
        ensures some { IfSome result (λ replica.
            slice_get self.now.replicas.items h ≡ Some (Some replica.now)) }
        ensures none { IfNone result (h < length self.now.replicas.items
            → slice_get self.now.replicas.items h ≡ Some None) }
    {
        match self.replicas.get(h as usize) {
            Some(Some(replica)) => Some(replica),
            Some(None) => None,
            None => None,
        }
    }

    /// How many entries the log of a host has; the host is below 32.
    pub(crate) fn log_len(&self, h: u32) -> u32
        requires { h < MAX_HOSTS }
        ensures { (scope : Scope P.State) → Known scope self.now (λ v. result ≡ length_of v h) }
    {
        match self.replica(h) {
            Some(replica) => replica.len(),
            None => 0,
        }
    }

    /// Whether the log of a host has reached the base of the epoch.
    pub(crate) fn has_reached(&self, h: u32) -> bool
        requires { h < MAX_HOSTS }
        ensures { (scope : Scope P.State) → Known scope self.now (λ v. result ≡ has_reached v h) }
    {
        self.base[h as usize] <= self.log_len(h)
    }

    /// Whether the slot behind the log of a host is open.
    #[tactic(auto, unfolding(nys_rules::specs::View::is_open))]
    pub(crate) fn is_open(&self, h: u32) -> bool
        ensures { (scope : Scope P.State) → Known scope self.now (λ v. result ≡ is_open scope v h) }
    {
        self.live(h) && !self.wedged && self.has_reached(h) && self.log_len(h) < MAX_SLOTS as u32
    }

    /// The number of the message of `p` that comes next in the log of `h`.
    #[tactic(auto, unfolding(nys_rules::specs::View::next_number))]
    pub(crate) fn next_number(&self, p: u32, h: u32) -> u32
        requires sender { p < MAX_HOSTS }
        requires host { h < MAX_HOSTS }
        ensures { (scope : Scope P.State) → Known scope self.now (λ v. result ≡ next_number scope v p h) }
    {
        match self.replica(h) {
            Some(replica) => replica.next(p),
            None => 0,
        }
    }

    /// Whether the content fits the log of a host: an input, or a neighbour's message with the number that
    /// comes next.
    #[tactic(auto, unfolding(nys_rules::specs::Logging::fits, nys_config::specs::Scopes::scope_of))]
    pub(crate) fn fits(&self, cx: &Config<P>, h: u32, content: &Content) -> bool
        requires { h < MAX_HOSTS }
        ensures { Known (scope_in P.rules cx.now) self.now (λ v.
            result ≡ fits (scope_in P.rules cx.now) v h content.now) }
    {
        match content {
            Content::External { .. } => true,
            Content::Message { p, k, .. } => {
                *p < hosts(cx) && linked(cx, *p, h) && *k == self.next_number(*p, h)
            }
        }
    }

    /// What it keeps about the open slot of a host.
    pub(crate) fn desk(&self, h: u32) -> &Desk
        requires host { h < MAX_HOSTS }
        requires rows { length self.now.desks.items ≡ MAX_HOSTS }
        ensures { (scope : Scope P.State) → Known scope self.now (λ v. result.now ≡ v.desks h) }
    {
        &self.desks[h as usize]
    }

    /// What it said itself of a content in the open slot of a host, by the kind of its statement.
    pub(crate) fn said(&self, h: u32, kind: FilledKind) -> Option<&Content>
        requires host { h < MAX_HOSTS }
        requires rows { length self.now.desks.items ≡ MAX_HOSTS }
        ensures { (scope : Scope P.State) → Known scope self.now (λ v.
            option_copied result ≡ said_at kind (v.desks h)) }
    {
        let desk = self.desk(h);
        match kind {
            FilledKind::Offer => desk.offered(),
            FilledKind::Order => desk.ordered(),
            FilledKind::Deliver => desk.delivered(),
            FilledKind::Report => None,
            FilledKind::Inherit => None,
        }
    }

    /// Whether it said nothing of this kind in the open slot of a host.
    fn is_unsaid(&self, h: u32, kind: FilledKind) -> bool
        requires host { h < MAX_HOSTS }
        requires rows { length self.now.desks.items ≡ MAX_HOSTS }
        ensures { (scope : Scope P.State) → Known scope self.now (λ v.
            result ≡ is_none (said_at kind (v.desks h))) }
    {
        self.said(h, kind).is_none()
    }

    /// Whether the slot is open, and it said nothing of this kind in it.
    pub(crate) fn may_say(&self, cx: &Config<P>, h: u32, kind: FilledKind) -> bool
        requires host { h < MAX_HOSTS }
        requires meant { IsMeant (scope_in P.rules cx.now) self.now }
        ensures { Known (scope_in P.rules cx.now) self.now (λ v.
            result ≡ (is_open (scope_in P.rules cx.now) v h
            && is_none (said_at kind (v.desks h)))) }
    {
        self.is_open(h) && self.is_unsaid(h, kind)
    }

    /// How many guards of a host are a quorum in the epoch of the node.
    pub(crate) fn quorum(&self, cx: &Config<P>, h: u32) -> u32
        requires config { IsConfig (P.rules cx.now.protocol).hosts cx.now }
        ensures { Known (scope_in P.rules cx.now) self.now (λ v.
            result ≡ quorum_at (scope_in P.rules cx.now) v.epoch h) }
    {
        quorum(
            guards_of(cx, self.epoch, h).count(),
            threshold(cx, self.epoch, h),
        )
    }
}
