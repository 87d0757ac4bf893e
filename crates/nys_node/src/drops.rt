//! The table of drops: the first test that a record fails before its makers are looked at.

ghost use Rattle.std.specs.Prelude.{◌≡◌, ◌≢◌, ℕ, List, ◌<◌, ◌&&◌, ◌==◌, not, IfNone, IfSome, Some, None};
ghost use Rattle.nys_node.specs.HeadDrops.{head_drop, is_entry, is_inherit, kind_drop};
ghost use Rattle.nys_node.specs.Means.{Known};
ghost use Rattle.nys_config.specs.Scopes.{scope_in};
ghost use Rattle.nys_rules.specs.Dropping.{if_current, misplaced, verdict, vote_drop};
ghost use Rattle.nys_rules.specs.Handling.{dropped_by, Handles};
ghost use Rattle.nys_rules.specs.Scope.{Scope};
ghost use Rattle.nys_wire.specs.Heads.{head_in, head_of};

use crate::node::Node;
use nys_config::Config;
use nys_rules::DropCause;
use nys_source::Protocol;
use nys_stmt::{FilledKind, Record, Statement};
use nys_wire::{Head, Kind, RecordRef};

/// Whether it is the kind of an Inherit.
fn is_inherit(kind: Kind) -> bool
    ensures { result ≡ is_inherit kind }
{
    match kind {
        Kind::Filled(filled) => is_entry(filled),
        Kind::Attest | Kind::Ask | Kind::Wedge => false,
        Kind::Frozen | Kind::Open => false,
    }
}

/// The same of what is said of a content.
fn is_entry(kind: FilledKind) -> bool
    ensures { result ≡ is_entry kind }
{
    match kind {
        FilledKind::Inherit => true,
        FilledKind::Offer | FilledKind::Order | FilledKind::Deliver => false,
        FilledKind::Report => false,
    }
}

impl<P: Protocol> Node<P> {
    /// The first test that an Offer, an Order or a Deliver fails before its makers are looked at.
    fn vote_drop(&self, epoch: u32, h: u32, slot: u32) -> Option<DropCause>
        ensures { (scope : Scope P.State) → Known scope self.now (λ v.
            result ≡ if_current v epoch (vote_drop scope v h slot)) }
    {
        if epoch != self.epoch {
            return Some(DropCause::Epoch);
        }
        if self.wedged {
            return Some(DropCause::Wedged);
        }
        if !self.live(h) {
            return Some(DropCause::NotGuard);
        }
        if self.is_open(h) && slot == self.log_len(h) {
            None
        } else {
            Some(DropCause::Slot)
        }
    }

    /// The first test that what is said of a content fails before the content is looked at.
    fn filled_head_drop(&self, epoch: u32, kind: FilledKind, h: u32, slot: u32) -> Option<DropCause>
        ensures { (scope : Scope P.State) → Known scope self.now (λ v. (p : ℕ)
            → result ≡ kind_drop scope v epoch p h slot (Kind.Filled kind)) }
    {
        match kind {
            FilledKind::Offer => self.vote_drop(epoch, h, slot),
            FilledKind::Order => self.vote_drop(epoch, h, slot),
            FilledKind::Deliver => self.vote_drop(epoch, h, slot),
            FilledKind::Report => Some(DropCause::NotMine),
            FilledKind::Inherit => self.entry_drop(epoch, h, slot),
        }
    }

    /// The first test that a statement with this head fails, as far as the head tells.
    fn head_drop(&self, cx: &Config<P>, head: &Head) -> Option<DropCause>
        ensures { Known (scope_in P.rules cx.now) self.now (λ v.
            result ≡ head_drop (scope_in P.rules cx.now) v head.now) }
    {
        match head.kind {
            Kind::Filled(kind) => self.filled_head_drop(head.epoch, kind, head.h, head.at),
            Kind::Attest => self.attest_drop(cx, head.epoch, head.p, head.h, head.at),
            Kind::Ask => self.ask_drop(head.epoch, head.h, head.at),
            Kind::Wedge => self.wedge_drop(head.epoch),
            Kind::Frozen => Some(DropCause::NotMine),
            Kind::Open => self.open_drop(cx, head.epoch, head.at),
        }
    }

    /// Why the node drops each record with this head, if the head tells that. Where it tells none, a
    /// statement with this head has its place at the node, unless it is an `Inherit`, whose content may
    /// not fit. Nothing is changed, and no memory is taken.
    pub fn drops(&self, cx: &Config<P>, head: &Head) -> Option<DropCause>
        ensures some { IfSome result (λ cause. Known (scope_in P.rules cx.now) self.now (λ v. (r : Record)
            → head_of r.statement ≡ head.now
            → verdict (scope_in P.rules cx.now) v r ≡ Some cause)) }
        ensures none { IfNone result (Known (scope_in P.rules cx.now) self.now (λ v. (s : Statement)
            → head_of s ≡ head.now → head.now.kind ≢ Kind.Filled FilledKind.Inherit
            → misplaced (scope_in P.rules cx.now) v s ≡ None)) }
        // what `handle` answers to bytes that are such a record
        ensures handled { IfSome result
            (λ cause. Known (scope_in P.rules cx.now) self.now (λ v. (frame : List ℕ)
            → head_in frame ≡ Some head.now
            → Handles (scope_in P.rules cx.now) v frame v (dropped_by cause))) }
    {
        self.head_drop(cx, head)
    }

    /// The first test that a record fails before its makers are looked at: that of its head, and for an
    /// Inherit whether its content fits. Takes no memory.
    pub(crate) fn misplaced(&self, cx: &Config<P>, given: &RecordRef) -> Option<DropCause>
        ensures { Known (scope_in P.rules cx.now) self.now (λ v.
            result ≡ misplaced (scope_in P.rules cx.now) v given.now.statement) }
    {
        let head = given.head();
        if is_inherit(head.kind) {
            self.inherit_drop(cx, head.epoch, head.h, head.at, given.message())
        } else {
            self.head_drop(cx, &head)
        }
    }
}
