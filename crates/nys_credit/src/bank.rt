//! The heads of one host's links.

ghost use Rattle.std.specs.Prelude.{◌≡◌, ◌<◌, ℕ, Some, None, IfOk, IfSome, is_some, map, position, slice_set, if◌then◌else◌};
ghost use Rattle.std.specs.List.{range_with_len};
ghost use Rattle.std.specs.Option.{option_or};
ghost use Rattle.nys_hosts.specs.Sets.{has};
ghost use Rattle.nys_votes.specs.Credit.{allows, is_overdue, lowest_overdue};
ghost use Rattle.nys_votes.specs.Seats.{no_seats, seat_of, with_seat};
ghost use Rattle.nys_hosts.specs.declared.limits.TheConstants.{MAX_HOSTS};

use crate::places;
use nys_bytes::{Content, NoMemory};
use nys_hosts::HostSet;
use nys_seats::Seats;
use std::alloc::Global;
use std::marker::Model;

/// The heads of the links into one host: for each link the length that the host's log had when its head
/// first was its head. Links are called by their senders, hosts below 32.
#[derive(Drop)]
pub struct CreditBank {
    credit: u32,
    heads: Seats<u32>,
}

impl Model for CreditBank {
    ghost use Rattle.std.specs.Prelude.{ℕ, List, Option};

    ghost Value = { ℕ × List (Option ℕ) };

    ghost view = { λ b. (b.credit, b.heads) };
}

impl CreditBank {
    /// No heads yet. A head is overdue `credit` slots after the length at which it was recorded.
    pub fn new(alloc: Global, credit: u32) -> Result<CreditBank, NoMemory>
        ensures { IfOk result (λ bank. bank ≡ (credit, no_seats)) }
    {
        let heads = Seats::new(alloc)?;
        Ok(CreditBank { credit, heads })
    }

    /// Records the head of link `p` at this length of the log. A head that is recorded already stays as
    /// it is. Takes no memory.
    pub fn head(&mut self, p: u32, since: u32)
        requires link { p < MAX_HOSTS }
        ensures { self.new ≡ (self.old.0, with_seat p since self.old.1) }
    {
        self.heads.keep(p, since);
    }

    /// Records the heads of these links at this length of the log. A head that is recorded already stays
    /// as it is. Takes no memory.
    pub fn record(&mut self, links: HostSet, since: u32)
        ensures { self.new ≡ (
          self.old.0,
          map
              (λ p. option_or (seat_of self.old.1 p) (if has links p then Some since else None))
              (range_with_len 0 MAX_HOSTS),
        ) }
    {
        places::record(&mut self.heads, links, since);
    }

    /// Forgets the head of link `p`, whose message was taken. Takes no memory.
    pub fn took(&mut self, p: u32)
        requires link { p < MAX_HOSTS }
        ensures { self.new ≡ (self.old.0, slice_set self.old.1 p None) }
    {
        self.heads.clear(p);
    }

    /// The length at which the head of link `p` was recorded. `None` where it has no head.
    pub fn since(&self, p: u32) -> Option<u32>
        requires link { p < MAX_HOSTS }
        ensures { result ≡ seat_of self.now.1 p }
    {
        *self.heads.get(p)
    }

    /// The links whose heads are overdue in the slot. Takes no memory.
    pub fn overdue(&self, slot: u32) -> HostSet
        ensures { (p : ℕ) → has result p ≡ is_overdue self.now.0 slot self.now.1 p }
    {
        places::overdue(&self.heads, self.credit, slot)
    }

    /// The lowest link whose head is overdue in the slot. Takes no memory.
    pub fn lowest_overdue(&self, slot: u32) -> Option<u32>
        ensures found { result ≡ lowest_overdue self.now.0 slot self.now.1 }
        ensures link { IfSome result (λ p. p < MAX_HOSTS) }
    {
        places::lowest_overdue(&self.heads, self.credit, slot)
    }

    /// The lowest link that has a head. Takes no memory.
    pub fn lowest(&self) -> Option<u32>
        ensures found { result ≡ position is_some self.now.1 }
        ensures link { IfSome result (λ p. p < MAX_HOSTS) }
    {
        places::lowest(&self.heads)
    }

    /// Whether the content may stand in the slot: no link's head is overdue, or it is a message of a link
    /// whose head is. Takes no memory.
    #[tactic(auto, unfolding(nys_votes::specs::Credit::allows))]
    pub fn allows(&self, slot: u32, content: &Content) -> bool
        ensures { result ≡ allows self.now.0 slot self.now.1 content.now }
    {
        if self.lowest_overdue(slot).is_none() {
            return true;
        }
        match content {
            Content::External { .. } => false,
            Content::Message { p, .. } => places::is_overdue(&self.heads, self.credit, slot, *p),
        }
    }
}
