//! The orders of one offer.

ghost use Rattle.std.specs.Prelude.{◌≡◌, ◌≢◌, ◌<◌, ◌≤◌, ◌+◌, [], ◌∷◌, ◌++◌, ℕ, Ok, All, true, not, length, IfOk, OnOk};
ghost use Rattle.nys_hosts.specs.Sets.{has};
ghost use Rattle.nys_order.specs.Orders.{IsOrder, collected, certificate_of};
ghost use Rattle.nys_votes.specs.Ordered.{makers_from, makers_of};
ghost use Rattle.nys_votes.specs.Seats.{count_all, is_seated, no_seats};
ghost use Rattle.nys_hosts.specs.declared.limits.TheConstants.{MAX_HOSTS};

use nys_bytes::NoMemory;
use nys_hosts::HostSet;
use nys_seats::Seats;
use nys_stmt::{MakerList, Record, Statement, TagList, Tags};
use std::alloc::Global;
use std::marker::Model;

/// The orders that a host has collected for its own offer: who made one, with its tags. Makers are hosts
/// below 32, and each counts once.
#[derive(Drop)]
pub struct OrderSlot {
    statement: Statement,
    held: Seats<TagList>,
}

impl Model for OrderSlot {
    ghost use Rattle.nys_order.specs.Orders.{Orders, IsOrder};

    ghost Value = { Orders };

    ghost view = { λ o. record { statement = o.statement; seats = o.held } };

    ghost invariant = { λ o. IsOrder o.statement.body };
}

impl OrderSlot {
    /// No orders yet, for the Order that the makers are to make.
    pub fn new(alloc: Global, statement: Statement) -> Result<OrderSlot, NoMemory>
        requires order { IsOrder statement.body }
        ensures statement { IfOk result (λ slot. slot.statement ≡ statement) }
        ensures seats { IfOk result (λ slot. slot.seats ≡ no_seats) }
    {
        let held = Seats::new(alloc)?;
        Ok(OrderSlot { statement, held })
    }

    /// Keeps the own order of host `me`, like any other maker's.
    pub fn vote(&mut self, me: u32, tags: TagList) -> Result<bool, NoMemory>
        requires me { me < MAX_HOSTS }
        ensures again { IfOk result (λ kept. kept ≡ not (is_seated self.old.seats me)) }
        ensures kept { OnOk result (self.new ≡ collected me tags self.old) }
        ensures same { result ≢ Ok true → self.new ≡ self.old }
    {
        self.collect(me, tags)
    }

    /// Keeps the order of a maker. Where one is kept already it answers `false`, and nothing changes.
    #[tactic(auto, unfolding(crate::specs::Orders::collected, nys_votes::specs::Seats::with_seat))]
    pub fn collect(&mut self, maker: u32, tags: TagList) -> Result<bool, NoMemory>
        requires maker { maker < MAX_HOSTS }
        ensures again { IfOk result (λ kept. kept ≡ not (is_seated self.old.seats maker)) }
        ensures kept { OnOk result (self.new ≡ collected maker tags self.old) }
        ensures same { result ≢ Ok true → self.new ≡ self.old }
    {
        Ok(self.held.keep(maker, tags))
    }

    /// The makers that are kept.
    pub fn makers(&self) -> HostSet
        ensures { (h : ℕ) → has result h ≡ is_seated self.now.seats h }
    {
        self.held.makers()
    }

    /// How many makers are kept.
    pub fn count(&self) -> u32
        ensures count { result ≡ count_all self.now.seats }
        ensures few { result ≤ MAX_HOSTS }
        ensures seats { length self.now.seats ≡ MAX_HOSTS }
    {
        self.held.count()
    }

    /// The record of the Order with all makers, rising, and their tags, where there are `q` or more.
    #[tactic(auto, unfolding(crate::specs::Orders::certificate_of))]
    pub fn certificate(&self, alloc: Global, q: u32) -> Result<Option<Record>, NoMemory>
        requires quorum { 1 ≤ q }
        ensures { IfOk result (λ found. found ≡ certificate_of q self.now) }
    {
        if self.held.count() < q {
            return Ok(None);
        }
        let statement = self.statement.copy(alloc)?;
        let makers = makers_with_tags(alloc, &self.held)?;
        Ok(Some(Record { statement, makers }))
    }
}

/// The makers that are kept, rising, with their tags.
#[tactic(auto, unfolding(nys_votes::specs::Ordered::makers_of))]
pub fn makers_with_tags(alloc: Global, held: &Seats<TagList>) -> Result<MakerList, NoMemory>
    ensures { IfOk result (λ makers. makers ≡ makers_of held.now) }
{
    let mut makers = MakerList::new(alloc);
    for maker in 0..held.len() {
        put_maker(alloc, &mut makers, maker, held.get(maker))?;
    }
    Ok(makers)
}

fn put_maker(
    alloc: Global,
    makers: &mut MakerList,
    maker: u32,
    seat: &Option<TagList>,
) -> Result<(), NoMemory>
    requires maker { maker < MAX_HOSTS }
    requires above { All (λ t. t.maker < maker) makers.old }
    ensures above { OnOk result (All (λ t. t.maker < maker + 1) makers.new) }
    ensures put { OnOk result (makers.new ≡ makers.old ++ makers_from maker (seat.now ∷ [])) }
{
    if let Some(tags) = seat {
        let tags = tags.copy(alloc)?;
        makers.push(Tags { maker, tags })?;
    }
    Ok(())
}
