//! The places of heads.

ghost use Rattle.std.specs.Prelude.{◌≡◌, ◌≤◌, ◌<◌, ℕ, ◌&&◌, ◌==◌, nat_lt, length, is_some, position, IfSome, Some, None, map, if◌then◌else◌};
ghost use Rattle.std.specs.List.{range_with_len};
ghost use Rattle.std.specs.Option.{option_or};
ghost use Rattle.nys_hosts.specs.Sets.{has};
ghost use Rattle.nys_votes.specs.Credit.{is_late, is_overdue, lowest_overdue};
ghost use Rattle.nys_votes.specs.Seats.{passes, seat_of};
ghost use Rattle.nys_hosts.specs.declared.limits.TheConstants.{MAX_HOSTS};

use nys_hosts::HostSet;
use nys_seats::Seats;

fn is_late(credit: u32, slot: u32, seat: &Option<u32>) -> bool
    ensures { result ≡ passes (is_late credit slot) seat.now }
{
    match seat {
        Some(since) => slot >= credit && slot - credit >= *since,
        None => false,
    }
}

/// Whether link `p` has a head and it is overdue.
#[tactic(auto, unfolding(nys_votes::specs::Credit::is_overdue))]
pub(crate) fn is_overdue(heads: &Seats<u32>, credit: u32, slot: u32, p: u32) -> bool
    ensures { result ≡ is_overdue credit slot heads.now p }
{
    p < heads.len() && is_late(credit, slot, heads.get(p))
}

/// The links whose heads are overdue.
#[tactic(auto, unfolding(nys_votes::specs::Credit::is_overdue))]
pub(crate) fn overdue(heads: &Seats<u32>, credit: u32, slot: u32) -> HostSet
    ensures { (p : ℕ) → has result p ≡ is_overdue credit slot heads.now p }
{
    let mut links = HostSet::empty();
    for p in 0..heads.len() {
        if is_overdue(heads, credit, slot, p) {
            links = links.with(p);
        }
    }
    links
}

/// The lowest link whose head is overdue.
#[tactic(auto, unfolding(nys_votes::specs::Credit::lowest_overdue))]
pub(crate) fn lowest_overdue(heads: &Seats<u32>, credit: u32, slot: u32) -> Option<u32>
    ensures found { result ≡ lowest_overdue credit slot heads.now }
    ensures link { IfSome result (λ p. p < MAX_HOSTS) }
{
    for p in 0..heads.len() {
        if is_late(credit, slot, heads.get(p)) {
            return Some(p);
        }
    }
    None
}

/// The lowest link with a head.
pub(crate) fn lowest(heads: &Seats<u32>) -> Option<u32>
    ensures found { result ≡ position is_some heads.now }
    ensures link { IfSome result (λ p. p < MAX_HOSTS) }
{
    for p in 0..heads.len() {
        if heads.get(p).is_some() {
            return Some(p);
        }
    }
    None
}

/// Records the head of one link at a length, where the set has the link and none is recorded.
fn record_one(heads: &mut Seats<u32>, links: HostSet, since: u32, p: u32)
    requires link { p < MAX_HOSTS }
    requires seat { p < length heads.old }
    ensures len { length heads.new ≡ length heads.old }
    ensures each { (q : ℕ) → seat_of heads.new q
        ≡ (if q == p then option_or (seat_of heads.old p)
        (if has links p then Some since else None) else seat_of heads.old q) }
{
    if links.contains(p) {
        heads.keep(p, since);
    }
}

/// Records the heads of these links at a length, where none is recorded.
pub(crate) fn record(heads: &mut Seats<u32>, links: HostSet, since: u32)
    ensures { heads.new ≡ map (λ p. option_or (seat_of heads.old p)
        (if has links p then Some since else None)) (range_with_len 0 MAX_HOSTS) }
{
    for p in 0..heads.len() {
        record_one(heads, links, since, p);
    }
}
