//! The seats of a window's numbers, by place.

ghost use Rattle.std.specs.Prelude.{◌≡◌, ◌<◌, ◌≤◌, ℕ, None, drop, length, slice_index_or, IfOk, OnErr, OnOk, option_copied};
ghost use Rattle.nys_attest.specs.Windows.{beside, seats_in, seats_in_place};
ghost use Rattle.nys_source.specs.Tables.{put};
ghost use Rattle.nys_votes.specs.Contents.{same_payload};
ghost use Rattle.nys_votes.specs.Seats.{seat_of, with_seat};
ghost use Rattle.nys_hosts.specs.declared.limits.TheConstants.{MAX_HOSTS};
ghost use Rattle.nys_rules.specs.declared.limits.TheConstants.{WINDOW};

use crate::window::Recorded;
use nys_bytes::{NoMemory, Payload};
use nys_seats::Seats;
use std::alloc::Global;

/// The seats at a place, where something is kept there.
pub(crate) fn seats_in(kept: &Vec<Option<Seats<Payload>>>, place: usize) -> Option<&Seats<Payload>>
    ensures { seats_in (option_copied result) ≡ seats_in_place kept.now.items place }
{
    if place >= kept.len() {
        return None;
    }
    match &kept[place] {
        Some(seats) => Some(seats),
        None => None,
    }
}

/// What is kept of a maker.
pub(crate) fn seat_at(seats: Option<&Seats<Payload>>, maker: u32) -> Option<&Payload>
    requires maker { maker < MAX_HOSTS }
    ensures { option_copied result ≡ seat_of (seats_in (option_copied seats.entry)) maker }
{
    match seats {
        None => None,
        Some(seats) => match seats.get(maker) {
            Some(payload) => Some(payload),
            None => None,
        },
    }
}

pub(crate) fn is_same(a: &Payload, b: &Payload) -> bool
    ensures { result ≡ same_payload a.now b.now }
{
    a.equals(b)
}

/// How a payload stands to the one that is kept of its maker.
pub(crate) fn beside(seat: Option<&Payload>, payload: &Payload) -> Recorded
    ensures { result ≡ beside (option_copied seat.entry) payload.now }
{
    match seat {
        None => Recorded::New,
        Some(other) => {
            if is_same(other, payload) {
                Recorded::Same
            } else {
                Recorded::Other
            }
        }
    }
}

/// Keeps a payload of a maker at a place, unless one is kept of it there.
pub(crate) fn keep_at(
    alloc: Global,
    kept: &mut Vec<Option<Seats<Payload>>>,
    place: usize,
    maker: u32,
    payload: Payload,
) -> Result<(), NoMemory>
    requires maker { maker < MAX_HOSTS }
    requires place { place < WINDOW }
    requires few { length kept.old.items ≤ WINDOW }
    ensures few { length kept.new.items ≤ WINDOW }
    ensures kept { OnOk result ((i : ℕ) → seats_in_place kept.new.items i
        ≡ put (seats_in_place kept.old.items) place
        (with_seat maker payload (seats_in_place kept.old.items place)) i) }
    ensures same { OnErr result ((i : ℕ) → seats_in_place kept.new.items i
        ≡ seats_in_place kept.old.items i) }
{
    make_room(kept, place)?;
    keep_in(alloc, &mut kept[place], maker, payload)
}

/// Forgets what is kept at the first place; the others move there.
pub(crate) fn drop_first(kept: &mut Vec<Option<Seats<Payload>>>)
    ensures { kept.new.items ≡ drop 1 kept.old.items }
{
    if !kept.is_empty() {
        kept.remove(0);
    }
}

/// Makes the window long enough to have the place.
fn make_room(kept: &mut Vec<Option<Seats<Payload>>>, place: usize) -> Result<(), NoMemory>
    requires place { place < WINDOW }
    requires few { length kept.old.items ≤ WINDOW }
    ensures few { length kept.new.items ≤ WINDOW }
    ensures room { IfOk result (λ _. place < length kept.new.items) }
    ensures same { (i : ℕ) → slice_index_or kept.new.items i None ≡ slice_index_or kept.old.items i None }
{
    while kept.len() <= place {
        kept.push(None)?;
    }
    Ok(())
}

fn keep_in(
    alloc: Global,
    seats: &mut Option<Seats<Payload>>,
    maker: u32,
    payload: Payload,
) -> Result<(), NoMemory>
    requires maker { maker < MAX_HOSTS }
    ensures kept { OnOk result (seats_in seats.new ≡ with_seat maker payload (seats_in seats.old)) }
    ensures same { OnErr result (seats.new ≡ seats.old) }
{
    match seats {
        Some(seats) => {
            seats.keep(maker, payload);
        }
        None => {
            let mut first = Seats::new(alloc)?;
            first.keep(maker, payload);
            *seats = Some(first);
        }
    }
    Ok(())
}
