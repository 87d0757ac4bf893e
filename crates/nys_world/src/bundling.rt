//! Makers of packets of one statement go out in one record.

ghost use Rattle.std.specs.Prelude.{◌≡◌, ◌<◌, ◌≤◌, nat_lt, not, All, IfNone, IfOk, IfSome, None, Ok, OnOk, find, fold, length, replicate};
ghost use Rattle.std.specs.Result.{result_ok};
ghost use Rattle.nys_rules.specs.Happening.{bundle_of, bundle_or_end, bundled, first_frame, frame_of, sends_bundle};
ghost use Rattle.nys_rules.specs.World.{World};
ghost use Rattle.nys_stmt.specs.Ranges.{IsStatement};
ghost use Rattle.nys_stmt.specs.Records.{IsRecord, IsWhole};
ghost use Rattle.nys_wire.specs.Reading.{whole_record};
ghost use Rattle.nys_world.specs.Bundles.{AreSeated, IsBundle};
ghost use Rattle.nys_world.specs.Outcomes.{Happened};
ghost use Rattle.nys_world.specs.Shows.{IsKept, Keeps};

use crate::books::Books;
use crate::lists::{empty_seats, party_list, seat_all, seated};
use nys_bytes::NoMemory;
use nys_rules::{End, Packet, Parties};
use nys_stmt::{Record, Statement, TagList, is_same_statement};
use nys_wire::{WireFault, decode};
use std::alloc::Global;

/// The first packet that was never sent, where so many were.
fn first_missing(packets: &[u32], have: u32) -> Option<u32>
    ensures first { result ≡ find (λ k. not (nat_lt k have)) packets.now }
    ensures none { IfNone result (All (λ k. k < have) packets.now) }
{
    for k in packets {
        if *k >= have {
            return Some(*k);
        }
    }
    None
}

/// The record that the bytes are, if they are one.
fn record_in(alloc: Global, frame: &[u8]) -> Result<Option<Record>, NoMemory>
    ensures value { IfOk result (λ found. found ≡ result_ok (whole_record frame.now)) }
    ensures well { IfOk result (λ found. IfSome found IsRecord) }
{
    match decode(alloc, frame) {
        Ok(found) => Ok(Some(found)),
        Err(WireFault::At { .. }) => Ok(None),
        Err(WireFault::NoMemory) => Err(NoMemory),
    }
}

/// The bytes of a packet.
fn frame_of(pool: &[Packet], k: u32) -> &[u8]
    requires { k < length pool.now }
    ensures { (w : World) → pool.now ≡ w.pool → result.now ≡ frame_of w k }
{
    let packet = &pool[k as usize];
    packet.frame.as_slice()
}

/// The seats in which the makers of the first record have theirs.
fn first_seats(alloc: Global, first: &Record) -> Result<Vec<Option<TagList>>, NoMemory>
    requires { IsRecord first.now }
    ensures value { IfOk result (λ seats. seats.items
        ≡ bundled first.now.statement (replicate 33 None) (Ok first.now)) }
    ensures rule { IfOk result (λ seats. AreSeated seats.items) }
{
    let mut seats = empty_seats(alloc)?;
    seat_all(alloc, &mut seats, &first.makers)?;
    Ok(seats)
}

/// The makers of a record are kept where it is of the statement, the first of each.
fn join(
    alloc: Global,
    found: &Record,
    statement: &Statement,
    seats: &mut Vec<Option<TagList>>,
) -> Result<(), NoMemory>
    requires found { IsRecord found.now }
    requires statement { IsStatement statement.now }
    requires seats { AreSeated seats.old.items }
    ensures value { OnOk result (seats.new.items ≡ bundled statement.now seats.old.items (Ok found.now)) }
    ensures rule { OnOk result (AreSeated seats.new.items) }
{
    if is_same_statement(&found.statement, statement) {
        seat_all(alloc, seats, &found.makers)?;
    }
    Ok(())
}

/// The makers that a packet has for the statement are kept, the first of each.
fn join_packet(
    alloc: Global,
    pool: &[Packet],
    k: u32,
    statement: &Statement,
    seats: &mut Vec<Option<TagList>>,
) -> Result<(), NoMemory>
    requires packet { k < length pool.now }
    requires statement { IsStatement statement.now }
    requires seats { AreSeated seats.old.items }
    ensures value { OnOk result ((w : World) → pool.now ≡ w.pool
        → seats.new.items ≡ bundled statement.now seats.old.items (whole_record (frame_of w k))) }
    ensures rule { OnOk result (AreSeated seats.new.items) }
{
    match record_in(alloc, frame_of(pool, k))? {
        Some(found) => join(alloc, &found, statement, seats),
        None => Ok(()),
    }
}

/// The makers that the packets have for the statement are kept, the first of each.
fn join_all(
    alloc: Global,
    pool: &[Packet],
    packets: &[u32],
    statement: &Statement,
    seats: &mut Vec<Option<TagList>>,
) -> Result<(), NoMemory>
    requires packets { All (λ k. k < length pool.now) packets.now }
    requires statement { IsStatement statement.now }
    requires seats { AreSeated seats.old.items }
    ensures value { OnOk result ((w : World) → pool.now ≡ w.pool
        → seats.new.items ≡ fold (λ kept k. bundled statement.now kept
        (whole_record (frame_of w k))) seats.old.items packets.now) }
    ensures rule { OnOk result (AreSeated seats.new.items) }
{
    for k in packets {
        join_packet(alloc, pool, *k, statement, seats)?;
    }
    Ok(())
}

/// The record of a statement with the makers that packets have for it, where the first is this record.
#[tactic(auto, unfolding(nys_rules::specs::Happening::bundle_of))]
fn bundle_after(
    alloc: Global,
    pool: &[Packet],
    packets: &[u32],
    first: Record,
) -> Result<Record, NoMemory>
    requires some { 1 ≤ length packets.now }
    requires packets { All (λ k. k < length pool.now) packets.now }
    requires well { IsRecord first }
    requires first { (w : World) → pool.now ≡ w.pool → whole_record (first_frame w packets.now) ≡ Ok first }
    ensures value { IfOk result (λ r. (w : World) → pool.now ≡ w.pool
        → r ≡ bundle_of w first.statement packets.now) }
    ensures whole { IfOk result IsWhole }
{
    let mut seats = first_seats(alloc, &first)?;
    join_all(alloc, pool, &packets[1..], &first.statement, &mut seats)?;
    let makers = seated(alloc, seats.as_slice())?;
    Ok(Record {
        statement: first.statement,
        makers,
    })
}

/// The bundle of packets, unless the first is no record.
fn bundle_of(alloc: Global, pool: &[Packet], packets: &[u32]) -> Result<Option<Record>, NoMemory>
    requires some { 1 ≤ length packets.now }
    requires packets { All (λ k. k < length pool.now) packets.now }
    ensures value { IfOk result (λ found. (w : World) → pool.now ≡ w.pool
        → IsBundle w packets.now (whole_record (first_frame w packets.now)) found) }
    ensures whole { IfOk result (λ found. IfSome found IsWhole) }
{
    match record_in(alloc, frame_of(pool, packets[0]))? {
        Some(first) => {
            let bundle = bundle_after(alloc, pool, packets, first)?;
            Ok(Some(bundle))
        }
        None => Ok(None),
    }
}

impl Books {
    /// The bundle of packets, of which each was sent, goes to parties.
    fn send_bundle(
        &mut self,
        alloc: Global,
        from: u32,
        to: &Parties,
        packets: &[u32],
    ) -> Result<(), End>
        requires kept { IsKept self.old }
        requires some { 1 ≤ length packets.now }
        requires packets { All (λ k. k < length self.old.pool.items) packets.now }
        ensures { (w : World) → Keeps self.old w → Happened (λ _ next. Keeps self.new next) (λ r. r
            ≡ sends_bundle w from to.now packets.now (whole_record (first_frame w packets.now))) result }
    {
        match bundle_of(alloc, self.pool.as_slice(), packets)? {
            Some(bundle) => {
                let parties = party_list(alloc, to)?;
                self.send_all(alloc, from, &bundle, parties.as_slice())
            }
            None => Ok(()),
        }
    }

    /// The makers that packets have for the statement of the first go to parties in one record: a packet
    /// to each, from this sender. The world ends where one of the packets was never sent.
    pub(crate) fn bundle(
        &mut self,
        alloc: Global,
        from: u32,
        to: &Parties,
        packets: &[u32],
    ) -> Result<(), End>
        requires kept { IsKept self.old }
        requires some { 1 ≤ length packets.now }
        ensures { (w : World) → Keeps self.old w → Happened (λ _ next. Keeps self.new next) (λ r. r
            ≡ bundle_or_end w from to.now packets.now
            (find (λ k. not (nat_lt k (length w.pool))) packets.now)) result }
    {
        let have = self.pool.len() as u32;
        match first_missing(packets, have) {
            Some(packet) => Err(End::NoPacket {
                event: self.events,
                packet,
                have,
            }),
            None => self.send_bundle(alloc, from, to, packets),
        }
    }
}
