//! The lines of what ends a world.

ghost use Rattle.std.specs.Prelude.{◌≡◌, ◌++◌, IfOk, OnOk, codes, decimal};
ghost use Rattle.nys_played.specs.Refusals.{clash, forged, IsEndAnswer, pool_full};

use nys_answer::{Answer, Limit, Status};
use nys_bytes::{NoMemory, Out};
use nys_rules::{End, MAX_PACKETS, MAX_POOL_BYTES};
use nys_source_commands::no_packet;
use nys_stmt::{Statement, statement_text};
use nys_text::put_number;
use std::alloc::Global;

/// The answer where a world ends so: its line, and the status that belongs to it.
pub fn end_answer(alloc: Global, end: End) -> Result<Answer, NoMemory>
    ensures { IfOk result (IsEndAnswer end) }
{
    match end {
        End::NoPacket {
            event,
            packet,
            have,
        } => no_packet(alloc, event, packet, have),
        End::Forged {
            event,
            maker,
            taker,
            statement,
        } => forged(alloc, event, maker, taker, &statement),
        End::Clash {
            event,
            maker,
            taker,
            made,
            taken,
        } => clash(alloc, event, maker, taker, &made, &taken),
        End::PoolFull {
            event: _,
            packets,
            bytes: _,
        } => pool_full(alloc, packets),
        End::NoMemory => Err(NoMemory),
    }
}

/// The answer where a party took a statement under a maker that doesn't lie and never made it.
fn forged(
    alloc: Global,
    event: u32,
    maker: u32,
    taker: u32,
    statement: &Statement,
) -> Result<Answer, NoMemory>
    ensures { IfOk result (λ answer. answer ≡ forged event maker taker statement.now) }
{
    let mut line = Out::new(alloc);
    line.put(b"forged: event ")?;
    put_parties(&mut line, event, maker, taker)?;
    statement_text(statement, &mut line)?;
    Answer::line(Status::Forged, line)
}

/// The answer where what a party took has the spelling of another statement that the maker made.
fn clash(
    alloc: Global,
    event: u32,
    maker: u32,
    taker: u32,
    made: &Statement,
    taken: &Statement,
) -> Result<Answer, NoMemory>
    ensures { IfOk result (λ answer. answer ≡ clash event maker taker made.now taken.now) }
{
    let mut line = Out::new(alloc);
    line.put(b"clash: event ")?;
    put_parties(&mut line, event, maker, taker)?;
    statement_text(made, &mut line)?;
    line.put(b" | ")?;
    statement_text(taken, &mut line)?;
    Answer::line(Status::Clash, line)
}

/// The event, the maker and the taker of what was taken.
fn put_parties(line: &mut Out, event: u32, maker: u32, taker: u32) -> Result<(), NoMemory>
    ensures { OnOk result (line.new ≡ line.old ++ (decimal event
        ++ (codes ": maker " ++ (decimal maker ++ (codes " taker " ++ (decimal taker ++ codes ": ")))))) }
{
    put_number(line, event)?;
    line.put(b": maker ")?;
    put_number(line, maker)?;
    line.put(b" taker ")?;
    put_number(line, taker)?;
    line.put(b": ")
}

/// The answer where one packet more would pass the limit of packets, of which there are so many, or that of
/// their bytes.
fn pool_full(alloc: Global, packets: u32) -> Result<Answer, NoMemory>
    ensures { IfOk result (λ answer. answer ≡ pool_full packets) }
{
    if packets as usize >= MAX_PACKETS {
        Answer::too_large(alloc, Limit::Packets, MAX_PACKETS as u32)
    } else {
        Answer::too_large(alloc, Limit::Bytes, MAX_POOL_BYTES as u32)
    }
}
