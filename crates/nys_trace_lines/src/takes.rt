//! The lines of what was given to parties.

ghost use Rattle.std.specs.Prelude.{◌≡◌, ◌++◌, OnOk, codes, decimal};
ghost use Rattle.std.specs.List.{flat_map};
ghost use Rattle.nys_trace_lines.specs.TraceLines.{drop_word, fate_words, step_line, takes_text, what_words};

use nys_bytes::{NoMemory, Out};
use nys_rules::{DropCause, Take};
use nys_text::put_number;

/// Appends the title of steps and a line for each taking, in order.
pub fn put_takes(takes: &[Take], out: &mut Out) -> Result<(), NoMemory>
    ensures { OnOk result (out.new ≡ out.old ++ takes_text takes.now) }
{
    out.put(b"steps\n")?;
    put_step_lines(takes, out)
}

/// Appends a line for each taking, in order.
fn put_step_lines(takes: &[Take], out: &mut Out) -> Result<(), NoMemory>
    ensures { OnOk result (out.new ≡ out.old ++ flat_map step_line takes.now) }
{
    for take in takes {
        put_step(take, out)?;
    }
    Ok(())
}

/// Appends the line of a taking.
#[tactic(auto, unfolding(crate::specs::TraceLines::step_line))]
fn put_step(take: &Take, out: &mut Out) -> Result<(), NoMemory>
    ensures { OnOk result (out.new ≡ out.old ++ step_line take.now) }
{
    out.put(b"step ")?;
    put_number(out, take.event)?;
    put_what(take.packet, out)?;
    out.put(b" to ")?;
    put_number(out, take.to)?;
    put_fate(take.dropped, out)?;
    out.put(b"\n")
}

/// Appends what was given: a packet, by its number, or bytes that nobody sent.
fn put_what(packet: Option<u32>, out: &mut Out) -> Result<(), NoMemory>
    ensures { OnOk result (out.new ≡ out.old ++ what_words packet) }
{
    match packet {
        Some(k) => {
            out.put(b" packet ")?;
            put_number(out, k)
        }
        None => out.put(b" bytes"),
    }
}

/// Appends what became of it.
fn put_fate(dropped: Option<DropCause>, out: &mut Out) -> Result<(), NoMemory>
    ensures { OnOk result (out.new ≡ out.old ++ fate_words dropped) }
{
    match dropped {
        None => out.put(b" taken"),
        Some(cause) => {
            out.put(b" dropped ")?;
            out.put(drop_word(cause).as_bytes())
        }
    }
}

/// The word for each cause. A queue that is full drops inputs alone, which have no step.
fn drop_word(cause: DropCause) -> &'static str
    ensures { result.now ≡ drop_word cause }
{
    match cause {
        DropCause::Malformed { place: _, kind: _ } => "malformed",
        DropCause::NotMine => "not mine",
        DropCause::Epoch => "epoch",
        DropCause::Wedged => "wedged",
        DropCause::NotGuard => "not guard",
        DropCause::Slot => "slot",
        DropCause::NoTag => "no tag",
        DropCause::QueueFull => "queue full",
    }
}
