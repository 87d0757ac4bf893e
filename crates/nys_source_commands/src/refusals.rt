//! The lines of what is refused.

ghost use Rattle.std.specs.Prelude.{◌≡◌, ◌≢◌, ◌++◌, OnOk, IfOk, codes, decimal};
ghost use Rattle.nys_source_commands.specs.Refusals.{kind_word, line_refused, no_packet, run_refused, schedule_refused, step_refused, step_words};

use crate::bare_run::{BareEnd, MAX_MESSAGES};
use nys_answer::{Answer, Limit, Status};
use nys_bare::{LineKind, MAX_EVENTS, ScheduleFault};
use nys_bytes::{NoMemory, Out};
use nys_source::NotAStep;
use nys_text::put_number;
use std::alloc::Global;

/// How a line is at fault, as a word.
fn kind_word(kind: LineKind) -> &'static str
    ensures { result.now ≡ kind_word kind }
{
    match kind {
        LineKind::Grammar => "grammar",
        LineKind::Host => "host",
        LineKind::Liar => "liar",
    }
}

/// The answer where a line of a schedule or a run text is at fault.
pub(crate) fn line_refused(alloc: Global, line: u32, kind: LineKind) -> Result<Answer, NoMemory>
    ensures { IfOk result (λ answer. answer ≡ line_refused line kind) }
{
    let mut text = Out::new(alloc);
    text.put(b"schedule: line ")?;
    put_number(&mut text, line)?;
    text.put(b": ")?;
    text.put(kind_word(kind).as_bytes())?;
    Answer::line(Status::Schedule, text)
}

/// The answer where a schedule is refused.
pub fn schedule_refused(alloc: Global, fault: ScheduleFault) -> Result<Answer, NoMemory>
    ensures answer { IfOk result (λ answer. answer ≡ schedule_refused fault) }
    ensures memory { IfOk result (λ _. fault ≢ ScheduleFault.NoMemory) }
{
    match fault {
        ScheduleFault::Line { line, kind } => line_refused(alloc, line, kind),
        ScheduleFault::TooMany => Answer::too_large(alloc, Limit::Events, MAX_EVENTS as u32),
        ScheduleFault::NoMemory => Err(NoMemory),
    }
}

/// The answer where a bare run ends before its last event.
pub(crate) fn run_refused(alloc: Global, why: BareEnd) -> Result<Answer, NoMemory>
    ensures answer { IfOk result (λ answer. answer ≡ run_refused why) }
    ensures memory { IfOk result (λ _. why ≢ BareEnd.NoMemory) }
{
    match why {
        BareEnd::NoMessage {
            event,
            message,
            have,
        } => no_packet(alloc, event, message, have),
        BareEnd::TooMany => Answer::too_large(alloc, Limit::Packets, MAX_MESSAGES as u32),
        BareEnd::NoMemory => Err(NoMemory),
    }
}

/// The answer where an event names a packet or a message that wasn't sent by then, and how many were.
pub fn no_packet(alloc: Global, event: u32, packet: u32, have: u32) -> Result<Answer, NoMemory>
    ensures { IfOk result (λ answer. answer ≡ no_packet event packet have) }
{
    let mut text = Out::new(alloc);
    text.put(b"no packet: event ")?;
    put_number(&mut text, event)?;
    text.put(b": ")?;
    put_number(&mut text, packet)?;
    text.put(b" of ")?;
    put_number(&mut text, have)?;
    Answer::line(Status::NoPacket, text)
}

/// The answer where the step of this number is none.
pub(crate) fn step_refused(alloc: Global, at: u32, why: NotAStep) -> Result<Answer, NoMemory>
    ensures { IfOk result (λ answer. answer ≡ step_refused at why) }
{
    let mut text = Out::new(alloc);
    text.put(b"not a run: step ")?;
    put_number(&mut text, at)?;
    text.put(b": ")?;
    put_why(&mut text, why)?;
    Answer::line(Status::NotARun, text)
}

/// Appends why something is no step.
fn put_why(out: &mut Out, why: NotAStep) -> Result<(), NoMemory>
    ensures { OnOk result (out.new ≡ out.old ++ step_words why) }
{
    match why {
        NotAStep::NoHost(h) => put_one(out, b"no host ", h),
        NotAStep::Stopped(h) => put_one(out, b"stopped ", h),
        NotAStep::NotNeighbour(p, h) => put_two(out, b"not neighbours ", p, h),
        NotAStep::NothingSent(p, h, k) => {
            put_two(out, b"nothing sent ", p, h)?;
            put_one(out, b" ", k)
        }
        NotAStep::NoMemory => out.put(b"no memory"),
    }
}

/// Appends words and a number.
fn put_one(out: &mut Out, words: &[u8], number: u32) -> Result<(), NoMemory>
    ensures { OnOk result (out.new ≡ out.old ++ (words.now ++ decimal number)) }
{
    out.put(words)?;
    put_number(out, number)?;
    Ok(())
}

/// Appends words and two numbers.
fn put_two(out: &mut Out, words: &[u8], first: u32, second: u32) -> Result<(), NoMemory>
    ensures { OnOk result (out.new ≡ out.old ++ (words.now ++ (decimal first
        ++ (codes " " ++ decimal second)))) }
{
    put_one(out, words, first)?;
    put_one(out, b" ", second)?;
    Ok(())
}
