//! The command `bare`: the source system takes a bare schedule.

ghost use Rattle.std.specs.Prelude.{◌≡◌, ◌≤◌, ◌++◌, Ok, IfOk, OnOk, length};
ghost use Rattle.nys_answer.specs.declared.limit.TheConstants.{INPUT_LIMIT};
ghost use Rattle.nys_bare.specs.declared.read.TheConstants.{MAX_EVENTS};
ghost use Rattle.nys_source_commands.specs.Answers.{bare_answer, run_answer};
ghost use Rattle.nys_source_commands.specs.BareRun.{Follows, bare_run};
ghost use Rattle.nys_source_commands.specs.BareText.{bare_text};

use crate::bare_run::{BareRun, bare_run};
use crate::refusals::{run_refused, schedule_refused};
use nys_answer::{Answer, Status};
use nys_bare::{BareEvent, read_bare};
use nys_bytes::{NoMemory, Out};
use nys_runs::put_hosts;
use nys_source::{Protocol, run_text};
use std::alloc::Global;

/// What `bare` answers where the hosts run this protocol and the document has this schedule: the run and
/// every host as it leaves it, or why the schedule is refused or ends early.
pub fn bare<P: Protocol>(alloc: Global, protocol: P, schedule: &str) -> Result<Answer, NoMemory>
    requires { length schedule.now ≤ INPUT_LIMIT }
    ensures { IfOk result (λ answer. answer ≡ bare_answer (P.rules protocol) schedule.now) }
{
    match read_bare(alloc, schedule, protocol.graph().hosts()) {
        Ok(events) => run_events(alloc, protocol, events),
        Err(fault) => schedule_refused(alloc, fault),
    }
}

/// The answer to the events of a schedule.
fn run_events<P: Protocol>(
    alloc: Global,
    protocol: P,
    events: Vec<BareEvent>,
) -> Result<Answer, NoMemory>
    requires { length events.items ≤ MAX_EVENTS }
    ensures { IfOk result (λ answer. answer
        ≡ run_answer (P.rules protocol) (bare_run (P.rules protocol) events.items)) }
{
    match bare_run(alloc, protocol, events) {
        Ok(bare) => printed(alloc, &bare),
        Err(why) => run_refused(alloc, why),
    }
}

/// The text of a run.
fn printed<P: Protocol>(alloc: Global, bare: &BareRun<P>) -> Result<Answer, NoMemory>
    requires { Follows (P.rules bare.now.system.0) bare.now.system.1 bare.now.run.items bare.now.numbers.items }
    ensures { IfOk result (λ answer. answer
        ≡ run_answer (P.rules bare.now.system.0) (Ok bare.now.run.items)) }
{
    let mut text = Out::new(alloc);
    put_bare(bare, &mut text)?;
    Ok(Answer {
        status: Status::Done,
        text,
    })
}

/// Appends the run, then every host as it leaves it.
fn put_bare<P: Protocol>(bare: &BareRun<P>, out: &mut Out) -> Result<(), NoMemory>
    requires { Follows (P.rules bare.now.system.0) bare.now.system.1 bare.now.run.items bare.now.numbers.items }
    ensures { OnOk result (out.new ≡ out.old ++ bare_text (P.rules bare.now.system.0) bare.now.run.items) }
{
    out.put(b"run\n")?;
    run_text(bare.run.as_slice(), out)?;
    out.put(b"hosts\n")?;
    put_hosts(&bare.system, bare.system.hosts(), out)?;
    out.put(b"end\n")?;
    Ok(())
}
