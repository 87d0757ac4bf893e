//! The command `verify`: whether a run text is a run.

ghost use Rattle.std.specs.Prelude.{◌≡◌, ◌≤◌, ◌⊎◌, List, Option, None, Some, IfOk, IfErr, length};
ghost use Rattle.nys_answer.specs.declared.limit.TheConstants.{INPUT_LIMIT};
ghost use Rattle.nys_source.specs.Source.{fresh};
ghost use Rattle.nys_source.specs.Held.{shown};
ghost use Rattle.nys_runs.specs.StepLines.{run_of};
ghost use Rattle.nys_source_commands.specs.Answers.{first_refused, steps_answer, verdict, verify_answer};
ghost use Rattle.nys_source_commands.specs.Judging.{IsJudged};

use crate::refusals::{line_refused, step_refused};
use nys_answer::{Answer, Limit, Status};
use nys_bare::LineKind;
use nys_bytes::{NoMemory, Out};
use nys_runs::{MAX_STEPS, RunFault, read_run};
use nys_source::{NotAStep, Protocol, Step, System};
use nys_text::put_number;
use std::alloc::Global;

/// What `verify` answers where the hosts run this protocol and the document has this run text: how many
/// steps the run has, or its first step that is none, or its first line at fault.
#[tactic(auto, using(crate::proofs::JudgeLemmas::is_judged))]
pub fn verify<P: Protocol>(alloc: Global, protocol: P, text: &str) -> Result<Answer, NoMemory>
    requires { length text.now ≤ INPUT_LIMIT }
    ensures exact { IfOk result (λ answer. answer ≡ verify_answer (P.rules protocol) text.now) }
    // Where it says so, the steps of the text are a run, or the named one is the first that is none.
    ensures judged { IfOk result (λ answer. IsJudged (P.rules protocol) text.now answer) }
{
    read_and_take(alloc, protocol, text)
}

/// The answer to a run text.
fn read_and_take<P: Protocol>(alloc: Global, protocol: P, text: &str) -> Result<Answer, NoMemory>
    requires { length text.now ≤ INPUT_LIMIT }
    ensures { IfOk result (λ answer. answer ≡ steps_answer (P.rules protocol) (run_of text.now)) }
{
    match read_run(alloc, text) {
        Ok(steps) => judge(alloc, protocol, steps.as_slice()),
        Err(RunFault::Grammar { line }) => line_refused(alloc, line, LineKind::Grammar),
        Err(RunFault::TooMany) => Answer::too_large(alloc, Limit::Events, MAX_STEPS as u32),
        Err(RunFault::NoMemory) => Err(NoMemory),
    }
}

/// Whether the steps are a run.
fn judge<P: Protocol>(alloc: Global, protocol: P, steps: &[Step]) -> Result<Answer, NoMemory>
    requires { length steps.now ≤ MAX_STEPS }
    ensures { IfOk result (λ answer. answer
        ≡ verdict (length steps.now) (first_refused (P.rules protocol) 0
        (fresh (P.rules protocol)) steps.now)) }
{
    let system = System::new(alloc, protocol)?;
    match take_all(system, steps)? {
        None => a_run(alloc, steps.len() as u32),
        Some((at, why)) => step_refused(alloc, at, why),
    }
}

/// The answer to so many steps that are a run.
fn a_run(alloc: Global, count: u32) -> Result<Answer, NoMemory>
    ensures { IfOk result (λ answer. answer ≡ verdict count None) }
{
    let mut text = Out::new(alloc);
    text.put(b"a run of ")?;
    put_number(&mut text, count)?;
    text.put(b" steps\n")?;
    Ok(Answer {
        status: Status::Done,
        text,
    })
}

/// Takes the steps in order, up to the first that is none: its number, and why it is none.
fn take_all<P: Protocol>(
    system: System<P>,
    steps: &[Step],
) -> Result<Option<(u32, NotAStep)>, NoMemory>
    requires few { length steps.now ≤ MAX_STEPS }
    requires first { shown (P.rules system.0) system.1 ≡ fresh (P.rules system.0) }
    ensures { IfOk result (λ refused. refused
        ≡ first_refused (P.rules system.0) 0 (fresh (P.rules system.0)) steps.now) }
{
    let mut now = system;
    for (at, step) in steps.iter().enumerate() {
        match now.take(step) {
            Ok(after) => now = after,
            Err(NotAStep::NoMemory) => return Err(NoMemory),
            Err(why) => return Ok(Some((at as u32, why))),
        }
    }
    Ok(None)
}
