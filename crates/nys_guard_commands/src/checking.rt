//! The command `check`.

ghost use Rattle.std.specs.Prelude.{◌≡◌, ◌++◌, IfOk, IfErr, OnOk, All, flat_map, length};
ghost use Rattle.std.specs.List.{range_with_len};
ghost use Rattle.nys_scenario.specs.Bounds.{HasNobodyPast};
ghost use Rattle.nys_scenario.specs.Document.{said_by};
ghost use Rattle.nys_guard_commands.specs.Refusals.{Refuses};
ghost use Rattle.nys_guard_commands.specs.Checked.{AreSound, EndsAt, IsSmall, IsRefused, IsCheckAnswer, good_line, good_answer};

use crate::graphs::guard_graphs;
use crate::liars::stand_liars;
use crate::print::put_placed;
use crate::refusal::Refusal;
use nys_answer::{Answer, Status};
use nys_bytes::{NoMemory, Out};
use nys_guards::GuardGraph;
use nys_scenario::Scenario;
use std::alloc::Global;

/// The guard graphs of a scenario, in the order of its epochs: those that it lists, and planned ones
/// where an epoch lists none. All are good and stand the liars; else the answer names the first fault,
/// faults of guards before liars.
pub fn sound_graphs(alloc: Global, scenario: &Scenario) -> Result<Vec<GuardGraph>, Refusal>
    ensures sound { IfOk result (λ graphs. AreSound (said_by scenario.now) graphs.items) }
    ensures size { IfOk result (λ graphs. length graphs.items ≡ length scenario.now.epochs.items) }
    ensures small { IfOk result (λ graphs. All IsSmall graphs.items) }
    // Guards that an epoch lists end at the last host in each scenario that was read.
    ensures rows { IfOk result (λ graphs.
        All (HasNobodyPast (said_by scenario.now).system.hosts) (said_by scenario.now).guarded.epochs
        → All (EndsAt (said_by scenario.now).system.hosts) graphs.items) }
    ensures refused { IfErr result (Refuses (IsRefused (said_by scenario.now))) }
{
    let graphs = guard_graphs(alloc, &scenario.graph, &scenario.epochs)?;
    stand_liars(alloc, &scenario.graph, &graphs, scenario.liars)?;
    Ok(graphs)
}

/// What `check` answers: the first fault of guards, else the first epoch with too many liars, else that
/// each epoch is good.
pub fn check(alloc: Global, scenario: &Scenario) -> Result<Answer, NoMemory>
    ensures { IfOk result (IsCheckAnswer (said_by scenario.now)) }
{
    match sound_graphs(alloc, scenario) {
        Ok(_) => all_good(alloc, scenario.epochs.len()),
        Err(refusal) => refusal.answer(),
    }
}

/// The answer where so many epochs are good.
fn all_good(alloc: Global, n: usize) -> Result<Answer, NoMemory>
    ensures { IfOk result (λ answer. answer ≡ good_answer n) }
{
    let mut text = Out::new(alloc);
    for e in 0..n {
        put_good(&mut text, e)?;
    }
    text.put(b"end\n")?;
    Ok(Answer {
        status: Status::Done,
        text,
    })
}

/// Appends the line of an epoch whose guards are good.
fn put_good(text: &mut Out, e: usize) -> Result<(), NoMemory>
    ensures { OnOk result (text.new ≡ text.old ++ good_line e) }
{
    put_placed(text, "epoch ", e)?;
    text.put(b" good\n")
}
