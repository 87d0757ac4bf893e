//! What each command answers to a document.

ghost use Rattle.std.specs.Prelude.{◌≡◌, ◌≤◌, IfOk, length};
ghost use Rattle.nys_answer.specs.declared.limit.TheConstants.{INPUT_LIMIT};
ghost use Rattle.nys_graph.specs.Links.{linked_in};
ghost use Rattle.nys_scenario.specs.Bounds.{HasRoot, IsBounded};
ghost use Rattle.nys_scenario.specs.Document.{said_by};
ghost use Rattle.nys_scenario.specs.Protocol.{protocol_by};
ghost use Rattle.nys_top.specs.Commands.{IsCommandAnswer, IsReplayOf, IsSaidAnswer, bare_of, needs_of, verify_of};
ghost use Rattle.nys_world_commands.specs.Playing.{AreGuardsOf};

use crate::refusals::{key_refused, machine_refused};
use nys_answer::Answer;
use nys_bytes::NoMemory;
use nys_guard_commands::{check, plan};
use nys_interp::Interp;
use nys_native::{Flood, Sum};
use nys_route::{Route, Tree};
use nys_scenario::{Choice, Needs, Scenario, ScenarioFault};
use nys_source_commands::{bare, verify};
use nys_words::Command;
use nys_world_commands::{Guards, Telling, replay};
use std::alloc::Global;

/// What a command answers to the bytes of a document.
pub(crate) fn answer(alloc: Global, command: Command, bytes: &[u8]) -> Result<Answer, NoMemory>
    requires { length bytes.now ≤ INPUT_LIMIT }
    ensures { IfOk result (IsCommandAnswer command bytes.now) }
{
    match nys_scenario::read(alloc, bytes, needs_of(command)) {
        Ok(scenario) => answer_scenario(alloc, command, scenario),
        Err(ScenarioFault::Key { key, kind }) => key_refused(alloc, &key, kind),
        Err(ScenarioFault::Machine { line, col, kind }) => machine_refused(alloc, line, col, kind),
        Err(ScenarioFault::NoMemory) => Err(NoMemory),
    }
}

/// Which keys a command needs, of those that may be left out.
fn needs_of(command: Command) -> Needs
    ensures { result ≡ needs_of command }
{
    let (master, epochs) = match command {
        Command::Bare => (false, false),
        Command::Verify => (false, false),
        Command::Check => (false, true),
        Command::Plan => (false, true),
        Command::Replay => (true, true),
        Command::Trace => (true, true),
    };
    Needs { master, epochs }
}

/// What a command answers to a scenario.
fn answer_scenario(alloc: Global, command: Command, scenario: Scenario) -> Result<Answer, NoMemory>
    requires bounded { IsBounded (needs_of command) (said_by scenario) }
    requires schedule { length scenario.schedule ≤ INPUT_LIMIT }
    requires run { length scenario.run ≤ INPUT_LIMIT }
    ensures { IfOk result (IsSaidAnswer command (said_by scenario)) }
{
    match command {
        Command::Bare => answer_bare(alloc, scenario),
        Command::Verify => answer_verify(alloc, scenario),
        Command::Check => check(alloc, &scenario),
        Command::Plan => plan(alloc, &scenario),
        Command::Replay => answer_replay(alloc, scenario, Telling::Report),
        Command::Trace => answer_replay(alloc, scenario, Telling::Trace),
    }
}

/// `bare` with the scenario's protocol.
fn answer_bare(alloc: Global, scenario: Scenario) -> Result<Answer, NoMemory>
    requires short { length scenario.schedule ≤ INPUT_LIMIT }
    requires root { HasRoot scenario.graph.hosts (protocol_by scenario.choice) }
    ensures { IfOk result (λ answer. answer
        ≡ bare_of (protocol_by scenario.choice) scenario.graph.hosts
        (linked_in scenario.graph.rows) scenario.schedule) }
{
    let graph = scenario.graph;
    let choice = scenario.choice;
    let schedule = scenario.schedule.as_str();
    match choice {
        Choice::Sum => bare(alloc, Sum { graph }, schedule),
        Choice::Flood => bare(alloc, Flood { graph }, schedule),
        Choice::Route => bare(alloc, Route { graph }, schedule),
        Choice::Tree { root } => bare(alloc, Tree { graph, root }, schedule),
        Choice::Machine { named } => bare(alloc, Interp::new(named, graph), schedule),
    }
}

/// `verify` with the scenario's protocol.
fn answer_verify(alloc: Global, scenario: Scenario) -> Result<Answer, NoMemory>
    requires short { length scenario.run ≤ INPUT_LIMIT }
    requires root { HasRoot scenario.graph.hosts (protocol_by scenario.choice) }
    ensures { IfOk result (λ answer. answer
        ≡ verify_of (protocol_by scenario.choice) scenario.graph.hosts
        (linked_in scenario.graph.rows) scenario.run) }
{
    let graph = scenario.graph;
    let choice = scenario.choice;
    let run = scenario.run.as_str();
    match choice {
        Choice::Sum => verify(alloc, Sum { graph }, run),
        Choice::Flood => verify(alloc, Flood { graph }, run),
        Choice::Route => verify(alloc, Route { graph }, run),
        Choice::Tree { root } => verify(alloc, Tree { graph, root }, run),
        Choice::Machine { named } => verify(alloc, Interp::new(named, graph), run),
    }
}

/// `replay` with the scenario's protocol, or `trace`, by what is told.
fn answer_replay(alloc: Global, scenario: Scenario, telling: Telling) -> Result<Answer, NoMemory>
    requires bounded { IsBounded (needs_of Command.Replay) (said_by scenario) }
    requires short { length scenario.schedule ≤ INPUT_LIMIT }
    ensures { IfOk result (IsReplayOf telling (protocol_by scenario.choice) (said_by scenario)) }
{
    match Guards::of(alloc, &scenario) {
        Ok(guards) => replay_among(alloc, scenario, guards, telling),
        Err(refusal) => refusal.answer(),
    }
}

/// `replay` with the scenario's protocol among its guards, or `trace`, by what is told.
fn replay_among(
    alloc: Global,
    scenario: Scenario,
    guards: Guards,
    telling: Telling,
) -> Result<Answer, NoMemory>
    requires guards { AreGuardsOf (said_by scenario) guards }
    requires root { HasRoot scenario.graph.hosts (protocol_by scenario.choice) }
    requires short { length scenario.schedule ≤ INPUT_LIMIT }
    ensures { IfOk result (IsReplayOf telling (protocol_by scenario.choice) (said_by scenario)) }
{
    let graph = scenario.graph;
    let choice = scenario.choice;
    let schedule = scenario.schedule.as_str();
    match choice {
        Choice::Sum => replay(alloc, Sum { graph }, guards, schedule, telling),
        Choice::Flood => replay(alloc, Flood { graph }, guards, schedule, telling),
        Choice::Route => replay(alloc, Route { graph }, guards, schedule, telling),
        Choice::Tree { root } => replay(alloc, Tree { graph, root }, guards, schedule, telling),
        Choice::Machine { named } => replay(
            alloc,
            Interp::new(named, graph),
            guards,
            schedule,
            telling,
        ),
    }
}
