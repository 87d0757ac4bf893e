//! The command `plan`.

ghost use Rattle.std.specs.Prelude.{◌≡◌, ◌<◌, ◌≤◌, ◌++◌, ◌∷◌, [], IfOk, IfErr, OnOk, length, map, flat_map};
ghost use Rattle.std.specs.List.{range_with_len};
ghost use Rattle.nys_hosts.specs.declared.limits.TheConstants.{MAX_HOSTS};
ghost use Rattle.nys_guards.specs.Good.{guards_in};
ghost use Rattle.nys_scenario.specs.Document.{said_by};
ghost use Rattle.nys_scenario.specs.Epochs.{epoch_seen};
ghost use Rattle.nys_guard_commands.specs.Planned.{unlisted, host_line, epoch_line, epoch_lines, plan_answer, IsPlanAnswer};

use crate::graphs::guard_graphs;
use crate::print::{put_hosts, put_numbered, put_placed};
use nys_answer::{Answer, Status};
use nys_bytes::{NoMemory, Out};
use nys_guards::GuardGraph;
use nys_scenario::{EpochText, Scenario};
use std::alloc::Global;

/// What `plan` answers: the guards that are planned for each epoch, whether it lists guards or not, or
/// the first epoch for which none can be.
pub fn plan(alloc: Global, scenario: &Scenario) -> Result<Answer, NoMemory>
    ensures { IfOk result (IsPlanAnswer (said_by scenario.now)) }
{
    let epochs = unlisted_epochs(alloc, &scenario.epochs)?;
    match guard_graphs(alloc, &scenario.graph, &epochs) {
        Ok(graphs) => all_planned(alloc, scenario.graph.hosts(), &scenario.epochs, &graphs),
        Err(refusal) => refusal.answer(),
    }
}

/// The epochs with their guards left out.
fn unlisted_epochs(alloc: Global, epochs: &[EpochText]) -> Result<Vec<EpochText>, NoMemory>
    ensures { IfOk result (λ left. map epoch_seen left.items ≡ map unlisted (map epoch_seen epochs.now)) }
{
    let mut left = Vec::new(alloc);
    for epoch in epochs {
        push(&mut left, unlisted(*epoch))?;
    }
    Ok(left)
}

/// The epoch with its guards left out.
fn unlisted(epoch: EpochText) -> EpochText
    ensures { epoch_seen result ≡ unlisted (epoch_seen epoch) }
{
    EpochText {
        t: epoch.t,
        credit: epoch.credit,
        thresholds: epoch.thresholds,
        guards: None,
    }
}

/// Appends an epoch.
fn push(epochs: &mut Vec<EpochText>, epoch: EpochText) -> Result<(), NoMemory>
    ensures { OnOk result (epochs.new.items ≡ epochs.old.items ++ epoch ∷ []) }
{
    match epochs.push(epoch) {
        Ok(()) => Ok(()),
        Err(_) => Err(NoMemory),
    }
}

/// The answer where these guards are planned for the epochs.
fn all_planned(
    alloc: Global,
    hosts: u32,
    epochs: &[EpochText],
    graphs: &[GuardGraph],
) -> Result<Answer, NoMemory>
    requires few { hosts ≤ MAX_HOSTS }
    requires each { length graphs.now ≡ length epochs.now }
    ensures { IfOk result (λ answer. answer ≡ plan_answer hosts (map epoch_seen epochs.now) graphs.now) }
{
    let mut text = Out::new(alloc);
    for e in 0..graphs.len() {
        put_epoch(&mut text, hosts, e, epochs[e].t, &graphs[e])?;
    }
    text.put(b"end\n")?;
    Ok(Answer {
        status: Status::Done,
        text,
    })
}

/// Appends the lines of an epoch: its own, and one for each host.
fn put_epoch(
    text: &mut Out,
    hosts: u32,
    e: usize,
    t: u32,
    graph: &GuardGraph,
) -> Result<(), NoMemory>
    requires { hosts ≤ MAX_HOSTS }
    ensures { OnOk result (text.new ≡ text.old ++ epoch_lines hosts e t graph.now) }
{
    put_epoch_line(text, e, t, graph.credit)?;
    for h in 0..hosts {
        put_host_line(text, graph, h)?;
    }
    Ok(())
}

fn put_epoch_line(text: &mut Out, e: usize, t: u32, credit: u32) -> Result<(), NoMemory>
    ensures { OnOk result (text.new ≡ text.old ++ epoch_line e t credit) }
{
    put_placed(text, "epoch ", e)?;
    put_numbered(text, " t ", t)?;
    put_numbered(text, " credit ", credit)?;
    text.put(b"\n")
}

#[tactic(auto, unfolding(nys_guards::specs::Good::guards_in))]
fn put_host_line(text: &mut Out, graph: &GuardGraph, h: u32) -> Result<(), NoMemory>
    requires { h < MAX_HOSTS }
    ensures { OnOk result (text.new ≡ text.old ++ host_line (guards_in graph.now.guards) h) }
{
    put_numbered(text, "host ", h)?;
    text.put(b" guards ")?;
    put_hosts(text, graph.guards[h as usize])?;
    text.put(b"\n")
}
