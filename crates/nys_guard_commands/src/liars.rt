//! Whether guard graphs stand some liars.

ghost use Rattle.std.specs.Prelude.{◌≡◌, All, IfOk, IfErr};
ghost use Rattle.nys_hosts.specs.Sets.{has};
ghost use Rattle.nys_guard_commands.specs.Refusals.{Refuses};
ghost use Rattle.nys_guard_commands.specs.Liars.{Stands, IsLiarsAnswer, IsLiarsAt};

use crate::refusal::{Refusal, answered};
use crate::words::liars_answer;
use nys_graph::Graph;
use nys_guards::GuardGraph;
use nys_hosts::HostSet;
use std::alloc::Global;

/// Whether each epoch stands the liars. Else the answer names the first that does not, with its lowest
/// host that has too many liars among its guards.
pub fn stand_liars(
    alloc: Global,
    graph: &Graph,
    graphs: &[GuardGraph],
    liars: HostSet,
) -> Result<(), Refusal>
    ensures stand { IfOk result (λ _. All (Stands graph.now.hosts (has liars)) graphs.now) }
    ensures refused { IfErr result (Refuses (IsLiarsAnswer graph.now.hosts (has liars) graphs.now)) }
{
    for e in 0..graphs.len() {
        stands_at(alloc, graph, e, graphs[e], liars)?;
    }
    Ok(())
}

/// Whether an epoch, which has this number, stands the liars, or the answer that names a host.
fn stands_at(
    alloc: Global,
    graph: &Graph,
    e: usize,
    guards: GuardGraph,
    liars: HostSet,
) -> Result<(), Refusal>
    ensures stand { IfOk result (λ _. Stands graph.now.hosts (has liars) guards) }
    ensures refused { IfErr result (Refuses (IsLiarsAt graph.now.hosts (has liars) e guards)) }
{
    match guards.liars_within(graph, liars) {
        Ok(()) => Ok(()),
        Err(fault) => Err(answered(liars_answer(alloc, e, fault))),
    }
}
