//! The guard graphs of epochs.

ghost use Rattle.std.specs.Prelude.{◌≡◌, ◌≤◌, ◌<◌, ◌++◌, ◌∷◌, [], IfOk, IfErr, OnOk, map};
ghost use Rattle.nys_graph.specs.Links.{linked_in};
ghost use Rattle.nys_scenario.specs.Epochs.{epoch_seen};
ghost use Rattle.nys_guards.specs.Good.{guards_in, threshold_in};
ghost use Rattle.nys_guard_commands.specs.Refusals.{Refuses};
ghost use Rattle.nys_guard_commands.specs.Graphs.{IsGraphOf, AreGraphsOf, IsFaultOf, IsEpochAnswer, IsGuardsAnswer, thresholds_of};

use crate::fault::EpochFault;
use crate::refusal::{Refusal, answered};
use crate::thresholds::thresholds_of;
use crate::words::guards_answer;
use nys_graph::Graph;
use nys_guards::GuardGraph;
use nys_plan::plan;
use nys_scenario::EpochText;
use std::alloc::Global;

/// The guard graph of an epoch: by the guards that it lists, or planned where it lists none.
fn graph_of(graph: &Graph, epoch: EpochText) -> Result<GuardGraph, EpochFault>
    ensures ok { IfOk result (IsGraphOf graph.now.hosts (linked_in graph.now.rows) (epoch_seen epoch)) }
    ensures err { IfErr result (IsFaultOf graph.now.hosts (linked_in graph.now.rows)
        (thresholds_of graph.now.hosts (epoch_seen epoch)) epoch.credit (epoch_seen epoch).guards) }
{
    let t = thresholds_of(graph, epoch);
    let Some(guards) = epoch.guards else {
        return match plan(graph, &t, epoch.credit) {
            Ok(planned) => Ok(planned),
            Err(fault) => Err(EpochFault::Unplanned(fault)),
        };
    };
    let listed = GuardGraph {
        t,
        credit: epoch.credit,
        guards,
    };
    match listed.check(graph) {
        Ok(()) => Ok(listed),
        Err(fault) => Err(EpochFault::NotGood(fault)),
    }
}

/// The guard graph of an epoch, which has this number, or the answer that names its fault.
fn graph_at(alloc: Global, graph: &Graph, e: usize, epoch: EpochText) -> Result<GuardGraph, Refusal>
    ensures ok { IfOk result (IsGraphOf graph.now.hosts (linked_in graph.now.rows) (epoch_seen epoch)) }
    ensures err { IfErr result (Refuses
        (IsEpochAnswer graph.now.hosts (linked_in graph.now.rows) e (epoch_seen epoch))) }
{
    match graph_of(graph, epoch) {
        Ok(found) => Ok(found),
        Err(fault) => Err(answered(guards_answer(alloc, e, fault))),
    }
}

/// The guard graphs of epochs, in their order, each by the guards that the epoch lists or planned where
/// it lists none. All are good; else the answer names the first fault of the first epoch that has one.
pub fn guard_graphs(
    alloc: Global,
    graph: &Graph,
    epochs: &[EpochText],
) -> Result<Vec<GuardGraph>, Refusal>
    ensures good { IfOk result (λ graphs. AreGraphsOf graph.now.hosts (linked_in graph.now.rows)
        (map epoch_seen epochs.now) graphs.items) }
    ensures refused { IfErr result (Refuses
        (IsGuardsAnswer graph.now.hosts (linked_in graph.now.rows) (map epoch_seen epochs.now))) }
{
    let mut graphs = Vec::new(alloc);
    for e in 0..epochs.len() {
        let found = graph_at(alloc, graph, e, epochs[e])?;
        push(&mut graphs, found)?;
    }
    Ok(graphs)
}

/// Appends a guard graph.
fn push(graphs: &mut Vec<GuardGraph>, found: GuardGraph) -> Result<(), Refusal>
    ensures ok { OnOk result (graphs.new.items ≡ graphs.old.items ++ found ∷ []) }
    ensures err { IfErr result (λ refusal. refusal ≡ Refusal.NoMemory) }
{
    match graphs.push(found) {
        Ok(()) => Ok(()),
        Err(_) => Err(Refusal::NoMemory),
    }
}
