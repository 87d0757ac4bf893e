//! The scenario to which drawn events happen.

ghost use Rattle.std.specs.Prelude.{◌≡◌, ◌≤◌, ◌∷◌, [], IfOk};
ghost use Rattle.nys_config.specs.Config.{IsConfig};
ghost use Rattle.nys_graph.specs.Links.{linked_in};
ghost use Rattle.nys_guard_commands.specs.Graphs.{AreGraphsOf};
ghost use Rattle.nys_hosts.specs.declared.limits.TheConstants.{MAX_HOSTS};
ghost use Rattle.nys_native.specs.Floods.{flood_rules};
ghost use Rattle.nys_rules.specs.World as rules;
ghost use Rattle.nys_scenario.specs.Epochs.{epoch_seen};
ghost use Rattle.nys_words.specs.declared.request.TheConstants.{MIN_HOSTS};
ghost use Rattle.nys_workload.specs.Rings.{ring_linked};
ghost use Rattle.nys_workload_command.specs.Answered.{the_epoch, IsSettingOf};
ghost use Rattle.nys_world.specs.Shows.{setting_of, IsStage};
ghost use Rattle.nys_world.specs.Worlds.{IsWorldOf};

use nys_bytes::NoMemory;
use nys_config::Config;
use nys_graph::Graph;
use nys_guard_commands::{Refusal, guard_graphs};
use nys_guards::GuardGraph;
use nys_hosts::HostSet;
use nys_mac::Keys;
use nys_native::Flood;
use nys_scenario::{EpochText, MASTER_BYTES};
use nys_workload::ring;
use nys_world::World;
use std::alloc::Global;

/// How many guards of a host may lie.
pub(crate) const GUARD_LIARS: u32 = 1;

/// How many slots of a log the head of a link may wait until it is overdue.
pub(crate) const CREDIT: u32 = 8;

/// The world before the first event: a ring of so many hosts, each with the flood, no liars, one epoch whose
/// guards are planned, and a master key of zeros.
pub(crate) fn fresh(alloc: Global, hosts: u32) -> Result<World<Flood>, NoMemory>
    requires some { MIN_HOSTS ≤ hosts }
    requires few { hosts ≤ MAX_HOSTS }
    ensures setting { IfOk result (λ world. IsSettingOf hosts
        (setting_of (flood_rules world.stage.cx.protocol.graph.hosts
        (linked_in world.stage.cx.protocol.graph.rows)) world.stage)) }
    ensures stage { IfOk result (λ world. IsStage (flood_rules world.stage.cx.protocol.graph.hosts
        (linked_in world.stage.cx.protocol.graph.rows)) world.stage) }
    ensures first { IfOk result (λ world. IsWorldOf (flood_rules world.stage.cx.protocol.graph.hosts
        (linked_in world.stage.cx.protocol.graph.rows)) world
        (rules.fresh_world (setting_of (flood_rules world.stage.cx.protocol.graph.hosts
        (linked_in world.stage.cx.protocol.graph.rows)) world.stage))) }
    ensures hosts { IfOk result (λ world. world.stage.cx.protocol.graph.hosts ≡ hosts) }
{
    let graph = ring(alloc, hosts)?;
    let epochs = guards(alloc, &graph, hosts)?;
    let keys = Keys::from_master([0; MASTER_BYTES]).ready_for(alloc, hosts)?;
    let cx = Config {
        protocol: Flood { graph },
        epochs,
        keys,
    };
    World::fresh(alloc, cx, HostSet::empty(), false)
}

/// The guards that are planned for the one epoch of a ring.
fn guards(alloc: Global, graph: &Graph, hosts: u32) -> Result<Vec<GuardGraph>, NoMemory>
    requires all { graph.now.hosts ≡ hosts }
    requires ring { linked_in graph.now.rows ≡ ring_linked hosts }
    requires some { MIN_HOSTS ≤ hosts }
    requires few { hosts ≤ MAX_HOSTS }
    ensures { IfOk result (λ graphs. AreGraphsOf hosts (ring_linked hosts) (the_epoch ∷ []) graphs.items) }
{
    match guard_graphs(alloc, graph, &[epoch()]) {
        Ok(graphs) => Ok(graphs),
        Err(Refusal::NoMemory) => Err(NoMemory),
        Err(Refusal::Answered(_)) => unreachable!(),
    }
}

/// The one epoch.
fn epoch() -> EpochText
    ensures { epoch_seen result ≡ the_epoch }
{
    EpochText {
        t: GUARD_LIARS,
        credit: CREDIT,
        thresholds: None,
        guards: None,
    }
}
