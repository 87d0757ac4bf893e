//! The guards of a scenario, as worlds take them.

ghost use Rattle.std.specs.Prelude.{◌≡◌, ◌≤◌, IfErr, IfOk, true};
ghost use Rattle.nys_guard_commands.specs.Checked.{IsRefused};
ghost use Rattle.nys_guard_commands.specs.Refusals.{Refuses};
ghost use Rattle.nys_scenario.specs.Bounds.{IsBounded};
ghost use Rattle.nys_scenario.specs.Document.{said_by};
ghost use Rattle.nys_world_commands.specs.Playing.{AreGuardsOf};

use nys_guard_commands::{Refusal, sound_graphs};
use nys_guards::GuardGraph;
use nys_hosts::HostSet;
use nys_scenario::{MASTER_BYTES, Scenario};
use std::alloc::Global;

/// What a scenario has for its guards: who guards whom in each epoch, the key from which the keys of all
/// pairs come, and the hosts that lie.
#[derive(Drop)]
pub struct Guards {
    pub graphs: Vec<GuardGraph>,
    pub master: [u8; MASTER_BYTES],
    pub liars: HostSet,
}

impl Guards {
    /// The guards of a scenario that has an epoch. All guard graphs are good and stand the liars; else the
    /// answer names the first fault, faults of guards before liars.
    pub fn of(alloc: Global, scenario: &Scenario) -> Result<Guards, Refusal>
        requires { IsBounded (record { master = true; epochs = true }) (said_by scenario.now) }
        ensures sound { IfOk result (AreGuardsOf (said_by scenario.now)) }
        ensures refused { IfErr result (Refuses (IsRefused (said_by scenario.now))) }
    {
        let graphs = sound_graphs(alloc, scenario)?;
        Ok(Guards {
            graphs,
            master: scenario.master,
            liars: scenario.liars,
        })
    }
}
