//! Reading a document.

ghost use Rattle.std.specs.Prelude.{◌≡◌, ◌≤◌, IfOk, IfErr, Ok, length};
ghost use Rattle.toml.specs.View.{table_view};
ghost use Rattle.nys_scenario.specs.Bounds.{IsBounded};
ghost use Rattle.nys_scenario.specs.Document.{answer_to, said_by, scenario_of};
ghost use Rattle.nys_scenario.specs.Keys.{IsFaultOf};

use crate::choice::chosen;
use crate::fault::{KeyKind, ScenarioFault};
use crate::keys::key_fault;
use crate::needs::Needs;
use crate::parts::{read_guarded, read_system, read_texts};
use crate::scenario::Scenario;
use crate::unknown::unknown_key;
use std::alloc::Global;
use toml::Table;

/// What the table of a document says.
#[tactic(auto, unfolding(crate::specs::Document::scenario_of))]
fn scenario(alloc: Global, table: &Table, needs: Needs) -> Result<Scenario, ScenarioFault>
    ensures said { IfOk result (λ scenario. scenario_of needs (table_view table.now)
        ≡ Ok (said_by scenario)) }
    ensures refused { IfErr result (IsFaultOf (scenario_of needs (table_view table.now))) }
{
    let system = read_system(alloc, table)?;
    let texts = read_texts(alloc, table)?;
    let guarded = read_guarded(alloc, table, system.graph.hosts(), needs)?;
    if let Some(key) = unknown_key(alloc, table)? {
        return Err(ScenarioFault::Key {
            key,
            kind: KeyKind::Unknown,
        });
    }
    let choice = chosen(alloc, system.name, system.root, system.machine)?;
    let master = guarded.master;
    Ok(Scenario {
        graph: system.graph,
        choice,
        schedule: texts.schedule,
        run: texts.run,
        master,
        liars: guarded.liars,
        epochs: guarded.epochs,
    })
}

/// The scenario that the bytes of a document say, for a command with these needs. Of several keys at
/// fault the first by "Scenario documents" in docs/FORMATS.md is named; the text of a machine is read
/// where none is.
pub fn read(alloc: Global, bytes: &[u8], needs: Needs) -> Result<Scenario, ScenarioFault>
    ensures said { IfOk result (λ scenario. answer_to needs bytes.now ≡ Ok (said_by scenario)) }
    ensures refused { IfErr result (IsFaultOf (answer_to needs bytes.now)) }
    ensures bounded { IfOk result (λ scenario. IsBounded needs (said_by scenario)) }
    // Its texts are no longer than the document.
    ensures schedule { IfOk result (λ scenario. length scenario.schedule ≤ length bytes.now) }
    ensures run { IfOk result (λ scenario. length scenario.run ≤ length bytes.now) }
{
    match toml::table_from_slice(alloc, bytes) {
        Ok(table) => scenario(alloc, &table, needs),
        Err(error) => {
            if error.is_memory() {
                return Err(ScenarioFault::NoMemory);
            }
            Err(key_fault(alloc, "document", KeyKind::Syntax))
        }
    }
}
