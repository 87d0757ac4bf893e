//! The keys of one epoch.

ghost use Rattle.std.specs.Prelude.{◌≡◌, ◌≤◌, IfOk, IfErr, Ok};
ghost use Rattle.nys_hosts.specs.declared.limits.TheConstants.{MAX_HOSTS};
ghost use Rattle.toml.specs.View.{table_view};
ghost use Rattle.nys_scenario.specs.Epochs.{epoch_of, epoch_seen};
ghost use Rattle.nys_scenario.specs.Keys.{IsFaultOf};

use crate::epoch::EpochText;
use crate::fault::ScenarioFault;
use crate::guards::guards_key;
use crate::keys::named_in_epoch;
use crate::lookup::number_key;
use crate::thresholds::thresholds_key;
use nys_hosts::{MAX_CREDIT, MAX_T};
use std::alloc::Global;
use toml::Table;

/// The epoch of this number, by its table.
#[tactic(auto, unfolding(crate::specs::Epochs::epoch_of))]
pub(crate) fn epoch_in(
    alloc: Global,
    index: usize,
    table: &Table,
    hosts: u32,
) -> Result<EpochText, ScenarioFault>
    requires { hosts ≤ MAX_HOSTS }
    ensures ok { IfOk result (λ epoch. epoch_of hosts index (table_view table.now) ≡ Ok (epoch_seen epoch)) }
    ensures err { IfErr result (IsFaultOf (epoch_of hosts index (table_view table.now))) }
{
    let t = named_in_epoch(alloc, index, "t", number_key(table, "t", 0, MAX_T))?;
    let credit = named_in_epoch(
        alloc,
        index,
        "credit",
        number_key(table, "credit", 1, MAX_CREDIT),
    )?;
    let thresholds = named_in_epoch(alloc, index, "thresholds", thresholds_key(table, t, hosts))?;
    let guards = named_in_epoch(alloc, index, "guards", guards_key(table, hosts))?;
    Ok(EpochText {
        t,
        credit,
        thresholds,
        guards,
    })
}
