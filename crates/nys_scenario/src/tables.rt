//! The epochs of a document, in their order.

ghost use Rattle.std.specs.Prelude.{◌≡◌, ◌≤◌, [], ◌∷◌, ◌++◌, IfOk, IfErr, Ok, Err, length, map, option_map, OnOk};
ghost use Rattle.nys_hosts.specs.declared.limits.TheConstants.{MAX_HOSTS};
ghost use Rattle.toml.specs.Data.{as_table};
ghost use Rattle.toml.specs.View.{array_view, table_view, view};
ghost use Rattle.nys_scenario.specs.Epochs.{are_tables, epoch_at, epoch_seen, epochs_after, epochs_of, tables_of};
ghost use Rattle.nys_scenario.specs.Keys.{IsFaultOf};

use crate::epoch::EpochText;
use crate::epoch_keys::epoch_in;
use crate::fault::{KeyKind, ScenarioFault};
use crate::guards::count;
use crate::keys::key_fault;
use crate::lookup::lookup;
use nys_hosts::MAX_EPOCHS;
use std::alloc::Global;
use toml::value::Array;
use toml::{Table, Value};

/// Whether each member is a table.
fn all_tables(array: &Array) -> bool
    ensures { result ≡ are_tables (array_view array.now) }
{
    for value in array {
        if value.as_table().is_none() {
            return false;
        }
    }
    true
}

/// The key `epoch`, which may be left out where it is not needed.
#[tactic(auto, unfolding(crate::specs::Epochs::tables_of))]
fn tables_key(table: &Table, needed: bool) -> Result<Option<&Array>, KeyKind>
    ensures ok { IfOk result (λ found. tables_of needed (table_view table.now)
        ≡ Ok (option_map (λ a. array_view a.now) found)) }
    ensures err { IfErr result (λ kind. tables_of needed (table_view table.now) ≡ Err kind) }
{
    let Some(value) = lookup(table, "epoch") else {
        if needed {
            return Err(KeyKind::Missing);
        }
        return Ok(None);
    };
    let Some(array) = value.as_array() else {
        return Err(KeyKind::Kind);
    };
    if !all_tables(array) {
        return Err(KeyKind::Kind);
    }
    if count(array) < 1 || MAX_EPOCHS < count(array) {
        return Err(KeyKind::Range);
    }
    Ok(Some(array))
}

/// The epoch of this number, by its value.
fn epoch_at_value(
    alloc: Global,
    index: usize,
    value: &Value,
    hosts: u32,
) -> Result<EpochText, ScenarioFault>
    requires { hosts ≤ MAX_HOSTS }
    ensures ok { IfOk result (λ epoch. epoch_at hosts index (as_table (view value.now))
        ≡ Ok (epoch_seen epoch)) }
    ensures err { IfErr result (IsFaultOf (epoch_at hosts index (as_table (view value.now)))) }
{
    match value.as_table() {
        Some(table) => epoch_in(alloc, index, table, hosts),
        None => Err(key_fault(alloc, "epoch", KeyKind::Kind)),
    }
}

/// The epochs that an array lists.
fn epochs_in_array(
    alloc: Global,
    array: &Array,
    hosts: u32,
) -> Result<Vec<EpochText>, ScenarioFault>
    requires { hosts ≤ MAX_HOSTS }
    ensures ok { IfOk result (λ epochs. epochs_after hosts (Ok []) (array_view array.now)
        ≡ Ok (map epoch_seen epochs.items)) }
    ensures err { IfErr result (IsFaultOf (epochs_after hosts (Ok []) (array_view array.now))) }
{
    let mut epochs = Vec::new(alloc);
    for value in array {
        let epoch = epoch_at_value(alloc, epochs.len(), value, hosts)?;
        push(&mut epochs, epoch)?;
    }
    Ok(epochs)
}

/// Appends an epoch.
fn push(epochs: &mut Vec<EpochText>, epoch: EpochText) -> Result<(), ScenarioFault>
    ensures ok { OnOk result (epochs.new.items ≡ epochs.old.items ++ epoch ∷ []) }
    ensures err { IfErr result (λ fault. fault ≡ ScenarioFault.NoMemory) }
{
    match epochs.push(epoch) {
        Ok(()) => Ok(()),
        Err(_) => Err(ScenarioFault::NoMemory),
    }
}

/// The epochs of a document.
#[tactic(auto, unfolding(crate::specs::Epochs::epochs_of))]
pub(crate) fn epochs_key(
    alloc: Global,
    table: &Table,
    hosts: u32,
    needed: bool,
) -> Result<Vec<EpochText>, ScenarioFault>
    requires { hosts ≤ MAX_HOSTS }
    ensures ok { IfOk result (λ epochs. epochs_of hosts needed (table_view table.now)
        ≡ Ok (map epoch_seen epochs.items)) }
    ensures err { IfErr result (IsFaultOf (epochs_of hosts needed (table_view table.now))) }
{
    match tables_key(table, needed) {
        Ok(Some(array)) => epochs_in_array(alloc, array, hosts),
        Ok(None) => Ok(Vec::new(alloc)),
        Err(kind) => Err(key_fault(alloc, "epoch", kind)),
    }
}
