//! The guards that an epoch of a document gives.

ghost use Rattle.std.specs.Prelude.{◌≡◌, ◌≤◌, [], Some, IfOk, IfErr, Ok, Err, length, map, option_map, false};
ghost use Rattle.std.specs.Option.{option_map_or};
ghost use Rattle.nys_hosts.specs.declared.limits.TheConstants.{MAX_HOSTS};
ghost use Rattle.toml.specs.Data.{as_array};
ghost use Rattle.toml.specs.View.{array_view, table_view, view};
ghost use Rattle.nys_hosts.specs.Sets.{has};
ghost use Rattle.nys_scenario.specs.Hosts.{are_integers, nobody};
ghost use Rattle.nys_scenario.specs.Values.{values_after};
ghost use Rattle.nys_scenario.specs.Epochs.{are_lists, count_of, guards_of, padded, row_in};

use crate::fault::KeyKind;
use crate::hosts::{all_integers, host_set};
use crate::lookup::lookup;
use nys_hosts::{HostSet, MAX_HOSTS};
use toml::value::Array;
use toml::{Table, Value};

/// How many members an array has.
pub(crate) fn count(array: &Array) -> usize
    ensures items { result ≡ count_of (array_view array.now) }
    ensures members { result ≡ length array.now.items }
{
    array.len()
}

/// Whether a value is an array of integers.
fn is_list(value: &Value) -> bool
    ensures { result ≡ option_map_or are_integers (as_array (view value.now)) false }
{
    match value.as_array() {
        Some(array) => all_integers(array),
        None => false,
    }
}

/// Whether each member is an array of integers.
fn all_lists(array: &Array) -> bool
    ensures { result ≡ are_lists (array_view array.now) }
{
    for value in array {
        if !is_list(value) {
            return false;
        }
    }
    true
}

/// The hosts that a value lists.
fn listed(value: &Value, hosts: u32) -> Option<HostSet>
    requires { hosts ≤ MAX_HOSTS }
    ensures { option_map has result ≡ row_in hosts (view value.now) }
{
    let array = value.as_array()?;
    host_set(array, hosts)
}

/// The sets that an array lists, with empty ones past its end.
fn guard_sets(array: &Array, hosts: u32) -> Option<[HostSet; MAX_HOSTS]>
    requires hosts { hosts ≤ MAX_HOSTS }
    requires few { length array.now.items ≤ MAX_HOSTS }
    ensures { option_map (map has) result
        ≡ option_map (padded nobody) (values_after (row_in hosts) (Some []) (array_view array.now)) }
{
    let mut sets = [HostSet::empty(); MAX_HOSTS];
    for (place, value) in array.iter().enumerate() {
        sets[place] = listed(value, hosts)?;
    }
    Some(sets)
}

/// The key `guards`.
#[tactic(auto, unfolding(crate::specs::Epochs::guards_of))]
pub(crate) fn guards_key(table: &Table, hosts: u32) -> Result<Option<[HostSet; MAX_HOSTS]>, KeyKind>
    requires { hosts ≤ MAX_HOSTS }
    ensures ok { IfOk result (λ sets. guards_of hosts (table_view table.now)
        ≡ Ok (option_map (map has) sets)) }
    ensures err { IfErr result (λ kind. guards_of hosts (table_view table.now) ≡ Err kind) }
{
    let Some(value) = lookup(table, "guards") else {
        return Ok(None);
    };
    let Some(array) = value.as_array() else {
        return Err(KeyKind::Kind);
    };
    if !all_lists(array) {
        return Err(KeyKind::Kind);
    }
    if count(array) != hosts as usize {
        return Err(KeyKind::Range);
    }
    let Some(sets) = guard_sets(array, hosts) else {
        return Err(KeyKind::Range);
    };
    Ok(Some(sets))
}
