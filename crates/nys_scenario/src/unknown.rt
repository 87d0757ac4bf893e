//! Keys that no scenario has.

ghost use Rattle.std.specs.Prelude.{◌≡◌, Option, IfOk, codes, option_map, option_and_then};
ghost use Rattle.toml.specs.Data.{as_table, get_member};
ghost use Rattle.toml.specs.View.{array_view, table_view, view};
ghost use Rattle.nys_scenario.specs.Document.{unknown_in_epochs, unknown_key as unknown_key_of};
ghost use Rattle.nys_scenario.specs.Unknown.{first_unknown, is_epoch_key, is_top_key, unknown_at, unknown_from};

use crate::keys::in_epoch;
use crate::lookup::lookup;
use nys_bytes::{NoMemory, Text};
use std::alloc::Global;
use toml::value::Array;
use toml::{Table, Value};

/// The keys of the top table.
const TOP_KEYS: [&str; 10] = [
    "hosts", "links", "protocol", "machine", "root", "schedule", "run", "master", "liars", "epoch",
];

/// The keys of an epoch.
const EPOCH_KEYS: [&str; 4] = ["t", "credit", "thresholds", "guards"];

/// Whether the top table has such a key.
#[tactic(auto, unfolding(crate::specs::Unknown::is_top_key))]
fn is_top(key: &str) -> bool
    ensures { result ≡ is_top_key key.now }
{
    TOP_KEYS.contains(&key)
}

/// Whether an epoch has such a key.
#[tactic(auto, unfolding(crate::specs::Unknown::is_epoch_key))]
fn is_of_epoch(key: &str) -> bool
    ensures { result ≡ is_epoch_key key.now }
{
    EPOCH_KEYS.contains(&key)
}

/// The least unknown key of the top table.
fn unknown_at_top(table: &Table) -> Option<&str>
    ensures { option_map (λ k. k.now) result ≡ first_unknown is_top_key (table_view table.now) }
{
    for (key, _value) in table.iter() {
        if !is_top(key.as_str()) {
            return Some(key.as_str());
        }
    }
    None
}

/// The least unknown key of an epoch.
fn unknown_of_epoch(table: &Table) -> Option<&str>
    ensures { option_map (λ k. k.now) result ≡ first_unknown is_epoch_key (table_view table.now) }
{
    for (key, _value) in table.iter() {
        if !is_of_epoch(key.as_str()) {
            return Some(key.as_str());
        }
    }
    None
}

/// The least unknown key of the epoch of this number, as it is printed.
fn unknown_of_value(alloc: Global, index: usize, value: &Value) -> Result<Option<Text>, NoMemory>
    ensures { IfOk result (λ key. key ≡ unknown_at index (as_table (view value.now))) }
{
    let Some(table) = value.as_table() else {
        return Ok(None);
    };
    let Some(key) = unknown_of_epoch(table) else {
        return Ok(None);
    };
    Ok(Some(in_epoch(alloc, index, key)?))
}

/// The first unknown key of an array of epochs, as it is printed.
fn unknown_of_array(alloc: Global, array: &Array) -> Result<Option<Text>, NoMemory>
    ensures { IfOk result (λ key. key ≡ unknown_from 0 (array_view array.now)) }
{
    for (index, value) in array.iter().enumerate() {
        if let Some(key) = unknown_of_value(alloc, index, value)? {
            return Ok(Some(key));
        }
    }
    Ok(None)
}

/// The first unknown key of the epochs of a document.
fn unknown_of_epochs(alloc: Global, table: &Table) -> Result<Option<Text>, NoMemory>
    ensures { IfOk result (λ key. key
        ≡ unknown_in_epochs (get_member (codes "epoch") (table_view table.now))) }
{
    let Some(value) = lookup(table, "epoch") else {
        return Ok(None);
    };
    let Some(array) = value.as_array() else {
        return Ok(None);
    };
    unknown_of_array(alloc, array)
}

/// The unknown key that is named: one of the top table before those of the epochs.
#[tactic(auto, unfolding(crate::specs::Document::unknown_key))]
pub(crate) fn unknown_key(alloc: Global, table: &Table) -> Result<Option<Text>, NoMemory>
    ensures { IfOk result (λ key. key ≡ unknown_key_of (table_view table.now)) }
{
    if let Some(key) = unknown_at_top(table) {
        return Ok(Some(Text::new(alloc, key)?));
    }
    unknown_of_epochs(alloc, table)
}
