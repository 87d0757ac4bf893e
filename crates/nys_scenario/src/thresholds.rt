//! The thresholds that an epoch of a document gives.

ghost use Rattle.std.specs.Prelude.{◌≡◌, ◌≤◌, [], Some, All, IfSome, IfOk, IfErr, Ok, Err, length, option_map};
ghost use Rattle.nys_hosts.specs.declared.limits.TheConstants.{MAX_HOSTS};
ghost use Rattle.toml.specs.View.{array_view, table_view, view};
ghost use Rattle.nys_scenario.specs.Epochs.{padded, threshold_in, threshold_of, thresholds_of};
ghost use Rattle.nys_scenario.specs.Values.{values_after};

use crate::fault::KeyKind;
use crate::guards::count;
use crate::hosts::all_integers;
use crate::lookup::lookup;
use nys_hosts::MAX_HOSTS;
use toml::value::Array;
use toml::{Table, Value};

/// The threshold that a number is.
fn threshold_number(number: i64, t: u32) -> Option<u32>
    ensures value { result ≡ threshold_of t number }
    ensures small { IfSome result (λ own. own ≤ t) }
{
    match u32::try_from(number) {
        Ok(own) if own <= t => Some(own),
        _ => None,
    }
}

/// The threshold that a value is.
fn threshold(value: &Value, t: u32) -> Option<u32>
    ensures value { result ≡ threshold_in t (view value.now) }
    ensures small { IfSome result (λ own. own ≤ t) }
{
    let number = value.as_integer()?;
    threshold_number(number, t)
}

/// The thresholds that an array lists, with 0 past its end.
fn thresholds(array: &Array, t: u32) -> Option<[u32; MAX_HOSTS]>
    requires { length array.now.items ≤ MAX_HOSTS }
    ensures value { result ≡ option_map (padded 0)
        (values_after (threshold_in t) (Some []) (array_view array.now)) }
    ensures small { IfSome result (All (λ own. own ≤ t)) }
{
    let mut thresholds = [0; MAX_HOSTS];
    for (place, value) in array.iter().enumerate() {
        thresholds[place] = threshold(value, t)?;
    }
    Some(thresholds)
}

/// The key `thresholds` of an epoch with this `t`.
#[tactic(auto, unfolding(crate::specs::Epochs::thresholds_of))]
pub(crate) fn thresholds_key(
    table: &Table,
    t: u32,
    hosts: u32,
) -> Result<Option<[u32; MAX_HOSTS]>, KeyKind>
    requires { hosts ≤ MAX_HOSTS }
    ensures ok { IfOk result (λ found. thresholds_of hosts t (table_view table.now) ≡ Ok found) }
    ensures small { IfOk result (λ found. IfSome found (All (λ own. own ≤ t))) }
    ensures err { IfErr result (λ kind. thresholds_of hosts t (table_view table.now) ≡ Err kind) }
{
    let Some(value) = lookup(table, "thresholds") else {
        return Ok(None);
    };
    let Some(array) = value.as_array() else {
        return Err(KeyKind::Kind);
    };
    if !all_integers(array) {
        return Err(KeyKind::Kind);
    }
    if count(array) != hosts as usize {
        return Err(KeyKind::Range);
    }
    let Some(thresholds) = thresholds(array, t) else {
        return Err(KeyKind::Range);
    };
    Ok(Some(thresholds))
}
