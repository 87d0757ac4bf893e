//! Arrays of hosts.

ghost use Rattle.std.specs.Prelude.{◌≡◌, ◌<◌, ◌≤◌, Some, IfSome, IfOk, IfErr, Ok, Err, option_map};
ghost use Rattle.nys_hosts.specs.declared.limits.TheConstants.{MAX_HOSTS};
ghost use Rattle.toml.specs.View.{array_view, table_view, view};
ghost use Rattle.nys_hosts.specs.Sets.{has};
ghost use Rattle.nys_scenario.specs.Hosts.{are_integers, host_in, host_of, hosts_after, liars_of, nobody, with_host};

use crate::fault::KeyKind;
use crate::lookup::lookup;
use nys_hosts::HostSet;
use toml::value::Array;
use toml::{Table, Value};

/// Whether each member is an integer.
pub(crate) fn all_integers(array: &Array) -> bool
    ensures { result ≡ are_integers (array_view array.now) }
{
    for value in array {
        if value.as_integer().is_none() {
            return false;
        }
    }
    true
}

/// The host that a number is.
pub(crate) fn host_number(number: i64, hosts: u32) -> Option<u32>
    ensures value { result ≡ host_of hosts number }
    ensures below { IfSome result (λ h. h < hosts) }
{
    match u32::try_from(number) {
        Ok(h) if h < hosts => Some(h),
        _ => None,
    }
}

/// The host that a value is.
pub(crate) fn host(value: &Value, hosts: u32) -> Option<u32>
    ensures value { result ≡ host_in hosts (view value.now) }
    ensures below { IfSome result (λ h. h < hosts) }
{
    let number = value.as_integer()?;
    host_number(number, hosts)
}

/// A set and one host more, which it may not have yet.
fn with_new(set: &HostSet, host: Option<u32>) -> Option<HostSet>
    requires { IfSome host (λ h. h < MAX_HOSTS) }
    ensures { option_map has result ≡ with_host (has set.now) host }
{
    let host = host?;
    if set.contains(host) {
        return None;
    }
    Some(set.with(host))
}

/// The hosts in an array, where each member is one and none stands twice.
pub(crate) fn host_set(array: &Array, hosts: u32) -> Option<HostSet>
    requires { hosts ≤ MAX_HOSTS }
    ensures { option_map has result ≡ hosts_after hosts (Some nobody) (array_view array.now) }
{
    let mut set = HostSet::empty();
    for value in array {
        set = with_new(&set, host(value, hosts))?;
    }
    Some(set)
}

/// The key `liars`.
#[tactic(auto, unfolding(crate::specs::Hosts::liars_of))]
pub(crate) fn liars_key(table: &Table, hosts: u32) -> Result<HostSet, KeyKind>
    requires { hosts ≤ MAX_HOSTS }
    ensures ok { IfOk result (λ set. liars_of hosts (table_view table.now) ≡ Ok (has set)) }
    ensures err { IfErr result (λ kind. liars_of hosts (table_view table.now) ≡ Err kind) }
{
    let Some(value) = lookup(table, "liars") else {
        return Ok(HostSet::empty());
    };
    let Some(array) = value.as_array() else {
        return Err(KeyKind::Kind);
    };
    if !all_integers(array) {
        return Err(KeyKind::Kind);
    }
    let Some(set) = host_set(array, hosts) else {
        return Err(KeyKind::Range);
    };
    Ok(set)
}
