//! The keys `protocol`, `machine` and `root`.

ghost use Rattle.std.specs.Prelude.{◌≡◌, IfOk, IfErr, Ok, Err, None};
ghost use Rattle.toml.specs.View.{table_view, view};
ghost use Rattle.nys_scenario.specs.Hosts.{root_at, root_for, root_in};
ghost use Rattle.nys_scenario.specs.Values.{name_in, name_of, text_for};

use crate::fault::KeyKind;
use crate::hosts::host_number;
use crate::lookup::{lookup, needed_text, text_at};
use toml::{Table, Value};

/// A protocol as a document names it.
#[derive(Clone, Copy, Debug, PartialEq, Eq)]
pub(crate) enum ProtocolName {
    /// The word `sum`.
    Sum,
    /// The word `flood`.
    Flood,
    /// The word `machine`: the machine's text stands under a key of its own.
    Machine,
    /// The word `route`.
    Route,
    /// The word `tree`: its root stands under a key of its own.
    Tree,
}

/// The protocol that a word names.
fn named(word: &str) -> Result<ProtocolName, KeyKind>
    ensures { result ≡ name_in word.now }
{
    if word == "sum" {
        return Ok(ProtocolName::Sum);
    }
    if word == "flood" {
        return Ok(ProtocolName::Flood);
    }
    if word == "machine" {
        return Ok(ProtocolName::Machine);
    }
    if word == "route" {
        return Ok(ProtocolName::Route);
    }
    if word == "tree" {
        return Ok(ProtocolName::Tree);
    }
    Err(KeyKind::Range)
}

/// The key `protocol`.
#[tactic(auto, unfolding(crate::specs::Values::name_of))]
pub(crate) fn protocol_key(table: &Table) -> Result<ProtocolName, KeyKind>
    ensures { result ≡ name_of (table_view table.now) }
{
    let Some(value) = lookup(table, "protocol") else {
        return Err(KeyKind::Missing);
    };
    let Some(word) = value.as_str() else {
        return Err(KeyKind::Kind);
    };
    named(word)
}

/// The key `machine`, which has to be there where the protocol is a machine. The text is as it stands.
#[tactic(auto, unfolding(crate::specs::Values::text_for, crate::specs::Values::text_of))]
pub(crate) fn machine_key<'a>(table: &'a Table, name: ProtocolName) -> Result<&'a str, KeyKind>
    ensures ok { IfOk result (λ text. text_for name (table_view table.now) ≡ Ok text.now) }
    ensures err { IfErr result (λ kind. text_for name (table_view table.now) ≡ Err kind) }
{
    match name {
        ProtocolName::Sum => text_at(table, "machine"),
        ProtocolName::Flood => text_at(table, "machine"),
        ProtocolName::Machine => needed_text(table, "machine"),
        ProtocolName::Route => text_at(table, "machine"),
        ProtocolName::Tree => text_at(table, "machine"),
    }
}

/// The host that an integer is.
fn root(value: &Value, hosts: u32) -> Result<u32, KeyKind>
    ensures { result ≡ root_in hosts (view value.now) }
{
    let Some(number) = value.as_integer() else {
        return Err(KeyKind::Kind);
    };
    match host_number(number, hosts) {
        Some(host) => Ok(host),
        None => Err(KeyKind::Range),
    }
}

/// What stands for the key `root` where it is left out.
fn no_root(name: ProtocolName, hosts: u32) -> Result<u32, KeyKind>
    ensures { result ≡ root_at name hosts None }
{
    match name {
        ProtocolName::Tree => Err(KeyKind::Missing),
        ProtocolName::Sum => Ok(0),
        ProtocolName::Flood => Ok(0),
        ProtocolName::Route => Ok(0),
        ProtocolName::Machine => Ok(0),
    }
}

/// The key `root`, a host, which has to be there where the protocol is a tree.
#[tactic(auto, unfolding(crate::specs::Hosts::root_for))]
pub(crate) fn root_key(table: &Table, name: ProtocolName, hosts: u32) -> Result<u32, KeyKind>
    ensures { result ≡ root_for name hosts (table_view table.now) }
{
    match lookup(table, "root") {
        Some(value) => root(value, hosts),
        None => no_root(name, hosts),
    }
}
