//! The links of a document.

ghost use Rattle.std.specs.Prelude.{◌≡◌, ◌<◌, ◌≤◌, codes, [], Some, IfSome, IfOk, IfErr, Ok, Err, length, option_map};
ghost use Rattle.nys_hosts.specs.declared.limits.TheConstants.{MAX_HOSTS};
ghost use Rattle.toml.specs.View.{array_view, table_view, view};
ghost use Rattle.nys_graph.specs.Links.{linked_in};
ghost use Rattle.nys_scenario.specs.Keys.{IsFaultOf, named};
ghost use Rattle.nys_scenario.specs.Links.{are_pairs, graph_of, is_integer_pair, link_in, links_of, pair_in};
ghost use Rattle.nys_scenario.specs.Values.{values_after};

use crate::fault::{KeyKind, ScenarioFault};
use crate::hosts::host;
use crate::keys::key_fault;
use crate::lookup::lookup;
use nys_bytes::NoMemory;
use nys_graph::Graph;
use std::alloc::Global;
use toml::value::Array;
use toml::{Table, Value};

/// The two members of an array of two.
#[tactic(auto, using(crate::proofs::Arrays::no_pair_short, crate::proofs::Arrays::no_pair_long))]
fn pair(value: &Value) -> Option<(&Value, &Value)>
    ensures { option_map (λ p. (view p.0.now, view p.1.now)) result ≡ pair_in (view value.now) }
{
    let array = value.as_array()?;
    match array.as_slice() {
        [first, second] => Some((first, second)),
        _ => None,
    }
}

/// Whether a value is an array of two integers.
fn is_pair(value: &Value) -> bool
    ensures { result ≡ is_integer_pair (pair_in (view value.now)) }
{
    match pair(value) {
        Some((first, second)) => first.as_integer().is_some() && second.as_integer().is_some(),
        None => false,
    }
}

/// Whether each member is an array of two integers.
fn all_pairs(array: &Array) -> bool
    ensures { result ≡ are_pairs (array_view array.now) }
{
    for value in array {
        if !is_pair(value) {
            return false;
        }
    }
    true
}

/// The link that a value is.
fn link(value: &Value, hosts: u32) -> Option<(u32, u32)>
    ensures { result ≡ link_in hosts (view value.now) }
{
    let (first, second) = pair(value)?;
    let first = host(first, hosts)?;
    let second = host(second, hosts)?;
    Some((first, second))
}

/// The links in an array, where each member joins two hosts.
fn links(alloc: Global, array: &Array, hosts: u32) -> Result<Option<Vec<(u32, u32)>>, NoMemory>
    ensures { IfOk result (λ found. option_map (λ v. v.items) found
        ≡ values_after (link_in hosts) (Some []) (array_view array.now)) }
{
    let mut links = Vec::new(alloc);
    for value in array {
        let Some(link) = link(value, hosts) else {
            return Ok(None);
        };
        links.push(link)?;
    }
    Ok(Some(links))
}

/// The graph of these links.
fn graph(hosts: u32, links: &[(u32, u32)]) -> Result<Graph, KeyKind>
    requires some { 1 ≤ hosts }
    requires few { hosts ≤ MAX_HOSTS }
    ensures hosts { IfOk result (λ g. g.hosts ≡ hosts) }
    ensures ok { IfOk result (λ g. graph_of hosts links.now ≡ Ok (linked_in g.rows)) }
    ensures err { IfErr result (λ kind. graph_of hosts links.now ≡ Err kind) }
{
    match Graph::new(hosts, links) {
        Ok(graph) => Ok(graph),
        Err(_) => Err(KeyKind::Range),
    }
}

/// The key `links`, as the graph of `hosts` hosts.
#[tactic(auto, unfolding(crate::specs::Links::links_of))]
pub(crate) fn links_key(alloc: Global, table: &Table, hosts: u32) -> Result<Graph, ScenarioFault>
    requires some { 1 ≤ hosts }
    requires few { hosts ≤ MAX_HOSTS }
    ensures hosts { IfOk result (λ g. g.hosts ≡ hosts) }
    ensures ok { IfOk result (λ g. links_of hosts (table_view table.now) ≡ Ok (linked_in g.rows)) }
    ensures err { IfErr result (IsFaultOf (named (codes "links") (links_of hosts (table_view table.now)))) }
{
    let Some(value) = lookup(table, "links") else {
        return Err(key_fault(alloc, "links", KeyKind::Missing));
    };
    let Some(array) = value.as_array() else {
        return Err(key_fault(alloc, "links", KeyKind::Kind));
    };
    if !all_pairs(array) {
        return Err(key_fault(alloc, "links", KeyKind::Kind));
    }
    let Some(links) = links(alloc, array, hosts)? else {
        return Err(key_fault(alloc, "links", KeyKind::Range));
    };
    match graph(hosts, &links) {
        Ok(graph) => Ok(graph),
        Err(kind) => Err(key_fault(alloc, "links", kind)),
    }
}
