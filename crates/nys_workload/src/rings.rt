//! The ring of hosts.

ghost use Rattle.std.specs.Prelude.{◌≡◌, ◌<◌, ◌≤◌, ◌-◌, ◌++◌, ◌∷◌, [], IfOk, OnOk};
ghost use Rattle.nys_hosts.specs.declared.limits.TheConstants.{MAX_HOSTS};
ghost use Rattle.nys_graph.specs.Links.{linked_in};
ghost use Rattle.nys_workload.specs.Rings.{link_from, ring_linked, ring_links};

use nys_bytes::NoMemory;
use nys_graph::Graph;
use std::alloc::Global;

/// The graph in which each host is linked to the next, and the last to the first. There are 4 to 32 hosts.
pub fn ring(alloc: Global, hosts: u32) -> Result<Graph, NoMemory>
    requires some { 4 ≤ hosts }
    requires few { hosts ≤ MAX_HOSTS }
    ensures hosts { IfOk result (λ graph. graph.hosts ≡ hosts) }
    ensures linked { IfOk result (λ graph. linked_in graph.rows ≡ ring_linked hosts) }
{
    let links = ring_links(alloc, hosts)?;
    match Graph::new(hosts, links.as_slice()) {
        Ok(graph) => Ok(graph),
        Err(_) => unreachable!(),
    }
}

/// The links of a ring, by their lower ends.
fn ring_links(alloc: Global, hosts: u32) -> Result<Vec<(u32, u32)>, NoMemory>
    requires few { hosts ≤ MAX_HOSTS }
    ensures { IfOk result (λ links. links.items ≡ ring_links hosts) }
{
    let mut links = Vec::new(alloc);
    for h in 0..hosts {
        push(&mut links, link_from(hosts, h))?;
    }
    Ok(links)
}

/// The link from a host to the next.
fn link_from(hosts: u32, h: u32) -> (u32, u32)
    requires { h < MAX_HOSTS }
    ensures { result ≡ link_from hosts h }
{
    if h + 1 < hosts { (h, h + 1) } else { (h, 0) }
}

/// Appends a link.
fn push(links: &mut Vec<(u32, u32)>, link: (u32, u32)) -> Result<(), NoMemory>
    ensures { OnOk result (links.new.items ≡ links.old.items ++ link ∷ []) }
{
    match links.push(link) {
        Ok(()) => Ok(()),
        Err(_) => Err(NoMemory),
    }
}
