//! What a handler may ask of the host at which it runs.

ghost use Rattle.std.specs.Prelude.{◌≡◌, ◌<◌, ◌++◌, ◌∷◌, [], IfOk, OnOk, if◌then◌else◌};
ghost use Rattle.nys_graph.specs.Links.{linked_in};
ghost use Rattle.nys_meaning.specs.Machines.{here_at};

use nys_bytes::NoMemory;
use nys_graph::Graph;
use nys_meaning::Here;
use sqlite_items::Items;
use std::alloc::Global;

/// What a handler at a host of a graph may ask of it.
pub fn here(alloc: Global, graph: &Graph, h: u32) -> Result<Here, NoMemory>
    requires { h < graph.now.hosts }
    ensures { IfOk result (λ s. s ≡ here_at graph.now.hosts (linked_in graph.now.rows) h) }
{
    let mut near = Items::new(alloc);
    for q in 0..graph.hosts() {
        add(graph, h, q, &mut near)?;
    }
    Ok(Here {
        me: h,
        hosts: graph.hosts(),
        near,
    })
}

/// One host more, if it is a neighbour.
fn add(graph: &Graph, h: u32, q: u32, near: &mut Items<u32>) -> Result<(), NoMemory>
    requires host { h < graph.now.hosts }
    requires other { q < graph.now.hosts }
    ensures { OnOk result (near.new ≡ near.old ++ (if linked_in graph.now.rows h q then q ∷ [] else [])) }
{
    if graph.linked(h, q) {
        near.push(q)?;
    }
    Ok(())
}
