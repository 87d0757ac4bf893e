//! Payloads sent to the neighbours of a host.

ghost use Rattle.std.specs.Prelude.{◌≡◌, ◌<◌, ◌++◌, ◌∷◌, [], ℕ, IsTrue, OnOk, not, ◌&&◌, ◌==◌, if◌then◌else◌};
ghost use Rattle.nys_graph.specs.Links.{linked_in};
ghost use Rattle.nys_native.specs.Neighbours.{is_not, neighbours_but, sends_to};

use nys_bytes::{NoMemory, Payload};
use nys_graph::Graph;
use nys_source::Effect;
use std::alloc::Global;

/// Appends a send of the payload to each neighbour of `h` but `from`, rising.
pub(crate) fn send_all(
    alloc: Global,
    graph: &Graph,
    h: u32,
    from: Option<u32>,
    payload: &Payload,
    effects: &mut Vec<Effect>,
) -> Result<(), NoMemory>
    requires { h < graph.now.hosts }
    ensures { OnOk result (effects.new.items ≡ effects.old.items
        ++ sends_to payload.now (neighbours_but graph.now.hosts (linked_in graph.now.rows) h from)) }
{
    for p in 0..graph.hosts() {
        send_one(alloc, graph, h, p, from, payload, effects)?;
    }
    Ok(())
}

/// Appends a send to `p`, if it is a neighbour and not `from`.
fn send_one(
    alloc: Global,
    graph: &Graph,
    h: u32,
    p: u32,
    from: Option<u32>,
    payload: &Payload,
    effects: &mut Vec<Effect>,
) -> Result<(), NoMemory>
    requires host { h < graph.now.hosts }
    requires other { p < graph.now.hosts }
    ensures { OnOk result (effects.new.items ≡ effects.old.items
        ++ sends_to payload.now (if linked_in graph.now.rows h p && is_not from p then p ∷ [] else [])) }
{
    if graph.linked(h, p) && from != Some(p) {
        let payload = payload.copy(alloc)?;
        effects.push(Effect::Send { to: p, payload })?;
    }
    Ok(())
}
