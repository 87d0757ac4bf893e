//! Payloads sent to the neighbours of a host.

ghost use Rattle.std.specs.Prelude.{◌≡◌, ◌<◌, ◌++◌, ◌∷◌, [], ℕ, OnOk, ◌&&◌, if◌then◌else◌};
ghost use Rattle.nys_graph.specs.Links.{linked_in};
ghost use Rattle.nys_source.specs.declared.effect.Effect.TheVariants as effect;
ghost use Rattle.nys_route.specs.Sends.{is_other, sends_where};

use nys_bytes::{NoMemory, Payload};
use nys_graph::Graph;
use nys_source::Effect;
use std::alloc::Global;

/// Appends a send of the payload to each neighbour of `h` but `from`, rising.
pub(crate) fn send_others(
    alloc: Global,
    graph: &Graph,
    h: u32,
    from: Option<u32>,
    payload: &Payload,
    effects: &mut Vec<Effect>,
) -> Result<(), NoMemory>
    requires { h < graph.now.hosts }
    ensures { OnOk result (effects.new.items ≡ effects.old.items
        ++ sends_where graph.now.hosts (is_other (linked_in graph.now.rows) h from) payload.now) }
{
    for q in 0..graph.hosts() {
        let passes = is_other(graph, h, from, q);
        send_if(alloc, passes, q, payload, effects)?;
    }
    Ok(())
}

/// Whether `q` is a neighbour of `h` but not `from`.
fn is_other(graph: &Graph, h: u32, from: Option<u32>, q: u32) -> bool
    requires host { h < graph.now.hosts }
    requires other { q < graph.now.hosts }
    ensures { result ≡ is_other (linked_in graph.now.rows) h from q }
{
    graph.linked(h, q) && from != Some(q)
}

/// Appends a send of the payload, if the host passes.
pub(crate) fn send_if(
    alloc: Global,
    passes: bool,
    to: u32,
    payload: &Payload,
    effects: &mut Vec<Effect>,
) -> Result<(), NoMemory>
    ensures { OnOk result (effects.new.items ≡ effects.old.items
        ++ (if passes then effect.Send to payload.now ∷ [] else [])) }
{
    if passes {
        let payload = payload.copy(alloc)?;
        effects.push(Effect::Send { to, payload })?;
    }
    Ok(())
}
