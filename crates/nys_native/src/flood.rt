//! The flood: the greatest number goes from host to host.

ghost use Rattle.std.specs.Prelude.{◌≡◌, ◌<◌, ◌∷◌, ◌++◌, [], ℕ, ℤ, List, Option, Some, None, IfOk, OnOk, true};
ghost use Rattle.nys_graph.specs.Links.{linked_in};
ghost use Rattle.nys_native.specs.Neighbours.{neighbours_but, sends_to};
ghost use Rattle.nys_native.specs.Floods.{flood_next, flood_rules, flood_with, greater_of};

use crate::neighbours::send_all;
use crate::total::Total;
use nys_bytes::{NoMemory, Payload};
use nys_graph::Graph;
use nys_source::{Effect, Protocol, Stepped};
use std::alloc::Global;

/// Each host keeps a number, 0 at the start. Where a payload's first number is greater, it becomes the
/// host's, and the payload goes out and to each neighbour but the sender, rising; else nothing changes.
#[derive(Clone, Copy, Debug)]
pub struct Flood {
    pub graph: Graph,
}

impl Protocol for Flood {
    type State = Total;

    ghost rules = { λ p. flood_rules p.graph.hosts (linked_in p.graph.rows) };

    ghost is_state = { λ p s. true };

    fn graph(&self) -> &Graph {
        &self.graph
    }

    fn start(&self, _alloc: Global, _h: u32) -> Result<Total, NoMemory> {
        Ok(Total { value: 0 })
    }

    #[tactic(auto, unfolding(crate::specs::Floods::flood_next))]
    fn step(
        &self,
        alloc: Global,
        h: u32,
        state: &Total,
        from: Option<u32>,
        payload: &Payload,
    ) -> Result<Stepped<Total>, NoMemory> {
        match greater(state, payload.numbers()) {
            None => Ok(Stepped {
                state: *state,
                effects: Vec::new(alloc),
            }),
            Some(greater) => {
                let effects = effects_of(alloc, &self.graph, h, from, payload)?;
                Ok(Stepped {
                    state: greater,
                    effects,
                })
            }
        }
    }

    fn view(&self, alloc: Global, state: &Total) -> Result<Vec<i64>, NoMemory> {
        state.shown(alloc)
    }

    fn from_view(
        &self,
        _alloc: Global,
        _h: u32,
        numbers: &[i64],
    ) -> Result<Option<Total>, NoMemory> {
        Ok(Total::read(numbers))
    }

    fn copy(&self, _alloc: Global, state: &Total) -> Result<Total, NoMemory> {
        Ok(*state)
    }

    ghost use Rattle.nys_native.specs.SumLaws.{sum_same_view};
    ghost use Rattle.nys_native.specs.FloodLaws.{flood_effects_allowed};
    ghost use Rattle.std.specs.Prelude.{refl};

    ghost start_is_state = { λ p h. refl };

    ghost next_is_state = { λ p h s from payload known. refl };

    ghost same_view = { λ p s t same. sum_same_view s t same };

    ghost effects = { λ p h s from payload inside. flood_effects_allowed p.graph.hosts
        (linked_in p.graph.rows) h s from payload p.graph.shape.few };
}

/// The first number, where it is greater than the host's.
fn greater(total: &Total, numbers: &[i64]) -> Option<Total>
    ensures { result ≡ greater_of total.now numbers.now }
{
    match numbers {
        [first, ..] => greater_than(total, first),
        [] => None,
    }
}

/// The number, where it is greater than the host's.
fn greater_than(total: &Total, first: &i64) -> Option<Total>
    ensures { result ≡ greater_of total.now (first.now ∷ []) }
{
    if total.value < *first {
        return Some(Total { value: *first });
    }
    None
}

/// What host `h` does beside keeping its new number.
fn effects_of(
    alloc: Global,
    graph: &Graph,
    h: u32,
    from: Option<u32>,
    payload: &Payload,
) -> Result<Vec<Effect>, NoMemory>
    requires { h < graph.now.hosts }
    ensures { IfOk result (λ effects. effects.items ≡ Effect.Out payload.now
        ∷ sends_to payload.now (neighbours_but graph.now.hosts (linked_in graph.now.rows) h from)) }
{
    let out = payload.copy(alloc)?;
    let mut effects = Vec::new(alloc);
    effects.push(Effect::Out { payload: out })?;
    send_all(alloc, graph, h, from, payload, &mut effects)?;
    Ok(effects)
}
