//! The sum: a payload adds its numbers to a host's total.

ghost use Rattle.std.specs.Prelude.{◌≡◌, ◌<◌, ◌∷◌, ◌++◌, ◌+ℤ◌, [], ℕ, ℤ, List, Option, Some, None, IfOk, OnOk, true};
ghost use Rattle.nys_graph.specs.Links.{linked_in};
ghost use Rattle.nys_native.specs.Sums.{fitting, total_of, sum_on, sum_effects, sum_next, sum_rules, sum_with};

use crate::neighbours::send_all;
use crate::total::Total;
use nys_bytes::{NoMemory, Payload};
use nys_graph::Graph;
use nys_source::{Effect, Protocol, Stepped};
use std::alloc::Global;

/// Each host keeps a total, 0 at the start. A payload adds all its numbers, left to right; where a sum
/// doesn't fit 64 bits, nothing changes. An input is then sent to each neighbour, rising; on a receive
/// the new total goes out.
#[derive(Clone, Copy, Debug)]
pub struct Sum {
    pub graph: Graph,
}

impl Protocol for Sum {
    type State = Total;

    ghost rules = { λ p. sum_rules p.graph.hosts (linked_in p.graph.rows) };

    ghost is_state = { λ p s. true };

    fn graph(&self) -> &Graph {
        &self.graph
    }

    fn start(&self, _alloc: Global, _h: u32) -> Result<Total, NoMemory> {
        Ok(Total { value: 0 })
    }

    #[tactic(auto, unfolding(crate::specs::Sums::sum_next))]
    fn step(
        &self,
        alloc: Global,
        h: u32,
        state: &Total,
        from: Option<u32>,
        payload: &Payload,
    ) -> Result<Stepped<Total>, NoMemory> {
        match added(state, payload.numbers()) {
            None => Ok(Stepped {
                state: *state,
                effects: Vec::new(alloc),
            }),
            Some(total) => {
                let effects = effects_of(alloc, &self.graph, h, from, payload, &total)?;
                Ok(Stepped {
                    state: total,
                    effects,
                })
            }
        }
    }

    fn view(&self, alloc: Global, state: &Total) -> Result<Vec<i64>, NoMemory> {
        state.shown(alloc)
    }

    fn from_view(
        &self,
        _alloc: Global,
        _h: u32,
        numbers: &[i64],
    ) -> Result<Option<Total>, NoMemory> {
        Ok(Total::read(numbers))
    }

    fn copy(&self, _alloc: Global, state: &Total) -> Result<Total, NoMemory> {
        Ok(*state)
    }

    ghost use Rattle.nys_native.specs.SumLaws.{sum_same_view, sum_effects_allowed};
    ghost use Rattle.std.specs.Prelude.{refl};

    ghost start_is_state = { λ p h. refl };

    ghost next_is_state = { λ p h s from payload known. refl };

    ghost same_view = { λ p s t same. sum_same_view s t same };

    ghost effects = { λ p h s from payload inside. sum_effects_allowed p.graph.hosts
        (linked_in p.graph.rows) h s from payload p.graph.shape.few };
}

/// The total with all numbers added to it, left to right, where each sum on the way fits.
fn added(total: &Total, numbers: &[i64]) -> Option<Total>
    ensures { result ≡ sum_on (Some total.now) numbers.now }
{
    let mut sum = *total;
    for number in numbers {
        sum = plus(sum, number)?;
    }
    Some(sum)
}

/// The total with one number added, where the sum fits.
#[tactic(auto, using(crate::proofs::Fits::fitting_is))]
fn plus(total: Total, number: &i64) -> Option<Total>
    ensures { result ≡ total_of (fitting (total.value +ℤ number.now)) }
{
    let value = total.value.checked_add(*number)?;
    Some(Total { value })
}

/// What host `h` does beside keeping its new total.
fn effects_of(
    alloc: Global,
    graph: &Graph,
    h: u32,
    from: Option<u32>,
    payload: &Payload,
    total: &Total,
) -> Result<Vec<Effect>, NoMemory>
    requires { h < graph.now.hosts }
    ensures { IfOk result (λ effects. effects.items
        ≡ sum_effects graph.now.hosts (linked_in graph.now.rows) h from payload.now total.now) }
{
    let mut effects = Vec::new(alloc);
    match from {
        None => send_all(alloc, graph, h, None, payload, &mut effects)?,
        Some(_) => push_total(alloc, total, &mut effects)?,
    }
    Ok(effects)
}

/// Appends the output of a total.
fn push_total(alloc: Global, total: &Total, effects: &mut Vec<Effect>) -> Result<(), NoMemory>
    ensures { OnOk result (effects.new.items ≡ effects.old.items ++ Effect.Out (total.now.value ∷ []) ∷ []) }
{
    let payload = total.payload(alloc)?;
    effects.push(Effect::Out { payload })?;
    Ok(())
}
