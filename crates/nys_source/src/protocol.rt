//! Protocols: what users replicate.

ghost use Rattle.std.specs.Prelude.{◌≡◌, ◌<◌, ◌≤◌, ℕ, ℤ, Bool, true, List, Option, length, IfOk, IfSome, IfNone};
ghost use Rattle.nys_graph.specs.Links.{linked_in};
ghost use Rattle.nys_source.specs.Rules.{Rules, AreEffectsOf};

use crate::effect::Stepped;
use nys_bytes::{NoMemory, Payload};
use nys_graph::Graph;
use std::alloc::Global;

/// A deterministic state machine for each host of a graph. Contracts see it as its `rules`; hosts are
/// below the number of the graph's hosts.
pub trait Protocol: Drop {
    /// The state of one host.
    type State: Drop;

    /// Who is linked to whom, and what each host does.
    ghost rules: { Self → Rules Self.State };

    /// Which values are states of this protocol: all in which a host begins, and all that its steps
    /// leave. The type may have more values, as lists of a length that no state has.
    ghost is_state: { Self → Self.State → Bool };

    /// The communication graph.
    fn graph(&self) -> &Graph
        ensures hosts { result.now.hosts ≡ (rules self.now).hosts }
        ensures linked { linked_in result.now.rows ≡ (rules self.now).linked };

    /// The state in which a host begins.
    fn start(&self, alloc: Global, h: u32) -> Result<Self::State, NoMemory>
        requires { h < (rules self.now).hosts }
        ensures { IfOk result (λ state. state ≡ (rules self.now).start h) };

    /// What a host in this state does with a payload: one from its neighbour `from`, or an input where
    /// that is `None`.
    fn step(
        &self,
        alloc: Global,
        h: u32,
        state: &Self::State,
        from: Option<u32>,
        payload: &Payload,
    ) -> Result<Stepped<Self::State>, NoMemory>
        requires { h < (rules self.now).hosts }
        ensures { IfOk result (λ made. (made.state, made.effects.items)
            ≡ (rules self.now).next h state.now from payload.now) };

    /// The numbers that show a state, at most 256.
    fn view(&self, alloc: Global, state: &Self::State) -> Result<Vec<i64>, NoMemory>
        ensures value { IfOk result (λ numbers. numbers.items ≡ (rules self.now).view state.now) }
        ensures few { length ((rules self.now).view state.now) ≤ 256 };

    /// The state of a host that these numbers show. `None` exactly where no state is shown so.
    fn from_view(
        &self,
        alloc: Global,
        h: u32,
        numbers: &[i64],
    ) -> Result<Option<Self::State>, NoMemory>
        requires { h < (rules self.now).hosts }
        ensures some { IfOk result (λ found. IfSome found (λ state. (rules self.now).view state
            ≡ numbers.now)) }
        ensures state { IfOk result (λ found. IfSome found (λ state. is_state self.now state ≡ true)) }
        ensures none { IfOk result (λ found. IfNone found ((state : Self.State)
            → is_state self.now state ≡ true → (rules self.now).view state ≡ numbers.now → ⊥)) };

    /// An equal state with memory of its own.
    fn copy(&self, alloc: Global, state: &Self::State) -> Result<Self::State, NoMemory>
        ensures { IfOk result (λ copy. copy ≡ state.now) };

    // A host begins in a state, and a step from a state leaves one.
    ghost start_is_state: { (p : Self) (h : ℕ) → is_state p ((rules p).start h) ≡ true };

    ghost next_is_state: { (p : Self) (h : ℕ) (s : Self.State) (from : Option ℕ) (payload : List ℤ)
        → is_state p s ≡ true → is_state p ((rules p).next h s from payload).0 ≡ true };

    // The view shows all of a state.
    ghost same_view: { (p : Self) (s t : Self.State) → (rules p).view s ≡ (rules p).view t → s ≡ t };

    // A step sends to neighbours alone, and has at most 64 effects.
    ghost effects: { (p : Self) (h : ℕ) (s : Self.State) (from : Option ℕ) (payload : List ℤ)
        → h < (rules p).hosts → AreEffectsOf (rules p) h ((rules p).next h s from payload).1 };
}
