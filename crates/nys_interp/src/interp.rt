//! The interpreter: a machine on a graph, as a protocol.

ghost use Rattle.std.specs.Prelude.{◌≡◌, ℕ, ◌≤◌, ◌==◌, true, length, Some, None, IfOk};
ghost use Rattle.nys_graph.specs.Links.{linked_in};
ghost use Rattle.nys_tree.specs.Named.{is_named};
ghost use Rattle.nys_meaning.specs.Machines.{begun, is_state, machine_rules, next, here_at, starts};
ghost use Rattle.nys_places.specs.Steps.{handled_at, handled_in, left_at, next_at, cells_of};
ghost use Rattle.nys_handler.specs.Does.{Does};

use crate::here::here;
use crate::setting::{cells, starts};
use crate::state::State;
use nys_bytes::{NoMemory, Payload};
use nys_graph::Graph;
use nys_handler::{Activation, Stop, block};
use nys_meaning::{Here, MAX_UNITS};
use nys_named::Named;
use nys_source::{Protocol, Stepped};
use nys_tree::Machine;
use sqlite_items::Items;
use std::alloc::Global;

/// A machine on a graph: each host walks the machine's tree.
#[derive(Drop)]
pub struct Interp {
    pub named: Named,
    pub graph: Graph,
}

impl Interp {
    /// The machine on the graph.
    pub fn new(named: Named, graph: Graph) -> Interp
        ensures named { result.named ≡ named }
        ensures graph { result.graph ≡ graph }
    {
        Interp { named, graph }
    }
}

/// How many numbers a state of the machine has.
#[tactic(auto, using(nys_places::proofs::Handlers::count_is, nys_places::proofs::Handlers::place_few))]
fn count(machine: &Machine) -> usize
    requires { is_named machine.now ≡ true }
    ensures count { result ≡ length (starts machine.now.vars) }
    ensures few { result ≤ 256 }
{
    machine.on_input.payload.place
}

/// Runs the handler of an input or a message.
fn handle(
    machine: &Machine,
    here: &Here,
    from: Option<u32>,
    activation: &mut Activation,
) -> Result<(), Stop>
    ensures { Does (handled_in machine.now here.now from activation.old) result activation.new }
{
    match from {
        None => block(&machine.on_input.body, here, activation),
        Some(_) => block(&machine.on_receive.body, here, activation),
    }
}

/// The state as it was, without effects.
fn kept(alloc: Global, state: &State) -> Result<Stepped<State>, NoMemory>
    ensures { IfOk result (λ made. (made.state, made.effects.items) ≡ left_at state.now None) }
{
    let state = state.copy(alloc)?;
    let effects = Vec::new(alloc);
    Ok(Stepped { state, effects })
}

/// What a handler leaves that came to its end.
fn left(alloc: Global, state: &State, activation: Activation) -> Result<Stepped<State>, NoMemory>
    ensures { IfOk result (λ made. (made.state, made.effects.items)
        ≡ left_at state.now (Some activation.entry)) }
{
    let (cells, effects) = activation.into_parts();
    let state = state.first(alloc, cells.numbers.as_slice())?;
    Ok(Stepped { state, effects })
}

/// Runs a handler from a state of the machine.
fn run(
    alloc: Global,
    machine: &Machine,
    here: &Here,
    state: &State,
    from: Option<u32>,
    payload: &[i64],
) -> Result<Stepped<State>, NoMemory>
    ensures { IfOk result (λ made. (made.state, made.effects.items)
        ≡ left_at state.now (handled_at machine.now here.now from (cells_of from state.now payload.entry))) }
{
    let cells = cells(alloc, state, from, payload)?;
    let mut activation = Activation::new(alloc, cells, MAX_UNITS);
    match handle(machine, here, from, &mut activation) {
        Ok(()) => left(alloc, state, activation),
        Err(Stop::Fault) => kept(alloc, state),
        Err(Stop::NoMemory) => Err(NoMemory),
    }
}

impl Protocol for Interp {
    type State = State;

    ghost rules = { λ p. machine_rules p.named.tree p.graph.hosts (linked_in p.graph.rows) };

    ghost is_state = { λ p state. is_state p.named.tree state };

    fn graph(&self) -> &Graph {
        &self.graph
    }

    #[tactic(auto, using(nys_places::proofs::Handlers::count_few))]
    fn start(&self, alloc: Global, _h: u32) -> Result<State, NoMemory> {
        let numbers = starts(alloc, self.named.tree().vars.as_slice())?;
        Ok(State::from_items(numbers))
    }

    fn step(
        &self,
        alloc: Global,
        h: u32,
        state: &State,
        from: Option<u32>,
        payload: &Payload,
    ) -> Result<Stepped<State>, NoMemory> {
        let here = here(alloc, &self.graph, h)?;
        walked(
            alloc,
            self.named.tree(),
            &here,
            state,
            from,
            payload.numbers(),
        )
    }

    fn view(&self, alloc: Global, state: &State) -> Result<Vec<i64>, NoMemory> {
        let numbers = Vec::from_slice(alloc, state.numbers())?;
        Ok(numbers)
    }

    fn from_view(
        &self,
        alloc: Global,
        _h: u32,
        numbers: &[i64],
    ) -> Result<Option<State>, NoMemory> {
        if numbers.len() == count(self.named.tree()) {
            let numbers = Items::from_slice(alloc, numbers)?;
            Ok(Some(State::from_items(numbers)))
        } else {
            Ok(None)
        }
    }

    fn copy(&self, alloc: Global, state: &State) -> Result<State, NoMemory> {
        state.copy(alloc)
    }

    ghost use Rattle.nys_places.proofs.States.{start_is_state, next_is_state};

    ghost start_is_state = { λ p h. start_is_state p.named.tree };

    ghost next_is_state = { λ p h s from payload known. next_is_state p.named.tree
        (here_at p.graph.hosts (linked_in p.graph.rows) h) s from payload known };

    ghost use Rattle.nys_places.proofs.Effects.{machine_effects};

    ghost same_view = { λ p s t same. same };

    ghost effects = { λ p h s from payload inside. machine_effects p.named.tree p.graph.hosts
        (linked_in p.graph.rows) h s from payload };
}

/// What the machine does with a payload. A list of another length than its states is left alone.
#[tactic(auto, using(nys_places::proofs::Handlers::next_is), unfolding(nys_places::specs::Steps::next_at))]
fn walked(
    alloc: Global,
    machine: &Machine,
    here: &Here,
    state: &State,
    from: Option<u32>,
    payload: &[i64],
) -> Result<Stepped<State>, NoMemory>
    requires { is_named machine.now ≡ true }
    ensures { IfOk result (λ made. (made.state, made.effects.items)
        ≡ next machine.now here.now state.now from payload.now) }
{
    if state.len() == count(machine) {
        run(alloc, machine, here, state, from, payload)
    } else {
        kept(alloc, state)
    }
}
