//! A protocol that is lent.

use nys_bytes::{NoMemory, Payload};
use nys_graph::Graph;
use nys_source::{Protocol, Stepped};
use std::alloc::Global;

/// A protocol that is lent is a protocol: the one that is lent.
#[derive(Drop)]
pub(crate) struct Lent<'a, P: Protocol> {
    pub protocol: &'a P,
}

impl<'a, P: Protocol> Protocol for Lent<'a, P> {
    type State = P::State;

    ghost rules = { λ p. P.rules p.protocol.now };

    ghost is_state = { λ p. P.is_state p.protocol.now };

    fn graph(&self) -> &Graph {
        self.protocol.graph()
    }

    fn start(&self, alloc: Global, h: u32) -> Result<P::State, NoMemory> {
        self.protocol.start(alloc, h)
    }

    fn step(
        &self,
        alloc: Global,
        h: u32,
        state: &P::State,
        from: Option<u32>,
        payload: &Payload,
    ) -> Result<Stepped<P::State>, NoMemory> {
        self.protocol.step(alloc, h, state, from, payload)
    }

    fn view(&self, alloc: Global, state: &P::State) -> Result<Vec<i64>, NoMemory> {
        self.protocol.view(alloc, state)
    }

    fn from_view(
        &self,
        alloc: Global,
        h: u32,
        numbers: &[i64],
    ) -> Result<Option<P::State>, NoMemory> {
        self.protocol.from_view(alloc, h, numbers)
    }

    fn copy(&self, alloc: Global, state: &P::State) -> Result<P::State, NoMemory> {
        self.protocol.copy(alloc, state)
    }

    ghost start_is_state = { λ p h. P.start_is_state p.protocol.now h };

    ghost next_is_state = { λ p h s from payload is. P.next_is_state p.protocol.now h s from payload is };

    ghost same_view = { λ p s t same. P.same_view p.protocol.now s t same };

    ghost effects = { λ p h s from payload inside. P.effects p.protocol.now h s from payload inside };
}
