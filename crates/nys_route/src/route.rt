//! The protocol that finds routes.

ghost use Rattle.std.specs.Prelude.{◌≡◌, ◌<◌, ◌≤◌, ◌+◌, ◌∷◌, [], ℕ, List, Option, Some, None, IfOk, pos};
ghost use Rattle.nys_route.specs.declared.way.TheConstants.{MAX_HEARD};
ghost use Rattle.nys_graph.specs.Links.{linked_in};
ghost use Rattle.nys_route.specs.Routes.{are_ways, begun, heard, heard_from, heard_of, news, route_next, route_rules, told, unchanged};

use crate::reading::{news_of, read_ways};
use crate::sends::send_others;
use crate::way::{UNKNOWN, Way};
use crate::ways::Ways;
use nys_bytes::{NoMemory, Payload};
use nys_graph::Graph;
use nys_source::{Effect, Protocol, Stepped};
use std::alloc::Global;

/// Each host keeps for each destination a distance, 0 to 31 or 32 where it is unknown, and the neighbour to
/// go by. An input at a host makes its distance to itself 0, where that was unknown; a nearer way that a
/// neighbour tells of is kept. What is new is told to the other neighbours, rising. There are no outputs.
#[derive(Clone, Copy, Debug)]
pub struct Route {
    pub graph: Graph,
}

impl Protocol for Route {
    type State = Ways;

    ghost rules = { λ p. route_rules p.graph.hosts (linked_in p.graph.rows) };

    ghost is_state = { λ p ways. are_ways p.graph.hosts ways };

    fn graph(&self) -> &Graph {
        &self.graph
    }

    fn start(&self, alloc: Global, _h: u32) -> Result<Ways, NoMemory> {
        Ways::unknown(alloc, self.graph.hosts())
    }

    #[tactic(auto, unfolding(crate::specs::Routes::route_next))]
    fn step(
        &self,
        alloc: Global,
        h: u32,
        state: &Ways,
        from: Option<u32>,
        payload: &Payload,
    ) -> Result<Stepped<Ways>, NoMemory> {
        match from {
            None => begin(alloc, &self.graph, h, state),
            Some(p) => hear(alloc, &self.graph, h, state, p, payload.numbers()),
        }
    }

    fn view(&self, alloc: Global, state: &Ways) -> Result<Vec<i64>, NoMemory> {
        state.shown(alloc)
    }

    fn from_view(&self, alloc: Global, _h: u32, numbers: &[i64]) -> Result<Option<Ways>, NoMemory> {
        read_ways(alloc, self.graph.hosts(), numbers)
    }

    fn copy(&self, alloc: Global, state: &Ways) -> Result<Ways, NoMemory> {
        state.copy(alloc)
    }

    ghost use Rattle.nys_route.specs.RouteLaws.{route_start, route_stays, route_same_view, route_effects};

    ghost start_is_state = { λ p h. route_start p.graph.hosts };

    ghost next_is_state = { λ p h s from payload known. route_stays p.graph.hosts
        (linked_in p.graph.rows) h s from payload p.graph.shape.few known };

    ghost same_view = { λ p s t same. route_same_view s t same };

    ghost effects = { λ p h s from payload inside. route_effects p.graph.hosts
        (linked_in p.graph.rows) h s from payload p.graph.shape.few };
}

/// What a host does with an input.
fn begin(alloc: Global, graph: &Graph, h: u32, ways: &Ways) -> Result<Stepped<Ways>, NoMemory>
    requires { h < graph.now.hosts }
    ensures { IfOk result (λ made. (made.state, made.effects.items)
        ≡ begun graph.now.hosts (linked_in graph.now.rows) h ways.now) }
{
    let own = ways.to(h);
    if own.distance != UNKNOWN {
        return unchanged(alloc, ways);
    }
    let way = Way {
        distance: 0,
        hop: own.hop,
    };
    told(alloc, graph, h, None, ways.with(alloc, h, way)?, h, 0)
}

/// What a host does with a message of `p`.
fn hear(
    alloc: Global,
    graph: &Graph,
    h: u32,
    ways: &Ways,
    p: u32,
    numbers: &[i64],
) -> Result<Stepped<Ways>, NoMemory>
    requires { h < graph.now.hosts }
    ensures { IfOk result (λ made. (made.state, made.effects.items)
        ≡ heard graph.now.hosts (linked_in graph.now.rows) h ways.now p numbers.now) }
{
    if p >= graph.hosts() {
        return unchanged(alloc, ways);
    }
    match news_of(graph.hosts(), numbers) {
        Some((d, x)) => hear_of(alloc, graph, h, ways, p, d, x),
        None => unchanged(alloc, ways),
    }
}

/// What a host does with the news that `p` is `x` links from `d`.
fn hear_of(
    alloc: Global,
    graph: &Graph,
    h: u32,
    ways: &Ways,
    p: u32,
    d: u32,
    x: u32,
) -> Result<Stepped<Ways>, NoMemory>
    requires host { h < graph.now.hosts }
    requires small { x < MAX_HEARD }
    ensures { IfOk result (λ made. (made.state, made.effects.items)
        ≡ heard_of graph.now.hosts (linked_in graph.now.rows) h ways.now p d x) }
{
    if x + 1 >= ways.to(d).distance {
        return unchanged(alloc, ways);
    }
    let way = Way {
        distance: x + 1,
        hop: Some(p),
    };
    told(
        alloc,
        graph,
        h,
        Some(p),
        ways.with(alloc, d, way)?,
        d,
        x + 1,
    )
}

/// The state as it was, without effects.
fn unchanged(alloc: Global, ways: &Ways) -> Result<Stepped<Ways>, NoMemory>
    ensures { IfOk result (λ made. (made.state, made.effects.items) ≡ unchanged ways.now) }
{
    let state = ways.copy(alloc)?;
    let effects = Vec::new(alloc);
    Ok(Stepped { state, effects })
}

/// A new state, and its distance to `d` told to all neighbours but `from`.
fn told(
    alloc: Global,
    graph: &Graph,
    h: u32,
    from: Option<u32>,
    state: Ways,
    d: u32,
    x: u32,
) -> Result<Stepped<Ways>, NoMemory>
    requires { h < graph.now.hosts }
    ensures { IfOk result (λ made. (made.state, made.effects.items)
        ≡ told graph.now.hosts (linked_in graph.now.rows) h from state d x) }
{
    let payload = news(alloc, d, x)?;
    let mut effects = Vec::new(alloc);
    send_others(alloc, graph, h, from, &payload, &mut effects)?;
    Ok(Stepped { state, effects })
}

/// The payload that tells of a distance to a destination.
fn news(alloc: Global, d: u32, x: u32) -> Result<Payload, NoMemory>
    ensures { IfOk result (λ payload. payload ≡ news d x) }
{
    match Payload::new(alloc, &[i64::from(d), i64::from(x)]) {
        Ok(payload) => Ok(payload),
        Err(_) => Err(NoMemory),
    }
}
