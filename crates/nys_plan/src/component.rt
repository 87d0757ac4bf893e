//! The hosts that a host reaches along links.

ghost use Rattle.std.specs.Prelude.{◌≡◌, ℕ, ◌<◌, ◌↔◌, ◌||◌, ◌&&◌, nat_lt, true};
ghost use Rattle.nys_hosts.specs.Sets.{has};
ghost use Rattle.nys_graph.specs.Links.{linked_in};
ghost use Rattle.nys_plan.specs.Walks.{IsReached, touches};

use nys_graph::Graph;
use nys_hosts::HostSet;

/// The connected component of a host: all hosts that it reaches, itself among them.
pub(crate) fn component(graph: &Graph, h: u32) -> HostSet
    requires { h < graph.now.hosts }
    ensures { (g : ℕ) → (has result g ≡ true) ↔ IsReached (linked_in graph.now.rows) h g }
{
    let mut reached = HostSet::empty().with(h);
    let mut wider = spread(graph, &reached);
    while reached.count() < wider.count() {
        reached = wider;
        wider = spread(graph, &reached);
    }
    reached
}

/// The set with the neighbours of its hosts.
fn spread(graph: &Graph, set: &HostSet) -> HostSet
    ensures { (g : ℕ) → has result g
        ≡ (has set.now g
        || (nat_lt g graph.now.hosts && touches (linked_in graph.now.rows) (has set.now) g)) }
{
    let mut wider = *set;
    for g in 0..graph.hosts() {
        if has_neighbour_in(graph, g, set) {
            wider = wider.with(g);
        }
    }
    wider
}

/// Whether a host of the set is a neighbour of `g`.
fn has_neighbour_in(graph: &Graph, g: u32, set: &HostSet) -> bool
    requires { g < graph.now.hosts }
    ensures { result ≡ touches (linked_in graph.now.rows) (has set.now) g }
{
    let neighbours = HostSet::of_mask(graph.neighbours(g));
    0 < neighbours.meet(set).count()
}
