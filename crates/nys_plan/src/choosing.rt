//! The guards of one host.

ghost use Rattle.std.specs.Prelude.{◌≡◌, ℕ, ◌<◌, ◌≤◌, ◌==◌, ◌||◌, ◌&&◌, nat_lt, not};
ghost use Rattle.nys_hosts.specs.declared.limits.TheConstants.{MAX_HOSTS};
ghost use Rattle.nys_hosts.specs.Counts.{hosts_with};
ghost use Rattle.nys_hosts.specs.Sets.{has};
ghost use Rattle.nys_graph.specs.Links.{linked_in};
ghost use Rattle.nys_guards.specs.Good.{threshold_in, AreThresholds};
ghost use Rattle.nys_plan.specs.Planned.{IsPlanned, IsFirst, hosts_passing, order_of};

use crate::component::component;
use crate::greatest::greatest_in;
use nys_graph::Graph;
use nys_hosts::{HostSet, MAX_HOSTS};

/// The guards of a host: the first hosts of its component, rising, and then of the others, rising, as
/// many as the greatest threshold of the component needs; and the host.
pub(crate) fn guards_of(graph: &Graph, h: u32, t: &[u32; MAX_HOSTS]) -> HostSet
    requires host { h < graph.now.hosts }
    requires small { AreThresholds t.now }
    ensures { IsPlanned graph.now.hosts (linked_in graph.now.rows) (threshold_in t.now) h (has result) }
{
    let near = component(graph, h);
    let need = 3 * greatest_in(&near, h, t) + 1;
    let chosen = choose_near(graph.hosts(), &near, need);
    let chosen = choose_far(graph.hosts(), &near, need, chosen);
    chosen.with(h)
}

/// The first hosts of a component, rising.
fn choose_near(n: u32, near: &HostSet, need: u32) -> HostSet
    requires { n ≤ MAX_HOSTS }
    ensures { IsFirst need (hosts_passing (has near.now) n) (has result) }
{
    let mut chosen = HostSet::empty();
    for g in 0..n {
        if near.contains(g) {
            chosen = choose(&chosen, g, need);
        }
    }
    chosen
}

/// The first hosts of a component and then of the others, where those of the component are chosen.
fn choose_far(n: u32, near: &HostSet, need: u32, chosen: HostSet) -> HostSet
    requires few { n ≤ MAX_HOSTS }
    requires before { IsFirst need (hosts_passing (has near.now) n) (has chosen) }
    ensures { IsFirst need (order_of n (has near.now)) (has result) }
{
    let mut chosen = chosen;
    for g in 0..n {
        if !near.contains(g) {
            chosen = choose(&chosen, g, need);
        }
    }
    chosen
}

/// The chosen hosts and one more, where they are not enough.
fn choose(chosen: &HostSet, g: u32, need: u32) -> HostSet
    requires { g < MAX_HOSTS }
    ensures { (k : ℕ) → has result k
        ≡ (has chosen.now k || (nat_lt (hosts_with (has chosen.now)) need && (g == k))) }
{
    if chosen.count() < need {
        chosen.with(g)
    } else {
        *chosen
    }
}
