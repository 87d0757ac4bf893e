//! The guards of all hosts, or why there are none.

ghost use Rattle.std.specs.Prelude.{◌≡◌, ℕ, ◌+◌, ◌*◌, ◌<◌, ◌≤◌, ◌↔◌, IfErr, IfOk, IfNone, IfSome, IsOk};
ghost use Rattle.nys_hosts.specs.Counts.{hosts_with};
ghost use Rattle.nys_graph.specs.Links.{linked_in};
ghost use Rattle.nys_guards.specs.Good.{guards_in, threshold_in, AreThresholds, IsGood};
ghost use Rattle.nys_plan.specs.Planned.{AreOfHostsBelow, IsPlanned};
ghost use Rattle.nys_plan.specs.Refused.{AreFew, IsPlanFault, IsPlannable};

use crate::choosing::guards_of;
use crate::fault::PlanFault;
use crate::greatest::greatest_below;
use nys_graph::Graph;
use nys_guards::GuardGraph;
use nys_hosts::{HostSet, MAX_HOSTS};

/// Guards for all hosts of the graph by their thresholds, where there are as many hosts as each needs
/// guards and no host has more neighbours than `credit`. They are good.
pub fn plan(graph: &Graph, t: &[u32; MAX_HOSTS], credit: u32) -> Result<GuardGraph, PlanFault>
    requires { AreThresholds t.now }
    ensures plannable { IsOk result ↔ IsPlannable graph.now.hosts (linked_in graph.now.rows)
        (threshold_in t.now) credit }
    ensures fault { IfErr result (IsPlanFault graph.now.hosts (linked_in graph.now.rows)
        (threshold_in t.now) credit) }
    ensures numbers { IfOk result (λ g. (g.t ≡ t.now) × (g.credit ≡ credit)) }
    ensures planned { IfOk result (λ g. (h : ℕ) → h < graph.now.hosts
        → IsPlanned graph.now.hosts (linked_in graph.now.rows) (threshold_in t.now) h
        (guards_in g.guards h)) }
    ensures rows { IfOk result (λ g. AreOfHostsBelow graph.now.hosts (guards_in g.guards)) }
    ensures good { IfOk result (λ g. IsGood graph.now.hosts (linked_in graph.now.rows)
        (threshold_in t.now) credit
        (guards_in g.guards)) }
{
    let n = graph.hosts();
    let need = 3 * greatest_below(n, t) + 1;
    if n < need {
        return Err(PlanFault::TooFewHosts(n, need));
    }
    if let Some(h) = crowded(graph, credit) {
        return Err(PlanFault::CreditTooSmall(h, credit, graph.degree(h)));
    }
    let guards = all_guards(graph, t);
    Ok(GuardGraph {
        t: *t,
        credit,
        guards,
    })
}

/// The lowest host with more neighbours than credit.
fn crowded(graph: &Graph, credit: u32) -> Option<u32>
    ensures some { IfSome result (λ h. (h < graph.now.hosts)
        × (credit < hosts_with (linked_in graph.now.rows h))
        × AreFew h (linked_in graph.now.rows) credit) }
    ensures none { IfNone result (AreFew graph.now.hosts (linked_in graph.now.rows) credit) }
{
    for h in 0..graph.hosts() {
        if credit < graph.degree(h) {
            return Some(h);
        }
    }
    None
}

/// The guards of each host.
fn all_guards(graph: &Graph, t: &[u32; MAX_HOSTS]) -> [HostSet; MAX_HOSTS]
    requires { AreThresholds t.now }
    ensures planned { (h : ℕ) → h < graph.now.hosts
        → IsPlanned graph.now.hosts (linked_in graph.now.rows) (threshold_in t.now) h (guards_in result h) }
    ensures rows { AreOfHostsBelow graph.now.hosts (guards_in result) }
{
    let mut guards = [HostSet::empty(); MAX_HOSTS];
    for h in 0..graph.hosts() {
        guards[h as usize] = guards_of(graph, h, t);
    }
    guards
}
