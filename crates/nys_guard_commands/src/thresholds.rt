//! The thresholds of an epoch.

ghost use Rattle.std.specs.Prelude.{◌≡◌, ◌≤◌, ℕ, nat_lt, if◌then◌else◌};
ghost use Rattle.nys_hosts.specs.declared.limits.TheConstants.{MAX_HOSTS};
ghost use Rattle.nys_guards.specs.Good.{threshold_in, AreThresholds};
ghost use Rattle.nys_scenario.specs.Epochs.{epoch_seen};
ghost use Rattle.nys_guard_commands.specs.Graphs.{thresholds_of};

use nys_graph::Graph;
use nys_hosts::MAX_HOSTS;
use nys_scenario::EpochText;

/// For each host its threshold: its own where the epoch gives thresholds, else the epoch's.
pub(crate) fn thresholds_of(graph: &Graph, epoch: EpochText) -> [u32; MAX_HOSTS]
    ensures same { threshold_in result ≡ thresholds_of graph.now.hosts (epoch_seen epoch) }
    ensures small { AreThresholds result }
{
    match epoch.thresholds {
        Some(own) => own,
        None => level(graph.hosts(), epoch.t),
    }
}

/// The same threshold for so many hosts.
fn level(hosts: u32, t: u32) -> [u32; MAX_HOSTS]
    requires { hosts ≤ MAX_HOSTS }
    ensures { (h : ℕ) → threshold_in result h ≡ (if nat_lt h hosts then t else 0) }
{
    let mut table = [0; MAX_HOSTS];
    for h in 0..hosts {
        table[h as usize] = t;
    }
    table
}
