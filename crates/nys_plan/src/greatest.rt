//! The greatest threshold of some hosts.

ghost use Rattle.std.specs.Prelude.{◌≡◌, ℕ, ◌<◌, ◌≤◌, true};
ghost use Rattle.nys_hosts.specs.declared.limits.TheConstants.{MAX_HOSTS};
ghost use Rattle.nys_hosts.specs.Sets.{has};
ghost use Rattle.nys_guards.specs.Good.{threshold_in, AreThresholds};
ghost use Rattle.nys_plan.specs.Greatest.{IsGreatest};

use nys_hosts::{HostSet, MAX_HOSTS};

/// The greatest threshold of the first `n` hosts.
#[tactic(auto, unfolding(nys_guards::specs::Good::threshold_in))]
pub(crate) fn greatest_below(n: u32, t: &[u32; MAX_HOSTS]) -> u32
    requires some { 1 ≤ n }
    requires few { n ≤ MAX_HOSTS }
    requires small { AreThresholds t.now }
    ensures most { IsGreatest (threshold_in t.now) (λ h. h < n) result }
    ensures small { result ≤ 5 }
{
    let mut greatest = t[0];
    for h in 0..n {
        greatest = greatest.max(t[h as usize]);
    }
    greatest
}

/// The greatest threshold of the hosts of a set, `h` among them.
#[tactic(auto, unfolding(nys_guards::specs::Good::threshold_in))]
pub(crate) fn greatest_in(set: &HostSet, h: u32, t: &[u32; MAX_HOSTS]) -> u32
    requires host { h < MAX_HOSTS }
    requires member { has set.now h ≡ true }
    requires small { AreThresholds t.now }
    ensures most { IsGreatest (threshold_in t.now) (λ g. has set.now g ≡ true) result }
    ensures small { result ≤ 5 }
{
    let mut greatest = t[h as usize];
    for g in 0..MAX_HOSTS as u32 {
        if set.contains(g) {
            greatest = greatest.max(t[g as usize]);
        }
    }
    greatest
}
