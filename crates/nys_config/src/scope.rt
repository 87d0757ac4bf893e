//! What nodes and the Olympus look up in a configuration.

ghost use Rattle.std.specs.Prelude.{◌≡◌, ℕ, ◌<◌, ◌≤◌, length, nat_lt};
ghost use Rattle.nys_guards.specs.Good.{guards_in, threshold_in};
ghost use Rattle.nys_hosts.specs.Sets.{has};
ghost use Rattle.nys_config.specs.Scopes.{scope_in};
ghost use Rattle.nys_config.specs.Config.{IsConfig};
ghost use Rattle.nys_rules.specs.Scope.{quorum_at};
ghost use Rattle.nys_hosts.specs.declared.limits.TheConstants.{MAX_HOSTS};

use crate::config::Config;
use nys_guards::GuardGraph;
use nys_hosts::HostSet;
use nys_source::Protocol;

/// The guards of a host; past the end of the table there are none.
#[tactic(auto, unfolding(nys_guards::specs::Good::guards_in))]
fn guards_in(guarded: &GuardGraph, h: u32) -> HostSet
    ensures { (g : ℕ) → has result g ≡ guards_in guarded.now.guards h g }
{
    match guarded.guards.get(h as usize) {
        Some(guards) => *guards,
        None => HostSet::empty(),
    }
}

/// The guards of a host in an epoch; from host 32 on, and in an epoch past the last, there are none.
#[tactic(auto, unfolding(crate::specs::Scopes::scope_of, nys_guards::specs::Good::guards_in))]
pub fn guards_of<P: Protocol>(cx: &Config<P>, epoch: u32, h: u32) -> HostSet
    ensures { (g : ℕ) → has result g ≡ (scope_in P.rules cx.now).guards epoch h g }
{
    match cx.epochs.get(epoch as usize) {
        Some(guarded) => guards_in(guarded, h),
        None => HostSet::empty(),
    }
}

/// How many liars the guards of a host stand; past the end of the table none.
#[tactic(auto, unfolding(nys_guards::specs::Good::threshold_in))]
fn threshold_in(guarded: &GuardGraph, h: u32) -> u32
    ensures { result ≡ threshold_in guarded.now.t h }
{
    match guarded.t.get(h as usize) {
        Some(threshold) => *threshold,
        None => 0,
    }
}

/// The threshold of a host in an epoch: how many liars its guards stand. It is 0 from host 32 on, and in an
/// epoch past the last.
#[tactic(auto, unfolding(crate::specs::Scopes::scope_of, nys_guards::specs::Good::threshold_in))]
pub fn threshold<P: Protocol>(cx: &Config<P>, epoch: u32, h: u32) -> u32
    ensures { result ≡ (scope_in P.rules cx.now).t epoch h }
{
    match cx.epochs.get(epoch as usize) {
        Some(guarded) => threshold_in(guarded, h),
        None => 0,
    }
}

/// How many slots a head may be passed over.
#[tactic(auto, unfolding(crate::specs::Scopes::scope_of))]
pub fn credit<P: Protocol>(cx: &Config<P>, epoch: u32) -> u32
    ensures { result ≡ (scope_in P.rules cx.now).credit epoch }
{
    match cx.epochs.get(epoch as usize) {
        Some(guarded) => guarded.credit,
        None => 0,
    }
}

/// How many hosts the protocol has.
pub fn hosts<P: Protocol>(cx: &Config<P>) -> u32
    ensures value { result ≡ (P.rules cx.now.protocol).hosts }
    ensures some { 1 ≤ result }
    ensures few { result ≤ MAX_HOSTS }
{
    cx.protocol.graph().hosts()
}

/// Whether the scenario has the epoch.
#[tactic(auto, unfolding(crate::specs::Scopes::scope_of))]
pub fn is_epoch<P: Protocol>(cx: &Config<P>, epoch: u32) -> bool
    ensures { result ≡ nat_lt epoch (scope_in P.rules cx.now).epochs }
{
    (epoch as usize) < cx.epochs.len()
}

/// Whether two hosts are neighbours.
pub fn linked<P: Protocol>(cx: &Config<P>, p: u32, h: u32) -> bool
    ensures { result ≡ (P.rules cx.now.protocol).linked p h }
{
    let graph = cx.protocol.graph();
    if p >= graph.hosts() {
        return false;
    }
    if h >= graph.hosts() {
        return false;
    }
    graph.linked(p, h)
}
