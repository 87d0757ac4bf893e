//! The guards of an epoch.

ghost use Rattle.std.specs.Prelude.{◌≡◌, ◌<◌};
ghost use Rattle.nys_hosts.specs.declared.limits.TheConstants.{MAX_HOSTS};
ghost use Rattle.nys_guards.specs.Good.{threshold_in};

use nys_hosts::{HostSet, MAX_HOSTS};

/// The guards of an epoch, for each host, and the numbers that they stand on.
#[derive(Clone, Copy, Debug, PartialEq, Eq)]
pub struct GuardGraph {
    /// For each host its threshold, how many liars it may have among its guards: at most 5 where it is
    /// checked. Past the last host nothing is looked at.
    pub t: [u32; MAX_HOSTS],
    /// How many neighbours a host may have, and how many slots the message of one may wait.
    pub credit: u32,
    /// For each host its guards; past the last host nothing is looked at.
    pub guards: [HostSet; MAX_HOSTS],
}

impl GuardGraph {
    /// The threshold of a host: how many liars it may have among its guards.
    #[tactic(auto, unfolding(crate::specs::Good::threshold_in))]
    pub fn threshold(&self, h: u32) -> u32
        requires { h < MAX_HOSTS }
        ensures { result ≡ threshold_in self.now.t h }
    {
        self.t[h as usize]
    }
}
