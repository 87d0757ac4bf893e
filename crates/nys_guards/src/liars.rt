//! Whether an epoch stands some liars.

ghost use Rattle.std.specs.Prelude.{◌≡◌, ℕ, ◌<◌, ◌≤◌, ◌↔◌, IfErr, IsOk};
ghost use Rattle.nys_hosts.specs.declared.limits.TheConstants.{MAX_HOSTS};
ghost use Rattle.nys_hosts.specs.Quorums.{liars_among};
ghost use Rattle.nys_hosts.specs.Sets.{has};
ghost use Rattle.nys_guards.specs.Good.{guards_in, threshold_in, AreWithin};
ghost use Rattle.nys_guards.specs.Faults.{IsFirstTooMany};

use crate::fault::TooMany;
use crate::table::GuardGraph;
use nys_graph::Graph;
use nys_hosts::HostSet;

impl GuardGraph {
    /// Whether no host has more liars among its guards than its threshold; the lowest that has is answered.
    pub fn liars_within(&self, graph: &Graph, liars: HostSet) -> Result<(), TooMany>
        ensures within { IsOk result ↔ AreWithin graph.now.hosts (threshold_in self.now.t)
            (guards_in self.now.guards) (has liars) }
        ensures fault { IfErr result (IsFirstTooMany graph.now.hosts (threshold_in self.now.t)
            (guards_in self.now.guards)
            (has liars)) }
    {
        for h in 0..graph.hosts() {
            let have = self.liars_at(h, &liars);
            if self.threshold(h) < have {
                return Err(TooMany(h, have));
            }
        }
        Ok(())
    }

    /// How many of a host's guards lie.
    #[tactic(auto, unfolding(crate::specs::Good::guards_in))]
    fn liars_at(&self, h: u32, liars: &HostSet) -> u32
        requires { h < MAX_HOSTS }
        ensures { result ≡ liars_among (guards_in self.now.guards h) (has liars.now) }
    {
        let guards = self.guards[h as usize];
        guards.meet(liars).count()
    }
}
