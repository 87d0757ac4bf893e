//! What never changes while events happen.

ghost use Rattle.std.specs.Prelude.{◌≡◌};
ghost use Rattle.nys_rules.specs.World.{is_honest};
ghost use Rattle.nys_world.specs.Shows.{setting_in};

use nys_config::Config;
use nys_hosts::HostSet;
use nys_mac::LAST_PARTY;
use nys_source::Protocol;

/// The configuration, which hosts lie, and whether a trace is wanted.
#[derive(Drop)]
pub(crate) struct Stage<P: Protocol> {
    pub cx: Config<P>,
    pub liars: HostSet,
    /// Whether it is kept what was given to honest hosts and to the Olympus.
    pub traced: bool,
}

impl<P: Protocol> Stage<P> {
    /// Whether the party is the Olympus, or a host that doesn't lie.
    #[tactic(auto, unfolding(nys_config::specs::Scopes::scope_of))]
    pub(crate) fn is_honest(&self, party: u32) -> bool
        ensures { result ≡ is_honest (setting_in P.rules self.now) party }
    {
        party == LAST_PARTY
            || (party < self.cx.protocol.graph().hosts() && !self.liars.contains(party))
    }
}
