//! What the Olympus tells of a call.

ghost use Rattle.std.specs.Prelude.{◌≡◌, ◌==◌, ◌<◌, ◌≤◌, ℕ, All, None, Some, false};
ghost use Rattle.std.specs.List.{list_any};
ghost use Rattle.nys_hosts.specs.Sets.{has, members};
ghost use Rattle.nys_rules.specs.Handling.{done_by, dropped_by, hosts_among, noted_by};
ghost use Rattle.nys_rules.specs.Packets.{nothing};
ghost use Rattle.nys_rules.specs.Scope.{olympus};
ghost use Rattle.nys_olympus.specs.Heard.{IsHost};
ghost use Rattle.nys_stmt.specs.Makers.{AreMakers};

use nys_hosts::HostSet;
use nys_rules::{DropCause, Handled};
use nys_sending::outbox::Outbox;
use nys_stmt::{Statement, Tags};
use std::alloc::Global;

/// The bytes were dropped for this cause.
pub(crate) fn dropped(alloc: Global, cause: DropCause) -> Handled
    ensures { result ≡ dropped_by cause }
{
    Handled {
        packets: Vec::new(alloc),
        statement: None,
        accepted: HostSet::empty(),
        olympus: false,
        made: Vec::new(alloc),
        grew: Vec::new(alloc),
        dropped: Some(cause),
    }
}

/// These things were done, and no record was given.
pub(crate) fn done(out: Outbox) -> Handled
    ensures { result ≡ done_by out }
{
    out.handled(None, HostSet::empty(), false)
}

/// The makers of accepted tags as a set.
fn makers_set(makers: &[Tags]) -> HostSet
    requires hosts { All IsHost makers.now }
    ensures { (h : ℕ) → has result h ≡ list_any (λ m. m.maker == h) makers.now }
{
    let mut set = HostSet::empty();
    for tags in makers {
        set = set.with(tags.maker);
    }
    set
}

/// The statement was noted under the makers of these tags, all of them hosts.
pub(crate) fn noted(alloc: Global, statement: Statement, makers: &[Tags]) -> Handled
    requires hosts { All IsHost makers.now }
    requires rule { AreMakers makers.now }
    ensures told { result ≡ record {
      acts = nothing;
      statement = Some statement;
      accepted = hosts_among
          makers.now;
      olympus = list_any (λ m. m.maker == olympus) makers.now;
      dropped = None;
    } }
{
    Outbox::new(alloc).handled(Some(statement), makers_set(makers), false)
}
