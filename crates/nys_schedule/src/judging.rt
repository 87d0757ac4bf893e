//! Which events a schedule may have.

ghost use Rattle.std.specs.Prelude.{◌≡◌};
ghost use Rattle.nys_hosts.specs.Sets.{has};
ghost use Rattle.nys_rules.specs.Events.{plain};
ghost use Rattle.nys_schedule.specs.Judging.{are_parties, is_party, judged, liars_say, names_hosts};

use crate::said::Said;
use nys_bare::LineKind;
use nys_hosts::HostSet;
use nys_mac::LAST_PARTY;
use nys_rules::{Event, Parties};

/// The event of a line's grammar, or how the line is at fault.
pub(crate) fn judged(hosts: u32, liars: &HostSet, said: Option<Said>) -> Result<Said, LineKind>
    ensures { result ≡ judged hosts (has liars.now) said }
{
    let Some(said) = said else {
        return Err(LineKind::Grammar);
    };
    if !names_hosts(hosts, said.event()) {
        return Err(LineKind::Host);
    }
    if !liars_say(liars, said.event()) {
        return Err(LineKind::Liar);
    }
    Ok(said)
}

/// Whether each host that an event names is one, and each party.
fn names_hosts(hosts: u32, event: &Event) -> bool
    ensures { result ≡ names_hosts hosts (plain event.now) }
{
    match event {
        Event::Input { h, .. } => *h < hosts,
        Event::Ask { h } => *h < hosts,
        Event::Decide { h } => *h < hosts,
        Event::Retire { h } => *h < hosts,
        Event::Bytes { to, .. } => is_party(hosts, *to),
        Event::Say { a, to, .. } => *a < hosts && are_parties(hosts, to),
        Event::Bundle { a, to, .. } => *a < hosts && are_parties(hosts, to),
        Event::Steal { a, to, .. } => is_party(hosts, *a) && are_parties(hosts, to),
        Event::Deliver { .. } => true,
        Event::Flush | Event::Exchange | Event::Wedge | Event::Open => true,
    }
}

/// Whether a number is one of this many hosts, or the Olympus.
fn is_party(hosts: u32, g: u32) -> bool
    ensures { result ≡ is_party hosts g }
{
    g < hosts || g == LAST_PARTY
}

fn are_parties(hosts: u32, to: &Parties) -> bool
    ensures { result ≡ are_parties hosts to.now }
{
    for i in 0..to.len() {
        if !is_party(hosts, to.get(i)) {
            return false;
        }
    }
    true
}

/// Whether who says or bundles is a liar.
fn liars_say(liars: &HostSet, event: &Event) -> bool
    ensures { result ≡ liars_say (has liars.now) (plain event.now) }
{
    match event {
        Event::Say { a, .. } => liars.contains(*a),
        Event::Bundle { a, .. } => liars.contains(*a),
        Event::Input { .. } | Event::Deliver { .. } | Event::Flush | Event::Exchange => true,
        Event::Ask { .. } | Event::Bytes { .. } | Event::Steal { .. } | Event::Wedge => true,
        Event::Decide { .. } | Event::Retire { .. } | Event::Open => true,
    }
}
