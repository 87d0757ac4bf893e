//! One link: whether it may join a table, and the table with it.

ghost use Rattle.std.specs.Prelude.{◌≡◌, ◌==◌, ℕ, ◌<◌, ◌≤◌, ◌||◌, ◌&&◌, false};
ghost use Rattle.nys_hosts.specs.declared.limits.TheConstants.{MAX_HOSTS};
ghost use Rattle.nys_graph.specs.Links.{linked_in, joins};
ghost use Rattle.nys_graph.specs.Faults.{refusal_of};

use crate::fault::GraphFault;
use nys_hosts::{HostSet, MAX_HOSTS};

/// A table without links.
pub(crate) fn no_links() -> [HostSet; MAX_HOSTS]
    ensures { (a b : ℕ) → linked_in result a b ≡ false }
{
    [HostSet::empty(); MAX_HOSTS]
}

/// Links a host to another in one direction.
fn point(rows: &mut [HostSet; MAX_HOSTS], from: u32, to: u32)
    requires first { from < MAX_HOSTS }
    requires second { to < MAX_HOSTS }
    ensures { (a b : ℕ) → linked_in rows.new a b ≡ (linked_in rows.old a b || ((from == a) && (to == b))) }
{
    rows[from as usize] = rows[from as usize].with(to);
}

/// Links the two hosts of a pair.
pub(crate) fn join(rows: &mut [HostSet; MAX_HOSTS], link: (u32, u32))
    requires first { link.0 < MAX_HOSTS }
    requires second { link.1 < MAX_HOSTS }
    ensures { (a b : ℕ) → linked_in rows.new a b ≡ (linked_in rows.old a b || joins link a b) }
{
    let (a, b) = link;
    point(rows, a, b);
    point(rows, b, a);
}

/// Why a link may not join a table of links, if it may not.
#[tactic(auto, unfolding(crate::specs::Links::linked_in))]
pub(crate) fn refusal(
    n: u32,
    rows: &[HostSet; MAX_HOSTS],
    place: usize,
    link: (u32, u32),
) -> Option<GraphFault>
    requires { n ≤ MAX_HOSTS }
    ensures { result ≡ refusal_of n (linked_in rows.now) place link }
{
    let (a, b) = link;
    if n <= a || n <= b {
        Some(GraphFault::OutOfRange(place))
    } else if a == b {
        Some(GraphFault::SelfLink(place))
    } else if rows[a as usize].contains(b) {
        Some(GraphFault::Doubled(place))
    } else {
        None
    }
}
