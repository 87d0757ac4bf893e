//! Laws of sets and counts, each an empty function whose clauses state it.

ghost use Rattle.std.specs.Prelude.{◌≡◌, ℕ, ◌≤◌, true, false};
ghost use Rattle.nys_hosts.specs.Counts.{hosts_with, quorum_of, Within};
ghost use Rattle.nys_hosts.specs.Quorums.{HonestAreAQuorum, HonestOfQuorum, HonestRest, liars_among, OneHonest, SharedHonest};
ghost use Rattle.nys_hosts.specs.Makers.{CountsDifferent, CountsListed, CountsMakers, IsPassing, ListsPassing};
ghost use Rattle.nys_hosts.specs.Sets.{has, members};

use crate::set::HostSet;

/// What the list of a set's hosts is: the set, rising.
pub fn members_law(set: &HostSet)
    ensures { IsPassing (has set.now) (members set.now) }
{}

/// Two quorums of the same guards share a host that is no liar.
pub fn share_law(a: &HostSet, b: &HostSet, all: &HostSet, liars: &HostSet, t: u32)
    requires first { Within (has a.now) (has all.now) }
    requires second { Within (has b.now) (has all.now) }
    requires few { liars_among (has all.now) (has liars.now) ≤ t }
    requires first_quorum { quorum_of (hosts_with (has all.now)) t ≤ hosts_with (has a.now) }
    requires second_quorum { quorum_of (hosts_with (has all.now)) t ≤ hosts_with (has b.now) }
    ensures { (h : ℕ) × (has a.now h ≡ true) × (has b.now h ≡ true) × (has liars.now h ≡ false) }
{}

/// What quorums are good for, over any guards and liars.
pub fn quorum_law()
    ensures shared { SharedHonest }
    ensures one { OneHonest }
    ensures rest { HonestRest }
    ensures quorum { HonestOfQuorum }
    ensures honest { HonestAreAQuorum }
{}

/// How counts of makers and lists of different makers stand for one another.
pub fn makers_law()
    // At least n makers pass a test exactly where it counts n.
    ensures exact { CountsMakers }
    // A list of different makers counts as many makers as it is long.
    ensures listed { CountsListed }
    // Different makers that all pass a test are at most as many as pass it.
    ensures passing { CountsDifferent }
    // Each test has the list of the hosts that pass it.
    ensures lists { ListsPassing }
{}
