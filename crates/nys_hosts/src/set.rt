//! A set of hosts, as a mask.

ghost use Rattle.std.specs.Prelude.{◌≡◌, ℕ, ◌<◌, ◌^◌, ◌||◌, ◌&&◌, ◌==◌, Bool, false, length};
ghost use Rattle.nys_hosts.specs.declared.limits.TheConstants.{MAX_HOSTS};
ghost use Rattle.nys_hosts.specs.Counts.{hosts_with};
ghost use Rattle.nys_hosts.specs.Masks.{in_mask};
ghost use Rattle.nys_hosts.specs.Sets.{has, members};

use crate::limits::MAX_HOSTS;

/// A set of hosts, each a number below 32.
#[derive(Clone, Copy, Debug, PartialEq, Eq)]
pub struct HostSet {
    bits: u32,
}

/// The mask of one host.
fn bit_of(host: u32) -> u32
    requires { host < MAX_HOSTS }
    ensures { result ≡ 2 ^ host }
{
    1 << host
}

impl HostSet {
    /// The set without hosts.
    pub fn empty() -> HostSet
        ensures { (h : ℕ) → has result h ≡ false }
    {
        HostSet { bits: 0 }
    }

    /// The set of the hosts whose bit is set, host 0 at the lowest.
    pub fn of_mask(mask: u32) -> HostSet
        ensures { (h : ℕ) → has result h ≡ in_mask mask h }
    {
        HostSet { bits: mask }
    }

    /// The mask with the bits of the set's hosts, and no other.
    pub fn mask(&self) -> u32
        ensures { (h : ℕ) → in_mask result h ≡ has self.now h }
    {
        self.bits
    }

    /// Whether the set has the host; it has none from 32 on.
    #[tactic(auto, unfolding(crate::specs::Masks::in_mask))]
    pub fn contains(&self, h: u32) -> bool
        ensures { result ≡ has self.now h }
    {
        h < MAX_HOSTS as u32 && (self.bits >> h) & 1 == 1
    }

    /// The set with the host, which it may have already.
    pub fn with(&self, h: u32) -> HostSet
        requires { h < MAX_HOSTS }
        ensures { (k : ℕ) → has result k ≡ (has self.now k || (h == k)) }
    {
        HostSet {
            bits: self.bits | bit_of(h),
        }
    }

    /// The hosts of both sets.
    pub fn meet(&self, other: &HostSet) -> HostSet
        ensures { (h : ℕ) → has result h ≡ (has self.now h && has other.now h) }
    {
        HostSet {
            bits: self.bits & other.bits,
        }
    }

    /// How many hosts the set has.
    pub fn count(&self) -> u32
        ensures hosts { result ≡ hosts_with (has self.now) }
        ensures members { result ≡ length (members self.now) }
    {
        self.bits.count_ones()
    }
}
