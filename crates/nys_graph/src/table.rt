//! The graph as a table: for each host the set of its neighbours.

ghost use Rattle.std.specs.Prelude.{◌≡◌, ℕ, ◌<◌, ◌≤◌, length, IfOk, IfErr, slice_index, None};
ghost use Rattle.nys_hosts.specs.declared.limits.TheConstants.{MAX_HOSTS};
ghost use Rattle.nys_hosts.specs.Counts.{hosts_with};
ghost use Rattle.nys_hosts.specs.Masks.{in_mask};
ghost use Rattle.nys_graph.specs.Links.{IsGraph, joined, linked_in};

use crate::fault::GraphFault;
use crate::joining::{join, no_links, refusal};
use nys_hosts::{HostSet, MAX_HOSTS};

/// A communication graph of 1 to 32 hosts, numbered from 0. Links have no direction, and none joins a
/// host to itself. It never changes.
#[derive(Clone, Copy, Debug, PartialEq, Eq)]
pub struct Graph {
    /// How many hosts there are.
    pub hosts: u32,
    /// For each host the set of its neighbours; empty past the last host.
    pub rows: [HostSet; MAX_HOSTS],
    pub ghost shape: { IsGraph hosts (linked_in rows) },
}

impl Graph {
    ghost use Rattle.nys_graph.specs.Faults.{fault_at, IsFirstFault};

    /// The graph of `n` hosts with these links. Refuses the first link at fault; a link with several
    /// faults is named by the first of `OutOfRange`, `SelfLink`, `Doubled`.
    pub fn new(n: u32, links: &[(u32, u32)]) -> Result<Graph, GraphFault>
        requires some { 1 ≤ n }
        requires few { n ≤ MAX_HOSTS }
        ensures hosts { IfOk result (λ g. g.hosts ≡ n) }
        ensures linked { IfOk result (λ g. (a b : ℕ) → linked_in g.rows a b ≡ joined links.now a b) }
        // A list with no fault is taken, and one with a fault is refused with its first.
        ensures good { IfOk result (λ g. (k : ℕ) → k < length links.now → fault_at n links.now k ≡ None) }
        ensures fault { IfErr result (λ e. IsFirstFault n links.now e) }
    {
        let mut rows = no_links();
        for (place, link) in links.iter().enumerate() {
            if let Some(fault) = refusal(n, &rows, place, *link) {
                return Err(fault);
            }
            join(&mut rows, *link);
        }
        Ok(Graph { hosts: n, rows })
    }

    /// How many hosts there are, 1 to 32.
    pub fn hosts(&self) -> u32
        ensures count { result ≡ self.now.hosts }
        ensures shape { IsGraph self.now.hosts (linked_in self.now.rows) }
    {
        self.hosts
    }

    /// Whether two hosts are linked.
    #[tactic(auto, unfolding(crate::specs::Links::linked_in))]
    pub fn linked(&self, a: u32, b: u32) -> bool
        requires first { a < self.now.hosts }
        requires second { b < self.now.hosts }
        ensures { result ≡ linked_in self.now.rows a b }
    {
        self.rows[a as usize].contains(b)
    }

    /// The mask of a host's neighbours: bit `p` is set where `p` and `h` are linked.
    #[tactic(auto, unfolding(crate::specs::Links::linked_in))]
    pub fn neighbours(&self, h: u32) -> u32
        requires host { h < self.now.hosts }
        ensures { (p : ℕ) → in_mask result p ≡ linked_in self.now.rows h p }
    {
        self.rows[h as usize].mask()
    }

    /// How many neighbours a host has.
    #[tactic(auto, unfolding(crate::specs::Links::linked_in))]
    pub fn degree(&self, h: u32) -> u32
        requires host { h < self.now.hosts }
        ensures { result ≡ hosts_with (linked_in self.now.rows h) }
    {
        self.rows[h as usize].count()
    }
}
