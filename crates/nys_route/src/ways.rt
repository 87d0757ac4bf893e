//! The state of a host that finds routes.

ghost use Rattle.std.specs.Prelude.{◌≡◌, ◌≤◌, ◌<◌, ◌++◌, ◌∷◌, [], List, length, map, pos, replicate, slice_set, IfOk, OnOk};
ghost use Rattle.nys_hosts.specs.declared.limits.TheConstants.{MAX_HOSTS};
ghost use Rattle.nys_route.specs.Routes.{hop_number, no_way, way_to, ways_view};

use crate::way::{UNKNOWN, Way};
use nys_bytes::NoMemory;
use std::alloc::Global;
use std::marker::Model;

/// A way to each host, at most 32. Contracts see the list of the ways.
#[derive(Debug, Drop)]
pub struct Ways {
    held: Vec<Way>,
}

impl Model for Ways {
    ghost use Rattle.std.specs.Prelude.{List, length, ◌≤◌};
    ghost use Rattle.nys_hosts.specs.declared.limits.TheConstants.{MAX_HOSTS};
    ghost use Rattle.nys_route.specs.declared.way.Way.{Way};

    ghost Value = { List Way };

    ghost view = { λ s. s.held.items };

    ghost invariant = { λ s. length s.held.items ≤ MAX_HOSTS };
}

impl Ways {
    /// The ways of a list.
    pub(crate) fn of(held: Vec<Way>) -> Ways
        requires { length held.items ≤ MAX_HOSTS }
        ensures { result ≡ held.items }
    {
        Ways { held }
    }

    /// No way to any of so many hosts.
    pub(crate) fn unknown(alloc: Global, hosts: u32) -> Result<Ways, NoMemory>
        requires { hosts ≤ MAX_HOSTS }
        ensures { IfOk result (λ ways. ways ≡ replicate hosts no_way) }
    {
        let held = vec![in alloc; no_way(); hosts as usize]?;
        Ok(Ways { held })
    }

    /// What is known of a destination.
    pub(crate) fn to(&self, d: u32) -> Way
        ensures { result ≡ way_to self.now d }
    {
        match self.held.get(d as usize) {
            Some(way) => *way,
            None => no_way(),
        }
    }

    /// The state with this way to a destination; a destination past the last changes nothing.
    pub(crate) fn with(&self, alloc: Global, d: u32, way: Way) -> Result<Ways, NoMemory>
        ensures { IfOk result (λ ways. ways ≡ slice_set self.now d way) }
    {
        let mut held = Vec::from_slice(alloc, self.held.as_slice())?;
        if (d as usize) < held.len() {
            held[d as usize] = way;
        }
        Ok(Ways { held })
    }

    /// An equal state with memory of its own.
    pub(crate) fn copy(&self, alloc: Global) -> Result<Ways, NoMemory>
        ensures { IfOk result (λ ways. ways ≡ self.now) }
    {
        let held = Vec::from_slice(alloc, self.held.as_slice())?;
        Ok(Ways { held })
    }

    /// The numbers that show the state: all distances, then all hops.
    pub(crate) fn shown(&self, alloc: Global) -> Result<Vec<i64>, NoMemory>
        ensures value { IfOk result (λ numbers. numbers.items ≡ ways_view self.now) }
        ensures few { length (ways_view self.now) ≤ 256 }
    {
        let mut numbers = Vec::new(alloc);
        push_distances(&mut numbers, self.held.as_slice())?;
        push_hops(&mut numbers, self.held.as_slice())?;
        Ok(numbers)
    }
}

/// No way is known.
fn no_way() -> Way
    ensures { result ≡ no_way }
{
    Way {
        distance: UNKNOWN,
        hop: None,
    }
}

/// Appends the distances of ways.
fn push_distances(numbers: &mut Vec<i64>, ways: &[Way]) -> Result<(), NoMemory>
    ensures { OnOk result (numbers.new.items ≡ numbers.old.items ++ map (λ way. pos way.distance) ways.now) }
{
    for way in ways {
        push_distance(numbers, way)?;
    }
    Ok(())
}

/// Appends the numbers that show the hops of ways.
fn push_hops(numbers: &mut Vec<i64>, ways: &[Way]) -> Result<(), NoMemory>
    ensures { OnOk result (numbers.new.items ≡ numbers.old.items
        ++ map (λ way. hop_number way.hop) ways.now) }
{
    for way in ways {
        push_hop(numbers, way)?;
    }
    Ok(())
}

/// Appends the distance of a way.
fn push_distance(numbers: &mut Vec<i64>, way: &Way) -> Result<(), NoMemory>
    ensures { OnOk result (numbers.new.items ≡ numbers.old.items ++ pos way.now.distance ∷ []) }
{
    numbers.push(i64::from(way.distance))?;
    Ok(())
}

/// Appends the number that shows the hop of a way.
fn push_hop(numbers: &mut Vec<i64>, way: &Way) -> Result<(), NoMemory>
    ensures { OnOk result (numbers.new.items ≡ numbers.old.items ++ hop_number way.now.hop ∷ []) }
{
    numbers.push(hop_number(way.hop))?;
    Ok(())
}

/// The number that shows a hop.
fn hop_number(hop: Option<u32>) -> i64
    ensures { result ≡ hop_number hop }
{
    match hop {
        Some(p) => i64::from(p),
        None => -1,
    }
}
