//! Numbers read as news and as states.

ghost use Rattle.std.specs.Prelude.{◌≡◌, ◌≢◌, ◌≤◌, ◌<◌, ◌+◌, ℕ, ℤ, List, Option, Some, None, true, IfOk, IfSome, IfNone, length};
ghost use Rattle.nys_hosts.specs.declared.limits.TheConstants.{MAX_HOSTS};
ghost use Rattle.nys_route.specs.Routes.{are_ways, below, both, hop_number, is_hop, news_of, ways_view};
ghost use Rattle.nys_route.specs.Shown.{ShowAll, Shows};

use crate::way::{MAX_HEARD, UNKNOWN, Way};
use crate::ways::Ways;
use nys_bytes::NoMemory;
use nys_hosts::MAX_HOSTS;
use std::alloc::Global;

/// The number that a signed one is, where it is below a bound.
fn below(bound: u32, number: i64) -> Option<u32>
    ensures value { result ≡ below bound number }
    ensures small { IfSome result (λ n. n < bound) }
{
    match u32::try_from(number) {
        Ok(n) if n < bound => Some(n),
        _ => None,
    }
}

/// A destination and a distance to it, where the numbers are two such.
pub(crate) fn news_of(hosts: u32, numbers: &[i64]) -> Option<(u32, u32)>
    ensures value { result ≡ news_of hosts numbers.now }
    ensures small { IfSome result (λ told. told.1 < MAX_HEARD) }
{
    match numbers {
        [d, x] => both(below(hosts, *d), below(MAX_HEARD, *x)),
        _ => None,
    }
}

/// Two numbers, where both are there.
fn both(d: Option<u32>, x: Option<u32>) -> Option<(u32, u32)>
    ensures { result ≡ both d x }
{
    Some((d?, x?))
}

/// The hop that a number shows.
fn hop(number: i64) -> Option<Option<u32>>
    ensures some { IfSome result (λ hop. (is_hop hop ≡ true) × (hop_number hop ≡ number)) }
    ensures none { IfNone result ((hop : Option ℕ) → is_hop hop ≡ true → hop_number hop ≡ number → ⊥) }
{
    if number == -1 {
        return Some(None);
    }
    let p = below(MAX_HOSTS as u32, number)?;
    Some(Some(p))
}

/// The way that a distance and a hop show.
fn way(distance: i64, hop_shown: i64) -> Option<Way>
    ensures some { IfSome result (λ way. Shows way distance hop_shown) }
    ensures none { IfNone result ((way : Way) → Shows way distance hop_shown → ⊥) }
{
    let distance = below(UNKNOWN + 1, distance)?;
    let hop = hop(hop_shown)?;
    Some(Way { distance, hop })
}

/// The state of so many hosts that numbers show.
pub(crate) fn read_ways(
    alloc: Global,
    hosts: u32,
    numbers: &[i64],
) -> Result<Option<Ways>, NoMemory>
    requires { hosts ≤ MAX_HOSTS }
    ensures some { IfOk result (λ found. IfSome found (λ ways. ways_view ways ≡ numbers.now)) }
    ensures state { IfOk result (λ found. IfSome found (λ ways. are_ways hosts ways ≡ true)) }
    ensures none { IfOk result (λ found. IfNone found ((ways : List Way) → are_ways hosts ways ≡ true
        → ways_view ways ≡ numbers.now → ⊥)) }
{
    if numbers.len() != 2 * hosts as usize {
        return Ok(None);
    }
    match read_all(alloc, hosts as usize, numbers)? {
        Some(held) => Ok(Some(Ways::of(held))),
        None => Ok(None),
    }
}

/// The ways that so many distances and as many hops show.
fn read_all(alloc: Global, n: usize, numbers: &[i64]) -> Result<Option<Vec<Way>>, NoMemory>
    requires long { length numbers.now ≡ n + n }
    requires few { n ≤ MAX_HOSTS }
    ensures some { IfOk result (λ found. IfSome found (λ ways. ShowAll n n numbers.now ways.items)) }
    ensures none { IfOk result (λ found. IfNone found ((ways : List Way) → ShowAll n n numbers.now ways
        → ⊥)) }
{
    let mut held = Vec::new(alloc);
    for d in 0..n {
        match way(numbers[d], numbers[n + d]) {
            Some(way) => held.push(way)?,
            None => return Ok(None),
        }
    }
    Ok(Some(held))
}
