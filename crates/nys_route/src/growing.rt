//! The tree of shortest walks to a root, grown by one link at a time.

ghost use Rattle.std.specs.Prelude.{◌≡◌, ℕ, ◌<◌, ◌≤◌, ◌+◌, ◌&&◌, ◌||◌, Bool, None, false, is_some, if◌then◌else◌, slice_index_or};
ghost use Rattle.nys_hosts.specs.declared.limits.TheConstants.{MAX_HOSTS};
ghost use Rattle.nys_graph.specs.Links.{linked_in};
ghost use Rattle.nys_route.specs.Growth.{IsFarther, IsGrown, is_reached, nearest_in, parent_in};
ghost use Rattle.nys_route.specs.Parents.{IsParentOf, lowest, parent_of};

use nys_graph::{Graph, MAX_HOSTS};

/// The hosts with a walk of at most so many links to a root, and the parents of these.
#[derive(Clone, Copy, Debug)]
pub(crate) struct Grown {
    pub(crate) reached: [bool; MAX_HOSTS],
    pub(crate) parents: [Option<u32>; MAX_HOSTS],
}

/// The parent of each host on the tree of shortest walks to the root, a host: the lowest neighbour that is
/// one link nearer. `None` for the root, for a host without a walk to it, and past the last host.
pub fn parents(graph: &Graph, root: u32) -> [Option<u32>; MAX_HOSTS]
    requires { root < graph.now.hosts }
    ensures exact { (h : ℕ) → IsParentOf (linked_in graph.now.rows) root h (slice_index_or result h None) }
    ensures value { (h : ℕ) → slice_index_or result h None
        ≡ parent_of graph.now.hosts (linked_in graph.now.rows) root h }
{
    let mut grown = at_root(root);
    for _n in 0..graph.hosts() {
        grown = farther(graph, &grown);
    }
    grown.parents
}

/// The root alone.
fn at_root(root: u32) -> Grown
    requires { root < MAX_HOSTS }
    ensures { (hosts : ℕ) (linked : ℕ → ℕ → Bool) → IsGrown hosts linked root 0 result }
{
    let mut reached = [false; MAX_HOSTS];
    reached[root as usize] = true;
    Grown {
        reached,
        parents: [None; MAX_HOSTS],
    }
}

/// One round more.
fn farther(graph: &Graph, before: &Grown) -> Grown
    ensures { IsFarther graph.now.hosts (linked_in graph.now.rows) before.now result }
{
    let reached = all_reached(graph, before);
    let parents = all_parents(graph, before);
    Grown { reached, parents }
}

/// Which hosts are reached in one round more.
fn all_reached(graph: &Graph, before: &Grown) -> [bool; MAX_HOSTS]
    ensures { (h : ℕ) → h < graph.now.hosts → slice_index_or result h false
        ≡ (is_reached before.now h || is_some
        (nearest_in graph.now.hosts (linked_in graph.now.rows) before.now h)) }
{
    let mut after = before.reached;
    for h in 0..graph.hosts() {
        after[h as usize] = is_reached(graph, before, h);
    }
    after
}

/// Whether `h` is reached in one round more.
fn is_reached(graph: &Graph, before: &Grown, h: u32) -> bool
    requires { h < graph.now.hosts }
    ensures { result ≡ (is_reached before.now h
        || is_some (nearest_in graph.now.hosts (linked_in graph.now.rows) before.now h)) }
{
    before.reached[h as usize] || nearest(graph, before, h).is_some()
}

/// Which parents hosts have after one round more.
fn all_parents(graph: &Graph, before: &Grown) -> [Option<u32>; MAX_HOSTS]
    ensures each { (h : ℕ) → h < graph.now.hosts → slice_index_or result h None
        ≡ (if is_reached before.now h then parent_in before.now h else nearest_in graph.now.hosts
        (linked_in graph.now.rows) before.now h) }
    ensures past { (h : ℕ) → graph.now.hosts ≤ h → slice_index_or result h None ≡ parent_in before.now h }
{
    let mut after = before.parents;
    for h in 0..graph.hosts() {
        after[h as usize] = parent(graph, before, h);
    }
    after
}

/// The parent of `h` after one round more.
fn parent(graph: &Graph, before: &Grown, h: u32) -> Option<u32>
    requires { h < graph.now.hosts }
    ensures { result ≡
        (if is_reached before.now h then parent_in before.now h else nearest_in graph.now.hosts
        (linked_in graph.now.rows) before.now h) }
{
    if before.reached[h as usize] {
        before.parents[h as usize]
    } else {
        nearest(graph, before, h)
    }
}

/// The lowest neighbour of `h` that is reached.
fn nearest(graph: &Graph, before: &Grown, h: u32) -> Option<u32>
    requires { h < graph.now.hosts }
    ensures { result ≡ nearest_in graph.now.hosts (linked_in graph.now.rows) before.now h }
{
    for p in 0..graph.hosts() {
        if is_near(graph, before, h, p) {
            return Some(p);
        }
    }
    None
}

/// Whether `p` is a neighbour of `h` that is reached.
fn is_near(graph: &Graph, before: &Grown, h: u32, p: u32) -> bool
    requires host { h < graph.now.hosts }
    requires other { p < graph.now.hosts }
    ensures { result ≡ (linked_in graph.now.rows h p && is_reached before.now p) }
{
    graph.linked(h, p) && before.reached[p as usize]
}
