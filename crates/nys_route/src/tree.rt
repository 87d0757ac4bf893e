//! The protocol that multicasts down a tree.

ghost use Rattle.std.specs.Prelude.{◌≡◌, ◌<◌, ◌++◌, ◌∷◌, [], ℕ, List, Option, Some, None, true, slice_index_or, IfOk, OnOk, length};
ghost use Rattle.nys_hosts.specs.declared.limits.TheConstants.{MAX_HOSTS};
ghost use Rattle.nys_graph.specs.Links.{linked_in};
ghost use Rattle.nys_source.specs.declared.effect.Effect.TheVariants as effect;
ghost use Rattle.nys_route.specs.Parents.{parent_of};
ghost use Rattle.nys_route.specs.Sends.{sends_where};
ghost use Rattle.nys_route.specs.Trees.{is_child, passes_on, tree_by, tree_next, tree_rules};

use crate::growing::parents;
use crate::sends::send_if;
use nys_bytes::{NoMemory, Payload};
use nys_graph::{Graph, MAX_HOSTS};
use nys_source::{Effect, Protocol, Stepped};
use std::alloc::Global;

/// The tree of shortest walks to the root, a host. What the root is given goes out there and to its children,
/// and from each host on to its own. Hosts keep nothing.
#[derive(Clone, Copy, Debug)]
pub struct Tree {
    pub graph: Graph,
    pub root: u32,
    pub ghost inside: { root < graph.hosts },
}

impl Protocol for Tree {
    type State = ();

    ghost rules = { λ p. tree_rules p.graph.hosts (linked_in p.graph.rows) p.root };

    ghost is_state = { λ p s. true };

    fn graph(&self) -> &Graph {
        &self.graph
    }

    fn start(&self, _alloc: Global, _h: u32) -> Result<(), NoMemory> {
        Ok(())
    }

    #[tactic(auto, unfolding(crate::specs::Trees::tree_next))]
    fn step(
        &self,
        alloc: Global,
        h: u32,
        _state: &(),
        from: Option<u32>,
        payload: &Payload,
    ) -> Result<Stepped<()>, NoMemory> {
        let parents = parents(&self.graph, self.root);
        let mut effects = Vec::new(alloc);
        if passes_on(self.root, &parents, h, from) {
            pass_on(alloc, &self.graph, &parents, h, payload, &mut effects)?;
        }
        Ok(Stepped { state: (), effects })
    }

    fn view(&self, alloc: Global, _state: &()) -> Result<Vec<i64>, NoMemory> {
        Ok(Vec::new(alloc))
    }

    fn from_view(&self, _alloc: Global, _h: u32, numbers: &[i64]) -> Result<Option<()>, NoMemory> {
        if numbers.is_empty() {
            Ok(Some(()))
        } else {
            Ok(None)
        }
    }

    fn copy(&self, _alloc: Global, _state: &()) -> Result<(), NoMemory> {
        Ok(())
    }

    ghost use Rattle.nys_route.specs.TreeLaws.{tree_effects};
    ghost use Rattle.std.specs.Prelude.{refl};

    ghost start_is_state = { λ p h. refl };

    ghost next_is_state = { λ p h s from payload known. refl };

    ghost same_view = { λ p s t same. refl };

    ghost effects = { λ p h s from payload inside. tree_effects p.graph.hosts
        (linked_in p.graph.rows) p.root h s from payload p.graph.shape.few };
}

/// Whether host `h` passes on what it takes: an input at the root, and what its parent sent.
fn passes_on(root: u32, parents: &[Option<u32>; MAX_HOSTS], h: u32, from: Option<u32>) -> bool
    requires { h < MAX_HOSTS }
    ensures { result ≡ passes_on root (λ q. slice_index_or parents.now q None) h from }
{
    match from {
        None => h == root,
        Some(p) => parents[h as usize] == Some(p),
    }
}

/// Appends the output of a payload, and its sends to the children of `h`, rising.
fn pass_on(
    alloc: Global,
    graph: &Graph,
    parents: &[Option<u32>; MAX_HOSTS],
    h: u32,
    payload: &Payload,
    effects: &mut Vec<Effect>,
) -> Result<(), NoMemory>
    requires { h < graph.now.hosts }
    ensures { OnOk result (effects.new.items ≡ effects.old.items
        ++ (effect.Out payload.now ∷ sends_where graph.now.hosts
        (is_child (linked_in graph.now.rows) (λ q. slice_index_or parents.now q None) h) payload.now)) }
{
    let out = payload.copy(alloc)?;
    effects.push(Effect::Out { payload: out })?;
    for q in 0..graph.hosts() {
        let passes = is_child(graph, parents, h, q);
        send_if(alloc, passes, q, payload, effects)?;
    }
    Ok(())
}

/// Whether `q` is a child of `h`.
fn is_child(graph: &Graph, parents: &[Option<u32>; MAX_HOSTS], h: u32, q: u32) -> bool
    requires host { h < graph.now.hosts }
    requires other { q < graph.now.hosts }
    ensures { result ≡ is_child (linked_in graph.now.rows) (λ r. slice_index_or parents.now r None) h q }
{
    graph.linked(h, q) && parents[q as usize] == Some(h)
}
