//! The slots that a node logged last.

ghost use Rattle.std.specs.Prelude.{◌≡◌, ◌++◌, [], ◌∷◌, ◌<◌, length, slice_get, OnOk, Some};
ghost use Rattle.nys_rules.specs.Taking.{last_64};

use nys_bytes::NoMemory;
use nys_rules::{Kept, MAX_KEPT};
use std::alloc::Global;
use std::collections::VecDeque;
use std::marker::Model;

/// The Deliver votes of the last `MAX_KEPT` slots that a node logged by votes, the oldest first.
#[derive(Drop)]
pub struct KeptSlots {
    held: VecDeque<Kept>,
}

impl Model for KeptSlots {
    ghost use Rattle.std.specs.Prelude.{◌≤◌, List, length};
    ghost use Rattle.nys_rules.specs.declared.kept.Kept.{Kept};
    ghost use Rattle.nys_rules.specs.declared.limits.TheConstants.{MAX_KEPT};

    ghost Value = { List Kept };

    ghost view = { λ k. k.held.items };

    ghost invariant = { λ k. length k.held.items ≤ MAX_KEPT };
}

impl KeptSlots {
    /// No slot yet. Takes no memory.
    pub fn new(alloc: Global) -> KeptSlots
        ensures { result ≡ [] }
    {
        KeptSlots {
            held: VecDeque::new(alloc),
        }
    }

    /// One slot more; the oldest leaves where there are `MAX_KEPT`.
    pub fn push(&mut self, kept: Kept) -> Result<(), NoMemory>
        ensures { OnOk result (self.new ≡ last_64 (self.old ++ kept ∷ [])) }
    {
        if self.held.len() == MAX_KEPT {
            let _ = self.held.pop_front();
        }
        self.held.push_back(kept)?;
        Ok(())
    }

    /// How many slots there are.
    pub fn len(&self) -> u32
        ensures { result ≡ length self.now }
    {
        self.held.len() as u32
    }

    /// What is kept at place `i`, the oldest at 0.
    pub fn get(&self, i: u32) -> &Kept
        requires { i < length self.now }
        ensures { slice_get self.now i ≡ Some result.now }
    {
        self.held.get(i as usize).unwrap()
    }
}
