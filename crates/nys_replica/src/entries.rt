//! The entries of a log, from a slot on.

ghost use Rattle.std.specs.Prelude.{◌≡◌, ◌+◌, ◌-◌, ◌<◌, ◌≤◌, ◌++◌, ◌∷◌, [], OnOk, drop, length, slice_get, Some};
ghost use Rattle.nys_hosts.specs.declared.limits.TheConstants.{MAX_SLOTS};
ghost use Rattle.nys_replica.specs.Tail.{Tail};

use nys_bytes::{Content, NoMemory};
use std::alloc::Global;
use std::marker::Model;

/// Contents in the order in which a host took them, at most `MAX_SLOTS`. Those below a slot may be forgotten.
#[derive(Drop)]
pub(crate) struct Entries {
    first: u32,
    held: Vec<Content>,
}

impl Model for Entries {
    ghost Value = { Tail };

    ghost view = { λ e. record { first = e.first; entries = e.held.items } };

    ghost invariant = { λ e. e.first + length e.held.items ≤ MAX_SLOTS };
}

impl Entries {
    pub(crate) fn new(alloc: Global) -> Entries
        ensures { result ≡ record { first = 0; entries = [] } }
    {
        Entries {
            first: 0,
            held: Vec::new(alloc),
        }
    }

    /// The slot of the first entry that is kept.
    pub(crate) fn first(&self) -> u32
        ensures { result ≡ self.now.first }
    {
        self.first
    }

    /// How many entries there are, with those that are forgotten.
    pub(crate) fn len(&self) -> u32
        ensures { result ≡ self.now.first + length self.now.entries }
    {
        self.first + self.held.len() as u32
    }

    pub(crate) fn get(&self, slot: u32) -> &Content
        requires kept { self.now.first ≤ slot }
        requires slot { slot < self.now.first + length self.now.entries }
        ensures { slice_get self.now.entries (slot - self.now.first) ≡ Some result.now }
    {
        &self.held[(slot - self.first) as usize]
    }

    pub(crate) fn push(&mut self, content: Content) -> Result<(), NoMemory>
        requires { self.old.first + length self.old.entries < MAX_SLOTS }
        ensures { OnOk result (self.new ≡ record {
          first = self.old.first;
          entries = self.old.entries ++ content ∷ [];
        }) }
    {
        self.held.push(content)?;
        Ok(())
    }

    /// Forgets the entries below the slot. Takes no memory.
    pub(crate) fn forget(&mut self, slot: u32)
        requires kept { self.old.first ≤ slot }
        requires slot { slot ≤ self.old.first + length self.old.entries }
        ensures { self.new ≡ record {
          first = slot;
          entries = drop (slot - self.old.first) self.old.entries;
        } }
    {
        let count = (slot - self.first) as usize;
        self.held.drain(..count);
        self.first = slot;
    }
}
