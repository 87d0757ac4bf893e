//! The tags of one maker.

ghost use Rattle.std.specs.Prelude.{◌≡◌, ◌<◌, ◌≤◌, List, [], ◌∷◌, ◌++◌, length, slice_get, All, IfOk, OnOk, OnErr, Some};
ghost use Rattle.nys_stmt.specs.Lists.{AreTags};

use nys_bytes::NoMemory;
use nys_mac::{LAST_PARTY, Tag};
use std::alloc::Global;
use std::marker::Model;

/// The tags of one maker on one statement, each with its receiver. Receivers rise and are parties.
#[derive(Debug, Drop)]
pub struct TagList {
    held: Vec<(u32, Tag)>,
}

impl Model for TagList {
    ghost use Rattle.std.specs.Prelude.{ℕ, List};
    ghost use Rattle.nys_stmt.specs.Lists.{AreTags};

    ghost Value = { List (ℕ × List ℕ) };

    ghost view = { λ l. l.held.items };

    ghost invariant = { λ l. AreTags l.held.items };
}

impl TagList {
    /// No tags yet. Takes no memory.
    pub fn new(alloc: Global) -> TagList
        ensures { result ≡ [] }
    {
        TagList {
            held: Vec::new(alloc),
        }
    }

    /// Appends the tag for a receiver above all others. Want of memory changes nothing.
    pub fn push(&mut self, member: (u32, Tag)) -> Result<(), NoMemory>
        requires party { member.0 ≤ LAST_PARTY }
        requires above { All (λ t. t.0 < member.0) self.old }
        ensures ok { OnOk result (self.new ≡ self.old ++ member ∷ []) }
        ensures err { OnErr result (self.new ≡ self.old) }
    {
        self.held.push(member)?;
        Ok(())
    }

    /// How many tags there are.
    pub fn len(&self) -> u32
        ensures size { result ≡ length self.now }
        ensures few { result ≤ 33 }
        ensures rule { AreTags self.now }
    {
        self.held.len() as u32
    }

    /// The tag at place `i`, with its receiver.
    pub fn get(&self, i: u32) -> &(u32, Tag)
        requires { i < length self.now }
        ensures member { slice_get self.now i ≡ Some result.now }
        ensures party { result.now.0 ≤ LAST_PARTY }
    {
        &self.held[i as usize]
    }

    /// An equal list with memory of its own.
    pub fn copy(&self, alloc: Global) -> Result<TagList, NoMemory>
        ensures { IfOk result (λ copy. copy ≡ self.now) }
    {
        let held = Vec::from_slice(alloc, self.held.as_slice())?;
        Ok(TagList { held })
    }
}

/// A maker and its tags on one statement.
#[derive(Debug, Drop)]
pub struct Tags {
    /// The party that made the statement, at most `LAST_PARTY`.
    pub maker: u32,
    /// A tag for each of its receivers.
    pub tags: TagList,
}

impl Tags {
    /// An equal value with memory of its own.
    pub fn copy(&self, alloc: Global) -> Result<Tags, NoMemory>
        ensures { IfOk result (λ copy. copy ≡ self.now) }
    {
        let tags = self.tags.copy(alloc)?;
        Ok(Tags {
            maker: self.maker,
            tags,
        })
    }
}
