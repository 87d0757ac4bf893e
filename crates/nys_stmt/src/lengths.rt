//! The lengths that an opening tells, one for each host.

ghost use Rattle.std.specs.Prelude.{◌≡◌, ◌<◌, ◌≤◌, List, Option, [], ◌∷◌, ◌++◌, length, slice_get, IfOk, OnOk, OnErr, Some};
ghost use Rattle.nys_stmt.specs.Lists.{IsLength, AreLengths};

use crate::limits::{MAX_LENGTH, MAX_LENGTHS};
use nys_bytes::NoMemory;
use std::alloc::Global;
use std::marker::Model;

/// For each host, in order, the length that its log was decided at, or `None` where it is retired.
/// At most `MAX_LENGTHS` members, each at most `MAX_LENGTH`.
#[derive(Debug, Drop)]
pub struct Lengths {
    held: Vec<Option<u32>>,
}

impl Model for Lengths {
    ghost use Rattle.std.specs.Prelude.{ℕ, List, Option};
    ghost use Rattle.nys_stmt.specs.Lists.{AreLengths};

    ghost Value = { List (Option ℕ) };

    ghost view = { λ l. l.held.items };

    ghost invariant = { λ l. AreLengths l.held.items };
}

impl Lengths {
    /// No lengths yet. Takes no memory.
    pub fn new(alloc: Global) -> Lengths
        ensures { result ≡ [] }
    {
        Lengths {
            held: Vec::new(alloc),
        }
    }

    /// Appends one member. Want of memory changes nothing.
    pub fn push(&mut self, member: Option<u32>) -> Result<(), NoMemory>
        requires room { length self.old < MAX_LENGTHS }
        requires member { IsLength member }
        ensures ok { OnOk result (self.new ≡ self.old ++ member ∷ []) }
        ensures err { OnErr result (self.new ≡ self.old) }
    {
        self.held.push(member)?;
        Ok(())
    }

    /// How many members there are.
    pub fn len(&self) -> u32
        ensures size { result ≡ length self.now }
        ensures rule { AreLengths self.now }
    {
        self.held.len() as u32
    }

    /// The member of host `i`.
    pub fn get(&self, i: u32) -> &Option<u32>
        requires { i < length self.now }
        ensures member { slice_get self.now i ≡ Some result.now }
        ensures rule { IsLength result.now }
    {
        &self.held[i as usize]
    }

    /// An equal list with memory of its own.
    pub fn copy(&self, alloc: Global) -> Result<Lengths, NoMemory>
        ensures { IfOk result (λ copy. copy ≡ self.now) }
    {
        let held = Vec::from_slice(alloc, self.held.as_slice())?;
        Ok(Lengths { held })
    }
}
