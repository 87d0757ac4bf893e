//! The makers of one record.

ghost use Rattle.std.specs.Prelude.{◌≡◌, ◌<◌, ◌≤◌, List, [], ◌∷◌, ◌++◌, length, slice_get, All, IfOk, OnOk, OnErr, Some};
ghost use Rattle.nys_stmt.specs.Makers.{AreMakers};

use crate::tags::Tags;
use nys_bytes::NoMemory;
use nys_mac::LAST_PARTY;
use std::alloc::Global;
use std::marker::Model;

/// The makers of one statement with their tags. Makers rise and are parties.
#[derive(Debug, Drop)]
pub struct MakerList {
    held: Vec<Tags>,
}

impl Model for MakerList {
    ghost use Rattle.std.specs.Prelude.{List};
    ghost use Rattle.nys_stmt.specs.declared.tags.Tags.{Tags};
    ghost use Rattle.nys_stmt.specs.Makers.{AreMakers};

    ghost Value = { List Tags };

    ghost view = { λ l. l.held.items };

    ghost invariant = { λ l. AreMakers l.held.items };
}

impl MakerList {
    /// No makers yet. Takes no memory.
    pub fn new(alloc: Global) -> MakerList
        ensures { result ≡ [] }
    {
        MakerList {
            held: Vec::new(alloc),
        }
    }

    /// Appends a maker above all others. Want of memory changes nothing.
    pub fn push(&mut self, member: Tags) -> Result<(), NoMemory>
        requires party { member.maker ≤ LAST_PARTY }
        requires above { All (λ t. t.maker < member.maker) self.old }
        ensures ok { OnOk result (self.new ≡ self.old ++ member ∷ []) }
        ensures err { OnErr result (self.new ≡ self.old) }
    {
        self.held.push(member)?;
        Ok(())
    }

    /// How many makers there are.
    pub fn len(&self) -> u32
        ensures size { result ≡ length self.now }
        ensures few { result ≤ 33 }
        ensures rule { AreMakers self.now }
    {
        self.held.len() as u32
    }

    /// The maker at place `i`, with its tags.
    pub fn get(&self, i: u32) -> &Tags
        requires { i < length self.now }
        ensures member { slice_get self.now i ≡ Some result.now }
        ensures party { result.now.maker ≤ LAST_PARTY }
    {
        &self.held[i as usize]
    }

    /// An equal list with memory of its own.
    pub fn copy(&self, alloc: Global) -> Result<MakerList, NoMemory>
        ensures { IfOk result (λ copy. copy ≡ self.now) }
    {
        let held = copies(alloc, self.held.as_slice())?;
        Ok(MakerList { held })
    }
}

fn copies(alloc: Global, makers: &[Tags]) -> Result<Vec<Tags>, NoMemory>
    ensures { IfOk result (λ copy. copy.items ≡ makers.now) }
{
    let mut held = Vec::new(alloc);
    for tags in makers {
        held.push(tags.copy(alloc)?)?;
    }
    Ok(held)
}
