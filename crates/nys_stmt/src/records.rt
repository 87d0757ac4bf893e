//! A statement with the tags of those who made it.

ghost use Rattle.std.specs.Prelude.{◌≡◌, IfOk};

use crate::makers::MakerList;
use crate::statement::Statement;
use nys_bytes::NoMemory;
use std::alloc::Global;

/// A statement with its makers, each with a tag for each of its receivers. A record that is sent has
/// one maker or more, and one tag a maker or more.
#[derive(Debug, Drop)]
pub struct Record {
    pub statement: Statement,
    pub makers: MakerList,
}

impl Record {
    /// An equal record with memory of its own.
    pub fn copy(&self, alloc: Global) -> Result<Record, NoMemory>
        ensures { IfOk result (λ copy. copy ≡ self.now) }
    {
        let statement = self.statement.copy(alloc)?;
        let makers = self.makers.copy(alloc)?;
        Ok(Record { statement, makers })
    }
}
