//! The lengths of an opening, read in place.

ghost use Rattle.std.specs.Prelude.{◌≡◌, ◌≤◌, List, length, IfOk};
ghost use Rattle.nys_stmt.specs.Lists.{AreLengths};
ghost use Rattle.nys_wire.specs.Answers.{Finds, Passes};
ghost use Rattle.nys_wire.specs.Reading.{each_at, length_at, lengths_at};

use crate::fault::RefFault;
use crate::fields::Fields;
use nys_bytes::NoMemory;
use nys_stmt::{Lengths, MAX_LENGTHS, WireKind};
use std::alloc::Global;
use std::marker::Model;

/// The lengths of an opening, where they lie: an iterator. Contracts see those that are left.
#[derive(Drop)]
pub struct LengthsRef<'a> {
    fields: Fields<'a>,
    count: u32,
}

impl<'a> Model for LengthsRef<'a> {
    ghost use Rattle.std.specs.Prelude.{ℕ, ◌≤◌, List, Option, IsOk};
    ghost use Rattle.nys_stmt.specs.declared.limits.TheConstants.{MAX_LENGTHS};
    ghost use Rattle.nys_wire.specs.InPlace.{items_of};
    ghost use Rattle.nys_wire.specs.Reading.{each_at, length_at};

    ghost Value = { List (Option ℕ) };

    ghost view = { λ l. items_of (each_at (λ _. length_at) (λ _. 0) l.count 0 l.fields) };

    ghost invariant = { λ l. IsOk (each_at (λ _. length_at) (λ _. 0) l.count 0 l.fields)
        × (l.count ≤ MAX_LENGTHS) };
}

impl<'a> LengthsRef<'a> {
    /// The lengths that stand next.
    #[tactic(auto, unfolding(crate::specs::Reading::lengths_at, crate::specs::Reading::counted_at))]
    pub fn read(fields: &mut Fields<'a>) -> Result<LengthsRef<'a>, RefFault>
        ensures { Finds result fields.new (lengths_at fields.old) }
    {
        let count = fields.byte_within(1, MAX_LENGTHS as u8, WireKind::Count)?;
        let first = fields.again();
        pass(fields, count)?;
        Ok(LengthsRef {
            fields: first,
            count,
        })
    }

    /// The same lengths again.
    pub fn again(&self) -> LengthsRef<'a>
        ensures same { result ≡ self.now }
        ensures rule { AreLengths self.now }
    {
        LengthsRef {
            fields: self.fields.again(),
            count: self.count,
        }
    }

    /// How many lengths are left.
    pub fn len(&self) -> u32
        ensures size { result ≡ length self.now }
        ensures few { result ≤ MAX_LENGTHS }
    {
        self.count
    }

    /// The lengths with memory of their own.
    pub fn owned(&self, alloc: Global) -> Result<Lengths, NoMemory>
        ensures { IfOk result (λ lengths. lengths ≡ self.now) }
    {
        let mut lengths = Lengths::new(alloc);
        for member in self.again() {
            lengths.push(member)?;
        }
        Ok(lengths)
    }
}

impl<'a> Iterator for LengthsRef<'a> {
    ghost use Rattle.std.specs.Iterator.{YieldsFirst, item_count};

    type Item = Option<u32>;

    ghost next_gives = { YieldsFirst (λ l. l) };

    ghost remaining = { item_count (λ l. l) };

    fn next(&mut self) -> Option<Option<u32>> {
        if self.count == 0 {
            return None;
        }
        match self.fields.length() {
            Ok(member) => {
                self.count -= 1;
                Some(member)
            }
            Err(_) => None,
        }
    }
}

/// Passes so many lengths.
fn pass(fields: &mut Fields, count: u32) -> Result<(), RefFault>
    ensures { Passes result fields.new (each_at (λ _. length_at) (λ _. 0) count 0 fields.old) }
{
    for _ in 0..count {
        fields.length()?;
    }
    Ok(())
}
