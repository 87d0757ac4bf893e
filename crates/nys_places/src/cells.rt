//! The vector of places, and how names are read from it and written to it.

ghost use Rattle.std.specs.Prelude.{◌≡◌, ◌+◌, ℕ, ◌<◌, ◌≤◌, pos, Some, IfSome, IfNone, OnOk, length};
ghost use Rattle.nys_meaning.specs.Exprs.{with_left};
ghost use Rattle.nys_places.specs.Cells.{Wrote, scalar_at, item_at, len_of, number_at, bind_at, pushed, write_at, set_at, set_item_at};

use nys_bytes::NoMemory;
use nys_meaning::Value;
use nys_tree::Name;
use sqlite_items::Items;

/// The numbers of all names: each at its place, and the payload's where they lie.
#[derive(Drop)]
pub struct Cells<'a> {
    /// The numbers, from place 0.
    pub numbers: Items<i64>,
    /// The handler's payload.
    pub payload: &'a [i64],
}

impl<'a> Cells<'a> {
    /// The length of a list, as a value.
    pub fn len(&self, name: &Name, left: u32) -> Option<Value>
        ensures { result ≡ with_left left (Some (pos (len_of self.now name.now))) }
    {
        let number = if name.len == 0 {
            self.payload.len() as i64
        } else {
            i64::from(name.len)
        };
        Some(Value { number, left })
    }

    /// The number of a scalar.
    pub fn scalar(&self, name: &Name, left: u32) -> Option<Value>
        ensures { result ≡ with_left left (scalar_at self.now name.now) }
    {
        self.value(name.place, left)
    }

    /// The item of a list at an index.
    pub fn item(&self, name: &Name, at: Value) -> Option<Value>
        ensures { result ≡ with_left at.left (item_at self.now name.now at.number) }
    {
        let index = usize::try_from(at.number).ok()?;
        if name.len == 0 {
            let number = *self.payload.get(index)?;
            return Some(Value {
                number,
                left: at.left,
            });
        }
        if index < name.len as usize {
            self.value(self.item_place(name, index)?, at.left)
        } else {
            None
        }
    }

    /// Gives a scalar another number.
    pub fn set(&mut self, name: &Name, value: Value) -> Option<()>
        ensures { Wrote (set_at self.old name.now value.number) result self.new }
    {
        self.write(name.place, value)
    }

    /// Gives the item of a list at an index another number.
    pub fn set_item(&mut self, name: &Name, at: Value, value: Value) -> Option<()>
        ensures { Wrote (set_item_at self.old name.now at.number value.number) result self.new }
    {
        let index = usize::try_from(at.number).ok()?;
        if index < name.len as usize {
            self.write(self.item_place(name, index)?, value)
        } else {
            None
        }
    }

    /// A new scalar with its number, at the top of what is seen. What stood there was of names that
    /// are gone.
    pub fn bind(&mut self, name: &Name, value: Value) -> Result<(), NoMemory>
        ensures { OnOk result (self.new ≡ bind_at self.old name.now value.number) }
    {
        let at = name.place;
        if at < self.numbers.len() {
            self.numbers.set(at, value.number);
            Ok(())
        } else {
            self.push(value)
        }
    }

    fn push(&mut self, value: Value) -> Result<(), NoMemory>
        ensures { OnOk result (self.new ≡ pushed self.old value.number) }
    {
        self.numbers.push(value.number)?;
        Ok(())
    }

    /// Where the item of a list at an index stands, if that place is there.
    fn item_place(&self, name: &Name, index: usize) -> Option<usize>
        ensures some { IfSome result (λ at. at ≡ name.now.place + index) }
        ensures none { IfNone result (length self.now.numbers ≤ name.now.place + index) }
    {
        let behind = self.numbers.len().checked_sub(name.place)?;
        if index < behind {
            Some(name.place + index)
        } else {
            None
        }
    }

    /// The number at a place, as a value.
    fn value(&self, at: usize, left: u32) -> Option<Value>
        ensures { result ≡ with_left left (number_at self.now at) }
    {
        let number = *self.numbers.get(at)?;
        Some(Value { number, left })
    }

    /// Gives a place that is there another number.
    fn write(&mut self, at: usize, value: Value) -> Option<()>
        ensures { Wrote (write_at self.old at value.number) result self.new }
    {
        if at < self.numbers.len() {
            self.numbers.set(at, value.number);
            Some(())
        } else {
            None
        }
    }
}
