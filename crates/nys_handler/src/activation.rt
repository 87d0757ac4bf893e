//! The activation of a handler: what it has done so far.

ghost use Rattle.std.specs.Prelude.{◌≡◌, ℕ, Some, None, IfOk, [], length};
ghost use Rattle.nys_source.specs.declared.effect.Effect.{Effect as Made};
ghost use Rattle.nys_source.specs.declared.effect.Effect.TheVariants as made;
ghost use Rattle.nys_meaning.specs.Exprs as m;
ghost use Rattle.nys_meaning.specs.Stmts as s;
ghost use Rattle.nys_places.specs.Cells.{place_reads, by_place};
ghost use Rattle.nys_handler.specs.Does.{Does, Evaluates, Lists, Pushes};

use crate::stop::Stop;
use nys_bytes::{Payload, PayloadFault};
use nys_meaning::{Here, Value};
use nys_places::Cells;
use nys_source::{Effect, MAX_EFFECTS};
use nys_tree::{Expr, MAX_MEMBERS, Name, Values};
use nys_walk::expr;
use sqlite_items::Items;
use std::alloc::Global;
use std::marker::Model;

/// What a handler has done so far.
#[derive(Drop)]
pub struct Activation<'a> {
    cells: Cells<'a>,
    left: u32,
    effects: Vec<Effect>,
    alloc: Global,
}

impl<'a> Model for Activation<'a> {
    ghost use Rattle.nys_meaning.specs.Stmts.{Run};
    ghost use Rattle.nys_places.specs.declared.cells.Cells.{Cells};

    ghost Value = { Run Cells };

    ghost view = { λ f. record { names = f.cells; left = f.left; effects = f.effects.items } };
}

impl<'a> Activation<'a> {
    /// The activation of a handler that begins with these cells and units.
    pub fn new(alloc: Global, cells: Cells<'a>, left: u32) -> Activation<'a>
        ensures { result ≡ record { names = cells.entry; left = left; effects = [] } }
    {
        Activation {
            cells,
            left,
            effects: Vec::new(alloc),
            alloc,
        }
    }

    /// The units that are left.
    pub fn left(&self) -> u32
        ensures { result ≡ self.now.left }
    {
        self.left
    }

    /// What the handler leaves: the cells, and the effects in order.
    pub fn into_parts(self) -> (Cells<'a>, Vec<Effect>)
        ensures cells { result.0 ≡ self.entry.names }
        ensures effects { result.1.items ≡ self.entry.effects }
    {
        let Activation { cells, effects, .. } = self;
        (cells, effects)
    }

    /// Takes one unit.
    pub fn spend(&mut self) -> Result<(), Stop>
        ensures { Does (s.spend self.old Some) result self.new }
    {
        if self.left == 0 {
            return Err(Stop::Fault);
        }
        self.left -= 1;
        Ok(())
    }

    /// What an expression gives, with the units that it takes.
    pub fn value(&mut self, e: &Expr, here: &Here) -> Result<Value, Stop>
        ensures { Evaluates
            (m.expr place_reads here.now e.now self.old.names self.old.left) result self.old self.new }
    {
        match expr(e, here, &self.cells, self.left) {
            Some(value) => {
                self.left = value.left;
                Ok(value)
            }
            None => Err(Stop::Fault),
        }
    }

    /// Gives a scalar another number.
    pub fn set(&mut self, name: &Name, value: Value) -> Result<(), Stop>
        ensures { Does (s.with_names self.old
            (by_place.set self.old.names name.now value.number)) result self.new }
    {
        match self.cells.set(name, value) {
            Some(()) => Ok(()),
            None => Err(Stop::Fault),
        }
    }

    /// Gives the item of a list another number.
    pub fn set_item(&mut self, name: &Name, at: Value, value: Value) -> Result<(), Stop>
        ensures { Does (s.with_names self.old
            (by_place.set_item self.old.names name.now at.number value.number)) result self.new }
    {
        match self.cells.set_item(name, at, value) {
            Some(()) => Ok(()),
            None => Err(Stop::Fault),
        }
    }

    /// A new scalar with its number.
    pub fn bind(&mut self, name: &Name, value: Value) -> Result<(), Stop>
        ensures { Does (Some
            (record self.old { names = by_place.bind self.old.names name.now value.number })) result self.new }
    {
        match self.cells.bind(name, value) {
            Ok(()) => Ok(()),
            Err(_) => Err(Stop::NoMemory),
        }
    }

    /// One effect more.
    fn effect(&mut self, effect: Effect) -> Result<(), Stop>
        ensures { Does (s.with_effect self.old effect) result self.new }
    {
        if self.effects.len() < MAX_EFFECTS {
            match self.effects.push(effect) {
                Ok(()) => Ok(()),
                Err(_) => Err(Stop::NoMemory),
            }
        } else {
            Err(Stop::Fault)
        }
    }

    /// A payload sent to a host.
    pub fn send(&mut self, to: u32, payload: Payload) -> Result<(), Stop>
        ensures { Does (s.with_effect self.old (made.Send to payload)) result self.new }
    {
        self.effect(Effect::Send { to, payload })
    }

    /// An output.
    pub fn out(&mut self, payload: Payload) -> Result<(), Stop>
        ensures { Does (s.with_effect self.old (made.Out payload)) result self.new }
    {
        self.effect(Effect::Out { payload })
    }

    /// The numbers of a list's members, in order.
    fn numbers(&mut self, list: &Values, here: &Here) -> Result<Items<i64>, Stop>
        ensures { Lists (m.numbers place_reads here.now list.now.members [] self.old.names self.old.left) result self.old self.new }
    {
        let mut numbers = Items::new(self.alloc);
        for member in list.members.as_slice() {
            let value = self.value(member, here)?;
            push(&mut numbers, value)?;
        }
        Ok(numbers)
    }

    /// A list as a payload: no longer one than a list that a text can have.
    pub fn payload(&mut self, list: &Values, here: &Here) -> Result<Payload, Stop>
        ensures { Lists (s.listed by_place here.now list.now.members self.old) result self.old self.new }
    {
        let numbers = self.numbers(list, here)?;
        if numbers.len() > MAX_MEMBERS {
            return Err(Stop::Fault);
        }
        match Payload::new(self.alloc, numbers.as_slice()) {
            Ok(payload) => Ok(payload),
            Err(PayloadFault::Length) => Err(Stop::Fault),
            Err(PayloadFault::NoMemory) => Err(Stop::NoMemory),
        }
    }

    /// A copy of a payload sent to a host.
    fn send_copy(&mut self, to: u32, payload: &Payload) -> Result<(), Stop>
        ensures { Does (s.with_effect self.old (made.Send to payload.now)) result self.new }
    {
        match payload.copy(self.alloc) {
            Ok(copy) => self.send(to, copy),
            Err(_) => Err(Stop::NoMemory),
        }
    }

    /// One payload sent to each of some hosts.
    pub fn send_all(&mut self, to: &[u32], payload: &Payload) -> Result<(), Stop>
        ensures { Does (s.sends payload.now to.now self.old) result self.new }
    {
        for host in to {
            self.send_copy(*host, payload)?;
        }
        Ok(())
    }
}

/// One number behind those so far.
fn push(numbers: &mut Items<i64>, value: Value) -> Result<(), Stop>
    ensures { Pushes numbers.old value.number result numbers.new }
{
    match numbers.push(value.number) {
        Ok(()) => Ok(()),
        Err(_) => Err(Stop::NoMemory),
    }
}
