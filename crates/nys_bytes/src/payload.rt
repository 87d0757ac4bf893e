//! Payloads: what the hosts of a protocol hand to one another.

ghost use Rattle.std.specs.Prelude.{◌≡◌, ◌≤◌, ◌↔◌, ◌<◌, ◌⊎◌, ℤ, List, length, IfOk, IsErrOf, IsTrue};

use crate::fault::{NoMemory, PayloadFault};
use std::alloc::Global;
use std::marker::Model;

/// The most numbers that a payload has.
pub const MAX_NUMBERS: usize = 512;

/// A list of 1 to `MAX_NUMBERS` signed numbers, which never changes.
#[derive(Debug, Drop)]
pub struct Payload {
    held: Vec<i64>,
}

impl Model for Payload {
    ghost use Rattle.std.specs.Prelude.{ℤ, List, length, ◌≤◌};
    ghost use Rattle.nys_bytes.specs.declared.payload.TheConstants.{MAX_NUMBERS};

    ghost Value = { List ℤ };

    ghost view = { λ p. p.held.items };

    ghost invariant = { λ p. (1 ≤ length p.held.items) × (length p.held.items ≤ MAX_NUMBERS) };
}

impl Payload {
    /// The payload of these numbers, in their order.
    pub fn new(alloc: Global, numbers: &[i64]) -> Result<Payload, PayloadFault>
        ensures value { IfOk result (λ payload. payload ≡ numbers.now) }
        // Exactly a list that is empty or too long is refused for its length.
        ensures length { IsErrOf result PayloadFault.Length ↔ ((length numbers.now ≡ 0)
            ⊎ (MAX_NUMBERS < length numbers.now)) }
    {
        if numbers.is_empty() {
            return Err(PayloadFault::Length);
        }
        if numbers.len() > MAX_NUMBERS {
            return Err(PayloadFault::Length);
        }
        let held = Vec::from_slice(alloc, numbers)?;
        Ok(Payload { held })
    }

    /// The numbers, in order.
    pub fn numbers(&self) -> &[i64]
        ensures value { result.now ≡ self.now }
        ensures some { 1 ≤ length self.now }
        ensures few { length self.now ≤ MAX_NUMBERS }
    {
        self.held.as_slice()
    }

    /// An equal payload with memory of its own.
    pub fn copy(&self, alloc: Global) -> Result<Payload, NoMemory>
        ensures { IfOk result (λ payload. payload ≡ self.now) }
    {
        let held = Vec::from_slice(alloc, self.held.as_slice())?;
        Ok(Payload { held })
    }

    /// Whether both have the same numbers in the same order.
    pub fn equals(&self, other: &Payload) -> bool
        ensures { IsTrue result ↔ (self.now ≡ other.now) }
    {
        self.numbers() == other.numbers()
    }
}
