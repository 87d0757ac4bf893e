//! The state of a machine.

ghost use Rattle.std.specs.Prelude.{◌≡◌, ◌≤◌, ◌+◌, ◌∷◌, [], ℤ, List, length, take, IfOk};

use nys_bytes::NoMemory;
use sqlite_items::Items;
use std::alloc::Global;
use std::marker::Model;

/// A machine's state: the numbers of its variables, in order of declaration, at most 256.
#[derive(Debug, Drop)]
pub struct State {
    numbers: Items<i64>,
}

impl Model for State {
    ghost use Rattle.std.specs.Prelude.{◌≤◌, ℤ, List, length};

    ghost Value = { List ℤ };

    ghost view = { λ s. s.numbers };

    ghost invariant = { λ s. length s.numbers ≤ 256 };
}

impl State {
    /// The state of these numbers.
    pub(crate) fn from_items(numbers: Items<i64>) -> State
        requires { length numbers ≤ 256 }
        ensures { result ≡ numbers }
    {
        State { numbers }
    }

    /// The state of the first numbers of a list, as many as this state has.
    pub(crate) fn first(&self, alloc: Global, numbers: &[i64]) -> Result<State, NoMemory>
        ensures { IfOk result (λ s. s ≡ take (length self.now) numbers.now) }
    {
        let n = self.numbers.len().min(numbers.len());
        let numbers = Items::from_slice(alloc, &numbers[..n])?;
        Ok(State { numbers })
    }

    /// How many numbers there are.
    pub(crate) fn len(&self) -> usize
        ensures count { result ≡ length self.now }
        ensures few { length self.now ≤ 256 }
    {
        self.numbers.len()
    }

    /// The numbers, in order.
    pub fn numbers(&self) -> &[i64]
        ensures numbers { result.now ≡ self.now }
        ensures few { length self.now ≤ 256 }
    {
        self.numbers.as_slice()
    }

    /// An equal state with memory of its own.
    pub(crate) fn copy(&self, alloc: Global) -> Result<State, NoMemory>
        ensures { IfOk result (λ s. s ≡ self.now) }
    {
        let numbers = Items::from_slice(alloc, self.numbers.as_slice())?;
        Ok(State { numbers })
    }
}
