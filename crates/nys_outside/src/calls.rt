//! The calls of an object in memory, numbered from 0, of which those that are listed fail.

ghost use Rattle.std.specs.Prelude.{◌≡◌, ◌↔◌, IfOk, OnOk, OnErr, IsErr, IsTrue};
ghost use Rattle.nys_outside.specs.Counts.{Rose, RoseOnce, Calls, first_calls, is_listed};

use crate::fault::Failed;
use nys_bytes::NoMemory;
use std::alloc::Global;
use std::marker::Model;

/// The number of the next call, the numbers of those that fail, and how many have failed. Both counts
/// stay at their last value once they reach it.
#[derive(Debug, Drop)]
pub struct CallList {
    fails: Vec<u32>,
    made: u64,
    faults: u64,
}

impl Model for CallList {
    ghost use Rattle.nys_outside.specs.Counts.{Calls};

    ghost Value = { Calls };

    ghost view = { λ c. record { fails = c.fails.items; made = c.made; faults = c.faults } };
}

impl CallList {
    /// No call yet.
    pub fn new(alloc: Global, fails: &[u32]) -> Result<CallList, NoMemory>
        ensures { IfOk result (λ calls. calls ≡ first_calls fails.now) }
    {
        Ok(CallList {
            fails: Vec::from_slice(alloc, fails)?,
            made: 0,
            faults: 0,
        })
    }

    fn is_next_listed(&self) -> bool
        ensures { result ≡ is_listed self.now }
    {
        let number = self.made;
        self.fails.iter().any(|fail| u64::from(*fail) == number)
    }

    /// Counts one call, which fails exactly where its number is listed.
    pub fn begin(&mut self) -> Result<(), Failed>
        ensures listed { IsErr result ↔ IsTrue (is_listed self.old) }
        ensures fails { self.new.fails ≡ self.old.fails }
        ensures made { RoseOnce self.old.made self.new.made }
        ensures ok { OnOk result (self.new.faults ≡ self.old.faults) }
        ensures err { OnErr result (RoseOnce self.old.faults self.new.faults) }
    {
        let fails = self.is_next_listed();
        self.made = self.made.saturating_add(1);
        if fails {
            self.faults = self.faults.saturating_add(1);
            return Err(Failed);
        }
        Ok(())
    }
}
