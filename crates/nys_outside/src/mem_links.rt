//! Links whose frames wait in memory.

ghost use Rattle.std.specs.Prelude.{◌≡◌, ◌≢◌, ◌↔◌, ◌≤◌, ◌<◌, ◌*◌, ℕ, List, [], ◌++◌, ◌∷◌, Option, None, Some, IfOk, OnOk, OnErr, IsErrOf, IsTrue, MatchOption, slice_index_or, length};
ghost use Rattle.nys_outside.specs.Counts.{HasOutCause, HasPollCause, RoseOnce, Calls, first_calls, is_listed};
ghost use Rattle.nys_outside.specs.Frames.{IsFrame, AreLinked, connected_by};
ghost use Rattle.nys_outside.specs.Network.{Directed, Network, Same, Connects, Sends, Polls};
ghost use Rattle.nys_outside.specs.Ways.{Way, no_way, place_of, MemNetwork, network_of, IsQuiet, GaveFront};

use crate::calls::CallList;
use crate::fault::OutFault;
use crate::got::Got;
use crate::links::Links;
use crate::way::{Delivery, Frame, WayQueue, grow, place};
use nys_bytes::NoMemory;
use std::alloc::Global;
use std::marker::Model;

/// Frames in memory, which tell all. No direction of it ever closes. The calls whose numbers were
/// listed fail.
#[derive(Drop)]
pub struct MemLinks {
    alloc: Global,
    hosts: Option<u32>,
    ways: Vec<WayQueue>,
    given: Vec<Delivery>,
    calls: CallList,
}

impl Model for MemLinks {
    ghost use Rattle.nys_outside.specs.Ways.{MemNetwork, HasRoom};
    ghost use Rattle.std.specs.Prelude.{length};

    ghost Value = { MemNetwork };

    ghost view = { λ l. record { hosts = l.hosts; ways = l.ways.items; given = l.given.items; calls = l.calls } };

    ghost invariant = { λ l. HasRoom l.hosts (length l.ways.items) };
}

impl MemLinks {
    /// Links that are connected for no hosts. The calls with the numbers in `fails` fail: all kinds are
    /// numbered together, the first one being number 0.
    pub fn new(alloc: Global, fails: &[u32]) -> Result<MemLinks, NoMemory>
        ensures hosts { IfOk result (λ links. links.hosts ≡ None) }
        ensures quiet { IfOk result (λ links. IsQuiet (network_of links)) }
        ensures calls { IfOk result (λ links. links.calls ≡ first_calls fails.now) }
    {
        Ok(MemLinks {
            alloc,
            hosts: None,
            ways: Vec::new(alloc),
            given: Vec::new(alloc),
            calls: CallList::new(alloc, fails)?,
        })
    }
}

impl Links for MemLinks {
    ghost connected = { λ l. l.hosts };

    ghost told = { λ l. Some (network_of l) };

    ghost faults = { λ l. l.calls.faults };

    /// Frames that wait go on waiting.
    fn connect(&mut self, n: u32) -> Result<(), OutFault>
        ensures hosts { self.new.hosts ≡ connected_by n result }
        ensures frames { Connects (Some (network_of self.old)) (Some (network_of self.new)) }
        ensures waiting { Same (network_of self.old).waiting (network_of self.new).waiting }
        ensures cause { HasOutCause self.old.calls.faults self.new.calls.faults result }
        ensures listed { IsErrOf result OutFault.Failed ↔ IsTrue (is_listed self.old.calls) }
        ensures fails { self.new.calls.fails ≡ self.old.calls.fails }
        ensures made { RoseOnce self.old.calls.made self.new.calls.made }
    {
        self.hosts = None;
        self.calls.begin()?;
        let side = n as usize;
        grow(self.alloc, &mut self.ways, side * side)?;
        self.hosts = Some(n);
        Ok(())
    }

    /// Fails exactly where the number of the call was listed.
    fn send(&mut self, from: u32, to: u32, frame: &[u8]) -> Result<(), OutFault>
        requires linked { AreLinked self.old.hosts from to }
        requires whole { IsFrame frame.now }
        ensures hosts { self.new.hosts ≡ self.old.hosts }
        ensures frames { Sends from to frame.now result (Some (network_of self.old))
            (Some (network_of self.new)) }
        ensures cause { HasOutCause self.old.calls.faults self.new.calls.faults result }
        ensures listed { IsErrOf result OutFault.Failed ↔ IsTrue (is_listed self.old.calls) }
        ensures fails { self.new.calls.fails ≡ self.old.calls.fails }
        ensures made { RoseOnce self.old.calls.made self.new.calls.made }
    {
        self.calls.begin()?;
        let copy = Frame::new(self.alloc, frame)?;
        self.ways[place(from, to)].put(copy)?;
        Ok(())
    }

    /// Fails exactly where the number of the call was listed.
    fn poll(&mut self, from: u32, to: u32, buf: &mut Vec<u8>) -> Got
        requires linked { AreLinked self.old.hosts from to }
        ensures hosts { self.new.hosts ≡ self.old.hosts }
        ensures whole { result ≡ Got.Frame → IsFrame buf.new.items }
        ensures frames { Polls from to result buf.new.items (Some (network_of self.old))
            (Some (network_of self.new)) }
        ensures cause { HasPollCause self.old.calls.faults self.new.calls.faults result }
        ensures listed { (result ≡ Got.Failed) ↔ IsTrue (is_listed self.old.calls) }
        ensures fails { self.new.calls.fails ≡ self.old.calls.fails }
        ensures made { RoseOnce self.old.calls.made self.new.calls.made }
    {
        let begun = self.calls.begin();
        let way = &mut self.ways[place(from, to)];
        way.count();
        match begun {
            Ok(()) => way.give(self.alloc, from, to, buf, &mut self.given),
            Err(_) => Got::Failed,
        }
    }
}
