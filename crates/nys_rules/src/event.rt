//! What may happen in a world.

ghost use Rattle.std.specs.Prelude.{◌≡◌, ◌<◌, ◌≤◌, List, [], ◌∷◌, ◌++◌, length, slice_get, All, IfOk, OnOk, OnErr, Some};

use nys_bytes::{NoMemory, Payload};
use nys_mac::LAST_PARTY;
use nys_stmt::Statement;
use std::alloc::Global;
use std::marker::Model;

/// Parties that something is for: one or more, rising, each at most `LAST_PARTY`.
#[derive(Debug, Drop)]
pub struct Parties {
    held: Vec<u32>,
}

impl Model for Parties {
    ghost use Rattle.std.specs.Prelude.{ℕ, List};
    ghost use Rattle.nys_rules.specs.Parties.{AreParties};

    ghost Value = { List ℕ };

    ghost view = { λ p. p.held.items };

    ghost invariant = { λ p. AreParties p.held.items };
}

impl Parties {
    /// The list with one party.
    pub fn new(alloc: Global, first: u32) -> Result<Parties, NoMemory>
        requires { first ≤ LAST_PARTY }
        ensures { IfOk result (λ parties. parties ≡ first ∷ []) }
    {
        let mut held = Vec::new(alloc);
        held.push(first)?;
        Ok(Parties { held })
    }

    /// Appends a party above all others. Want of memory changes nothing.
    pub fn push(&mut self, party: u32) -> Result<(), NoMemory>
        requires party { party ≤ LAST_PARTY }
        requires above { All (λ p. p < party) self.old }
        ensures ok { OnOk result (self.new ≡ self.old ++ party ∷ []) }
        ensures err { OnErr result (self.new ≡ self.old) }
    {
        self.held.push(party)?;
        Ok(())
    }

    /// How many parties there are.
    pub fn len(&self) -> u32
        ensures size { result ≡ length self.now }
        ensures some { 1 ≤ result }
        ensures few { result ≤ 33 }
    {
        self.held.len() as u32
    }

    /// The party at place `i`.
    pub fn get(&self, i: u32) -> u32
        requires { i < length self.now }
        ensures member { slice_get self.now i ≡ Some result }
        ensures party { result ≤ LAST_PARTY }
    {
        self.held[i as usize]
    }
}

/// One event of a schedule. Hosts are below the number of hosts. Definitions speak of it as the plain
/// data `plain` of `specs/Events.antt`, in which frames and packets are lists.
#[derive(Debug, Drop)]
pub enum Event {
    /// A payload is handed to a host.
    Input {
        h: u32,
        payload: Payload,
    },
    /// A packet is given to the party that it is for.
    Deliver {
        k: u32,
    },
    /// Each packet that was never given is given, in order of sending.
    Flush,
    /// Each packet between parties that don't lie is given again, in order of sending.
    Exchange,
    /// A host asks the guards of each host that it guards.
    Ask {
        h: u32,
    },
    /// Bytes that nobody sent are given to a party.
    Bytes {
        to: u32,
        frame: Vec<u8>,
    },
    /// A liar sends a statement under its own tags.
    Say {
        a: u32,
        to: Parties,
        statement: Statement,
    },
    /// A liar sends the makers of packets of one statement in one record.
    Bundle {
        a: u32,
        to: Parties,
        packets: Vec<u32>,
    },
    /// A statement under a party's tags, the Olympus's too, comes from a stranger.
    Steal {
        a: u32,
        to: Parties,
        statement: Statement,
    },
    /// The Olympus begins to end the epoch.
    Wedge,
    /// The Olympus decides a host's log.
    Decide {
        h: u32,
    },
    /// The Olympus gives a host up.
    Retire {
        h: u32,
    },
    /// The Olympus opens the next epoch.
    Open,
}
