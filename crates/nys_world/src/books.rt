//! What a world keeps beside its parties.

ghost use Rattle.std.specs.Prelude.{◌<◌, ◌+◌, ◌==◌, if◌then◌else◌, true, length, ℕ, IfOk, OnOk};
ghost use Rattle.nys_rules.specs.Happening.{with_injected};
ghost use Rattle.nys_rules.specs.Olympus.{OlympusView};
ghost use Rattle.nys_rules.specs.View.{View};
ghost use Rattle.nys_rules.specs.World.{with_note};
ghost use Rattle.nys_world.specs.Beginning.{world_of};
ghost use Rattle.nys_world.specs.Outcomes.{Writes};
ghost use Rattle.nys_world.specs.Shows.{Keeps};

use nys_bytes::NoMemory;
use nys_hosts::MAX_HOSTS;
use nys_ledger::Ledger;
use nys_rules::{Injected, Note, NoteKind, Packet};
use nys_source::Step;
use nys_wire::Head;
use std::alloc::Global;

/// What happened in a world by now. Events are counted from 0.
#[derive(Drop)]
pub(crate) struct Books {
    /// How many events there were.
    pub events: u32,
    /// What honest hosts and the Olympus made.
    pub ledger: Ledger,
    /// All packets, in order of sending.
    pub pool: Vec<Packet>,
    /// By packet: the head of its record; none where its bytes are no record.
    pub heads: Vec<Option<Head>>,
    /// How many bytes they have.
    pub bytes: u64,
    /// By packet: whether it was given to its party.
    pub delivered: Vec<bool>,
    /// The bytes that events gave.
    pub injected: Vec<Injected>,
    pub notes: Vec<Note>,
    /// By host: how long its longest log is, of honest nodes and of the Olympus.
    pub longest: [u32; MAX_HOSTS],
    /// A step for each entry by which a log passed all logs of its host.
    pub run: Vec<Step>,
}

impl Books {
    /// Nothing happened yet.
    pub(crate) fn new(alloc: Global) -> Result<Books, NoMemory>
        ensures { IfOk result (λ books. (nodes : ℕ → View) (olympus : OlympusView)
            → Keeps books (world_of nodes olympus)) }
    {
        Ok(Books {
            events: 0,
            ledger: Ledger::new(alloc)?,
            pool: Vec::new(alloc),
            heads: Vec::new(alloc),
            bytes: 0,
            delivered: Vec::new(alloc),
            injected: Vec::new(alloc),
            notes: Vec::new(alloc),
            longest: [0; MAX_HOSTS],
            run: Vec::new(alloc),
        })
    }

    /// It is told what a reader wants to know.
    pub(crate) fn note(&mut self, kind: NoteKind) -> Result<(), NoMemory>
        ensures { OnOk result (Writes self.old self.new (with_note kind)) }
    {
        let event = self.events;
        self.notes.push(Note { event, kind })?;
        Ok(())
    }

    /// The bytes that an event gives to a party are kept.
    pub(crate) fn inject(&mut self, to: u32, frame: Vec<u8>) -> Result<(), NoMemory>
        ensures { OnOk result (Writes self.old self.new (with_injected to frame.items)) }
    {
        let event = self.events;
        self.injected.push(Injected { event, to, frame })?;
        Ok(())
    }

    /// The packet counts as delivered.
    pub(crate) fn mark(&mut self, k: u32)
        requires { k < length self.old.delivered.items }
        ensures { Writes self.old self.new
            (λ w. record w { delivered = λ x. if x == k then true else w.delivered x }) }
    {
        self.delivered[k as usize] = true;
    }

    /// One event more is over.
    pub(crate) fn count(&mut self)
        requires { self.old.events < 4294967295 }
        ensures { Writes self.old self.new (λ w. record w { events = w.events + 1 }) }
    {
        self.events += 1;
    }
}
