//! The events of a bare schedule, taken by the source system.

ghost use Rattle.std.specs.Prelude.{◌≡◌, ◌<◌, ◌≤◌, ◌+◌, ◌⊎◌, ◌∷◌, ◌++◌, ℕ, List, [], None, IfSome, Ok, Err, IfOk, IfErr, length, slice_get, Some};
ghost use Rattle.nys_bare.specs.declared.read.TheConstants.{MAX_EVENTS};
ghost use Rattle.nys_source.specs.Rules.{Rules};
ghost use Rattle.nys_source.specs.Steps.{refusal};
ghost use Rattle.nys_source.specs.Runs.{after_run};
ghost use Rattle.nys_source.specs.Held.{shown};
ghost use Rattle.nys_source_commands.specs.Numbers.{AreNumbers, AreSomeNumbers};
ghost use Rattle.nys_source_commands.specs.BareRun.{bare_run, receive_of, run_after, run_with, within_limit, Follows, IsNumbered};

use crate::numbering::{number_at, number_messages};
use nys_bare::BareEvent;
use nys_bytes::NoMemory;
use nys_source::{Protocol, Step, System};
use std::alloc::Global;

/// The most messages of a bare run.
pub const MAX_MESSAGES: usize = 200_000;

/// What ends a bare run before its last event.
#[derive(Clone, Copy, Debug, PartialEq, Eq)]
pub enum BareEnd {
    /// The event, counted from 0, names a message that wasn't sent by then; how many were.
    NoMessage { event: u32, message: u32, have: u32 },
    /// There would be more messages than `MAX_MESSAGES`.
    TooMany,
    /// The allocator had no room.
    NoMemory,
}

impl From<NoMemory> for BareEnd {
    ghost use Rattle.nys_source_commands.specs.declared.bare_run.BareEnd.TheVariants as bare_end;

    ghost from_gives = { λ _ why. why ≡ bare_end.NoMemory };

    fn from(_error: NoMemory) -> BareEnd {
        BareEnd::NoMemory
    }
}

/// The bare run of the events, in order, from the system at the beginning.
pub(crate) fn bare_run<P: Protocol>(
    alloc: Global,
    protocol: P,
    events: Vec<BareEvent>,
) -> Result<BareRun<P>, BareEnd>
    requires { length events.items ≤ MAX_EVENTS }
    ensures protocol { IfOk result (λ bare. bare.system.0 ≡ protocol) }
    ensures run { IfOk result (λ bare. bare_run (P.rules protocol) events.items ≡ Ok bare.run.items) }
    ensures follows { IfOk result (λ bare. Follows
        (P.rules protocol) bare.system.1 bare.run.items bare.numbers.items) }
    ensures end { IfErr result (λ why. (why ≡ BareEnd.NoMemory)
        ⊎ (bare_run (P.rules protocol) events.items ≡ Err why)) }
{
    let mut bare = BareRun::new(alloc, protocol)?;
    let mut at = 0u32;
    for event in events {
        bare = bare.after(at, event)?;
        at += 1;
    }
    Ok(bare)
}

/// A run, the system that it leaves, and the number of each of its messages on its link.
#[derive(Drop)]
pub(crate) struct BareRun<P: Protocol> {
    pub(crate) system: System<P>,
    pub(crate) run: Vec<Step>,
    pub(crate) numbers: Vec<u32>,
}

impl<P: Protocol> BareRun<P> {
    /// The run of no events.
    fn new(alloc: Global, protocol: P) -> Result<BareRun<P>, NoMemory>
        ensures protocol { IfOk result (λ bare. bare.system.0 ≡ protocol) }
        ensures none { IfOk result (λ bare. bare.run.items ≡ []) }
        ensures follows { IfOk result (λ bare. Follows
            (P.rules protocol) bare.system.1 bare.run.items bare.numbers.items) }
    {
        let system = System::new(alloc, protocol)?;
        let run = Vec::new(alloc);
        let numbers = Vec::new(alloc);
        Ok(BareRun {
            system,
            run,
            numbers,
        })
    }

    /// The run after the event of this number, or what ends it there.
    fn after(self, at: u32, event: BareEvent) -> Result<BareRun<P>, BareEnd>
        requires { Follows (P.rules self.system.0) self.system.1 self.run.items self.numbers.items }
        ensures protocol { IfOk result (λ bare. bare.system.0 ≡ self.system.0) }
        ensures run { IfOk result (λ bare. run_after (P.rules self.system.0) at self.run.items event
            ≡ Ok bare.run.items) }
        ensures follows { IfOk result (λ bare. Follows
            (P.rules self.system.0) bare.system.1 bare.run.items bare.numbers.items) }
        ensures end { IfErr result (λ why. (why ≡ BareEnd.NoMemory)
            ⊎ (run_after (P.rules self.system.0) at self.run.items event ≡ Err why)) }
    {
        match event {
            BareEvent::Input { h, payload } => self.take(Step::Input { h, payload }),
            BareEvent::Deliver { k } => self.deliver(at, k),
            BareEvent::Stop { h } => self.take(Step::Stop { h }),
        }
    }

    /// The run after message `k` is delivered.
    fn deliver(self, at: u32, k: u32) -> Result<BareRun<P>, BareEnd>
        requires { Follows (P.rules self.system.0) self.system.1 self.run.items self.numbers.items }
        ensures protocol { IfOk result (λ bare. bare.system.0 ≡ self.system.0) }
        ensures run { IfOk result (λ bare. run_after (P.rules self.system.0) at self.run.items
            (BareEvent.Deliver k) ≡ Ok bare.run.items) }
        ensures follows { IfOk result (λ bare. Follows
            (P.rules self.system.0) bare.system.1 bare.run.items bare.numbers.items) }
        ensures end { IfErr result (λ why. (why ≡ BareEnd.NoMemory)
            ⊎ (run_after (P.rules self.system.0) at self.run.items (BareEvent.Deliver k) ≡ Err why)) }
    {
        match receive_of(self.system.messages(), self.numbers.as_slice(), k) {
            Some(step) => self.take(step),
            None => Err(BareEnd::NoMessage {
                event: at,
                message: k,
                have: self.system.messages().len() as u32,
            }),
        }
    }

    /// The run with a step behind it, where that is a step there; else the run.
    fn take(self, step: Step) -> Result<BareRun<P>, BareEnd>
        requires follows { Follows (P.rules self.system.0) self.system.1 self.run.items self.numbers.items }
        requires numbered { IsNumbered step }
        ensures protocol { IfOk result (λ bare. bare.system.0 ≡ self.system.0) }
        ensures run { IfOk result (λ bare. within_limit (P.rules self.system.0)
            (run_with (P.rules self.system.0) self.run.items step) ≡ Ok bare.run.items) }
        ensures follows { IfOk result (λ bare. Follows
            (P.rules self.system.0) bare.system.1 bare.run.items bare.numbers.items) }
        ensures end { IfErr result (λ why. (why ≡ BareEnd.NoMemory)
            ⊎ (within_limit (P.rules self.system.0) (run_with (P.rules self.system.0) self.run.items step)
            ≡ Err why)) }
    {
        if self.system.refusal(&step).is_some() {
            return self.limited();
        }
        match self.push(step) {
            Ok(longer) => longer.limited(),
            Err(_) => Err(BareEnd::NoMemory),
        }
    }

    /// The run with a lawful step behind it.
    fn push(self, step: Step) -> Result<BareRun<P>, NoMemory>
        requires system { shown (P.rules self.system.0) self.system.1
            ≡ after_run (P.rules self.system.0) self.run.items }
        requires lawful { refusal (P.rules self.system.0) (shown (P.rules self.system.0) self.system.1) step
            ≡ None }
        requires numbered { IsNumbered step }
        requires numbers { AreNumbers self.numbers.items self.system.1.messages
            (length self.system.1.messages) }
        ensures protocol { IfOk result (λ bare. bare.system.0 ≡ self.system.0) }
        ensures numbers { IfOk result (λ bare. AreSomeNumbers bare.numbers.items bare.system.1.messages) }
        ensures run { IfOk result (λ bare. bare.run.items ≡ self.run.items ++ step ∷ []) }
        ensures system { IfOk result (λ bare. shown (P.rules self.system.0) bare.system.1
            ≡ after_run (P.rules self.system.0) bare.run.items) }
    {
        let BareRun {
            system,
            mut run,
            numbers,
        } = self;
        match system.take(&step) {
            Ok(system) => {
                run.push(step)?;
                Ok(BareRun {
                    system,
                    run,
                    numbers,
                })
            }
            Err(_) => Err(NoMemory),
        }
    }

    /// The run, where it has no more messages than the limit, with the numbers of all of them.
    #[tactic(auto, unfolding(crate::specs::BareRun::within_limit))]
    fn limited(self) -> Result<BareRun<P>, BareEnd>
        requires system { shown (P.rules self.system.0) self.system.1
            ≡ after_run (P.rules self.system.0) self.run.items }
        requires numbers { AreSomeNumbers self.numbers.items self.system.1.messages }
        ensures protocol { IfOk result (λ bare. bare.system.0 ≡ self.system.0) }
        ensures run { IfOk result (λ bare. within_limit (P.rules self.system.0) self.run.items
            ≡ Ok bare.run.items) }
        ensures follows { IfOk result (λ bare. Follows
            (P.rules self.system.0) bare.system.1 bare.run.items bare.numbers.items) }
        ensures end { IfErr result (λ why. (why ≡ BareEnd.NoMemory)
            ⊎ (within_limit (P.rules self.system.0) self.run.items ≡ Err why)) }
    {
        if self.system.messages().len() > MAX_MESSAGES {
            return Err(BareEnd::TooMany);
        }
        let BareRun {
            system,
            run,
            mut numbers,
        } = self;
        number_messages(&mut numbers, system.messages())?;
        Ok(BareRun {
            system,
            run,
            numbers,
        })
    }
}

/// The receive of message `k`, where it was sent.
fn receive_of(messages: &[(u32, u32)], numbers: &[u32], k: u32) -> Option<Step>
    requires few { length messages.now ≤ MAX_MESSAGES }
    requires numbers { AreNumbers numbers.now messages.now (length messages.now) }
    ensures step { result ≡ receive_of messages.now k (slice_get messages.now k) }
    ensures numbered { IfSome result IsNumbered }
{
    let link = *messages.get(k as usize)?;
    let number = number_at(messages, numbers, k as usize);
    Some(Step::Receive {
        h: link.1,
        p: link.0,
        k: number,
    })
}
