//! The events that are drawn.

ghost use Rattle.std.specs.Prelude.{◌≡◌, ◌<◌, ◌≤◌, ◌+◌, ◌∷◌, [], pos, ℕ, Bool, IfOk};
ghost use Rattle.nys_rules.specs.Asked.{IsEvent};
ghost use Rattle.nys_rules.specs.Events.{plain};
ghost use Rattle.nys_workload.specs.Drawn.{event_of, first_dice, next_dice, second_event};

use crate::generator::{draw, next_of};
use crate::kind::{Kind, kind_by};
use nys_bytes::{NoMemory, Payload};
use nys_rules::Event;
use std::alloc::Global;

/// What the generator keeps between two events.
#[derive(Clone, Copy, Debug, PartialEq, Eq)]
pub struct Dice {
    /// Its number.
    pub number: u64,
    /// How many inputs were drawn.
    pub inputs: u32,
}

impl Dice {
    /// The generator before the first event.
    pub fn new(seed: u64) -> Dice
        ensures { result ≡ first_dice seed }
    {
        Dice {
            number: seed,
            inputs: 0,
        }
    }

    /// The event with this number, drawn among so many hosts where the pool has so many packets.
    pub fn event(
        self,
        alloc: Global,
        hosts: u32,
        place: u32,
        packets: u32,
    ) -> Result<Event, NoMemory>
        requires hosts { 0 < hosts }
        requires place { place < 4294967295 }
        ensures event { IfOk result (λ event. plain event ≡ event_of hosts self place packets) }
        ensures fits { IfOk result (λ event. (liars : ℕ → Bool) → IsEvent hosts liars (plain event)) }
    {
        let (number, first) = draw(self.number, 64);
        match kind_by(self.inputs, first) {
            Kind::Input => input(alloc, number, hosts, place),
            Kind::Exchange => Ok(Event::Exchange),
            Kind::Flush => Ok(Event::Flush),
            Kind::One => Ok(one(number, hosts, packets)),
        }
    }

    /// The generator after an event.
    pub fn next(self) -> Dice
        ensures { result ≡ next_dice self }
    {
        let (number, first) = draw(self.number, 64);
        match kind_by(self.inputs, first) {
            Kind::Input => Dice {
                number: next_of(number),
                inputs: self.inputs + 1,
            },
            Kind::Exchange | Kind::Flush => Dice {
                number,
                inputs: self.inputs,
            },
            Kind::One => Dice {
                number: next_of(number),
                inputs: self.inputs,
            },
        }
    }
}

/// The number behind this one is handed to a host that is drawn.
fn input(alloc: Global, number: u64, hosts: u32, place: u32) -> Result<Event, NoMemory>
    requires hosts { 0 < hosts }
    requires place { place < 4294967295 }
    ensures event { IfOk result (λ event. plain event ≡ second_event hosts place 0 number Kind.Input) }
    ensures fits { IfOk result (λ event. (liars : ℕ → Bool) → IsEvent hosts liars (plain event)) }
{
    let (_, h) = draw(number, u64::from(hosts));
    let payload = payload(alloc, place + 1)?;
    Ok(Event::Input {
        h: h as u32,
        payload,
    })
}

/// A packet that is drawn is given, or where there is none a host that is drawn asks.
fn one(number: u64, hosts: u32, packets: u32) -> Event
    requires hosts { 0 < hosts }
    ensures event { plain result ≡ second_event hosts 0 packets number Kind.One }
    ensures fits { (liars : ℕ → Bool) → IsEvent hosts liars (plain result) }
{
    if packets == 0 {
        let (_, h) = draw(number, u64::from(hosts));
        Event::Ask { h: h as u32 }
    } else {
        let (_, k) = draw(number, u64::from(packets));
        Event::Deliver { k: k as u32 }
    }
}

/// The payload of one number.
fn payload(alloc: Global, number: u32) -> Result<Payload, NoMemory>
    ensures { IfOk result (λ payload. payload ≡ pos number ∷ []) }
{
    match Payload::new(alloc, &[i64::from(number)]) {
        Ok(payload) => Ok(payload),
        Err(_) => Err(NoMemory),
    }
}
