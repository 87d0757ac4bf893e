//! What a replica makes of a content: the new state, then the effects in order.

ghost use Rattle.std.specs.Prelude.{◌≡◌, ◌<◌, ◌+◌, ℕ, All, fold, IfOk, OnOk};
ghost use Rattle.nys_source.specs.Rules.{IsEffectOf, Rules};
ghost use Rattle.nys_source.specs.Source.{Source};
ghost use Rattle.nys_source.specs.Steps.{after_effect, after_payload, counted};
ghost use Rattle.nys_source.specs.Tables.{at_each};
ghost use Rattle.nys_agreement.specs.Alone.{after_content};
ghost use Rattle.nys_replica.specs.Packing.{IsPacked};
ghost use Rattle.nys_replica.specs.Stands.{Holds};
ghost use Rattle.nys_replica.specs.Taking.{HasRoom, HasState, IsNear};
ghost use Rattle.nys_hosts.specs.declared.limits.TheConstants.{MAX_HOSTS};

use crate::packing::unpack;
use crate::replica::{Replica, hosts_of, packed_state};
use nys_bytes::{Content, NoMemory, Payload};
use nys_source::{Effect, Protocol, Stepped};
use std::alloc::Global;

impl<P: Protocol> Replica<P> {
    /// The replica after its host has taken the content, which isn't among its entries yet.
    pub(super) fn take(
        mut self,
        alloc: Global,
        protocol: &P,
        content: &Content,
    ) -> Result<Replica<P>, NoMemory>
        requires host { self.h < (P.rules protocol.now).hosts }
        requires state { HasState (P.rules protocol.now) (P.is_state protocol.now) self }
        requires room { HasRoom self content.now }
        ensures entries { IfOk result (λ r. r.entries ≡ self.entries) }
        ensures holds { IfOk result (λ r. (h : ℕ) (system : Source P.State)
            → Holds (P.rules protocol.now) h self system
            → Holds (P.rules protocol.now) h r (after_content (P.rules protocol.now) h system content.now)) }
    {
        match content {
            Content::External { payload } => self.take_payload(alloc, protocol, None, payload),
            Content::Message { p, payload, .. } => {
                self.received.count(*p);
                self.take_payload(alloc, protocol, Some(*p), payload)
            }
        }
    }

    /// The replica after its host has taken a payload, from a neighbour or as an input.
    #[tactic(auto, unfolding(nys_source::specs::Steps::after_payload))]
    fn take_payload(
        mut self,
        alloc: Global,
        protocol: &P,
        from: Option<u32>,
        payload: &Payload,
    ) -> Result<Replica<P>, NoMemory>
        requires host { self.h < (P.rules protocol.now).hosts }
        requires state { HasState (P.rules protocol.now) (P.is_state protocol.now) self }
        ensures entries { IfOk result (λ r. r.entries ≡ self.entries) }
        ensures holds { IfOk result (λ r. (h : ℕ) (system : Source P.State)
            → Holds (P.rules protocol.now) h self system
            → Holds (P.rules protocol.now) h r
            (after_payload (P.rules protocol.now) system h from payload.now)) }
    {
        let _hosts = hosts_of(protocol);
        let made = self.made(alloc, protocol, from, payload)?;
        self.packed = packed_state(alloc, protocol, &made.state)?;
        self.add_all(made.effects)
    }

    /// The state, of which the replica has the numbers.
    fn state(&self, alloc: Global, protocol: &P) -> Result<P::State, NoMemory>
        requires host { self.now.h < (P.rules protocol.now).hosts }
        requires state { HasState (P.rules protocol.now) (P.is_state protocol.now) self.now }
        ensures { IfOk result (λ state. (shown : P.State)
            → IsPacked self.now.packed.items ((P.rules protocol.now).view shown) → state ≡ shown) }
    {
        let numbers = unpack(alloc, self.packed.as_slice())?;
        match protocol.from_view(alloc, self.h, numbers.as_slice())? {
            Some(state) => Ok(state),
            None => unreachable!(),
        }
    }

    /// What the protocol makes of the payload.
    fn made(
        &self,
        alloc: Global,
        protocol: &P,
        from: Option<u32>,
        payload: &Payload,
    ) -> Result<Stepped<P::State>, NoMemory>
        requires host { self.now.h < (P.rules protocol.now).hosts }
        requires state { HasState (P.rules protocol.now) (P.is_state protocol.now) self.now }
        ensures value { IfOk result (λ made. (state : P.State)
            → IsPacked self.now.packed.items ((P.rules protocol.now).view state)
            → (made.state, made.effects.items)
            ≡ (P.rules protocol.now).next self.now.h state from payload.now) }
        ensures allowed { IfOk result (λ made. All
            (IsEffectOf (P.rules protocol.now) self.now.h) made.effects.items) }
    {
        let state = self.state(alloc, protocol)?;
        protocol.step(alloc, self.h, &state, from, payload)
    }

    /// Adds the effects, in order.
    fn add_all(mut self, effects: Vec<Effect>) -> Result<Replica<P>, NoMemory>
        requires { All IsNear effects.items }
        ensures entries { IfOk result (λ r. r.entries ≡ self.entries) }
        ensures holds { IfOk result (λ r. (rules : Rules P.State) (h : ℕ) (system : Source P.State)
            → Holds rules h self system
            → Holds rules h r (fold (after_effect h) system effects.items)) }
    {
        for effect in effects {
            self.add(effect)?;
        }
        Ok(self)
    }

    /// Adds one effect.
    fn add(&mut self, effect: Effect) -> Result<(), NoMemory>
        requires { IsNear effect }
        ensures entries { self.new.entries ≡ self.old.entries }
        ensures holds { OnOk result ((rules : Rules P.State) (h : ℕ) (system : Source P.State)
            → Holds rules h self.old system
            → Holds rules h self.new (after_effect h system effect)) }
    {
        match effect {
            Effect::Send { to, payload } => self.add_sent(to, payload),
            Effect::Out { payload } => self.add_out(payload),
        }
    }

    /// Adds a payload that was sent to a neighbour.
    fn add_sent(&mut self, to: u32, payload: Payload) -> Result<(), NoMemory>
        requires { to < MAX_HOSTS }
        ensures entries { self.new.entries ≡ self.old.entries }
        ensures holds { OnOk result ((rules : Rules P.State) (h : ℕ) (system : Source P.State)
            → Holds rules h self.old system
            → Holds rules h self.new (after_effect h system (Effect.Send to payload))) }
    {
        self.sent.push(to, payload)
    }

    /// Adds an output.
    fn add_out(&mut self, payload: Payload) -> Result<(), NoMemory>
        ensures entries { self.new.entries ≡ self.old.entries }
        ensures holds { OnOk result ((rules : Rules P.State) (h : ℕ) (system : Source P.State)
            → Holds rules h self.old system
            → Holds rules h self.new (after_effect h system (Effect.Out payload))) }
    {
        self.outs.push(payload)?;
        Ok(())
    }
}
