//! What a host does where it takes a payload: its new state, then its effects in order.

ghost use Rattle.std.specs.Prelude.{◌≡◌, ◌<◌, ◌≤◌, ℕ, Option, All, IfOk, OnOk, fold, length, slice_get, Some};
ghost use Rattle.nys_source.specs.Rules.{IsEffectOf};
ghost use Rattle.nys_source.specs.Steps.{after_effect, after_message, after_step, after_payload, counted, with_state};
ghost use Rattle.nys_source.specs.Held.{shown};

use crate::effect::{Effect, Stepped};
use crate::protocol::Protocol;
use crate::step::Step;
use crate::system::System;
use nys_bytes::{NoMemory, Payload};

impl<P: Protocol> System<P> {
    /// Host `h` takes a payload, from a neighbour or as an input.
    #[tactic(auto, unfolding(crate::specs::Steps::after_payload))]
    pub(super) fn take_payload(
        mut self,
        h: u32,
        from: Option<u32>,
        payload: &Payload,
    ) -> Result<System<P>, NoMemory>
        requires { h < (P.rules self.0).hosts }
        ensures protocol { IfOk result (λ s. s.0 ≡ self.0) }
        ensures taken { IfOk result (λ s. shown (P.rules self.0) s.1
            ≡ after_payload (P.rules self.0) (shown (P.rules self.0) self.1) h from payload.now) }
    {
        let made = self.made(h, from, payload)?;
        self.put_state(h, made.state);
        self.add_all(h, made.effects)
    }

    /// Host `h` takes the payload with the number `k` that `p` has sent it.
    pub(super) fn receive(mut self, h: u32, p: u32, k: u32) -> Result<System<P>, NoMemory>
        requires host { h < (P.rules self.0).hosts }
        requires sender { p < (P.rules self.0).hosts }
        requires sent { k < length ((shown (P.rules self.0) self.1).sent p h) }
        requires room { (shown (P.rules self.0) self.1).received p h < 4294967295 }
        ensures protocol { IfOk result (λ s. s.0 ≡ self.0) }
        ensures taken { IfOk result (λ s. shown (P.rules self.0) s.1
            ≡ after_message (P.rules self.0) (shown (P.rules self.0) self.1) h p
            (slice_get ((shown (P.rules self.0) self.1).sent p h) k)) }
    {
        let payload = self.payload(h, p, k)?;
        self.count(p, h);
        self.take_payload(h, Some(p), &payload)
    }

    /// A copy of the payload with the number `k` that `p` has sent to `h`.
    fn payload(&self, h: u32, p: u32, k: u32) -> Result<Payload, NoMemory>
        requires host { h < (P.rules self.now.0).hosts }
        requires sender { p < (P.rules self.now.0).hosts }
        requires sent { k < length ((shown (P.rules self.now.0) self.now.1).sent p h) }
        ensures { IfOk result (λ payload. slice_get ((shown (P.rules self.now.0) self.now.1).sent p h) k
            ≡ Some payload) }
    {
        self.sent(p, h)[k as usize].copy(self.alloc)
    }

    /// Counts one payload more that `h` has received of `p`.
    fn count(&mut self, p: u32, h: u32)
        requires sender { p < (P.rules self.old.0).hosts }
        requires host { h < (P.rules self.old.0).hosts }
        requires room { (shown (P.rules self.old.0) self.old.1).received p h < 4294967295 }
        ensures protocol { self.new.0 ≡ self.old.0 }
        ensures counted { shown (P.rules self.old.0) self.new.1
            ≡ counted (shown (P.rules self.old.0) self.old.1) p h }
    {
        let _hosts = self.hosts();
        self.received.count(p, h);
    }

    /// Host `h` stops.
    pub(super) fn stop(&mut self, h: u32)
        requires { h < (P.rules self.old.0).hosts }
        ensures protocol { self.new.0 ≡ self.old.0 }
        ensures stopped { shown (P.rules self.old.0) self.new.1
            ≡ after_step (P.rules self.old.0) (shown (P.rules self.old.0) self.old.1) (Step.Stop h) }
    {
        let _hosts = self.hosts();
        self.running.clear(h);
    }

    /// What the protocol makes of the payload at host `h`.
    fn made(
        &self,
        h: u32,
        from: Option<u32>,
        payload: &Payload,
    ) -> Result<Stepped<P::State>, NoMemory>
        requires { h < (P.rules self.now.0).hosts }
        ensures value { IfOk result (λ made. (made.state, made.effects.items)
            ≡ (P.rules self.now.0).next h
            ((shown (P.rules self.now.0) self.now.1).state h) from payload.now) }
        ensures allowed { IfOk result (λ made. All (IsEffectOf (P.rules self.now.0) h) made.effects.items) }
    {
        self.protocol
            .step(self.alloc, h, &self.states[h as usize], from, payload)
    }

    /// Gives host `h` another state.
    fn put_state(&mut self, h: u32, state: P::State)
        requires { h < (P.rules self.old.0).hosts }
        ensures protocol { self.new.0 ≡ self.old.0 }
        ensures state { shown (P.rules self.old.0) self.new.1
            ≡ with_state (shown (P.rules self.old.0) self.old.1) h state }
    {
        self.states[h as usize] = state;
    }

    /// Adds the effects of host `h`, in order.
    fn add_all(mut self, h: u32, effects: Vec<Effect>) -> Result<System<P>, NoMemory>
        requires host { h < (P.rules self.0).hosts }
        requires allowed { All (IsEffectOf (P.rules self.0) h) effects.items }
        ensures protocol { IfOk result (λ s. s.0 ≡ self.0) }
        ensures added { IfOk result (λ s. shown (P.rules self.0) s.1
            ≡ fold (after_effect h) (shown (P.rules self.0) self.1) effects.items) }
    {
        for effect in effects {
            self.add(h, effect)?;
        }
        Ok(self)
    }

    /// Adds one effect of host `h`.
    fn add(&mut self, h: u32, effect: Effect) -> Result<(), NoMemory>
        requires host { h < (P.rules self.old.0).hosts }
        requires allowed { IsEffectOf (P.rules self.old.0) h effect }
        ensures protocol { self.new.0 ≡ self.old.0 }
        ensures added { OnOk result (shown (P.rules self.old.0) self.new.1
            ≡ after_effect h (shown (P.rules self.old.0) self.old.1) effect) }
    {
        match effect {
            Effect::Send { to, payload } => self.send(h, to, payload),
            Effect::Out { payload } => self.output(h, payload),
        }
    }

    /// Adds a payload from `h` to its neighbour `to`, as the next message of the whole run.
    fn send(&mut self, h: u32, to: u32, payload: Payload) -> Result<(), NoMemory>
        requires host { h < (P.rules self.old.0).hosts }
        requires allowed { IsEffectOf (P.rules self.old.0) h (Effect.Send to payload) }
        ensures protocol { self.new.0 ≡ self.old.0 }
        ensures added { OnOk result (shown (P.rules self.old.0) self.new.1
            ≡ after_effect h (shown (P.rules self.old.0) self.old.1) (Effect.Send to payload)) }
    {
        let _hosts = self.hosts();
        self.sent.push(h, to, payload)?;
        self.messages.push((h, to))?;
        Ok(())
    }

    /// Adds an output of `h`.
    fn output(&mut self, h: u32, payload: Payload) -> Result<(), NoMemory>
        requires { h < (P.rules self.old.0).hosts }
        ensures protocol { self.new.0 ≡ self.old.0 }
        ensures added { OnOk result (shown (P.rules self.old.0) self.new.1
            ≡ after_effect h (shown (P.rules self.old.0) self.old.1) (Effect.Out payload)) }
    {
        let _hosts = self.hosts();
        self.outs.push(h, payload)?;
        Ok(())
    }
}
