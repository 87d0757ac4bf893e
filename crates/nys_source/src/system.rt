//! The source system, one step after another.

ghost use Rattle.std.specs.Prelude.{◌≡◌, ◌<◌, ◌≤◌, ℕ, Bool, Option, length, All, IfOk, IfNone, OnOk, IsSome, slice_get, Some};
ghost use Rattle.nys_hosts.specs.declared.limits.TheConstants.{MAX_HOSTS};
ghost use Rattle.nys_graph.specs.Links.{IsGraph};
ghost use Rattle.nys_source.specs.Tables.{at_each};
ghost use Rattle.nys_source.specs.Rules.{Rules, IsEffectOf};
ghost use Rattle.nys_source.specs.Source.{fresh};
ghost use Rattle.nys_source.specs.Steps.{after_effect, after_payload, after_step, counted, host_refusal, refusal};
ghost use Rattle.nys_source.specs.Held.{Held, shown, AreHosts, HasRoom, IsAnswer};

mod payloads;
mod refusing;

use crate::protocol::Protocol;
use crate::step::{NotAStep, Step};
use crate::tables::{HostFlags, HostPayloads, LinkNumbers, LinkPayloads};
use nys_bytes::{NoMemory, Payload};
use std::alloc::Global;
use std::marker::Model;

/// All hosts and links of the source system. Contracts see it as its protocol and its lists, which
/// stand for the system that `shown` makes of them.
#[derive(Drop)]
pub struct System<P: Protocol> {
    alloc: Global,
    protocol: P,
    states: Vec<P::State>,
    running: HostFlags,
    outs: HostPayloads,
    sent: LinkPayloads,
    received: LinkNumbers,
    messages: Vec<(u32, u32)>,
}

impl<P: Protocol> Model for System<P> {
    ghost Value = { P × Held P.State };

    ghost view = { λ s.
        (s.protocol, record { states = s.states.items; running = s.running; outs = s.outs; sent = s.sent; received = s.received; messages = s.messages.items }) };

    ghost invariant = { λ s. (length s.states.items ≡ (P.rules s.protocol).hosts)
        × All (AreHosts (P.rules s.protocol).hosts) s.messages.items };
}

impl<P: Protocol> System<P> {
    /// The system at the beginning.
    pub fn new(alloc: Global, protocol: P) -> Result<System<P>, NoMemory>
        ensures protocol { IfOk result (λ s. s.0 ≡ protocol) }
        ensures system { IfOk result (λ s. shown (P.rules protocol) s.1 ≡ fresh (P.rules protocol)) }
    {
        let states = begin(alloc, &protocol)?;
        let running = HostFlags::new();
        let outs = HostPayloads::new(alloc)?;
        let sent = LinkPayloads::new(alloc)?;
        let received = LinkNumbers::new(alloc)?;
        let messages = Vec::new(alloc);
        Ok(System {
            alloc,
            protocol,
            states,
            running,
            outs,
            sent,
            received,
            messages,
        })
    }

    /// Why something is no step here: the first failing test in the order of `NotAStep`.
    pub fn refusal(&self, step: &Step) -> Option<NotAStep>
        ensures { result ≡ refusal (P.rules self.now.0) (shown (P.rules self.now.0) self.now.1) step.now }
    {
        match step {
            Step::Input { h, .. } => self.refuse_host(*h),
            Step::Receive { h, p, k } => self.refuse_receive(*h, *p, *k),
            Step::Stop { h } => self.refuse_host(*h),
        }
    }

    /// Takes a step, or says why it is none: the first failing test in the order of `NotAStep`. A
    /// refused step gives the system up.
    pub fn take(self, step: &Step) -> Result<System<P>, NotAStep>
        requires { HasRoom (shown (P.rules self.0) self.1) step.now }
        ensures { IsAnswer (P.rules self.0) self step.now result }
    {
        match step {
            Step::Input { h, payload } => self.take_input(*h, payload),
            Step::Receive { h, p, k } => self.take_receive(*h, *p, *k),
            Step::Stop { h } => self.take_stop(*h),
        }
    }

    fn take_input(self, h: u32, payload: &Payload) -> Result<System<P>, NotAStep>
        ensures { IsAnswer (P.rules self.0) self (Step.Input h payload.now) result }
    {
        if let Some(why) = self.refuse_host(h) {
            return Err(why);
        }
        match self.take_payload(h, None, payload) {
            Ok(after) => Ok(after),
            Err(_) => Err(NotAStep::NoMemory),
        }
    }

    fn take_receive(self, h: u32, p: u32, k: u32) -> Result<System<P>, NotAStep>
        requires { HasRoom (shown (P.rules self.0) self.1) (Step.Receive h p k) }
        ensures { IsAnswer (P.rules self.0) self (Step.Receive h p k) result }
    {
        if let Some(why) = self.refuse_receive(h, p, k) {
            return Err(why);
        }
        match self.receive(h, p, k) {
            Ok(after) => Ok(after),
            Err(_) => Err(NotAStep::NoMemory),
        }
    }

    fn take_stop(mut self, h: u32) -> Result<System<P>, NotAStep>
        ensures { IsAnswer (P.rules self.0) self (Step.Stop h) result }
    {
        if let Some(why) = self.refuse_host(h) {
            return Err(why);
        }
        self.stop(h);
        Ok(self)
    }

    /// Whether host `h` runs.
    pub fn running(&self, h: u32) -> bool
        requires { h < (P.rules self.now.0).hosts }
        ensures { result ≡ (shown (P.rules self.now.0) self.now.1).running h }
    {
        let _hosts = self.protocol.graph().hosts();
        self.running.of(h)
    }

    /// The numbers that show the state of host `h`.
    pub fn view(&self, h: u32) -> Result<Vec<i64>, NoMemory>
        requires { h < (P.rules self.now.0).hosts }
        ensures { IfOk result (λ numbers. numbers.items
            ≡ (P.rules self.now.0).view ((shown (P.rules self.now.0) self.now.1).state h)) }
    {
        self.protocol.view(self.alloc, &self.states[h as usize])
    }

    /// The outputs of host `h`, in order.
    pub fn outs(&self, h: u32) -> &[Payload]
        requires { h < (P.rules self.now.0).hosts }
        ensures { result.now ≡ (shown (P.rules self.now.0) self.now.1).outs h }
    {
        let _hosts = self.protocol.graph().hosts();
        self.outs.of(h)
    }

    /// What `p` has sent to `h`, in order.
    pub fn sent(&self, p: u32, h: u32) -> &[Payload]
        requires sender { p < (P.rules self.now.0).hosts }
        requires receiver { h < (P.rules self.now.0).hosts }
        ensures { result.now ≡ (shown (P.rules self.now.0) self.now.1).sent p h }
    {
        let _hosts = self.protocol.graph().hosts();
        self.sent.of(p, h)
    }

    /// How many payloads of `p` host `h` has received.
    pub fn received(&self, p: u32, h: u32) -> u32
        requires sender { p < (P.rules self.now.0).hosts }
        requires receiver { h < (P.rules self.now.0).hosts }
        ensures { result ≡ (shown (P.rules self.now.0) self.now.1).received p h }
    {
        let _hosts = self.protocol.graph().hosts();
        self.received.of(p, h)
    }

    /// The sender and the receiver of each message of the whole run, in order of sending.
    pub fn messages(&self) -> &[(u32, u32)]
        ensures value { result.now ≡ (shown (P.rules self.now.0) self.now.1).messages }
        ensures hosts { All (AreHosts (P.rules self.now.0).hosts) self.now.1.messages }
    {
        self.messages.as_slice()
    }

    /// The number of hosts, at most `MAX_HOSTS`.
    pub fn hosts(&self) -> u32
        ensures hosts { result ≡ (P.rules self.now.0).hosts }
        ensures few { (P.rules self.now.0).hosts ≤ MAX_HOSTS }
        ensures shape { IsGraph (P.rules self.now.0).hosts (P.rules self.now.0).linked }
    {
        self.protocol.graph().hosts()
    }
}

/// The states in which the hosts begin.
fn begin<P: Protocol>(alloc: Global, protocol: &P) -> Result<Vec<P::State>, NoMemory>
    ensures count { IfOk result (λ states. length states.items ≡ (P.rules protocol.now).hosts) }
    ensures states { IfOk result (λ states. at_each (P.rules protocol.now).start states.items
        ≡ (P.rules protocol.now).start) }
{
    let mut states = Vec::new(alloc);
    for h in 0..protocol.graph().hosts() {
        states.push(protocol.start(alloc, h)?)?;
    }
    Ok(states)
}
