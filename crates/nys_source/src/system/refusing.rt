//! Why something is no step where it stands: the first failing test.

ghost use Rattle.std.specs.Prelude.{◌≡◌, ◌<◌, Option, IfNone, slice_get};
ghost use Rattle.nys_source.specs.Steps.{host_refusal, number_refusal, refusal};
ghost use Rattle.nys_source.specs.Held.{shown};

use crate::protocol::Protocol;
use crate::step::{NotAStep, Step};
use crate::system::System;

impl<P: Protocol> System<P> {
    /// Why host `h` takes no step at all.
    pub(super) fn refuse_host(&self, h: u32) -> Option<NotAStep>
        ensures test { result ≡ host_refusal (P.rules self.now.0) (shown (P.rules self.now.0) self.now.1) h }
        ensures host { IfNone result (h < (P.rules self.now.0).hosts) }
    {
        if h >= self.hosts() {
            return Some(NotAStep::NoHost(h));
        }
        if !self.running(h) {
            return Some(NotAStep::Stopped(h));
        }
        None
    }

    /// Why host `h` doesn't receive payload `k` of `p`.
    pub(super) fn refuse_receive(&self, h: u32, p: u32, k: u32) -> Option<NotAStep>
        ensures test { result ≡ refusal (P.rules self.now.0) (shown (P.rules self.now.0) self.now.1)
            (Step.Receive h p k) }
        ensures host { IfNone result (h < (P.rules self.now.0).hosts) }
        ensures sender { IfNone result (p < (P.rules self.now.0).hosts) }
    {
        if h >= self.hosts() {
            return Some(NotAStep::NoHost(h));
        }
        if p >= self.hosts() {
            return Some(NotAStep::NoHost(p));
        }
        if !self.running(h) {
            return Some(NotAStep::Stopped(h));
        }
        if !self.linked(p, h) {
            return Some(NotAStep::NotNeighbour(p, h));
        }
        self.refuse_number(h, p, k)
    }

    /// Why number `k` of `p` isn't what host `h` receives next.
    fn refuse_number(&self, h: u32, p: u32, k: u32) -> Option<NotAStep>
        requires host { h < (P.rules self.now.0).hosts }
        requires sender { p < (P.rules self.now.0).hosts }
        ensures { result ≡ number_refusal (shown (P.rules self.now.0) self.now.1) h p k
            (slice_get ((shown (P.rules self.now.0) self.now.1).sent p h) k) }
    {
        if self.sent(p, h).get(k as usize).is_none() {
            return Some(NotAStep::NothingSent(p, h, k));
        }
        if k != self.received(p, h) {
            return Some(NotAStep::NothingSent(p, h, k));
        }
        None
    }

    /// Whether two hosts are neighbours.
    fn linked(&self, p: u32, h: u32) -> bool
        requires sender { p < (P.rules self.now.0).hosts }
        requires host { h < (P.rules self.now.0).hosts }
        ensures { result ≡ (P.rules self.now.0).linked p h }
    {
        self.protocol.graph().linked(p, h)
    }
}
