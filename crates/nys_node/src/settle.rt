//! A node takes the first rule that is due, and the next, until none is.

ghost use Rattle.std.specs.Prelude.{◌≡◌, ◌<◌, IfOk, OnOk};
ghost use Rattle.nys_node.specs.Means.{IsMeant, Known, Means, HasView, IsViewOf};
ghost use Rattle.nys_config.specs.Scopes.{scope_in};
ghost use Rattle.nys_config.specs.Config.{IsConfig};
ghost use Rattle.nys_rules.specs.Rules.{due, due_at};
ghost use Rattle.nys_node.specs.Ready.{IsReady};
ghost use Rattle.nys_node.specs.Sound.{IsScope};
ghost use Rattle.nys_rules.specs.Packets.{joined};
ghost use Rattle.nys_rules.specs.Taking.{acts_of, taken};
ghost use Rattle.nys_rules.specs.View.{View};
ghost use Rattle.nys_node.specs.Settled.{HasSettled};

use crate::node::Node;
use nys_bytes::NoMemory;
use nys_config::Config;
use nys_hosts::MAX_HOSTS;
use nys_rules::Rule;
use nys_sending::outbox::Outbox;
use nys_source::Protocol;
use std::alloc::Global;

/// Tells that a configuration that may be taken keeps numbers in their ranges; does nothing.
fn known_scope<P: Protocol>(cx: &Config<P>)
    requires { IsConfig (P.rules cx.now.protocol).hosts cx.now }
    ensures { IsScope (scope_in P.rules cx.now) }
{
    let _hosts = cx.protocol.graph().hosts();
}

impl<P: Protocol> Node<P> {
    /// The first rule that is enabled for a host.
    fn due_at(&self, alloc: Global, cx: &Config<P>, h: u32) -> Result<Option<Rule>, NoMemory>
        requires host { h < MAX_HOSTS }
        requires config { IsConfig (P.rules cx.now.protocol).hosts cx.now }
        requires meant { IsMeant (scope_in P.rules cx.now) self.now }
        ensures { IfOk result (λ found. Known (scope_in P.rules cx.now) self.now (λ v.
            found ≡ due_at (scope_in P.rules cx.now) v h)) }
    {
        if let Some(offer) = self.to_offer(alloc, cx, h)? {
            return Ok(Some(Rule::Offer { h, content: offer }));
        }
        if let Some(order) = self.to_order(alloc, cx, h)? {
            return Ok(Some(Rule::Order { h, content: order }));
        }
        if let Some(certified) = self.to_certify(alloc, cx, h)? {
            return Ok(Some(Rule::Certificate {
                h,
                content: certified,
            }));
        }
        if let Some(vote) = self.to_deliver(alloc, cx, h)? {
            return Ok(Some(Rule::Deliver { h, content: vote }));
        }
        if let Some(entry) = self.to_log(alloc, cx, h)? {
            return Ok(Some(Rule::Log { h, content: entry }));
        }
        self.due_links(alloc, cx, h)
    }

    /// The rule that the node takes next.
    pub(crate) fn due(&self, alloc: Global, cx: &Config<P>) -> Result<Option<Rule>, NoMemory>
        requires config { IsConfig (P.rules cx.now.protocol).hosts cx.now }
        requires meant { IsMeant (scope_in P.rules cx.now) self.now }
        ensures { IfOk result (λ found. Known (scope_in P.rules cx.now) self.now (λ v.
            found ≡ due (scope_in P.rules cx.now) v)) }
    {
        for h in 0..MAX_HOSTS as u32 {
            if let Some(rule) = self.due_at(alloc, cx, h)? {
                return Ok(Some(rule));
            }
        }
        Ok(None)
    }

    /// The node takes a rule that is enabled.
    pub(crate) fn take(
        &mut self,
        alloc: Global,
        cx: &Config<P>,
        rule: Rule,
        out: &mut Outbox,
    ) -> Result<(), NoMemory>
        requires scope { IsScope (scope_in P.rules cx.now) }
        requires ready { IsReady (scope_in P.rules cx.now) self.old rule }
        ensures node { OnOk result ((v : View) → Means (scope_in P.rules cx.now) self.old v
            → Means (scope_in P.rules cx.now) self.new (taken (scope_in P.rules cx.now) v rule)) }
        ensures out { OnOk result ((v : View) → Means (scope_in P.rules cx.now) self.old v
            → out.new ≡ joined out.old (acts_of (scope_in P.rules cx.now) v rule)) }
    {
        match rule {
            Rule::Offer { h, content } => self.take_offer(alloc, cx, h, content, out),
            Rule::Order { h, content } => self.take_order(alloc, cx, h, content, out),
            Rule::Certificate { h, content } => self.take_certificate(alloc, cx, h, content, out),
            Rule::Deliver { h, content } => self.take_deliver(alloc, cx, h, content, out),
            Rule::Log { h, content } => self.take_log(alloc, cx, h, content, out),
            Rule::Attest { p, h, k, payload } => {
                self.take_attest(alloc, cx, p, h, k, payload, out)
            }
        }
    }

    /// The node takes the rule that is due, and the next, until none is. Want of memory gives the node up.
    pub(crate) fn settle(
        &mut self,
        alloc: Global,
        cx: &Config<P>,
        out: &mut Outbox,
    ) -> Result<(), NoMemory>
        requires config { IsConfig (P.rules cx.now.protocol).hosts cx.now }
        requires view { HasView (scope_in P.rules cx.now) self.old }
        ensures { OnOk result ((v : View) → IsViewOf (scope_in P.rules cx.now) self.old v
            → HasSettled (scope_in P.rules cx.now) self.new v out.old out.new) }
    {
        known_scope(cx);
        while let Some(rule) = self.due(alloc, cx)? {
            self.take(alloc, cx, rule, out)?;
        }
        Ok(())
    }
}
