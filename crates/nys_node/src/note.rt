//! What a node does with an accepted record: what it does at once, and what it notes.

ghost use Rattle.std.specs.Prelude.{◌≡◌, ◌<◌, ℕ, length, OnOk};
ghost use Rattle.nys_node.specs.Handling.{CanActBy, CanNoteBody, CanNoteFilled};
ghost use Rattle.nys_node.specs.Means.{HasView, Known, Means};
ghost use Rattle.nys_config.specs.Scopes.{scope_in};
ghost use Rattle.nys_config.specs.Config.{IsConfig};
ghost use Rattle.nys_rules.specs.Handling.{acts_by_body};
ghost use Rattle.nys_rules.specs.Noting.{noted_body};
ghost use Rattle.nys_rules.specs.Packets.{joined};
ghost use Rattle.nys_rules.specs.View.{View};
ghost use Rattle.nys_hosts.specs.declared.limits.TheConstants.{MAX_HOSTS};

use crate::node::Node;
use nys_bytes::{Content, NoMemory};
use nys_config::Config;
use nys_sending::outbox::Outbox;
use nys_source::Protocol;
use nys_stmt::{Body, FilledKind, Statement, Tags};
use std::alloc::Global;

impl<P: Protocol> Node<P> {
    /// What the node does at once by an accepted record: it answers a question, tells what it knows where the
    /// epoch ends, or logs what it inherits.
    pub(crate) fn act(
        &self,
        alloc: Global,
        cx: &Config<P>,
        body: &Body,
        makers: &[Tags],
        out: &mut Outbox,
    ) -> Result<(), NoMemory>
        requires config { IsConfig (P.rules cx.now.protocol).hosts cx.now }
        requires means { HasView (scope_in P.rules cx.now) self.now }
        requires ready { CanActBy (scope_in P.rules cx.now) self.now body.now }
        ensures { OnOk result (Known (scope_in P.rules cx.now) self.now (λ v.
            out.new ≡ joined out.old (acts_by_body (scope_in P.rules cx.now) v body.now
            makers.now))) }
    {
        match body {
            Body::Filled { kind, h, .. } => self.act_filled(*kind, *h, out),
            Body::Attest { .. } => Ok(()),
            Body::Ask { h, slot } => self.answer_all(alloc, cx, *h, *slot, makers, out),
            Body::Wedge => self.report_all(alloc, cx, out),
            Body::Frozen { .. } => Ok(()),
            Body::Open { .. } => Ok(()),
        }
    }

    /// What makers say of a content.
    fn note_filled(
        &mut self,
        alloc: Global,
        cx: &Config<P>,
        kind: FilledKind,
        h: u32,
        content: &Content,
        makers: Vec<Tags>,
    ) -> Result<(), NoMemory>
        requires config { IsConfig (P.rules cx.now.protocol).hosts cx.now }
        requires host { h < MAX_HOSTS }
        requires rows { length self.old.desks.items ≡ MAX_HOSTS }
        requires ready { CanNoteFilled (scope_in P.rules cx.now) self.old kind h
            content.now makers.items }
        ensures { OnOk result ((v : View) (e slot : ℕ)
            → Means (scope_in P.rules cx.now) self.old v
            → Means (scope_in P.rules cx.now) self.new (noted_body (scope_in P.rules cx.now) e
            (Body.Filled kind h slot content.now) makers.items v)) }
    {
        match kind {
            FilledKind::Offer => self.note_offer(alloc, h, content),
            FilledKind::Order => self.note_order(alloc, cx, h, content, makers),
            FilledKind::Deliver => self.note_votes(alloc, h, content, makers),
            FilledKind::Report => Ok(()),
            FilledKind::Inherit => self.note_entry(alloc, cx, h, content),
        }
    }

    /// What an accepted record of these makers changes at the node. Want of memory may leave it half
    /// done; the node is given up then.
    pub(crate) fn note(
        &mut self,
        alloc: Global,
        cx: &Config<P>,
        statement: &Statement,
        makers: Vec<Tags>,
    ) -> Result<(), NoMemory>
        requires config { IsConfig (P.rules cx.now.protocol).hosts cx.now }
        requires rows { length self.old.desks.items ≡ MAX_HOSTS }
        requires ready { CanNoteBody (scope_in P.rules cx.now) self.old
            statement.now.epoch statement.now.body makers.items }
        ensures { OnOk result ((v : View) → Means (scope_in P.rules cx.now) self.old v
            → Means (scope_in P.rules cx.now) self.new
            (noted_body (scope_in P.rules cx.now) statement.now.epoch statement.now.body
            makers.items v)) }
    {
        match &statement.body {
            Body::Filled {
                kind,
                h,
                content,
                ..
            } => self.note_filled(alloc, cx, *kind, *h, content, makers),
            Body::Attest { p, h, k, payload } => {
                self.note_attests(cx, *p, *h, *k, payload, makers.as_slice())
            }
            Body::Ask { .. } => Ok(()),
            Body::Wedge => {
                self.note_wedge();
                Ok(())
            }
            Body::Frozen { .. } => Ok(()),
            Body::Open { lengths } => self.note_open(alloc, cx, statement.epoch, lengths),
        }
    }
}
