//! What a node says of its epoch: to the guards of a host, to a host alone, to the Olympus.

ghost use Rattle.std.specs.Prelude.{◌≡◌, ◌≤◌, IfOk, OnOk};
ghost use Rattle.nys_node.specs.Means.{Known};
ghost use Rattle.nys_node.specs.Ready.{CanSay};
ghost use Rattle.nys_sending.specs.Receivers.{AreReceivers};
ghost use Rattle.nys_config.specs.Scopes.{scope_in};
ghost use Rattle.nys_rules.specs.Packets.{joined};
ghost use Rattle.nys_rules.specs.Sending.{guards_at, made_for, said_in, tags_for, to_guards, to_olympus};
ghost use Rattle.nys_rules.specs.Taking.{own_tags};
ghost use Rattle.nys_rules.specs.View.{length_of};
ghost use Rattle.nys_stmt.specs.Ranges.{IsInRange};

use crate::node::Node;
use nys_bytes::{Content, NoMemory};
use nys_config::Config;
use nys_mac::LAST_PARTY;
use nys_sending::outbox::Outbox;
use nys_sending::sending::{guard_list, tags_for};
use nys_source::Protocol;
use nys_stmt::{Body, FilledKind, Statement, TagList};
use std::alloc::Global;

impl<P: Protocol> Node<P> {
    /// The guards of a host in the epoch of the node, rising.
    pub(crate) fn guards(&self, alloc: Global, cx: &Config<P>, h: u32) -> Result<Vec<u32>, NoMemory>
        ensures value { IfOk result (λ guards. Known (scope_in P.rules cx.now) self.now (λ v.
            guards.items ≡ guards_at (scope_in P.rules cx.now) v h)) }
        ensures rule { IfOk result (λ guards. AreReceivers guards.items) }
    {
        guard_list(alloc, cx, self.epoch, h)
    }

    /// A statement of the epoch of the node.
    pub(crate) fn say(&self, body: Body) -> Statement
        ensures { result ≡ said_in self.now.epoch body }
    {
        Statement {
            epoch: self.epoch,
            body,
        }
    }

    /// Its tags for the guards of a host on its statement.
    fn own_tags(
        &self,
        alloc: Global,
        cx: &Config<P>,
        h: u32,
        statement: &Statement,
    ) -> Result<TagList, NoMemory>
        requires me { self.now.me ≤ LAST_PARTY }
        requires range { IsInRange statement.now }
        ensures { IfOk result (λ tags. Known (scope_in P.rules cx.now) self.now (λ v.
            tags ≡ tags_for (scope_in P.rules cx.now) v.me statement.now
            (guards_at (scope_in P.rules cx.now) v h))) }
    {
        let guards = self.guards(alloc, cx, h)?;
        tags_for(alloc, cx, self.me, statement, guards.as_slice())
    }

    /// The node says a content in the open slot of a host: it makes a statement with a tag for each guard of
    /// the host, and sends it to some of them. The answer is the tags.
    pub(crate) fn say_filled(
        &self,
        alloc: Global,
        cx: &Config<P>,
        kind: FilledKind,
        h: u32,
        content: &Content,
        sent_to: &[u32],
        out: &mut Outbox,
    ) -> Result<TagList, NoMemory>
        requires ready { CanSay (scope_in P.rules cx.now) self.now kind h content.now
            sent_to.now }
        ensures tags { IfOk result (λ tags. Known (scope_in P.rules cx.now) self.now (λ v.
            tags ≡ own_tags (scope_in P.rules cx.now) v h (Body.Filled kind h (length_of v h) content.now))) }
        ensures out { OnOk result (Known (scope_in P.rules cx.now) self.now (λ v.
            out.new ≡ joined out.old (made_for (scope_in P.rules cx.now) v.me
            (said_in v.epoch (Body.Filled kind h (length_of v h) content.now))
            (guards_at (scope_in P.rules cx.now) v h) sent_to.now))) }
    {
        let content = content.copy(alloc)?;
        let slot = self.log_len(h);
        let statement = self.say(Body::Filled {
            kind,
            h,
            slot,
            content,
        });
        let tags = self.own_tags(alloc, cx, h, &statement)?;
        let kept = tags.copy(alloc)?;
        out.make_with(alloc, self.me, statement, tags, sent_to)?;
        Ok(kept)
    }

    /// The node makes a statement of its epoch to the guards of a host.
    pub(crate) fn tell_guards(
        &self,
        alloc: Global,
        cx: &Config<P>,
        h: u32,
        body: Body,
        out: &mut Outbox,
    ) -> Result<(), NoMemory>
        requires me { self.now.me ≤ LAST_PARTY }
        requires range { IsInRange (said_in self.now.epoch body) }
        ensures { OnOk result (Known (scope_in P.rules cx.now) self.now (λ v.
            out.new ≡ joined out.old (to_guards (scope_in P.rules cx.now) v h body))) }
    {
        let guards = self.guards(alloc, cx, h)?;
        out.announce(alloc, cx, self.me, self.say(body), guards.as_slice())
    }

    /// The node makes a statement of its epoch to the Olympus.
    pub(crate) fn tell_olympus(
        &self,
        alloc: Global,
        cx: &Config<P>,
        body: Body,
        out: &mut Outbox,
    ) -> Result<(), NoMemory>
        requires me { self.now.me ≤ LAST_PARTY }
        requires range { IsInRange (said_in self.now.epoch body) }
        ensures { OnOk result (Known (scope_in P.rules cx.now) self.now (λ v.
            out.new ≡ joined out.old (to_olympus (scope_in P.rules cx.now) v body))) }
    {
        out.to_olympus(alloc, cx, self.me, self.say(body))
    }
}
