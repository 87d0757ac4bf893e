//! The rule Deliver: a guard votes for what was certified, or for what enough others vote.

ghost use Rattle.std.specs.Prelude.{◌≡◌, ◌<◌, IfOk, length, option_copied, OnOk, All};
ghost use Rattle.std.specs.Option.{option_or};
ghost use Rattle.nys_node.specs.Means.{IsMeant, Known, Means};
ghost use Rattle.nys_config.specs.Scopes.{scope_in};
ghost use Rattle.nys_config.specs.Config.{IsConfig};
ghost use Rattle.nys_rules.specs.Rules.{ordered_content, to_deliver};
ghost use Rattle.nys_rules.specs.Scope.{Scope};
ghost use Rattle.nys_votes.specs.Delivered.{backed, voted_by};
ghost use Rattle.nys_hosts.specs.declared.limits.TheConstants.{MAX_HOSTS};
ghost use Rattle.nys_node.specs.Ready.{IsReady};
ghost use Rattle.nys_node.specs.Sound.{IsScope};
ghost use Rattle.nys_rules.specs.Packets.{joined};
ghost use Rattle.nys_rules.specs.Taking.{acts_of, taken, with_deliver};
ghost use Rattle.nys_rules.specs.View.{View};
ghost use Rattle.nys_rules.specs.Noting.{at_desk, with_votes};
ghost use Rattle.nys_source.specs.Tables.{put};
ghost use Rattle.nys_desk.specs.Makers.{IsHost};

use crate::node::Node;
use crate::reading::copied;
use nys_bytes::{Content, NoMemory};
use nys_config::{Config, threshold};
use nys_rules::Rule;
use nys_sending::outbox::Outbox;
use nys_source::Protocol;
use nys_stmt::{FilledKind, TagList, Tags};
use std::alloc::Global;

impl<P: Protocol> Node<P> {
    /// Of the contents that `n` makers or more voted to deliver, that of the lowest maker.
    pub(crate) fn voted_by(&self, h: u32, n: u32) -> Option<&Content>
        requires host { h < MAX_HOSTS }
        requires rows { length self.now.desks.items ≡ MAX_HOSTS }
        ensures { (scope : Scope P.State) → Known scope self.now (λ v.
            option_copied result ≡ voted_by n (v.desks h).votes) }
    {
        self.desk(h).voted_by(n)
    }

    /// The content for which more makers voted than may lie.
    fn backed(&self, cx: &Config<P>, h: u32) -> Option<&Content>
        requires host { h < MAX_HOSTS }
        requires config { IsConfig (P.rules cx.now.protocol).hosts cx.now }
        requires meant { IsMeant (scope_in P.rules cx.now) self.now }
        ensures { Known (scope_in P.rules cx.now) self.now (λ v.
            option_copied result ≡ backed ((scope_in P.rules cx.now).t v.epoch h) (v.desks h).votes) }
    {
        self.voted_by(h, threshold(cx, self.epoch, h) + 1)
    }

    /// The content that is ordered, else the one for which more makers voted than may lie.
    fn ordered_or_backed(&self, cx: &Config<P>, h: u32) -> Option<&Content>
        requires host { h < MAX_HOSTS }
        requires config { IsConfig (P.rules cx.now.protocol).hosts cx.now }
        requires meant { IsMeant (scope_in P.rules cx.now) self.now }
        ensures { Known (scope_in P.rules cx.now) self.now (λ v.
            option_copied result ≡ option_or (ordered_content (scope_in P.rules cx.now) v
            h) (backed ((scope_in P.rules cx.now).t v.epoch h) (v.desks h).votes)) }
    {
        match self.ordered_content(cx, h) {
            Some(content) => Some(content),
            None => self.backed(cx, h),
        }
    }

    /// The content that the node votes to deliver, where the rule is enabled.
    fn deliverable(&self, cx: &Config<P>, h: u32) -> Option<&Content>
        requires host { h < MAX_HOSTS }
        requires config { IsConfig (P.rules cx.now.protocol).hosts cx.now }
        requires meant { IsMeant (scope_in P.rules cx.now) self.now }
        ensures { Known (scope_in P.rules cx.now) self.now (λ v.
            option_copied result ≡ to_deliver (scope_in P.rules cx.now) v h) }
    {
        if self.may_say(cx, h, FilledKind::Deliver) {
            self.ordered_or_backed(cx, h)
        } else {
            None
        }
    }

    /// A copy of the content that the node votes to deliver, where the rule is enabled.
    pub(crate) fn to_deliver(
        &self,
        alloc: Global,
        cx: &Config<P>,
        h: u32,
    ) -> Result<Option<Content>, NoMemory>
        requires host { h < MAX_HOSTS }
        requires config { IsConfig (P.rules cx.now.protocol).hosts cx.now }
        requires meant { IsMeant (scope_in P.rules cx.now) self.now }
        ensures { IfOk result (λ found. Known (scope_in P.rules cx.now) self.now (λ v.
            found ≡ to_deliver (scope_in P.rules cx.now) v h)) }
    {
        copied(alloc, self.deliverable(cx, h))
    }

    /// A guard votes to deliver a content, to all guards.
    pub(crate) fn take_deliver(
        &mut self,
        alloc: Global,
        cx: &Config<P>,
        h: u32,
        content: Content,
        out: &mut Outbox,
    ) -> Result<(), NoMemory>
        requires scope { IsScope (scope_in P.rules cx.now) }
        requires ready { IsReady (scope_in P.rules cx.now) self.old (Rule.Deliver h content) }
        ensures node { OnOk result ((v : View) → Means (scope_in P.rules cx.now) self.old v
            → Means (scope_in P.rules cx.now) self.new
            (taken (scope_in P.rules cx.now) v (Rule.Deliver h content))) }
        ensures out { OnOk result ((v : View) → Means (scope_in P.rules cx.now) self.old v
            → out.new ≡ joined out.old (acts_of (scope_in P.rules cx.now) v (Rule.Deliver h content))) }
    {
        let guards = self.guards(alloc, cx, h)?;
        let to = guards.as_slice();
        let tags = self.say_filled(alloc, cx, FilledKind::Deliver, h, &content, to, out)?;
        let slot = self.log_len(h);
        self.set_voted_to(h, slot + 1);
        self.set_deliver(alloc, h, content, tags)?;
        Ok(())
    }

    /// Its own Deliver, with these tags.
    pub(crate) fn set_deliver(
        &mut self,
        alloc: Global,
        h: u32,
        content: Content,
        tags: TagList,
    ) -> Result<(), NoMemory>
        requires host { h < MAX_HOSTS }
        requires rows { length self.old.desks.items ≡ MAX_HOSTS }
        requires me { self.old.me < MAX_HOSTS }
        ensures { OnOk result ((scope : Scope P.State) (v : View) → Means scope self.old v
            → Means scope self.new (at_desk h (with_deliver v.me content tags) v)) }
    {
        let me = self.me;
        self.desks[h as usize].deliver(alloc, me, content, tags)?;
        Ok(())
    }

    /// One past the slot of its last Deliver about a host.
    pub(crate) fn set_voted_to(&mut self, h: u32, length: u32)
        requires host { h < MAX_HOSTS }
        ensures node { (scope : Scope P.State) (v : View) → Means scope self.old v
            → Means scope self.new (record v { voted_to = put v.voted_to h length }) }
        ensures desks { self.new.desks.items ≡ self.old.desks.items }
        ensures me { self.new.me ≡ self.old.me }
    {
        self.voted_to[h as usize] = length;
    }

    /// Makers' votes to deliver.
    pub(crate) fn note_votes(
        &mut self,
        alloc: Global,
        h: u32,
        content: &Content,
        makers: Vec<Tags>,
    ) -> Result<(), NoMemory>
        requires host { h < MAX_HOSTS }
        requires rows { length self.old.desks.items ≡ MAX_HOSTS }
        requires hosts { All IsHost makers.items }
        ensures { OnOk result ((scope : Scope P.State) (v : View) → Means scope self.old v
            → Means scope self.new (at_desk h (with_votes content.now makers.items) v)) }
    {
        self.desks[h as usize].note_votes(alloc, content, makers)?;
        Ok(())
    }
}
