//! The rule Log: a quorum's votes put a content into the log, and the slot is cleared.

ghost use Rattle.std.specs.Prelude.{◌≡◌, ◌<◌, ◌&&◌, ◌==◌, IfOk, length, option_copied, OnOk};
ghost use Rattle.nys_node.specs.Means.{IsMeant, Known, Means};
ghost use Rattle.nys_config.specs.Scopes.{scope_in};
ghost use Rattle.nys_config.specs.Config.{IsConfig};
ghost use Rattle.nys_rules.specs.Logging.{fits, heads_after, left_by, logged};
ghost use Rattle.nys_rules.specs.Rules.{passing_only, to_log};
ghost use Rattle.nys_rules.specs.Scope.{quorum_at, Scope};
ghost use Rattle.nys_rules.specs.View.{is_open, View, empty_desk};
ghost use Rattle.nys_votes.specs.Delivered.{voted_by};
ghost use Rattle.nys_hosts.specs.declared.limits.TheConstants.{MAX_HOSTS};
ghost use Rattle.nys_node.specs.Ready.{IsReady};
ghost use Rattle.nys_node.specs.Sound.{IsScope};
ghost use Rattle.nys_rules.specs.Packets.{joined};
ghost use Rattle.nys_rules.specs.Taking.{acts_of, taken, kept_of, with_kept};
ghost use Rattle.nys_rules.specs.Noting.{at_desk};
ghost use Rattle.nys_node.specs.Logging.{CanLog, CanTakeIn, HasNext, IsFromHost, IsMoved, IsTakenIn, left_at, with_forgotten, with_left, with_log, with_oldest_left};

use crate::heads::is_same;
use crate::node::Node;
use crate::reading::copied;
use nys_attest::AttestTable;
use nys_bytes::{Content, NoMemory};
use nys_config::Config;
use nys_credit::CreditBank;
use nys_desk::Desk;
use nys_replica::Replica;
use nys_rules::{Kept, Rule};
use nys_sending::outbox::Outbox;
use nys_source::Protocol;
use std::alloc::Global;

/// The content is no head any more.
fn forget(bank: &mut CreditBank, content: &Content)
    requires sender { IsFromHost content.now }
    ensures { bank.new ≡ (bank.old.0, heads_after content.now bank.old.1) }
{
    match content {
        Content::External { .. } => {}
        Content::Message { p, .. } => bank.took(*p),
    }
}

/// What is heard goes on to the number behind the content's.
fn go_on(table: &mut AttestTable, content: &Content)
    requires next { HasNext content.now table.old }
    ensures { IsMoved content.now table.old table.new }
{
    match content {
        Content::External { .. } => {}
        Content::Message { p, .. } => table.took(*p),
    }
}

/// The replica that is there takes the content.
fn apply_in<P: Protocol>(
    alloc: Global,
    cx: &Config<P>,
    place: &mut Option<Replica<P>>,
    content: Content,
) -> Result<(), NoMemory>
    requires next { CanTakeIn (P.rules cx.now.protocol) place.old content }
    ensures { OnOk result (IsTakenIn (P.rules cx.now.protocol) place.old place.new content) }
{
    match place.take() {
        Some(replica) => {
            let taken = replica.apply(alloc, &cx.protocol, content)?;
            *place = Some(taken);
            Ok(())
        }
        None => Ok(()),
    }
}

impl<P: Protocol> Node<P> {
    /// The content for which a quorum voted, where it fits.
    fn delivered_next(&self, cx: &Config<P>, h: u32) -> Option<&Content>
        requires host { h < MAX_HOSTS }
        requires config { IsConfig (P.rules cx.now.protocol).hosts cx.now }
        requires meant { IsMeant (scope_in P.rules cx.now) self.now }
        ensures { Known (scope_in P.rules cx.now) self.now (λ v.
            option_copied result ≡ passing_only (fits (scope_in P.rules cx.now) v h)
            (voted_by (quorum_at (scope_in P.rules cx.now) v.epoch h)
            (v.desks h).votes)) }
    {
        match self.voted_by(h, self.quorum(cx, h)) {
            Some(content) => {
                if self.fits(cx, h, content) {
                    Some(content)
                } else {
                    None
                }
            }
            None => None,
        }
    }

    /// The content that the log takes, where the rule is enabled.
    fn loggable(&self, cx: &Config<P>, h: u32) -> Option<&Content>
        requires host { h < MAX_HOSTS }
        requires config { IsConfig (P.rules cx.now.protocol).hosts cx.now }
        requires meant { IsMeant (scope_in P.rules cx.now) self.now }
        ensures { Known (scope_in P.rules cx.now) self.now (λ v.
            option_copied result ≡ to_log (scope_in P.rules cx.now) v h) }
    {
        if self.is_open(h) {
            self.delivered_next(cx, h)
        } else {
            None
        }
    }

    /// A copy of the content that the log takes, where the rule is enabled.
    pub(crate) fn to_log(
        &self,
        alloc: Global,
        cx: &Config<P>,
        h: u32,
    ) -> Result<Option<Content>, NoMemory>
        requires host { h < MAX_HOSTS }
        requires config { IsConfig (P.rules cx.now.protocol).hosts cx.now }
        requires meant { IsMeant (scope_in P.rules cx.now) self.now }
        ensures { IfOk result (λ found. Known (scope_in P.rules cx.now) self.now (λ v.
            found ≡ to_log (scope_in P.rules cx.now) v h)) }
    {
        copied(alloc, self.loggable(cx, h))
    }

    /// The log of a host takes a content, whose votes are kept.
    pub(crate) fn take_log(
        &mut self,
        alloc: Global,
        cx: &Config<P>,
        h: u32,
        content: Content,
        out: &mut Outbox,
    ) -> Result<(), NoMemory>
        requires scope { IsScope (scope_in P.rules cx.now) }
        requires ready { IsReady (scope_in P.rules cx.now) self.old (Rule.Log h content) }
        ensures node { OnOk result ((v : View) → Means (scope_in P.rules cx.now) self.old v
            → Means (scope_in P.rules cx.now) self.new
            (taken (scope_in P.rules cx.now) v (Rule.Log h content))) }
        ensures out { OnOk result ((v : View) → Means (scope_in P.rules cx.now) self.old v
            → out.new ≡ joined out.old (acts_of (scope_in P.rules cx.now) v (Rule.Log h content))) }
    {
        let slot = self.log_len(h);
        self.keep_slot(alloc, h, &content)?;
        self.log_entry(alloc, cx, h, content)?;
        out.grow(h, slot)?;
        Ok(())
    }

    /// The Deliver votes for a content in the open slot of the host.
    fn kept_of(&self, alloc: Global, h: u32, content: &Content) -> Result<Kept, NoMemory>
        requires host { h < MAX_HOSTS }
        requires rows { length self.now.desks.items ≡ MAX_HOSTS }
        ensures { IfOk result (λ kept. (scope : Scope P.State)
            → Known scope self.now (λ v. kept ≡ kept_of v h content.now)) }
    {
        let makers = self.desks[h as usize].voters(alloc, content)?;
        let content = content.copy(alloc)?;
        Ok(Kept {
            slot: self.log_len(h),
            content,
            makers,
        })
    }

    /// Keeps the Deliver votes for a content that is logged in the open slot of the host.
    pub(crate) fn keep_slot(
        &mut self,
        alloc: Global,
        h: u32,
        content: &Content,
    ) -> Result<(), NoMemory>
        requires host { h < MAX_HOSTS }
        requires desks { length self.old.desks.items ≡ MAX_HOSTS }
        requires rows { length self.old.kept.items ≡ MAX_HOSTS }
        ensures { OnOk result ((scope : Scope P.State) (v : View) → Means scope self.old v
            → Means scope self.new (with_kept h content.now v)) }
    {
        let kept = self.kept_of(alloc, h, content)?;
        self.kept[h as usize].push(kept)?;
        Ok(())
    }

    /// Nothing is known about the open slot of the host.
    fn clear_desk(&mut self, h: u32)
        requires host { h < MAX_HOSTS }
        requires rows { length self.old.desks.items ≡ MAX_HOSTS }
        ensures { (scope : Scope P.State) (v : View) → Means scope self.old v
            → Means scope self.new (at_desk h (λ _. empty_desk) v) }
    {
        self.desks[h as usize] = Desk::new();
    }

    /// Whether the content is the oldest waiting input.
    fn is_oldest(&self, content: &Content) -> bool
        ensures { (scope : Scope P.State) → Known scope self.now (λ v.
            left_by content.now v.waiting ≡ with_oldest_left result v.waiting) }
    {
        match content {
            Content::External { payload } => is_same(self.waiting.front(), payload),
            Content::Message { .. } => false,
        }
    }

    /// Whether the content is the oldest waiting input of the node's own host `h`.
    fn is_own_oldest(&self, h: u32, content: &Content) -> bool
        ensures { (scope : Scope P.State) → Known scope self.now (λ v.
            with_oldest_left result v.waiting ≡ left_at h content.now v) }
    {
        self.me == h && self.is_oldest(content)
    }

    /// The oldest input leaves the queue where the host's own log takes it.
    fn leave(&mut self, h: u32, content: &Content)
        ensures { (scope : Scope P.State) (v : View) → Means scope self.old v
            → Means scope self.new (with_left h content.now v) }
    {
        if self.is_own_oldest(h, content) {
            self.waiting.pop_front();
        }
    }

    /// The content is no head of a link into the host any more.
    fn forget_head(&mut self, h: u32, content: &Content)
        requires host { h < MAX_HOSTS }
        requires banks { length self.old.banks.items ≡ MAX_HOSTS }
        requires sender { IsFromHost content.now }
        ensures { (scope : Scope P.State) (v : View) → Means scope self.old v
            → Means scope self.new (with_forgotten h content.now v) }
    {
        forget(&mut self.banks[h as usize], content);
    }

    /// The replica of the host takes the content, and what is heard goes on with it.
    fn apply_entry(
        &mut self,
        alloc: Global,
        cx: &Config<P>,
        h: u32,
        content: Content,
    ) -> Result<(), NoMemory>
        requires host { h < MAX_HOSTS }
        requires next { CanLog (scope_in P.rules cx.now) self.old h content }
        ensures { OnOk result ((v : View) → Means (scope_in P.rules cx.now) self.old v
            → Means (scope_in P.rules cx.now) self.new (with_log h content v)) }
    {
        go_on(&mut self.heard[h as usize], &content);
        apply_in(alloc, cx, &mut self.replicas[h as usize], content)?;
        Ok(())
    }

    /// The log of the host takes the content: its desk is empty then, entries are forgotten that are needed no
    /// more, links begin that may, and the next messages become heads. Want of memory may leave it half done; the node is given up then.
    pub(crate) fn log_entry(
        &mut self,
        alloc: Global,
        cx: &Config<P>,
        h: u32,
        content: Content,
    ) -> Result<(), NoMemory>
        requires host { h < MAX_HOSTS }
        requires next { CanLog (scope_in P.rules cx.now) self.old h content }
        ensures { OnOk result ((v : View) → Means (scope_in P.rules cx.now) self.old v
            → Means (scope_in P.rules cx.now) self.new (logged (scope_in P.rules cx.now) h content v)) }
    {
        self.clear_desk(h);
        self.leave(h, &content);
        self.forget_head(h, &content);
        self.apply_entry(alloc, cx, h, content)?;
        self.forget_entries(h);
        self.begin_links(cx);
        self.record_heads(cx, h);
        Ok(())
    }
}
