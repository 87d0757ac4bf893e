//! The rule Attest: a guard of both ends of a link tells what the sender's log sends; and what others attest.

ghost use Rattle.std.specs.Prelude.{◌≡◌, ◌<◌, IfOk, option_map, OnOk, ◌≤◌, ℕ, IfSome, length, All, true, ◌+◌, ◌&&◌, nat_lt, nat_le, not, IsTrue, Some, None};
ghost use Rattle.nys_node.specs.Dues.{links_due, numbers};
ghost use Rattle.nys_node.specs.Means.{Known, Means};
ghost use Rattle.nys_config.specs.Scopes.{scope_in};
ghost use Rattle.nys_rules.specs.Rules.{attest_rule, to_attest, unattested};
ghost use Rattle.nys_rules.specs.Scope.{Scope};
ghost use Rattle.nys_rules.specs.View.{sent_to, View, next_number};
ghost use Rattle.nys_node.specs.Ready.{IsReady};
ghost use Rattle.nys_node.specs.Sound.{IsScope};
ghost use Rattle.nys_rules.specs.Packets.{joined};
ghost use Rattle.nys_rules.specs.Taking.{acts_of, taken, one_more};
ghost use Rattle.nys_attest.specs.Ranges.{link_at};
ghost use Rattle.nys_source.specs.Tables.{put, put_at};
ghost use Rattle.nys_hosts.specs.declared.limits.TheConstants.{MAX_HOSTS};
ghost use Rattle.nys_stmt.specs.declared.limits.TheConstants.{MAX_NUMBER};
ghost use Rattle.nys_attest.specs.Windows.{is_in_window, next_of, seats_at};
ghost use Rattle.nys_desk.specs.Makers.{IsHost};
ghost use Rattle.nys_node.specs.Hearing.{CanHear};
ghost use Rattle.nys_rules.specs.Heads.{with_heads};
ghost use Rattle.nys_rules.specs.Noting.{hearing, with_attests};
ghost use Rattle.nys_votes.specs.Seats.{with_seat};
ghost use Rattle.nys_rules.specs.Dropping.{attest_drop, if_current, unless};

use crate::links::{neighbours, next_host};
use crate::node::Node;
use nys_attest::AttestTable;
use nys_bytes::{NoMemory, Payload};
use nys_config::{Config, hosts, linked};
use nys_hosts::MAX_HOSTS;
use nys_rules::{Attested, DropCause, Rule, WINDOW};
use nys_sending::outbox::Outbox;
use nys_source::Protocol;
use nys_stmt::{Body, Tags};
use std::alloc::Global;

/// The number of a link that comes next and isn't attested, with its payload, where it was sent.
fn unattested(range: Option<Attested>, sent: &[Payload]) -> Option<(u32, &Payload)>
    ensures { option_map numbers result ≡ unattested sent.now range }
{
    match range {
        Some(range) => match sent.get(range.next as usize) {
            Some(payload) => Some((range.next, payload)),
            None => None,
        },
        None => None,
    }
}

/// The attested numbers of a link with one more.
fn one_more(range: Option<Attested>) -> Option<Attested>
    requires room { IfSome range (λ r. r.next ≤ MAX_NUMBER) }
    ensures { result ≡ one_more range }
{
    match range {
        Some(range) => Some(Attested {
            first: range.first,
            next: range.next + 1,
        }),
        None => None,
    }
}

/// What one maker attests for a number of the window of `p`: the first of each maker stays.
fn hear_one(
    table: &mut AttestTable,
    p: u32,
    k: u32,
    maker: u32,
    payload: &Payload,
) -> Result<(), NoMemory>
    requires link { p < MAX_HOSTS }
    requires maker { maker < MAX_HOSTS }
    requires window { is_in_window (next_of table.old p) k ≡ true }
    ensures next { (q : ℕ) → next_of table.new q ≡ next_of table.old q }
    ensures seats { OnOk result ((q l : ℕ) → seats_at table.new q l
        ≡ put_at (seats_at table.old) p k (with_seat maker payload.now (seats_at table.old p k)) q l) }
{
    table.note(p, k, maker, payload)?;
    Ok(())
}

/// What makers attest for a number of the window of `p`.
fn hear_all(
    table: &mut AttestTable,
    p: u32,
    k: u32,
    payload: &Payload,
    makers: &[Tags],
) -> Result<(), NoMemory>
    requires link { p < MAX_HOSTS }
    requires hosts { All IsHost makers.now }
    requires window { is_in_window (next_of table.old p) k ≡ true }
    ensures next { (q : ℕ) → next_of table.new q ≡ next_of table.old q }
    ensures seats { OnOk result ((q l : ℕ) → seats_at table.new q l
        ≡ put_at (seats_at table.old) p k (hearing payload.now makers.now (seats_at table.old p k)) q l) }
{
    for tags in makers {
        hear_one(table, p, k, tags.maker, payload)?;
    }
    Ok(())
}

impl<P: Protocol> Node<P> {
    /// The next number of a link that it hasn't attested, with its payload, where it was sent.
    fn next_unattested(&self, p: u32, h: u32) -> Option<(u32, &Payload)>
        requires sender { p < MAX_HOSTS }
        requires host { h < MAX_HOSTS }
        ensures { (scope : Scope P.State) → Known scope self.now (λ v.
            option_map numbers result ≡ unattested (sent_to scope v p h) (v.attested p h)) }
    {
        match self.replica(p) {
            Some(replica) => unattested(self.links.get(p, h), replica.sent(h)),
            None => None,
        }
    }

    /// The number that it attests of a link, with its payload, where the rule is enabled.
    fn to_attest(&self, cx: &Config<P>, p: u32, h: u32) -> Option<(u32, &Payload)>
        requires sender { p < MAX_HOSTS }
        requires host { h < MAX_HOSTS }
        ensures { Known (scope_in P.rules cx.now) self.now (λ v.
            option_map numbers result ≡ to_attest (scope_in P.rules cx.now) v p h) }
    {
        if self.wedged {
            return None;
        }
        if self.is_attesting(cx, p, h) {
            self.next_unattested(p, h)
        } else {
            None
        }
    }

    /// The attest rule of a link, where it is enabled.
    fn attest_rule(
        &self,
        alloc: Global,
        cx: &Config<P>,
        p: u32,
        h: u32,
    ) -> Result<Option<Rule>, NoMemory>
        requires sender { p < MAX_HOSTS }
        requires host { h < MAX_HOSTS }
        ensures { IfOk result (λ found. Known (scope_in P.rules cx.now) self.now (λ v.
            found ≡ attest_rule (scope_in P.rules cx.now) v h p)) }
    {
        match self.to_attest(cx, p, h) {
            Some((k, payload)) => {
                let payload = payload.copy(alloc)?;
                Ok(Some(Rule::Attest { p, h, k, payload }))
            }
            None => Ok(None),
        }
    }

    /// The attest rule of the first of the links into a host of which it is enabled.
    pub(crate) fn due_links(
        &self,
        alloc: Global,
        cx: &Config<P>,
        h: u32,
    ) -> Result<Option<Rule>, NoMemory>
        requires host { h < MAX_HOSTS }
        ensures { IfOk result (λ found. Known (scope_in P.rules cx.now) self.now (λ v.
            found ≡ links_due (scope_in P.rules cx.now) v h 0)) }
    {
        if !self.live(h) {
            return Ok(None);
        }
        let senders = neighbours(cx, h);
        let mut from = 0;
        while let Some(p) = next_host(senders, from) {
            if let Some(rule) = self.attest_rule(alloc, cx, p, h)? {
                return Ok(Some(rule));
            }
            from = p + 1;
        }
        Ok(None)
    }

    /// A guard of two neighbours attests the next payload on a link to the guards of the receiver.
    pub(crate) fn take_attest(
        &mut self,
        alloc: Global,
        cx: &Config<P>,
        p: u32,
        h: u32,
        k: u32,
        payload: Payload,
        out: &mut Outbox,
    ) -> Result<(), NoMemory>
        requires scope { IsScope (scope_in P.rules cx.now) }
        requires ready { IsReady (scope_in P.rules cx.now) self.old (Rule.Attest p h k payload) }
        ensures node { OnOk result ((v : View) → Means (scope_in P.rules cx.now) self.old v
            → Means (scope_in P.rules cx.now) self.new
            (taken (scope_in P.rules cx.now) v (Rule.Attest p h k payload))) }
        ensures out { OnOk result ((v : View) → Means (scope_in P.rules cx.now) self.old v
            → out.new ≡ joined out.old (acts_of (scope_in P.rules cx.now) v (Rule.Attest p h k payload))) }
    {
        self.tell_guards(alloc, cx, h, Body::Attest { p, h, k, payload }, out)?;
        self.set_attested(p, h);
        self.record_heads(cx, h);
        Ok(())
    }

    /// It attested the next number of a link.
    pub(crate) fn set_attested(&mut self, p: u32, h: u32)
        requires sender { p < MAX_HOSTS }
        requires host { h < MAX_HOSTS }
        requires room { IfSome (link_at self.old.links p h) (λ r. r.next ≤ MAX_NUMBER) }
        ensures node { (scope : Scope P.State) (v : View) → Means scope self.old v
            → Means scope self.new (record v {
              attested = put_at v.attested p h
                  (one_more (v.attested p h));
            }) }
        ensures banks { self.new.banks.items ≡ self.old.banks.items }
    {
        let range = one_more(self.links.get(p, h));
        self.links.put(p, h, range);
    }

    /// What makers attest for number `k` of `p` to `h`, one of the link's window.
    fn hear(
        &mut self,
        p: u32,
        h: u32,
        k: u32,
        payload: &Payload,
        makers: &[Tags],
    ) -> Result<(), NoMemory>
        requires sender { p < MAX_HOSTS }
        requires host { h < MAX_HOSTS }
        requires hosts { All IsHost makers.now }
        requires tables { length self.old.heard.items ≡ MAX_HOSTS }
        requires window { (scope : Scope P.State) × CanHear scope self.old p h k }
        ensures { OnOk result ((scope : Scope P.State) (v : View) → Means scope self.old v
            → Means scope self.new (with_attests p h k payload.now makers.now v)) }
    {
        hear_all(&mut self.heard[h as usize], p, k, payload, makers)?;
        Ok(())
    }

    /// Makers' attestations for number `k` of `p` to `h`, one of the link's window; the next messages become
    /// heads.
    pub(crate) fn note_attests(
        &mut self,
        cx: &Config<P>,
        p: u32,
        h: u32,
        k: u32,
        payload: &Payload,
        makers: &[Tags],
    ) -> Result<(), NoMemory>
        requires sender { p < MAX_HOSTS }
        requires host { h < MAX_HOSTS }
        requires hosts { All IsHost makers.now }
        requires window { CanHear (scope_in P.rules cx.now) self.old p h k }
        ensures { OnOk result ((v : View) → Means (scope_in P.rules cx.now) self.old v
            → Means (scope_in P.rules cx.now) self.new (with_heads (scope_in P.rules cx.now) h
            (with_attests p h k payload.now makers.now v))) }
    {
        self.hear(p, h, k, payload, makers)?;
        self.record_heads(cx, h);
        Ok(())
    }

    /// Whether `p` is a neighbour of the live host `h` and not retired.
    fn is_sender(&self, cx: &Config<P>, p: u32, h: u32) -> bool
        ensures value { Known (scope_in P.rules cx.now) self.now (λ v.
            result ≡ (nat_lt p (P.rules cx.now.protocol).hosts
            && (not (v.retired p) && (P.rules cx.now.protocol).linked p h))) }
        ensures host { IsTrue result → p < MAX_HOSTS }
    {
        p < hosts(cx) && !self.retired.contains(p) && linked(cx, p, h)
    }

    /// Whether a number is outside the window of a link.
    fn window_drop(&self, p: u32, h: u32, k: u32) -> Option<DropCause>
        requires sender { p < MAX_HOSTS }
        requires host { h < MAX_HOSTS }
        ensures { (scope : Scope P.State) → Known scope self.now (λ v.
            result ≡ unless (nat_le (next_number scope v p h) k
            && nat_lt k (next_number scope v p h + WINDOW)) DropCause.Slot None) }
    {
        let next = self.next_number(p, h);
        if next <= k && k - next < WINDOW as u32 {
            None
        } else {
            Some(DropCause::Slot)
        }
    }

    /// The first test that an Attest fails before its makers are looked at.
    #[tactic(auto, unfolding(nys_config::specs::Scopes::scope_of))]
    pub(crate) fn attest_drop(
        &self,
        cx: &Config<P>,
        epoch: u32,
        p: u32,
        h: u32,
        k: u32,
    ) -> Option<DropCause>
        ensures { Known (scope_in P.rules cx.now) self.now (λ v.
            result ≡ if_current v epoch (attest_drop (scope_in P.rules cx.now) v p h k)) }
    {
        if epoch != self.epoch {
            return Some(DropCause::Epoch);
        }
        if self.wedged {
            return Some(DropCause::Wedged);
        }
        if !self.live(h) {
            return Some(DropCause::NotGuard);
        }
        if !self.is_sender(cx, p, h) {
            return Some(DropCause::NotGuard);
        }
        self.window_drop(p, h, k)
    }
}
