//! The heads of links, the credit rule, and which messages come next.

ghost use Rattle.std.specs.Prelude.{◌≡◌, ◌<◌, ◌≤◌, is_some, position, IfOk, IfSome, IsTrue, option_copied, ◌&&◌, ℕ, length, nat_lt};
ghost use Rattle.nys_node.specs.Means.{Known, Means};
ghost use Rattle.nys_config.specs.Scopes.{scope_in};
ghost use Rattle.nys_rules.specs.Heads.{attested_payload, head, head_content, is_allowed, is_attested_next, is_same, lowest_head, overdue_head, own_attest, payload_in, with_heads};
ghost use Rattle.nys_rules.specs.Scope.{Scope};
ghost use Rattle.nys_rules.specs.View.{length_of, next_number, View};
ghost use Rattle.nys_votes.specs.Contents.{same_payload};
ghost use Rattle.nys_votes.specs.Credit.{lowest_overdue};
ghost use Rattle.nys_hosts.specs.declared.limits.TheConstants.{MAX_HOSTS};
ghost use Rattle.nys_hosts.specs.Sets.{has};

use crate::node::Node;
use nys_bytes::{Content, NoMemory, Payload};
use nys_config::{Config, linked, threshold};
use nys_hosts::{HostSet, MAX_HOSTS};
use nys_rules::Attested;
use nys_source::Protocol;
use std::alloc::Global;

/// The payload of number `k` among those that were sent, where the range of attested numbers has it.
fn payload_in(range: Option<Attested>, sent: &[Payload], k: u32) -> Option<&Payload>
    ensures { option_copied result ≡ payload_in k sent.now range }
{
    match range {
        Some(range) => {
            if range.first <= k && k < range.next {
                sent.get(k as usize)
            } else {
                None
            }
        }
        None => None,
    }
}

fn same_payload(a: &Payload, b: &Payload) -> bool
    ensures { result ≡ same_payload a.now b.now }
{
    a.equals(b)
}

/// Whether a payload is there and is the same.
pub(crate) fn is_same(found: Option<&Payload>, payload: &Payload) -> bool
    ensures { result ≡ is_same (option_copied found.entry) payload.now }
{
    match found {
        Some(other) => same_payload(other, payload),
        None => false,
    }
}

/// Whether two hosts are neighbours; neighbours are hosts below 32.
pub(crate) fn is_neighbour<P: Protocol>(cx: &Config<P>, p: u32, h: u32) -> bool
    ensures value { result ≡ (P.rules cx.now.protocol).linked p h }
    ensures sender { IsTrue result → p < MAX_HOSTS }
{
    let graph = cx.protocol.graph();
    if p >= graph.hosts() {
        return false;
    }
    linked(cx, p, h)
}

impl<P: Protocol> Node<P> {
    /// The payload that the node attests itself for number `k` of `p` to `h`.
    #[tactic(auto, unfolding(nys_rules::specs::Heads::own_attest, nys_rules::specs::View::sent_to))]
    pub(crate) fn own_attest(&self, p: u32, h: u32, k: u32) -> Option<&Payload>
        requires sender { p < MAX_HOSTS }
        requires host { h < MAX_HOSTS }
        ensures { (scope : Scope P.State) → Known scope self.now (λ v.
            option_copied result ≡ own_attest scope v p h k) }
    {
        match self.replica(p) {
            Some(replica) => payload_in(self.links.get(p, h), replica.sent(h), k),
            None => None,
        }
    }

    /// The payload that more guards of both hosts attest for number `k` of `p` to `h` than may lie, for a
    /// number that comes next on the link or later.
    #[tactic(auto, unfolding(nys_rules::specs::Heads::attested_payload))]
    pub(crate) fn attested_payload(
        &self,
        cx: &Config<P>,
        p: u32,
        h: u32,
        k: u32,
    ) -> Option<&Payload>
        requires sender { p < MAX_HOSTS }
        requires host { h < MAX_HOSTS }
        ensures { Known (scope_in P.rules cx.now) self.now (λ v.
            next_number (scope_in P.rules cx.now) v p h ≤ k
            → option_copied result ≡ attested_payload (scope_in P.rules cx.now) v p h k) }
    {
        match self.heard.get(h as usize) {
            Some(table) => table.attested_with(
                p,
                k,
                threshold(cx, self.epoch, p),
                self.me,
                self.own_attest(p, h, k),
            ),
            None => None,
        }
    }

    /// The head of the link from `p` to `h`.
    #[tactic(auto, unfolding(nys_rules::specs::Heads::head, nys_config::specs::Scopes::scope_of))]
    pub(crate) fn head(&self, cx: &Config<P>, p: u32, h: u32) -> Option<&Payload>
        requires sender { p < MAX_HOSTS }
        requires host { h < MAX_HOSTS }
        ensures { Known (scope_in P.rules cx.now) self.now (λ v.
            option_copied result ≡ head (scope_in P.rules cx.now) v p h) }
    {
        if linked(cx, p, h) {
            self.attested_payload(cx, p, h, self.next_number(p, h))
        } else {
            None
        }
    }

    /// The head of the link from `p` to `h` as a content.
    pub(crate) fn head_content(
        &self,
        alloc: Global,
        cx: &Config<P>,
        h: u32,
        p: u32,
    ) -> Result<Option<Content>, NoMemory>
        requires sender { p < MAX_HOSTS }
        requires host { h < MAX_HOSTS }
        ensures { IfOk result (λ content. Known (scope_in P.rules cx.now) self.now (λ v.
            content ≡ head_content (scope_in P.rules cx.now) v h p)) }
    {
        match self.head(cx, p, h) {
            Some(payload) => {
                let payload = payload.copy(alloc)?;
                let k = self.next_number(p, h);
                Ok(Some(Content::Message { p, k, payload }))
            }
            None => Ok(None),
        }
    }

    /// Whether a payload is attested for number `k` of `p` to `h`, which comes next.
    fn is_next_attested(&self, cx: &Config<P>, p: u32, h: u32, k: u32, payload: &Payload) -> bool
        requires host { h < MAX_HOSTS }
        ensures { Known (scope_in P.rules cx.now) self.now (λ v.
            result ≡ is_attested_next (scope_in P.rules cx.now) v h (Content.Message p k payload.now)) }
    {
        if !is_neighbour(cx, p, h) {
            return false;
        }
        k == self.next_number(p, h) && is_same(self.attested_payload(cx, p, h, k), payload)
    }

    /// Whether the content is the next message of its link, and attested; an input needs neither.
    pub(crate) fn is_attested_next(&self, cx: &Config<P>, h: u32, content: &Content) -> bool
        requires host { h < MAX_HOSTS }
        ensures { Known (scope_in P.rules cx.now) self.now (λ v.
            result ≡ is_attested_next (scope_in P.rules cx.now) v h content.now) }
    {
        match content {
            Content::External { .. } => true,
            Content::Message { p, k, payload } => self.is_next_attested(cx, *p, h, *k, payload),
        }
    }

    /// Whether the credit rule allows the content in the open slot of the host.
    #[tactic(auto, unfolding(nys_rules::specs::Heads::is_allowed))]
    pub(crate) fn is_allowed(&self, h: u32, content: &Content) -> bool
        requires host { h < MAX_HOSTS }
        ensures { (scope : Scope P.State) → Known scope self.now (λ v.
            result ≡ is_allowed scope v h content.now) }
    {
        match self.banks.get(h as usize) {
            Some(bank) => bank.allows(self.log_len(h), content),
            None => true,
        }
    }

    /// The lowest link into the host whose head is overdue.
    fn lowest_overdue(&self, h: u32) -> Option<u32>
        requires host { h < MAX_HOSTS }
        ensures value { (scope : Scope P.State) → Known scope self.now (λ v.
            result ≡ lowest_overdue (scope.credit v.epoch) (length_of v h) (v.heads h)) }
        ensures link { IfSome result (λ p. p < MAX_HOSTS) }
    {
        match self.banks.get(h as usize) {
            Some(bank) => bank.lowest_overdue(self.log_len(h)),
            None => None,
        }
    }

    /// The lowest link into the host that has a head.
    fn lowest(&self, h: u32) -> Option<u32>
        requires host { h < MAX_HOSTS }
        ensures value { (scope : Scope P.State) → Known scope self.now (λ v.
            result ≡ position is_some (v.heads h)) }
        ensures link { IfSome result (λ p. p < MAX_HOSTS) }
    {
        match self.banks.get(h as usize) {
            Some(bank) => bank.lowest(),
            None => None,
        }
    }

    /// The head of the lowest overdue link into the host.
    pub(crate) fn overdue_head(
        &self,
        alloc: Global,
        cx: &Config<P>,
        h: u32,
    ) -> Result<Option<Content>, NoMemory>
        requires host { h < MAX_HOSTS }
        ensures { IfOk result (λ content. Known (scope_in P.rules cx.now) self.now (λ v.
            content ≡ overdue_head (scope_in P.rules cx.now) v h)) }
    {
        match self.lowest_overdue(h) {
            Some(p) => self.head_content(alloc, cx, h, p),
            None => Ok(None),
        }
    }

    /// The head of the lowest link into the host that has one.
    pub(crate) fn lowest_head(
        &self,
        alloc: Global,
        cx: &Config<P>,
        h: u32,
    ) -> Result<Option<Content>, NoMemory>
        requires host { h < MAX_HOSTS }
        ensures { IfOk result (λ content. Known (scope_in P.rules cx.now) self.now (λ v.
            content ≡ lowest_head (scope_in P.rules cx.now) v h)) }
    {
        match self.lowest(h) {
            Some(p) => self.head_content(alloc, cx, h, p),
            None => Ok(None),
        }
    }

    /// The links into the host that have a head, by their senders.
    fn links_with_heads(&self, cx: &Config<P>, h: u32) -> HostSet
        requires host { h < MAX_HOSTS }
        ensures { Known (scope_in P.rules cx.now) self.now (λ v. (p : ℕ) → has result p ≡ (nat_lt p MAX_HOSTS
            && is_some (head (scope_in P.rules cx.now) v p h))) }
    {
        let mut links = HostSet::empty();
        for p in 0..MAX_HOSTS as u32 {
            if self.head(cx, p, h).is_some() {
                links = links.with(p);
            }
        }
        links
    }

    /// Records the head of each link into the host that has one.
    pub(crate) fn record_heads(&mut self, cx: &Config<P>, h: u32)
        requires host { h < MAX_HOSTS }
        requires banks { length self.old.banks.items ≡ MAX_HOSTS }
        ensures { (v : View) → Means (scope_in P.rules cx.now) self.old v
            → Means (scope_in P.rules cx.now) self.new (with_heads (scope_in P.rules cx.now) h v) }
    {
        let links = self.links_with_heads(cx, h);
        let since = self.log_len(h);
        self.banks[h as usize].record(links, since);
    }
}
