//! Which links a node attests, and from which number on.

ghost use Rattle.std.specs.Prelude.{◌≡◌, ◌<◌, ◌&&◌, ℕ, IsTrue, IfNone, IfSome};
ghost use Rattle.nys_hosts.specs.Masks.{in_mask};
ghost use Rattle.nys_hosts.specs.declared.limits.TheConstants.{MAX_HOSTS};
ghost use Rattle.nys_node.specs.Linking.{begun, links_to, one_link, with_begun};
ghost use Rattle.nys_node.specs.Masks.{HasNone, IsNext};
ghost use Rattle.nys_node.specs.Means.{Known, Means};
ghost use Rattle.nys_config.specs.Scopes.{scope_in};
ghost use Rattle.nys_rules.specs.Scope.{Scope};
ghost use Rattle.nys_rules.specs.View.{has_reached, is_attesting, is_live, View, with_links};

use crate::node::Node;
use nys_config::{Config, linked};
use nys_hosts::MAX_HOSTS;
use nys_rules::Attested;
use nys_source::Protocol;

/// The mask of a host's neighbours; empty from the last host on.
pub(crate) fn neighbours<P: Protocol>(cx: &Config<P>, h: u32) -> u32
    ensures { (p : ℕ) → in_mask result p ≡ (P.rules cx.now.protocol).linked p h }
{
    let graph = cx.protocol.graph();
    if h >= graph.hosts() {
        return 0;
    }
    graph.neighbours(h)
}

/// The lowest host from this one on that the mask has.
pub(crate) fn next_host(mask: u32, from: u32) -> Option<u32>
    ensures found { IfSome result (λ p. IsNext mask from p) }
    ensures none { IfNone result (HasNone mask from) }
{
    if from >= MAX_HOSTS as u32 {
        return None;
    }
    let rest = mask >> from;
    if rest == 0 {
        return None;
    }
    Some(from + rest.trailing_zeros())
}

impl<P: Protocol> Node<P> {
    /// Whether the node guards both hosts, and they are neighbours.
    #[tactic(auto, unfolding(nys_config::specs::Scopes::scope_of))]
    fn guards_link(&self, cx: &Config<P>, p: u32, h: u32) -> bool
        ensures value { Known (scope_in P.rules cx.now) self.now (λ v.
            result ≡ ((P.rules cx.now.protocol).linked p h
            && (is_live (scope_in P.rules cx.now) v p
            && is_live (scope_in P.rules cx.now) v h))) }
        ensures sender { IsTrue result → p < MAX_HOSTS }
        ensures host { IsTrue result → h < MAX_HOSTS }
    {
        linked(cx, p, h) && (self.live(p) && self.live(h))
    }

    /// Whether the logs of two hosts have reached the bases of the epoch.
    fn have_reached(&self, p: u32, h: u32) -> bool
        requires sender { p < MAX_HOSTS }
        requires host { h < MAX_HOSTS }
        ensures { (scope : Scope P.State) → Known scope self.now (λ v.
            result ≡ (has_reached v p && has_reached v h)) }
    {
        self.has_reached(p) && self.has_reached(h)
    }

    /// Whether the node attests the link: it guards two neighbours, and both logs have reached their bases.
    #[tactic(auto, unfolding(nys_rules::specs::View::is_attesting, nys_config::specs::Scopes::scope_of))]
    pub(crate) fn is_attesting(&self, cx: &Config<P>, p: u32, h: u32) -> bool
        ensures { Known (scope_in P.rules cx.now) self.now (λ v.
            result ≡ is_attesting (scope_in P.rules cx.now) v p h) }
    {
        self.guards_link(cx, p, h) && self.have_reached(p, h)
    }

    /// The numbers of the link from `p` to `h` that it attested, once the link began where it may.
    #[tactic(auto, unfolding(crate::specs::Linking::begun))]
    fn begun(&self, cx: &Config<P>, p: u32, h: u32) -> Option<Attested>
        requires sender { p < MAX_HOSTS }
        requires host { h < MAX_HOSTS }
        ensures { Known (scope_in P.rules cx.now) self.now (λ v.
            result ≡ begun (scope_in P.rules cx.now) v p h) }
    {
        match self.links.get(p, h) {
            Some(range) => Some(range),
            None => {
                if !self.is_attesting(cx, p, h) {
                    return None;
                }
                let next = self.next_number(p, h);
                Some(Attested { first: next, next })
            }
        }
    }

    /// The link from `p` to `h` begins, where it may.
    fn begin_link(&mut self, cx: &Config<P>, p: u32, h: u32)
        requires sender { p < MAX_HOSTS }
        requires host { h < MAX_HOSTS }
        ensures { (v : View) → Means (scope_in P.rules cx.now) self.old v
            → Means (scope_in P.rules cx.now) self.new
            (with_begun (scope_in P.rules cx.now) (one_link p h) v) }
    {
        let range = self.begun(cx, p, h);
        self.links.put(p, h, range);
    }

    /// Each link from `p` begins that may.
    fn begin_links_from(&mut self, cx: &Config<P>, p: u32)
        requires sender { p < MAX_HOSTS }
        ensures { (v : View) → Means (scope_in P.rules cx.now) self.old v
            → Means (scope_in P.rules cx.now) self.new
            (with_begun (scope_in P.rules cx.now) (links_to p MAX_HOSTS) v) }
    {
        for h in 0..MAX_HOSTS as u32 {
            self.begin_link(cx, p, h);
        }
    }

    /// Each link begins that may.
    pub(crate) fn begin_links(&mut self, cx: &Config<P>)
        ensures { (v : View) → Means (scope_in P.rules cx.now) self.old v
            → Means (scope_in P.rules cx.now) self.new (with_links (scope_in P.rules cx.now) v) }
    {
        for p in 0..MAX_HOSTS as u32 {
            self.begin_links_from(cx, p);
        }
    }
}
