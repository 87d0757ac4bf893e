//! What a node keeps about the open slot of a host.

ghost use Rattle.std.specs.Prelude.{◌≡◌, ◌<◌, ◌≤◌, All, IfOk, OnOk, if◌then◌else◌, length, option_copied};
ghost use Rattle.nys_desk.specs.Makers.{IsHost};
ghost use Rattle.nys_rules.specs.Noting.{is_content, with_certificate, with_held, with_orders, with_votes};
ghost use Rattle.nys_rules.specs.Taking.{with_deliver, with_offer, with_order, with_sent};
ghost use Rattle.nys_rules.specs.View.{empty_desk};
ghost use Rattle.nys_votes.specs.Contents.{same_content};
ghost use Rattle.nys_votes.specs.Delivered.{voted_by, voters};
ghost use Rattle.nys_votes.specs.Ordered.{makers_of};
ghost use Rattle.nys_votes.specs.Seats.{count_all};
ghost use Rattle.nys_hosts.specs.declared.limits.TheConstants.{MAX_HOSTS};

use crate::tallies::{collect_all, keep_vote, vote_all};
use nys_bytes::{Content, NoMemory};
use nys_deliver::{voted_by, voters};
use nys_order::makers_with_tags;
use nys_seats::Seats;
use nys_stmt::{MakerList, TagList, Tags};
use nys_votes::Vote;
use std::alloc::Global;
use std::marker::Model;

/// A node's own offer, and the orders of it that it collected. The seats are made with the offer: at most
/// one desk of a node has any.
#[derive(Drop)]
pub(crate) struct OwnOffer {
    content: Content,
    orders: Seats<TagList>,
}

/// What a node keeps about the open slot of a host. Makers are hosts below 32, and each counts once. Want
/// of memory may leave a change half done; the node is given up then.
#[derive(Drop)]
pub struct Desk {
    own: Option<OwnOffer>,
    held: Option<Content>,
    ordered: Option<Content>,
    sent: u32,
    certified: Option<Content>,
    delivered: Option<Content>,
    votes: Option<Seats<Vote>>,
}

impl Model for Desk {
    ghost use Rattle.nys_desk.specs.Seated.{offered_of, orders_of, seats_of};
    ghost use Rattle.nys_rules.specs.View.{Desk};

    ghost Value = { Desk };

    ghost view = { λ d. record {
      offered = offered_of d.own;
      held = d.held;
      ordered = d.ordered;
      orders = orders_of d.own;
      sent = d.sent;
      certified = d.certified;
      delivered = d.delivered;
      votes = seats_of d.votes;
    } };
}

/// Whether a content is there and is the same.
pub(crate) fn is_content(found: &Option<Content>, content: &Content) -> bool
    ensures { result ≡ is_content found.now content.now }
{
    match found {
        Some(other) => is_same(other, content),
        None => false,
    }
}

fn is_same(a: &Content, b: &Content) -> bool
    ensures { result ≡ same_content a.now b.now }
{
    a.equals(b)
}

/// 1 where the content is there and the same, else 0.
fn count_of(found: &Option<Content>, content: &Content) -> u32
    ensures { result ≡ (if is_content found.now content.now then 1 else 0) }
{
    if is_content(found, content) { 1 } else { 0 }
}

fn shared(found: &Option<Content>) -> Option<&Content>
    ensures { option_copied result ≡ found.now }
{
    match found {
        Some(content) => Some(content),
        None => None,
    }
}

impl Desk {
    /// Nothing is known about the slot. Takes no memory.
    pub fn new() -> Desk
        ensures { result ≡ empty_desk }
    {
        Desk {
            own: None,
            held: None,
            ordered: None,
            sent: 0,
            certified: None,
            delivered: None,
            votes: None,
        }
    }

    /// The content of its own Offer.
    pub fn offered(&self) -> Option<&Content>
        ensures { option_copied result ≡ self.now.offered }
    {
        match &self.own {
            Some(own) => Some(&own.content),
            None => None,
        }
    }

    /// The content of the offer that it holds.
    pub fn held(&self) -> Option<&Content>
        ensures { option_copied result ≡ self.now.held }
    {
        shared(&self.held)
    }

    /// The content of its own Order.
    pub fn ordered(&self) -> Option<&Content>
        ensures { option_copied result ≡ self.now.ordered }
    {
        shared(&self.ordered)
    }

    /// The content of the certificate that it counted.
    pub fn certified(&self) -> Option<&Content>
        ensures { option_copied result ≡ self.now.certified }
    {
        shared(&self.certified)
    }

    /// The content of its own Deliver.
    pub fn delivered(&self) -> Option<&Content>
        ensures { option_copied result ≡ self.now.delivered }
    {
        shared(&self.delivered)
    }

    /// How many makers of orders it collected.
    pub fn collected(&self) -> u32
        ensures count { result ≡ count_all self.now.orders }
        ensures few { result ≤ MAX_HOSTS }
    {
        match &self.own {
            Some(own) => own.orders.count(),
            None => 0,
        }
    }

    /// How many makers the certificate had that it sent last.
    pub fn sent(&self) -> u32
        ensures { result ≡ self.now.sent }
    {
        self.sent
    }

    /// Of the contents that `n` makers or more voted to deliver, that of the lowest maker.
    pub fn voted_by(&self, n: u32) -> Option<&Content>
        ensures { option_copied result ≡ voted_by n self.now.votes }
    {
        match &self.votes {
            Some(votes) => voted_by(votes, n),
            None => None,
        }
    }

    /// The makers of the orders that it collected, rising, with their tags.
    pub fn orderers(&self, alloc: Global) -> Result<MakerList, NoMemory>
        ensures { IfOk result (λ makers. makers ≡ makers_of self.now.orders) }
    {
        match &self.own {
            Some(own) => makers_with_tags(alloc, &own.orders),
            None => Ok(MakerList::new(alloc)),
        }
    }

    /// The makers that voted to deliver the content, rising, with their tags.
    pub fn voters(&self, alloc: Global, content: &Content) -> Result<MakerList, NoMemory>
        ensures { IfOk result (λ makers. makers ≡ voters content.now self.now.votes) }
    {
        match &self.votes {
            Some(votes) => voters(alloc, votes, content),
            None => Ok(MakerList::new(alloc)),
        }
    }

    /// An offer takes the place of the one that it holds.
    #[tactic(auto, unfolding(nys_rules::specs::Noting::with_held))]
    pub fn hold(&mut self, content: Content)
        ensures { self.new ≡ with_held content self.old }
    {
        self.held = Some(content);
    }

    /// Orders of makers, where they are of its own offer.
    #[tactic(auto, unfolding(nys_rules::specs::Noting::with_orders))]
    pub fn note_orders(&mut self, content: &Content, makers: Vec<Tags>)
        requires hosts { All IsHost makers.items }
        ensures { self.new ≡ with_orders content.now makers.items self.old }
    {
        if let Some(own) = &mut self.own {
            if is_same(&own.content, content) {
                collect_all(&mut own.orders, makers);
            }
        }
    }

    /// A record with orders of these makers: it is counted by itself, and its content is kept where they
    /// are a quorum, with the node's own order, and none is kept yet.
    #[tactic(auto, unfolding(nys_rules::specs::Noting::with_certificate))]
    pub fn note_certificate(&mut self, quorum: u32, content: Content, makers: &[Tags])
        requires few { length makers.now ≤ 33 }
        ensures { self.new ≡ with_certificate quorum content makers.now self.old }
    {
        let own = count_of(&self.ordered, &content);
        if makers.len() as u32 + own >= quorum && self.certified.is_none() {
            self.certified = Some(content);
        }
    }

    /// Votes of makers to deliver the content.
    #[tactic(auto, unfolding(nys_rules::specs::Noting::with_votes))]
    pub fn note_votes(
        &mut self,
        alloc: Global,
        content: &Content,
        makers: Vec<Tags>,
    ) -> Result<(), NoMemory>
        requires hosts { All IsHost makers.items }
        ensures { OnOk result (self.new ≡ with_votes content.now makers.items self.old) }
    {
        vote_all(alloc, &mut self.votes, content, makers)
    }

    /// Its own Offer, which it holds from then on.
    #[tactic(auto, unfolding(nys_rules::specs::Taking::with_offer))]
    pub fn offer(&mut self, alloc: Global, content: Content) -> Result<(), NoMemory>
        ensures { OnOk result (self.new ≡ with_offer content self.old) }
    {
        let orders = match self.own.take() {
            Some(own) => own.orders,
            None => Seats::new(alloc)?,
        };
        self.own = Some(OwnOffer {
            content: content.copy(alloc)?,
            orders,
        });
        self.held = Some(content);
        Ok(())
    }

    /// Its own Order with its tags; at the host itself it counts where it is of its own offer.
    #[tactic(auto, unfolding(nys_rules::specs::Taking::with_order))]
    pub fn order(&mut self, at_host: bool, me: u32, content: Content, tags: TagList)
        requires me { me < MAX_HOSTS }
        ensures { self.new ≡ with_order at_host me content tags self.old }
    {
        if let Some(own) = &mut self.own {
            if at_host && is_same(&own.content, &content) {
                own.orders.keep(me, tags);
            }
        }
        self.ordered = Some(content);
    }

    /// It sent a certificate with all makers that it collected.
    #[tactic(auto, unfolding(nys_rules::specs::Taking::with_sent))]
    pub fn mark_sent(&mut self)
        ensures { self.new ≡ with_sent self.old }
    {
        self.sent = self.collected();
    }

    /// Its own Deliver with its tags, which counts as a vote.
    #[tactic(auto, unfolding(nys_rules::specs::Taking::with_deliver))]
    pub fn deliver(
        &mut self,
        alloc: Global,
        me: u32,
        content: Content,
        tags: TagList,
    ) -> Result<(), NoMemory>
        requires me { me < MAX_HOSTS }
        ensures { OnOk result (self.new ≡ with_deliver me content tags self.old) }
    {
        let copy = content.copy(alloc)?;
        let vote = Vote {
            content: copy,
            tags,
        };
        keep_vote(alloc, &mut self.votes, me, vote)?;
        self.delivered = Some(content);
        Ok(())
    }
}
