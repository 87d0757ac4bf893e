//! The votes of one slot.

ghost use Rattle.std.specs.Prelude.{◌≡◌, ◌≢◌, ◌<◌, ◌≤◌, ◌*◌, ◌↔◌, Ok, Some, None, true, not, length, IfOk, option_copied};
ghost use Rattle.nys_bytes.specs.declared.content.Content.{Content};
ghost use Rattle.nys_deliver.specs.Votes.{IsVoteFor, noted_as, noted_of, record_of, vote_at};
ghost use Rattle.nys_votes.specs.Delivered.{backed, delivered, votes_for};
ghost use Rattle.nys_votes.specs.Seats.{count_all, is_seated, no_seats};
ghost use Rattle.nys_hosts.specs.declared.limits.TheConstants.{MAX_HOSTS};

use crate::counting::{count_for, voted_by, voters};
use nys_bytes::NoMemory;
use nys_seats::Seats;
use nys_stmt::{Body, Content, FilledKind, Record, Statement, TagList};
use nys_votes::Vote;
use std::alloc::Global;
use std::marker::Model;

/// What votes are for: a slot of host `h` in an epoch.
#[derive(Clone, Copy, Debug)]
pub struct SlotOf {
    pub epoch: u32,
    pub h: u32,
    pub slot: u32,
}

/// The votes to deliver that were noted for one slot of a host in one epoch. Makers are hosts below 32,
/// and each counts once.
#[derive(Drop)]
pub struct DeliverSlot {
    alloc: Global,
    about: Option<SlotOf>,
    held: Seats<Vote>,
}

impl Model for DeliverSlot {
    ghost use Rattle.nys_deliver.specs.Votes.{AreAbout, Votes};

    ghost Value = { Votes };

    ghost view = { λ s. record { about = s.about; seats = s.held } };

    ghost invariant = { λ s. AreAbout s.about s.held };
}

impl DeliverSlot {
    /// No votes yet.
    pub fn new(alloc: Global) -> Result<DeliverSlot, NoMemory>
        ensures about { IfOk result (λ slot. slot.about ≡ None) }
        ensures seats { IfOk result (λ slot. slot.seats ≡ no_seats) }
    {
        let held = Seats::new(alloc)?;
        Ok(DeliverSlot {
            alloc,
            about: None,
            held,
        })
    }

    /// Keeps the vote of a maker, a Deliver for the epoch, host and slot of all votes before. Where one of
    /// the maker is kept already it answers `false`, and nothing changes. Want of memory changes nothing.
    pub fn note(
        &mut self,
        maker: u32,
        statement: &Statement,
        tags: TagList,
    ) -> Result<bool, NoMemory>
        requires maker { maker < MAX_HOSTS }
        requires vote { IsVoteFor self.old statement.now.epoch statement.now.body }
        ensures again { IfOk result (λ kept. kept ≡ not (is_seated self.old.seats maker)) }
        ensures kept { result ≡ Ok true
            → self.new ≡ noted_of maker tags statement.now.epoch statement.now.body self.old }
        ensures same { result ≢ Ok true → self.new ≡ self.old }
        // The votes are for what this one is for.
        ensures about { IsVoteFor self.new statement.now.epoch statement.now.body }
    {
        match &statement.body {
            Body::Filled {
                h,
                slot,
                content,
                ..
            } => {
                let about = SlotOf {
                    epoch: statement.epoch,
                    h: *h,
                    slot: *slot,
                };
                self.note_at(maker, about, content, tags)
            }
            _ => unreachable!(),
        }
    }

    fn note_at(
        &mut self,
        maker: u32,
        about: SlotOf,
        content: &Content,
        tags: TagList,
    ) -> Result<bool, NoMemory>
        requires maker { maker < MAX_HOSTS }
        ensures again { IfOk result (λ kept. kept ≡ not (is_seated self.old.seats maker)) }
        ensures kept { result ≡ Ok true → self.new ≡ noted_as maker tags about content.now self.old }
        ensures same { result ≢ Ok true → self.new ≡ self.old }
    {
        if self.held.get(maker).is_some() {
            return Ok(false);
        }
        let content = content.copy(self.alloc)?;
        self.about = Some(about);
        Ok(self.held.keep(maker, Vote { content, tags }))
    }

    /// How many makers voted, whatever for.
    pub fn kept(&self) -> u32
        ensures count { result ≡ count_all self.now.seats }
        ensures few { result ≤ MAX_HOSTS }
        ensures seats { length self.now.seats ≡ MAX_HOSTS }
    {
        self.held.count()
    }

    /// How many makers voted for the content.
    pub fn count(&self, content: &Content) -> u32
        ensures count { result ≡ votes_for content.now self.now.seats }
        ensures few { result ≤ MAX_HOSTS }
        ensures seats { length self.now.seats ≡ MAX_HOSTS }
    {
        count_for(&self.held, content)
    }

    /// The content for which `q` makers or more voted. There is at most one, since fewer than `2q` are kept.
    pub fn certified(&self, q: u32) -> Option<&Content>
        requires quorum { 1 ≤ q }
        requires half { count_all self.now.seats < 2 * q }
        ensures found { option_copied result ≡ delivered q self.now.seats }
        // Whatever content has the votes is the one that is answered.
        ensures only { (content : Content) → q ≤ votes_for content self.now.seats
            → option_copied result ≡ Some content }
    {
        voted_by(&self.held, q)
    }

    /// The content for which more than `t` makers voted, of several that of the lowest maker.
    pub fn backed(&self, t: u32) -> Option<&Content>
        requires liars { t ≤ 5 }
        ensures { option_copied result ≡ backed t self.now.seats }
    {
        voted_by(&self.held, t + 1)
    }

    /// The vote for the content with all makers that made it, rising, and their tags. `None` where none did.
    #[tactic(auto, unfolding(crate::specs::Votes::record_of))]
    pub fn votes(&self, alloc: Global, content: &Content) -> Result<Option<Record>, NoMemory>
        ensures value { IfOk result (λ found. found ≡ record_of content.now self.now) }
        ensures none { IfOk result (λ found. (found ≡ None) ↔ (votes_for content.now self.now.seats ≡ 0)) }
    {
        if self.count(content) == 0 {
            return Ok(None);
        }
        match &self.about {
            None => Ok(None),
            Some(about) => {
                let makers = voters(alloc, &self.held, content)?;
                let statement = statement_at(alloc, *about, content)?;
                Ok(Some(Record { statement, makers }))
            }
        }
    }
}

fn statement_at(alloc: Global, about: SlotOf, content: &Content) -> Result<Statement, NoMemory>
    ensures { IfOk result (λ statement. statement ≡ vote_at content.now about) }
{
    let content = content.copy(alloc)?;
    Ok(Statement {
        epoch: about.epoch,
        body: Body::Filled {
            kind: FilledKind::Deliver,
            h: about.h,
            slot: about.slot,
            content,
        },
    })
}
