//! Makers that join those that are kept, the first of each.

ghost use Rattle.std.specs.Prelude.{◌≡◌, ◌<◌, [], ◌∷◌, All, OnOk};
ghost use Rattle.nys_desk.specs.Makers.{IsHost};
ghost use Rattle.nys_desk.specs.Seated.{seats_of};
ghost use Rattle.nys_rules.specs.Noting.{collected, voted};
ghost use Rattle.nys_votes.specs.Seats.{with_seat};
ghost use Rattle.nys_hosts.specs.declared.limits.TheConstants.{MAX_HOSTS};

use nys_bytes::{Content, NoMemory};
use nys_seats::Seats;
use nys_stmt::{TagList, Tags};
use nys_votes::Vote;
use std::alloc::Global;

/// The orders of makers, each with its tags, join those that are collected.
pub(crate) fn collect_all(orders: &mut Seats<TagList>, makers: Vec<Tags>)
    requires hosts { All IsHost makers.items }
    ensures { orders.new ≡ collected makers.items orders.old }
{
    for tags in makers {
        orders.keep(tags.maker, tags.tags);
    }
}

/// The vote of a maker takes its seat, where that is empty. Seats are made for the first vote.
pub(crate) fn keep_vote(
    alloc: Global,
    votes: &mut Option<Seats<Vote>>,
    maker: u32,
    vote: Vote,
) -> Result<(), NoMemory>
    requires maker { maker < MAX_HOSTS }
    ensures { OnOk result (seats_of votes.new ≡ with_seat maker vote (seats_of votes.old)) }
{
    let mut seats = match votes.take() {
        Some(seats) => seats,
        None => Seats::new(alloc)?,
    };
    seats.keep(maker, vote);
    *votes = Some(seats);
    Ok(())
}

/// The vote of one maker joins those that are kept.
fn vote_one(
    alloc: Global,
    votes: &mut Option<Seats<Vote>>,
    content: &Content,
    tags: Tags,
) -> Result<(), NoMemory>
    requires host { tags.maker < MAX_HOSTS }
    ensures { OnOk result (seats_of votes.new ≡ voted content.now (tags ∷ []) (seats_of votes.old)) }
{
    let vote = Vote {
        content: content.copy(alloc)?,
        tags: tags.tags,
    };
    keep_vote(alloc, votes, tags.maker, vote)
}

/// The votes of makers for a content, each with its tags, join those that are kept.
pub(crate) fn vote_all(
    alloc: Global,
    votes: &mut Option<Seats<Vote>>,
    content: &Content,
    makers: Vec<Tags>,
) -> Result<(), NoMemory>
    requires hosts { All IsHost makers.items }
    ensures { OnOk result (seats_of votes.new ≡ voted content.now makers.items (seats_of votes.old)) }
{
    for tags in makers {
        vote_one(alloc, votes, content, tags)?;
    }
    Ok(())
}
