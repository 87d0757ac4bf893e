//! Votes by what they are for.

ghost use Rattle.std.specs.Prelude.{◌≡◌, ◌<◌, ◌≤◌, ◌+◌, ◌∷◌, [], ◌++◌, All, length, nat_le, IfOk, OnOk, option_copied, option_map};
ghost use Rattle.nys_votes.specs.Contents.{same_content};
ghost use Rattle.nys_votes.specs.Delivered.{tags_for, voted_by, voters, votes_for};
ghost use Rattle.nys_votes.specs.Ordered.{makers_from};
ghost use Rattle.nys_votes.specs.Seats.{passes};
ghost use Rattle.nys_hosts.specs.declared.limits.TheConstants.{MAX_HOSTS};

use nys_bytes::NoMemory;
use nys_seats::Seats;
use nys_stmt::{Content, MakerList, TagList, Tags};
use nys_votes::Vote;
use std::alloc::Global;

fn is_same(a: &Content, b: &Content) -> bool
    ensures { result ≡ same_content a.now b.now }
{
    a.equals(b)
}

fn is_for(seat: &Option<Vote>, content: &Content) -> bool
    ensures { result ≡ passes (λ v. same_content content.now v.content) seat.now }
{
    match seat {
        Some(vote) => is_same(content, &vote.content),
        None => false,
    }
}

/// How many makers voted for the content.
#[tactic(auto, unfolding(nys_votes::specs::Delivered::votes_for, nys_votes::specs::Seats::count_seats))]
pub(crate) fn count_for(held: &Seats<Vote>, content: &Content) -> u32
    ensures count { result ≡ votes_for content.now held.now }
    ensures few { result ≤ MAX_HOSTS }
    ensures seats { length held.now ≡ MAX_HOSTS }
{
    let mut count = 0;
    for maker in 0..held.len() {
        if is_for(held.get(maker), content) {
            count += 1;
        }
    }
    count
}

fn has_votes(held: &Seats<Vote>, seat: &Option<Vote>, n: u32) -> bool
    ensures { result ≡ passes (λ v. nat_le n (votes_for v.content held.now)) seat.now }
{
    match seat {
        Some(vote) => n <= count_for(held, &vote.content),
        None => false,
    }
}

/// Of the contents for which `n` makers or more voted, that of the lowest maker.
#[tactic(auto, unfolding(nys_votes::specs::Delivered::voted_by, nys_votes::specs::Seats::lowest))]
pub fn voted_by(held: &Seats<Vote>, n: u32) -> Option<&Content>
    ensures found { option_copied result ≡ voted_by n held.now }
    ensures seats { length held.now ≡ MAX_HOSTS }
{
    if held.count() < n {
        return None;
    }
    for maker in 0..held.len() {
        if has_votes(held, held.get(maker), n) {
            return content_of(held.get(maker));
        }
    }
    None
}

fn content_of(seat: &Option<Vote>) -> Option<&Content>
    ensures { option_copied result ≡ option_map (λ v. v.content) seat.now }
{
    match seat {
        Some(vote) => Some(&vote.content),
        None => None,
    }
}

/// The makers that voted for the content, rising, with their tags.
#[tactic(auto, unfolding(nys_votes::specs::Delivered::voters, nys_votes::specs::Ordered::makers_of))]
pub fn voters(alloc: Global, held: &Seats<Vote>, content: &Content) -> Result<MakerList, NoMemory>
    ensures { IfOk result (λ makers. makers ≡ voters content.now held.now) }
{
    let mut makers = MakerList::new(alloc);
    for maker in 0..held.len() {
        put_voter(alloc, &mut makers, maker, held.get(maker), content)?;
    }
    Ok(makers)
}

fn put_voter(
    alloc: Global,
    makers: &mut MakerList,
    maker: u32,
    seat: &Option<Vote>,
    content: &Content,
) -> Result<(), NoMemory>
    requires maker { maker < MAX_HOSTS }
    requires above { All (λ t. t.maker < maker) makers.old }
    ensures above { OnOk result (All (λ t. t.maker < maker + 1) makers.new) }
    ensures put { OnOk result (makers.new ≡ makers.old ++ makers_from maker (tags_for content.now seat.now
        ∷ [])) }
{
    if let Some(vote) = seat {
        if is_same(content, &vote.content) {
            put_maker(alloc, makers, maker, &vote.tags)?;
        }
    }
    Ok(())
}

fn put_maker(
    alloc: Global,
    makers: &mut MakerList,
    maker: u32,
    tags: &TagList,
) -> Result<(), NoMemory>
    requires maker { maker < MAX_HOSTS }
    requires above { All (λ t. t.maker < maker) makers.old }
    ensures above { OnOk result (All (λ t. t.maker < maker + 1) makers.new) }
    ensures put { OnOk result (makers.new ≡ makers.old ++ record { maker = maker; tags = tags.now } ∷ []) }
{
    let tags = tags.copy(alloc)?;
    makers.push(Tags { maker, tags })?;
    Ok(())
}
