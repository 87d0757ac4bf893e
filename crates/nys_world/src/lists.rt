//! Lists of parties, and the tags that are kept of each party.

ghost use Rattle.std.specs.Prelude.{◌≡◌, ◌<◌, ◌≤◌, ◌+◌, [], ◌∷◌, ◌++◌, All, IfOk, None, OnOk, fold, length, replicate};
ghost use Rattle.nys_votes.specs.Ordered.{makers_from, makers_of};
ghost use Rattle.nys_votes.specs.Seats.{with_seat};

use nys_bytes::NoMemory;
use nys_mac::LAST_PARTY;
use nys_rules::Parties;
use nys_stmt::{MakerList, TagList, Tags};
use std::alloc::Global;

/// How many parties there are: the hosts and the Olympus.
const PARTIES: u32 = LAST_PARTY + 1;

/// The parties, in their order.
pub(crate) fn party_list(alloc: Global, to: &Parties) -> Result<Vec<u32>, NoMemory>
    ensures { IfOk result (λ parties. parties.items ≡ to.now) }
{
    let mut parties = Vec::new(alloc);
    for i in 0..to.len() {
        parties.push(to.get(i))?;
    }
    Ok(parties)
}

/// A seat for each party, each empty.
pub(crate) fn empty_seats(alloc: Global) -> Result<Vec<Option<TagList>>, NoMemory>
    ensures { IfOk result (λ seats. seats.items ≡ replicate 33 None) }
{
    let mut seats = Vec::new(alloc);
    for _ in 0..PARTIES {
        seats.push(None)?;
    }
    Ok(seats)
}

/// The tags of a maker are kept, unless its seat is taken.
#[tactic(auto, unfolding(nys_votes::specs::Seats::with_seat))]
fn seat(alloc: Global, seats: &mut Vec<Option<TagList>>, entry: &Tags) -> Result<(), NoMemory>
    requires party { entry.now.maker ≤ LAST_PARTY }
    requires rows { length seats.old.items ≡ 33 }
    ensures { OnOk result (seats.new.items ≡ with_seat entry.now.maker entry.now.tags seats.old.items) }
{
    let maker = entry.maker as usize;
    if seats[maker].is_none() {
        let tags = entry.tags.copy(alloc)?;
        seats[maker] = Some(tags);
    }
    Ok(())
}

/// The tags of the makers are kept, the first of each.
pub(crate) fn seat_all(
    alloc: Global,
    seats: &mut Vec<Option<TagList>>,
    makers: &MakerList,
) -> Result<(), NoMemory>
    requires { length seats.old.items ≡ 33 }
    ensures { OnOk result (seats.new.items
        ≡ fold (λ kept m. with_seat m.maker m.tags kept) seats.old.items makers.now) }
{
    for i in 0..makers.len() {
        seat(alloc, seats, makers.get(i))?;
    }
    Ok(())
}

/// The makers whose seats are taken, rising, with their tags.
#[tactic(auto, unfolding(nys_votes::specs::Ordered::makers_of))]
pub(crate) fn seated(alloc: Global, seats: &[Option<TagList>]) -> Result<MakerList, NoMemory>
    requires { length seats.now ≡ 33 }
    ensures { IfOk result (λ makers. makers ≡ makers_of seats.now) }
{
    let mut makers = MakerList::new(alloc);
    for maker in 0..PARTIES {
        put_maker(alloc, &mut makers, maker, &seats[maker as usize])?;
    }
    Ok(makers)
}

/// The maker joins those below it, where its seat is taken.
fn put_maker(
    alloc: Global,
    makers: &mut MakerList,
    maker: u32,
    seat: &Option<TagList>,
) -> Result<(), NoMemory>
    requires maker { maker ≤ LAST_PARTY }
    requires above { All (λ t. t.maker < maker) makers.old }
    ensures above { OnOk result (All (λ t. t.maker < maker + 1) makers.new) }
    ensures put { OnOk result (makers.new ≡ makers.old ++ makers_from maker (seat.now ∷ [])) }
{
    if let Some(tags) = seat {
        let tags = tags.copy(alloc)?;
        makers.push(Tags { maker, tags })?;
    }
    Ok(())
}
