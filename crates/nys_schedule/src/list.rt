//! Lists of parties.

ghost use Rattle.std.specs.Prelude.{◌≡◌, ◌∷◌, true, IfOk, map};
ghost use Rattle.std.specs.List.{list_all, slice_split};
ghost use Rattle.nys_schedule.specs.Lists.{is_any_party, is_comma, list_of, parties_of, rise_from};

use crate::numbers::nums_of;
use nys_bytes::NoMemory;
use nys_mac::LAST_PARTY;
use nys_rules::Parties;
use std::alloc::{AllocError, Global};

/// The LIST of a word: NUMs with commas between, rising, each at most `LAST_PARTY`.
#[tactic(auto, unfolding(crate::specs::Lists::list_of))]
pub(crate) fn list_of(alloc: Global, word: &[u8]) -> Result<Option<Parties>, NoMemory>
    ensures { IfOk result (λ parties. parties ≡ list_of word.now) }
{
    let members = members_of(alloc, word)?;
    match nums_of(alloc, &members)? {
        None => Ok(None),
        Some(numbers) => parties_of(alloc, &numbers),
    }
}

/// The pieces of a word between its commas.
fn members_of(alloc: Global, word: &[u8]) -> Result<Vec<&[u8]>, AllocError>
    ensures { IfOk result (λ members. map (λ member. member.now) members.items
        ≡ slice_split is_comma word.now) }
{
    word.split(|byte| is_comma(*byte)).collect(alloc)
}

fn is_comma(byte: u8) -> bool
    ensures { result ≡ is_comma byte }
{
    byte == b','
}

/// The numbers as parties, where they are one or more, rise, and each is a party.
fn parties_of(alloc: Global, numbers: &[u32]) -> Result<Option<Parties>, NoMemory>
    ensures { IfOk result (λ parties. parties ≡ parties_of numbers.now) }
{
    match numbers {
        [] => Ok(None),
        [first, rest @ ..] => {
            if !rise_from(*first, rest) {
                return Ok(None);
            }
            if !are_parties(numbers) {
                return Ok(None);
            }
            Ok(Some(listed(alloc, *first, rest)?))
        }
    }
}

/// Whether each number is above the one before it, the first above this one.
fn rise_from(below: u32, numbers: &[u32]) -> bool
    ensures { result ≡ rise_from below numbers.now }
{
    let mut last = below;
    for number in numbers {
        if *number <= last {
            return false;
        }
        last = *number;
    }
    true
}

/// Whether each number is at most `LAST_PARTY`.
fn are_parties(numbers: &[u32]) -> bool
    ensures { result ≡ list_all is_any_party numbers.now }
{
    for number in numbers {
        if *number > LAST_PARTY {
            return false;
        }
    }
    true
}

/// The numbers as parties.
fn listed(alloc: Global, first: u32, rest: &[u32]) -> Result<Parties, NoMemory>
    requires rising { rise_from first rest.now ≡ true }
    requires each { list_all is_any_party (first ∷ rest.now) ≡ true }
    ensures { IfOk result (λ parties. parties ≡ first ∷ rest.now) }
{
    let mut parties = Parties::new(alloc, first)?;
    for number in rest {
        parties.push(*number)?;
    }
    Ok(parties)
}
