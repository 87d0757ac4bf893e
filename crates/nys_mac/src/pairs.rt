//! The hash states that are kept for pairs of parties.

ghost use Rattle.std.specs.Prelude.{◌≡◌, ◌≤◌, ℕ, List, All, IfOk, IfSome, OnOk};
ghost use Rattle.nys_mac.specs.States.{AreStatesOf, IsPairUnder};
ghost use Rattle.nys_mac.specs.Tags.{pair_key};

use crate::authenticating::{KeyStates, Tag};
use crate::keys::LAST_PARTY;
use nys_bytes::NoMemory;
use std::alloc::Global;

/// What the keys of pairs are made from.
const PAIR_WORD: &[u8; 11] = b"nysiad-pair";

/// The hash states under the key that two parties share, and the parties, the lesser number first.
#[derive(Drop)]
pub(crate) struct PairStates {
    low: u32,
    high: u32,
    states: KeyStates,
}

/// The key that the two parties share, by the states of the master key.
#[tactic(auto, unfolding(crate::specs::Tags::pair_key))]
pub(crate) fn key_of_pair(master: &KeyStates, i: u32, j: u32) -> Tag
    requires i { i ≤ LAST_PARTY }
    requires j { j ≤ LAST_PARTY }
    ensures { (key : List ℕ) → AreStatesOf master.now key → result ≡ pair_key key i j }
{
    master.hmac(PAIR_WORD, &[i.min(j) as u8, i.max(j) as u8])
}

/// The states of two parties, by the states of the master key.
fn pair_of(master: &KeyStates, i: u32, j: u32) -> PairStates
    requires i { i ≤ LAST_PARTY }
    requires j { j ≤ LAST_PARTY }
    ensures { (key : List ℕ) → AreStatesOf master.now key → IsPairUnder key result }
{
    let low = i.min(j);
    let high = i.max(j);
    let states = KeyStates::of(&key_of_pair(master, low, high));
    PairStates { low, high, states }
}

/// The row of a party in a table: the Olympus has the first, so that those of fewer hosts are the front
/// of those of more.
fn row_of(party: u32) -> u32
    requires { party ≤ LAST_PARTY }
    ensures { result ≤ LAST_PARTY }
{
    if party == LAST_PARTY { 0 } else { party + 1 }
}

/// The party that has this row.
fn party_of(row: u32) -> u32
    requires { row ≤ LAST_PARTY }
    ensures { result ≤ LAST_PARTY }
{
    if row == 0 { LAST_PARTY } else { row - 1 }
}

/// The place of two parties in a table, whichever is named first: row by row, each row up to itself.
fn place_of(i: u32, j: u32) -> usize
    requires i { i ≤ LAST_PARTY }
    requires j { j ≤ LAST_PARTY }
{
    let (row, other) = (row_of(i), row_of(j));
    let (last, first) = (row.max(other), row.min(other));
    (last * (last + 1) / 2 + first) as usize
}

/// Appends the states of the party of a row with each party of a row up to it.
fn push_row(table: &mut Vec<PairStates>, master: &KeyStates, row: u32) -> Result<(), NoMemory>
    requires { row ≤ LAST_PARTY }
    ensures { (key : List ℕ) → AreStatesOf master.now key → All (IsPairUnder key) table.old.items
        → OnOk result (All (IsPairUnder key) table.new.items) }
{
    for other in 0..row + 1 {
        table.push(pair_of(master, party_of(row), party_of(other)))?;
    }
    Ok(())
}

/// The states of each pair of the hosts below `hosts` and the Olympus, under this master key.
pub(crate) fn table_of(
    alloc: Global,
    master: &[u8; 32],
    hosts: u32,
) -> Result<Vec<PairStates>, NoMemory>
    requires { hosts ≤ LAST_PARTY }
    ensures { IfOk result (λ table. All (IsPairUnder master.now) table.items) }
{
    let states = KeyStates::of(master);
    let mut table = Vec::new(alloc);
    for row in 0..hosts + 1 {
        push_row(&mut table, &states, row)?;
    }
    Ok(table)
}

/// The states of two parties in a table, where it has them.
pub(crate) fn states_in(table: &[PairStates], i: u32, j: u32) -> Option<&KeyStates>
    requires i { i ≤ LAST_PARTY }
    requires j { j ≤ LAST_PARTY }
    ensures { (key : List ℕ) → All (IsPairUnder key) table.now
        → IfSome result (λ states. AreStatesOf states.now (pair_key key i j)) }
{
    let pair = table.get(place_of(i, j))?;
    if pair.low == i.min(j) && pair.high == i.max(j) {
        Some(&pair.states)
    } else {
        None
    }
}
