//! The votes to deliver a content in one slot, counted.
//!
//! Below: `nys_seats` (a seat for each maker), `nys_stmt` (statements and records), `nys_votes` (what is
//! delivered or backed). Above: `nys_desk`.
//! Contracts see a `DeliverSlot` as the slot that its votes are for and the 32 seats of its makers' votes.
//! Begin at `DeliverSlot::note`. The rule is "Delivered" in docs/RULES.md, under "Tallies".
#![tactic(auto)]

mod counting;
mod slot;

pub use counting::{voted_by, voters};
pub use slot::{DeliverSlot, SlotOf};
