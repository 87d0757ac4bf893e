//! What a node keeps about a host's open slot, and about the slots that it logged last.
//!
//! Below: `nys_seats`, `nys_order` and `nys_deliver` (tallies by maker), `nys_rules` (what each change is).
//! Above: `nys_node`, which has one of each for every host.
//! Contracts see a `Desk` as the `Desk` of `nys_rules/specs/View.antt`, and `KeptSlots` as a list.
//! Begin at `Desk`. The rules are in docs/RULES.md, under "The guarded system".
#![tactic(auto)]

mod desk;
mod kept;
mod tallies;

pub use desk::Desk;
pub use kept::KeptSlots;
