//! The orders that a host collects for its own offer, and the certificate that they make.
//!
//! Below: `nys_seats` (a seat for each maker), `nys_stmt` (statements and records), `nys_votes` (what a
//! certificate is). Above: `nys_desk`.
//! Contracts see an `OrderSlot` as its statement and the 32 seats of its makers' tags.
//! Begin at `OrderSlot::collect`. The rule is "Ordered" in docs/RULES.md, under "Tallies".
#![tactic(auto)]

mod slot;

pub use slot::{OrderSlot, makers_with_tags};
