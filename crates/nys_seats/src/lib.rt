//! A seat for each maker: what is kept of it, once.
//!
//! Below: `nys_votes` (what seats mean), `nys_hosts` (sets of hosts). Above: the tallies of orders, votes,
//! attestations and heads.
//! Contracts see `Seats` as the list of its 32 seats.
//! Begin at `Seats::keep`. The rules are "Tallies" in docs/RULES.md.
#![tactic(auto)]

mod seats;

pub use seats::Seats;
