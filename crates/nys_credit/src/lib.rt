//! The heads of the links into one host, with the lengths at which they were recorded, and the credit rule
//! over them.
//!
//! Below: `nys_seats` (a seat for each link), `nys_votes` (what is overdue and allowed). Above: `nys_node`.
//! Contracts see a `CreditBank` as its credit and the 32 seats of its heads' lengths.
//! Begin at `CreditBank::head`. The rule is "Credit rule" in docs/RULES.md, under "Tallies".
#![tactic(auto)]

mod bank;
mod places;

pub use bank::CreditBank;
