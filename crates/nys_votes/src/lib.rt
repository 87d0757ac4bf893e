//! What makers have said, counted: ordered, delivered, attested and overdue, with thresholds as arguments.
//! Definitions and plain data, no code.
//!
//! Below: `nys_hosts` (counts of makers), `nys_bytes` (contents), `nys_stmt` (tags). Above: the rules of the
//! nodes, and the tallies that keep what was said.
//! What is kept by maker is a list of 32 seats, the maker's number being its place: a maker counts once
//! because it has one seat. Each word is a computing function of the seats; `tallies_law` says what its
//! answer means, as "at least n different makers".
//! Begin at `specs/Seats.antt`. The rules are "Tallies" in docs/RULES.md.
#![tactic(auto)]

mod laws;
mod vote;

pub use laws::{contents_law, seats_law, tallies_law};
pub use vote::Vote;
