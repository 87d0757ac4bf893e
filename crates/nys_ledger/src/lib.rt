//! Who made which statement, for the world to test whether a statement is forged.
//!
//! Below: `nys_stmt` (statements, and which clash). Above: `nys_world`.
//! Contracts see a `Ledger` through `Owns`, the statements that a party made, and `Shares`, the first of them
//! that clashes with a statement.
//! Begin at `Ledger::made`. The rule is "Ledger" in docs/RULES.md, under "Tallies".
#![tactic(auto)]

mod ledger;
mod shelf;

pub use ledger::Ledger;
pub use shelf::Made;
