//! The vector of places: where the walk keeps the numbers of all names.
//!
//! Below: `nys_tree` (names with their places), `nys_meaning`. Above: `nys_walk`, `nys_interp`.
//! Contracts see `Cells` as a record with its list of numbers. `proofs/` shows that names that are
//! kept by place are kept as by name, for every tree that passes the rules of names. Begin at
//! `specs/Cells.antt`. The rule is "The machine language" in docs/RULES.md.
#![tactic(auto)]

mod cells;

pub use cells::Cells;
