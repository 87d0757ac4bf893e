//! Laws of outcomes: each view of a node settles, and each list of events leads a world to another world
//! or to an end. With `nys_rules`, which has that it is at most one, it is exactly one. And the run of a
//! world is short, and bytes that a party drops change nothing.
//! No code.
//!
//! Below: `nys_rules` (what nodes, the Olympus and worlds are), `nys_laws` (what is kept in each world).
//! Above: `nys_world`, whose step cites the law of dropped bytes, and `nys_top`.
//! Begin at `specs/Outcomes.antt`, then `src/laws.rt`. How much a node may still do by itself is
//! `specs/Weight.antt`. The rules are "The guarded system" in docs/RULES.md.
#![tactic(auto)]

mod laws;

pub use laws::{noise_law, outcomes_law, runs_law, settling_law};
