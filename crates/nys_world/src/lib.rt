//! The simulation: honest nodes, the Olympus, and what events make of them. Liars have no state.
//!
//! Below: `nys_node` and `nys_olympus` (the parties), `nys_ledger` (who made what), `nys_rules` (what
//! each event does), `nys_follows` (what worlds promise), `nys_outcomes` (what dropped bytes leave).
//! Above: `nys_report`, and the commands that replay a schedule.
//! Contracts see a world of the rules: a world of the program has all its data, and events make it.
//! Begin at `World::run_all`, then `specs/Worlds.antt` and `specs/Shows.antt`. The rules are "The world"
//! in docs/RULES.md.
#![tactic(auto)]

mod acting;
mod books;
mod bundling;
mod commanding;
mod dropping;
mod forgery;
mod giving;
mod handing;
mod lists;
mod moment;
mod posting;
mod saying;
mod stage;
mod stepping;
mod taking;
mod world;

pub use world::World;
