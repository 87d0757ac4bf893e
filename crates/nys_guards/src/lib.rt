//! Guard graphs: who guards whom, and whether that is good enough to stand some liars.
//!
//! Below: `nys_hosts` (sets and counts of hosts), `nys_graph` (who is linked). Above: the planner
//! (`nys_plan`), and each epoch of a scenario.
//! Contracts see a `GuardGraph` as its numbers and the test `guards_in guards`; what is good is a record
//! of facts, `IsGood`, that names no type of the code.
//! Begin at `GuardGraph::check`. The rule is "Guards" in docs/RULES.md.
#![tactic(auto)]

mod checking;
mod fault;
mod liars;
mod table;

pub use fault::{GuardFault, TooMany};
pub use table::GuardGraph;
