//! Machines as protocols.
//!
//! Below: `nys_named` (machines that are named), `nys_meaning` (what they mean), `nys_handler` (the
//! walk), `nys_source` (what a protocol is). Above: the scenario and the program. Contracts see an
//! `Interp` through its rules, `machine_rules` of `nys_meaning`. Begin at `Interp`. The rule is
//! "The machine language" in docs/RULES.md.
#![tactic(auto)]

mod here;
mod interp;
mod setting;
mod state;

pub use interp::Interp;
pub use state::State;
