//! The commands `check` and `plan`: whether the guards of a scenario are good and stand its liars, and
//! which guards the planner gives.
//!
//! Below: `nys_scenario` (what a document says), `nys_guards` and `nys_plan` (what good guards are, and
//! the planner's), `nys_answer` and `nys_text` (answers, printed numbers). Above: the program, and the
//! commands that run the guards of a scenario, which begin with `sound_graphs`.
//! Contracts see a scenario as what its document says, and an answer as its status and bytes.
//! Begin at `check`, then `specs/Checked.antt`. The lines are "Guards: check and plan" in
//! docs/FORMATS.md.
#![tactic(auto)]

mod checking;
mod fault;
mod graphs;
mod liars;
mod planned;
mod print;
mod refusal;
mod thresholds;
mod words;

pub use checking::{check, sound_graphs};
pub use fault::EpochFault;
pub use graphs::guard_graphs;
pub use liars::stand_liars;
pub use planned::plan;
pub use refusal::Refusal;
