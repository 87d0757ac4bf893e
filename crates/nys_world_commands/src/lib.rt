//! The commands that run the guards of a scenario: `replay` and `trace`.
//!
//! Below: `nys_world` (worlds), `nys_schedule` (their events, read from a text), `nys_report` (the text of a
//! world), `nys_guard_commands` (guard graphs that are good and stand the liars). Above: the top call.
//! Contracts say what a command answers as a relation of the protocol's rules, of what the document says and
//! of the answer. Begin at `specs/Replayed.antt`, then `Guards::of` and `replay`. What events do is in "The
//! world" in docs/RULES.md, and the texts are "Schedule", "Report" and "Trace" in docs/FORMATS.md.
#![tactic(auto)]

mod guards;
mod playing;
mod replay_command;
mod telling;

pub use guards::Guards;
pub use replay_command::replay;
pub use telling::Telling;
