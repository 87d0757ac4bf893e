//! Schedules: the events that a world is given, read from their text.
//!
//! Below: `nys_text` (lines, words, numbers), `nys_rules` (events), `nys_stmt` (statements) and
//! `nys_bare` (the faults of a schedule, and how many events it may have). Above: the commands that
//! replay a schedule.
//! Contracts see an event as the plain data of `nys_rules/specs/Events.antt`.
//! Begin at `read_schedule`, then `specs/Lines.antt`, `specs/Judging.antt` and `nys_rules/specs/Asked.antt`.
//! The rule is "Schedule" in docs/FORMATS.md.
#![tactic(auto)]

mod filled;
mod form;
mod hexes;
mod judging;
mod keyword;
mod kind;
mod line;
mod list;
mod numbers;
mod read;
mod said;
mod stated;
mod statement;

pub use form::Form;
pub use nys_bare::{LineKind, MAX_EVENTS, ScheduleFault};
pub use read::read_schedule;
