//! Bare schedules: the inputs, deliveries and stops that a source system is given.
//!
//! Below: `nys_text` (lines and words) and `nys_bytes` (payloads). Above: the command that runs the
//! source system with no guards, and the reader of whole schedules, which has the same faults.
//! Contracts see the events as a list of `BareEvent`, whose payload is its list of numbers.
//! Begin at `read_bare`, then `specs/Schedule.antt`. The rule is "Bare schedule" in docs/FORMATS.md.
#![tactic(auto)]

mod event;
mod fault;
mod line;
mod read;

pub use event::BareEvent;
pub use fault::{LineKind, ScheduleFault, schedule_fault};
pub use read::{MAX_EVENTS, read_bare};
