//! The events of a ring printed as the lines of a schedule, which is read back as those events.
//!
//! Below: `nys_schedule` (what a schedule is), `nys_rules` (events), `nys_text` (numbers). Above: nothing yet;
//! the ring will have a limit on the length of its lines, and print its schedule.
//! Contracts give the whole text, line by line, as `specs/EventLines.antt` has it.
//! Begin at `schedule_text`, then `line_len` and `read_back_law`. The form is "Schedule" in docs/FORMATS.md.
#![tactic(auto)]

mod laws;
mod length;
mod print;

pub use laws::read_back_law;
pub use length::line_len;
pub use print::schedule_text;
