//! The commands that run the source system alone: `bare` and `verify`.
//!
//! Below: `nys_source` (the system), `nys_bare` and `nys_runs` (the texts that are read), `nys_answer`.
//! Above: the commands that replay worlds, and the top call.
//! Contracts say what a command answers as a function of the protocol's rules and of the text.
//! Begin at `specs/BareRun.antt` and `bare`, then `specs/Judging.antt` and `verify_law`. The rules are
//! "Bare runs" in docs/RULES.md.
#![tactic(auto)]

mod bare_command;
mod bare_run;
mod laws;
mod numbering;
mod refusals;
mod verify_command;

pub use bare_command::bare;
pub use bare_run::{BareEnd, MAX_MESSAGES};
pub use laws::verify_law;
pub use refusals::{no_packet, schedule_refused};
pub use verify_command::verify;
