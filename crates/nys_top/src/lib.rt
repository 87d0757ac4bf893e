//! The program's one call: words and bytes come in, a text and a status go out.
//!
//! Below: `nys_words`, `nys_scenario`, the protocols (`nys_native`, `nys_route`, `nys_interp`), the commands
//! (`nys_source_commands`, `nys_guard_commands`, `nys_world_commands`) and `nys_outside`. Above:
//! `nysiad`, which hands in the outside.
//! Contracts see the words as lists of bytes, and the source and the sink by what they tell.
//! Begin at `run`, then `specs/Commands.antt` and `specs/Outcomes.antt`.
#![tactic(auto)]

mod commands;
mod refusals;
mod running;
mod words;

pub use running::run;
