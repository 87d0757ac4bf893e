//! What the commands share that play events in a world: the scenario by its guard graphs, and the lines of
//! what ends a world.
//!
//! Below: `nys_rules` (ends), `nys_stmt` (printed statements), `nys_answer` (answers), `nys_config` (scenarios of
//! guard graphs), `nys_guard_commands` (guard graphs of epochs). Above: `nys_world_commands` and
//! `nys_workload_command`.
//! Contracts see an end as it is, and an answer as its status and bytes.
//! Begin at `end_answer`, then `specs/Refusals.antt` and `specs/Settings.antt`. The lines are "What ends a
//! world" in docs/FORMATS.md.
#![tactic(auto)]

mod ending;

pub use ending::end_answer;
