//! The command `workload`: drawn events happen to a ring of hosts, and the world that they lead to is counted.
//!
//! Below: `nys_workload` (what is drawn, and the ring), `nys_world` (worlds), `nys_guard_commands` (the guards
//! that are planned), `nys_played` (the lines of what ends a world). Above: the top call.
//! Contracts say what the command answers as a relation of the protocol's rules, of the seed and of the answer.
//! Begin at `workload`, then `specs/Answered.antt`. The rule is "Drawn events" in docs/FORMATS.md.
#![tactic(auto)]

mod course;
mod logged;
mod scenario;
mod summary;
mod workload_command;

pub use workload_command::workload;
