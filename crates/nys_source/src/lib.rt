//! The source system: the protocol that is replicated, as it would run with honest hosts alone.
//!
//! Below: `nys_bytes` (payloads), `nys_graph` (neighbours), `nys_text` (printed numbers). Above: every
//! protocol, and all that replays or replicates one.
//! Contracts see a `Protocol` as its `rules`, and a `System` as the record `Source` of `specs/Source.antt`.
//! Begin at `specs/Steps.antt`, then `Protocol` and `System::take`. The rules are "Graphs, protocols and
//! the source system" in docs/RULES.md.
#![tactic(auto)]

mod effect;
mod printing;
mod protocol;
mod step;
mod system;
mod tables;

pub use effect::{Effect, MAX_EFFECTS, Stepped};
pub use printing::run_text;
pub use protocol::Protocol;
pub use step::{NotAStep, Step};
pub use system::System;
