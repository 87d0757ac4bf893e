//! Workloads: the generator, the events that are drawn, each for as many packets as the pool has before
//! it, and the ring of hosts to which they happen.
//!
//! Below: `nys_rules` (events), `nys_graph` (graphs), `nys_bytes` (payloads). Above: the command `workload`.
//! Contracts see an event as the plain data of `nys_rules/specs/Events.antt`, and the generator as its
//! number and how many inputs it drew. Begin at `draw`, then `Dice::event` and `specs/Drawn.antt`. The
//! rule is "Drawn events" in docs/FORMATS.md.
#![tactic(auto)]

mod dice;
mod generator;
mod kind;
mod rings;

pub use dice::Dice;
pub use generator::draw;
pub use rings::ring;
