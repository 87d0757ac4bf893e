//! Replicas: what is kept of one host, which is all that the host's log gives.
//!
//! Below: `nys_source` (protocols), `nys_agreement` (what a log means). Above: the nodes, which keep a
//! replica of each host that they guard.
//! Contracts say of a `Replica` for which logs it stands: `StandsFor` of `specs/Stands.antt`. They hold
//! for every log for which it does; two of these differ in forgotten entries alone.
//! Begin at `specs/Stands.antt`, then `Replica::apply`. The rules are "Replicas" in docs/RULES.md.
#![tactic(auto)]

mod entries;
mod laws;
mod packing;
mod replica;
mod tables;

pub use laws::logs_law;
pub use replica::Replica;
