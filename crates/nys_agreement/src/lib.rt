//! Agreement and hand-over: laws over what honest parties said. No code, and no vote is counted here.
//!
//! Below: `nys_source` (protocols and runs), `nys_hosts` (quorums). Above: the laws of the guarded
//! worlds, which follow this machine. Honest nodes and an Olympus are an `Assembly`; `Enabled` says what
//! may happen in it and `after` what that makes of it. Liars have no part in it: their word counts
//! because nothing is asked of it.
//! Begin at `specs/Said.antt`, `specs/Events.antt` and `specs/After.antt`, then `specs/Claims.antt`,
//! which the laws below carry; `specs/Examples.antt` has three small assemblies. What each event keeps
//! stands in `proofs/`, in layers: `Ledgers`, `Votes`, `Openings`, `Evidence`, `Truth`, `Inputs`,
//! `Homes`. The rules are "Agreement" in docs/RULES.md.
#![tactic(auto)]

mod examples;
mod laws;

pub use examples::examples_law;
pub use laws::{agreement_law, run_law};
