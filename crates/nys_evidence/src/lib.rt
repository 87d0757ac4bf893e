//! Evidence: for each step of the run of a world, the packets and bytes that show it to have been voted for.
//! No code.
//!
//! Below: `nys_follows` (what worlds promise), `nys_laws` (what each step of a node keeps), `nys_rules`
//! (worlds, and what evidence is: `specs/Evidence.antt`). Above: `nys_world_commands`, whose traces show it.
//! Begin at `specs/Shown.antt`, then `src/laws.rt`; `proofs/TakeKeeping.antt` carries to worlds what each
//! elementary step keeps, where it is known which packet or bytes a record was read from. What evidence is
//! good for is "Evidence" in docs/RULES.md.
#![tactic(auto)]

mod laws;

pub use laws::evidence_law;
