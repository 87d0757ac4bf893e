//! What the guarded worlds promise: logs agree, spell a run of the source system, and are handed over.
//! They do since worlds follow the machine of `nys_agreement`: whatever events make a world, some list of
//! the machine's events makes one with the same logs, statements and run. No code.
//!
//! Below: `nys_laws` (what each step of a node keeps), `nys_rules` (worlds), `nys_agreement` (the
//! machine and its laws). Above: `nys_world`, whose calls cite them.
//! Begin at `specs/Scenario.antt`, which says what is asked of a scenario, and `specs/Promises.antt`, then
//! `src/laws.rt`; `specs/Follows.antt` says what following is, and `specs/Steps.antt` what is asked of
//! each step of a node and of the Olympus. `proofs/FeedingFollows.antt` takes a world's steps one by one,
//! `proofs/SpelledWorlds.antt` and `proofs/HandedWorlds.antt` carry the promises over. The rules are
//! "The guarded system" and "Agreement" in docs/RULES.md.
#![tactic(auto)]

mod laws;

pub use laws::{follows_law, worlds_law};
