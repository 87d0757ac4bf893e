//! Laws of the guarded worlds: what honest nodes and the Olympus keep is true, whatever happens and
//! whoever lies.
//! No code.
//!
//! Below: `nys_rules` (what nodes, the Olympus and worlds are). Above: `nys_follows`, where worlds follow
//! the machine of `nys_agreement` with what stands here.
//! A law says what holds of each world that events make, as `InEachWorld` has it.
//! Begin at `specs/Worlds.antt` and `specs/SetUp.antt`, go on to `specs/Own.antt`, `specs/Once.antt` and
//! `specs/Heard.antt` and `specs/Entries.antt`, to `specs/Vouched.antt`, `specs/Rests.antt` and
//! `specs/Grounds.antt`, then to `specs/Epochs.antt` and `specs/Testimony.antt`, then `src/laws.rt`.
//! What each step of a node keeps is carried to worlds by `StepsKeep` in `proofs/WorldKeeping.antt`,
//! and what each step of a world keeps by `WorldsKeep` in `proofs/EventKeeping.antt`. The rules are
//! "The guarded system" in docs/RULES.md.
#![tactic(auto)]

mod laws;

pub use laws::{entries_law, epochs_law, heard_law, own_law, rests_law};
