//! Examples of what the rules of the guarded system say, computed. No code.
//!
//! Below: `nys_rules` (the definitions), `nys_progress` (what must come). Above: nothing; they are for
//! the reader. `specs/Scenario.antt` has a protocol of four hosts with toy tags. `Drops` gives a record
//! to each line of the table of drops, `Steps` looks at single steps, and `Agreed`, `Liars`, `Epochs`,
//! `Decided`, `Relayed`, `Logged` and `Credited` at whole replays from the fresh world, packet by packet. What is
//! expected there was found by another program.
//! Begin at `specs/Agreed.antt`. The rules are "The guarded system" in docs/RULES.md.
#![tactic(auto)]

mod examples;

pub use examples::examples_law;
