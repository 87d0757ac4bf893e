//! What the notes of a world tell: how long decided logs are, which hosts are given up, and which inputs
//! found no room. No code.
//!
//! Below: `nys_laws` (facts of each world that events make), `nys_rules` (worlds and their notes). Above:
//! `nys_follows`, which ties what nodes take to what a schedule hands them, and `nys_printed`, whose text
//! has the notes.
//! Begin at `specs/Noted.antt`, `specs/Handed.antt` and `specs/Told.antt`, then `src/laws.rt`. Which notes an
//! event leaves is "Report" in docs/FORMATS.md.
#![tactic(auto)]

mod laws;

pub use laws::told_law;
