//! The text of a replay: its lines, the report of a world, and the run of the source system that it tells.
//! No code.
//!
//! Below: `nys_follows` (what worlds promise), `nys_told` (what notes tell), `nys_runs` (lines of hosts).
//! Above: `nys_report`, which prints the text.
//! Begin at `specs/Told.antt`, which says what the text tells in terms of the source system alone, then
//! `specs/Report.antt` and `src/laws.rt`. The text is "Report" in docs/FORMATS.md.
#![tactic(auto)]

mod laws;

pub use laws::printed_law;
