//! The lines of a trace before its report: all packets, the bytes that events gave, and what was given to
//! honest hosts and to the Olympus and what became of it.
//!
//! Below: `nys_rules` (packets, takings and causes of drops), `nys_text` (numbers). Above: `nys_report`,
//! which puts the report behind them.
//! Contracts give the whole text, line by line, as `specs/TraceLines.antt` has it.
//! Begin at `put_packets`, `put_injected` and `put_takes`. The form is "Trace" in docs/FORMATS.md.
#![tactic(auto)]

mod packets;
mod takes;

pub use packets::{put_injected, put_packets};
pub use takes::put_takes;
