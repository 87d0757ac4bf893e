//! The report of a world: the run that it has, every host after that run, the replicas of all honest
//! hosts, and what was noted. And its trace: all packets and what became of them, then the report.
//!
//! Below: `nys_world` (the worlds that are reported), `nys_trace_lines` (the lines before the report in a
//! trace), `nys_source` and `nys_runs` (the text of a run and of hosts), `nys_node` and `nys_replica` (what
//! guards have), `nys_olympus` (who is given up), `nys_rules` (notes, and which run is printed).
//! Above: the commands that replay a schedule.
//! Contracts give the whole text, as `report` of `nys_printed/specs/Report.antt` and `trace` of
//! `specs/Trace.antt` have it.
//! Begin at `report_text` and `trace_text`, then these definitions. The forms are "Report" and "Trace" in
//! docs/FORMATS.md.
#![tactic(auto)]

mod guards;
mod lent;
mod notes;
mod report;
mod running;
mod section;
mod stopping;
mod tracing;

pub use report::report_text;
pub use tracing::trace_text;
