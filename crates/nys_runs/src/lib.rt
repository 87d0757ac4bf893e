//! Run texts: the steps of a source system, read from their lines, and the lines of the hosts as a run
//! leaves them.
//!
//! Below: `nys_source` (the steps and their printed lines) and `nys_text` (lines and words). Above: the
//! commands that test whether a text is a run, and that print runs.
//! Contracts see the steps as a list of `Step`, whose payload is its list of numbers.
//! Begin at `read_run`, then `specs/StepLines.antt`; `put_hosts`, then `specs/HostLines.antt`. The rules are
//! "Run text" and "Report" in docs/FORMATS.md.
#![tactic(auto)]

mod fault;
mod hosts;
mod line;
mod read;

pub use fault::RunFault;
pub use hosts::put_hosts;
pub use read::{MAX_STEPS, read_run};
