//! The words after the program's name: what they ask for, or which of them is the first wrong one.
//!
//! Below: `clap` (the words as one required command and its values), `nys_bytes` (the words' type), `itoa`
//! (numbers as they are printed), `nys_hosts` (how many hosts there may be).
//! Above: the top call, which reads its words before anything else.
//! Contracts see the words as a list of their bytes, and a `Request` and a `WordsFault` as they are.
//! Begin at `read`. The rules are "Words of the command" in docs/FORMATS.md.
#![tactic(auto)]

mod command;
mod command_line;
mod fault;
mod reading;
mod request;

pub use command::Command;
pub use fault::WordsFault;
pub use reading::read;
pub use request::{MAX_EVENTS, MIN_HOSTS, Request, Workload};
