//! Scenario documents: what a TOML document says about hosts, links, a protocol and epochs.
//!
//! Below: `toml` (the document as an untyped table), `hex` (the master key), `nys_graph` and `nys_hosts`
//! (graphs and sets of hosts), `nys_lex`, `nys_parse` and `nys_names` (the text of a machine),
//! `nys_bytes`. Above: the commands that read a document.
//! Contracts speak of toml's table: `answer_to` is what the bytes of a document say, by the table of keys
//! and then by the machine language, and `said_by` is the same of a `Scenario`. Begin at `read`, and at
//! `specs/Document.antt`. The rules are "Scenario documents" in docs/FORMATS.md.
#![tactic(auto)]

mod choice;
mod epoch;
mod epoch_keys;
mod fault;
mod guards;
mod hosts;
mod keys;
mod limits;
mod links;
mod lookup;
mod master;
mod needs;
mod parts;
mod protocol;
mod reading;
mod scenario;
mod tables;
mod thresholds;
mod unknown;

pub use choice::Choice;
pub use epoch::EpochText;
pub use fault::{KeyKind, ScenarioFault};
pub use limits::MASTER_BYTES;
pub use needs::Needs;
pub use reading::read;
pub use scenario::Scenario;
