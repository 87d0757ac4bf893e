//! Statements and records as values: what parties say to one another, the tags under it, the bytes
//! that are tagged and the text that is printed.
//!
//! Below: `nys_bytes` (payloads, contents, bytes), `nys_mac` (tags), `nys_text` (printed numbers) and `sha2`.
//! Above: `nys_wire` (records as bytes) and each crate that makes, counts or keeps votes.
//! Contracts see `Lengths`, `TagList` and `MakerList` as plain lists, and the other types as their
//! fields.
//! Begin at `Statement`, then `bytes_of` and `Record`. The rules are "Statements and records" in
//! docs/RULES.md and docs/FORMATS.md.
#![tactic(auto)]

mod digest;
mod lengths;
mod limits;
mod makers;
mod records;
mod same;
mod spelling;
mod statement;
mod tags;
mod telling;
mod wire;

pub use digest::{DIGEST_LEN, digest_of};
pub use lengths::Lengths;
pub use limits::{MAX_EPOCH, MAX_HOST, MAX_LENGTH, MAX_LENGTHS, MAX_NUMBER, MAX_SLOT};
pub use makers::MakerList;
pub use nys_bytes::Content;
pub use records::Record;
pub use same::{do_clash, is_same_statement};
pub use spelling::{MAX_STATEMENT, bytes_of, put_carried};
pub use statement::{Body, FilledKind, Statement};
pub use tags::{TagList, Tags};
pub use telling::statement_text;
pub use wire::WireKind;
