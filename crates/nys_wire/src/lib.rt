//! Records as bytes: the one spelling of each, and what bytes that are no record have wrong.
//!
//! A payload stands in its statement by its digest, and whole behind the statement: what is tagged stays
//! short, and the digest is tested where a record is read.
//!
//! Below: `nys_stmt` (statements, records and their spelling) and `nys_bytes`. Above: each crate that
//! sends or takes records.
//! Contracts see a record as its fields, and speak of the spelling that `nys_stmt` defines.
//! Begin at `decode`, or at `RecordRef::read`, which reads a record where it lies and takes no memory.
//! The rule is "Statements and records" in docs/FORMATS.md.
#![tactic(auto)]

mod decoding;
mod encoding;
mod fault;
mod fields;
mod head;
mod kind;
mod makers;
mod opening;
mod payload;
mod records;
mod statement;
mod statements;

pub use decoding::{decode, records_differ, statements_differ};
pub use encoding::{MAX_RECORD, encode};
pub use fault::{RefFault, WireFault};
pub use head::Head;
pub use kind::Kind;
pub use makers::{MakerIter, MakerRef, TagIter};
pub use nys_stmt::{Record, WireKind};
pub use records::{RecordRef, head_in};
