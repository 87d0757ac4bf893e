//! Bytes to records.

ghost use Rattle.std.specs.Prelude.{◌≡◌, IfOk, Ok};
ghost use Rattle.nys_stmt.specs.declared.records.Record.{Record};
ghost use Rattle.nys_stmt.specs.Records.{IsRecord, record_spelling};
ghost use Rattle.nys_wire.specs.Answers.{GivesAll};
ghost use Rattle.nys_wire.specs.Laws.{AlikeIsSpelled, OneRecord, OneSpelling};
ghost use Rattle.nys_wire.specs.Reading.{whole_record};

use crate::fault::WireFault;
use crate::records::RecordRef;
use nys_stmt::Record;
use std::alloc::Global;

/// The record that the bytes are (docs/FORMATS.md), or the first field at fault, from the left.
pub fn decode(alloc: Global, bytes: &[u8]) -> Result<Record, WireFault>
    // What is read is well formed, and is spelled so.
    ensures found { IfOk result (λ r. IsRecord r × (bytes.now ≡ record_spelling r)) }
    // What is spelled so is read, unless memory runs out.
    ensures only { (r : Record) → IsRecord r → bytes.now ≡ record_spelling r → GivesAll result (Ok r) }
    // Which fault it is.
    ensures exact { GivesAll result (whole_record bytes.now) }
{
    whole(alloc, bytes)
}

/// The record that all of the bytes are.
fn whole(alloc: Global, bytes: &[u8]) -> Result<Record, WireFault>
    ensures { GivesAll result (whole_record bytes.now) }
{
    let record = RecordRef::read(bytes)?;
    let owned = record.owned(alloc)?;
    Ok(owned)
}

/// The law that no spelling of a well-formed record begins another.
pub fn records_differ()
    ensures { OneRecord }
{}

/// The law that no spelling of a statement within its ranges begins another, and that statements of one
/// spelling differ in their payloads alone, which then have one digest. Such two have one spelling.
pub fn statements_differ()
    ensures apart { OneSpelling }
    ensures alike { AlikeIsSpelled }
{}
