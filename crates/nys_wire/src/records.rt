//! Records read in place.

ghost use Rattle.std.specs.Prelude.{◌≡◌, ◌≤◌, List, length, IfOk, Ok, Err};
ghost use Rattle.nys_stmt.specs.Makers.{AreMakers};
ghost use Rattle.nys_stmt.specs.Records.{carried_bytes, IsRecord, payload_in, record_spelling};
ghost use Rattle.nys_stmt.specs.Spelling.{spelling};
ghost use Rattle.nys_stmt.specs.declared.records.Record.{Record};
ghost use Rattle.nys_stmt.specs.declared.spelling.TheConstants.{MAX_STATEMENT};
ghost use Rattle.nys_wire.specs.Answers.{Finds, FindsAll, Tells, TellsAll};
ghost use Rattle.nys_wire.specs.Heads.{head_in, head_of, message_of};
ghost use Rattle.nys_wire.specs.Reading.{front_at, record_at, whole_record};
ghost use Rattle.nys_wire.specs.Shown.{record_shown};

use crate::fault::RefFault;
use crate::fields::Fields;
use crate::head::Head;
use crate::makers::MakerIter;
use crate::statement::StatementRef;
use crate::statements::statement;
use nys_bytes::NoMemory;
use nys_stmt::{Record, Statement, WireKind};
use std::alloc::Global;
use std::marker::Model;

/// The two bytes at the front of a record.
const MAGIC: u16 = 0x4e59;

/// The version of the format.
const VERSION: u8 = 2;

/// The bytes in front of the statement: magic and version.
const FRONT_LEN: usize = 3;

/// A record, read where it lies. Contracts see the record. Only `owned` takes memory.
#[derive(Drop)]
pub struct RecordRef<'a> {
    bytes: &'a [u8],
    statement: StatementRef<'a>,
    makers: MakerIter<'a>,
}

impl<'a> Model for RecordRef<'a> {
    ghost use Rattle.std.specs.Prelude.{◌≡◌};
    ghost use Rattle.nys_stmt.specs.declared.records.Record.{Record};
    ghost use Rattle.nys_stmt.specs.Records.{IsRecord, record_spelling};
    ghost use Rattle.nys_wire.specs.Shown.{record_shown};

    ghost Value = { Record };

    ghost view = { λ r. record_shown (r.statement, r.makers) };

    ghost invariant = { λ r. r.bytes.now ≡ record_spelling (record_shown (r.statement, r.makers)) };
}

impl<'a> RecordRef<'a> {
    /// The record that all of these bytes are (docs/FORMATS.md), or the first field at fault, from the
    /// left. Every field is read where it lies, and the payload's digest tested. Takes no memory.
    pub fn read(bytes: &'a [u8]) -> Result<RecordRef<'a>, RefFault>
        // What is read is well formed, and is spelled so.
        ensures found { IfOk result (λ r. IsRecord r × (bytes.now ≡ record_spelling r)) }
        // What is spelled so is read.
        ensures only { (r : Record) → IsRecord r → bytes.now ≡ record_spelling r → result ≡ Ok r }
        // Which fault it is.
        ensures exact { FindsAll result (whole_record bytes.now) }
    {
        match whole(bytes) {
            Ok((statement, makers)) => Ok(RecordRef {
                bytes,
                statement,
                makers,
            }),
            Err(fault) => Err(fault),
        }
    }

    /// What its statement says beside its payload.
    pub fn head(&self) -> Head
        ensures { result ≡ head_of self.now.statement }
    {
        self.statement.head()
    }

    /// The sender and the number of the message that the content of its statement is; none where that is an
    /// input, or where its kind has no content.
    pub fn message(&self) -> Option<(u32, u32)>
        ensures { result ≡ message_of self.now.statement.body }
    {
        self.statement.message()
    }

    /// The bytes of its statement, which are what is tagged.
    pub fn statement_bytes(&self) -> &'a [u8]
        ensures spelled { result.now ≡ spelling self.now.statement }
        ensures short { length result.now ≤ MAX_STATEMENT }
    {
        let (_, behind) = self.bytes.split_at(FRONT_LEN);
        let (statement, _) = behind.split_at(self.statement.size());
        statement
    }

    /// The bytes of its payload, count and numbers; none where its kind has no payload.
    pub fn payload_bytes(&self) -> &'a [u8]
        ensures { result.now ≡ carried_bytes (payload_in self.now.statement.body) }
    {
        let (_, behind) = self.bytes.split_at(FRONT_LEN);
        let (_, behind) = behind.split_at(self.statement.size());
        let (payload, _) = behind.split_at(self.statement.carried_size());
        payload
    }

    /// Its makers, rising, each with its tags.
    pub fn makers(&self) -> MakerIter<'a>
        ensures same { result ≡ self.now.makers }
        ensures rule { AreMakers self.now.makers }
    {
        self.makers.again()
    }

    /// Its statement with memory of its own.
    pub fn statement(&self, alloc: Global) -> Result<Statement, NoMemory>
        ensures { IfOk result (λ s. s ≡ self.now.statement) }
    {
        self.statement.owned(alloc)
    }

    /// The record with memory of its own.
    pub fn owned(&self, alloc: Global) -> Result<Record, NoMemory>
        ensures { IfOk result (λ r. r ≡ self.now) }
    {
        let statement = self.statement.owned(alloc)?;
        let makers = self.makers.owned(alloc)?;
        Ok(Record { statement, makers })
    }
}

/// The statement and the makers of the record that all of the bytes are.
#[tactic(auto, unfolding(crate::specs::Reading::whole_record))]
fn whole<'a>(bytes: &'a [u8]) -> Result<(StatementRef<'a>, MakerIter<'a>), RefFault>
    ensures { TellsAll record_shown result (whole_record bytes.now) }
{
    let mut fields = Fields::new(bytes);
    let parts = parts(&mut fields)?;
    if fields.is_at_end() {
        Ok(parts)
    } else {
        Err(RefFault {
            place: fields.place(),
            kind: WireKind::Trailing,
        })
    }
}

/// The statement and the makers of the record that stands next.
#[tactic(auto, unfolding(crate::specs::Reading::record_at))]
fn parts<'a>(fields: &mut Fields<'a>) -> Result<(StatementRef<'a>, MakerIter<'a>), RefFault>
    ensures { Tells record_shown result fields.new (record_at fields.old) }
{
    front(fields)?;
    let statement = statement(fields)?;
    let makers = MakerIter::read(fields)?;
    Ok((statement, makers))
}

/// The magic and the version.
#[tactic(auto, unfolding(crate::specs::Reading::front_at))]
fn front(fields: &mut Fields) -> Result<(u32, u32), RefFault>
    ensures { Finds result fields.new (front_at fields.old) }
{
    let magic = fields.two_within(MAGIC, MAGIC, WireKind::Magic)?;
    let version = fields.byte_within(VERSION, VERSION, WireKind::Version)?;
    Ok((magic, version))
}

/// The head of the record that all of these bytes are (docs/FORMATS.md), or `None` where they are no
/// record. Takes no memory.
pub fn head_in(bytes: &[u8]) -> Option<Head>
    ensures { result ≡ head_in bytes.now }
{
    match RecordRef::read(bytes) {
        Ok(record) => Some(record.head()),
        Err(_) => None,
    }
}
