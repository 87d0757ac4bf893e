//! Records to bytes.

ghost use Rattle.std.specs.Prelude.{◌≡◌, ◌≤◌, ◌∷◌, ◌++◌, length, All, IfOk, OnOk};
ghost use Rattle.std.specs.List.{flat_map};
ghost use Rattle.nys_stmt.specs.Makers.{AreMakers};
ghost use Rattle.nys_stmt.specs.Records.{IsMaker, IsRecord, IsTag, IsWhole, maker_bytes, makers_bytes, record_spelling, tag_bytes};

use nys_bytes::{NoMemory, Out};
use nys_mac::{LAST_PARTY, Tag};
use nys_stmt::{MakerList, Record, TagList, Tags, bytes_of, put_carried};
use std::alloc::Global;

/// What stands in front of the statement: the magic and the version.
const FRONT: [u8; 3] = [0x4e, 0x59, 0x02];

/// The most bytes that a record has.
pub const MAX_RECORD: usize = 40_147;

/// The one spelling of a record (docs/FORMATS.md).
pub fn encode(alloc: Global, r: &Record) -> Result<Vec<u8>, NoMemory>
    requires { IsWhole r.now }
    ensures value { IfOk result (λ bytes. bytes.items ≡ record_spelling r.now) }
    // With what the types of its parts keep, the record is well formed.
    ensures formed { IfOk result (λ _. IsRecord r.now) }
    ensures size { IfOk result (λ bytes. length bytes.items ≤ MAX_RECORD) }
{
    let mut out = Out::new(alloc);
    put_record(&mut out, r)?;
    Ok(out.into_bytes())
}

#[tactic(auto, unfolding(nys_stmt::specs::Records::record_spelling))]
fn put_record(out: &mut Out, r: &Record) -> Result<(), NoMemory>
    requires { IsWhole r.now }
    ensures ok { OnOk result (out.new ≡ out.old ++ record_spelling r.now) }
    ensures formed { OnOk result (IsRecord r.now) }
{
    out.put(&FRONT)?;
    bytes_of(&r.statement, out)?;
    put_carried(&r.statement.body, out)?;
    put_makers(out, &r.makers)?;
    Ok(())
}

#[tactic(auto, unfolding(nys_stmt::specs::Records::makers_bytes))]
fn put_makers(out: &mut Out, makers: &MakerList) -> Result<(), NoMemory>
    requires some { 1 ≤ length makers.now }
    requires tags { All (λ t. 1 ≤ length t.tags) makers.now }
    ensures ok { OnOk result (out.new ≡ out.old ++ makers_bytes makers.now) }
    ensures rule { OnOk result (AreMakers makers.now) }
    ensures each { OnOk result (All IsMaker makers.now) }
{
    out.put_u8(makers.len() as u8)?;
    put_each_maker(out, makers)?;
    Ok(())
}

fn put_each_maker(out: &mut Out, makers: &MakerList) -> Result<(), NoMemory>
    requires { All (λ t. 1 ≤ length t.tags) makers.now }
    ensures ok { OnOk result (out.new ≡ out.old ++ flat_map maker_bytes makers.now) }
    ensures each { OnOk result (All IsMaker makers.now) }
{
    for i in 0..makers.len() {
        put_maker(out, makers.get(i))?;
    }
    Ok(())
}

#[tactic(auto, unfolding(nys_stmt::specs::Records::maker_bytes))]
fn put_maker(out: &mut Out, tags: &Tags) -> Result<(), NoMemory>
    requires party { tags.now.maker ≤ LAST_PARTY }
    requires some { 1 ≤ length tags.now.tags }
    ensures ok { OnOk result (out.new ≡ out.old ++ maker_bytes tags.now) }
    ensures maker { OnOk result (IsMaker tags.now) }
{
    out.put_u8(tags.maker as u8)?;
    out.put_u8(tags.tags.len() as u8)?;
    put_each_tag(out, &tags.tags)?;
    Ok(())
}

fn put_each_tag(out: &mut Out, tags: &TagList) -> Result<(), NoMemory>
    ensures ok { OnOk result (out.new ≡ out.old ++ flat_map tag_bytes tags.now) }
    ensures each { OnOk result (All IsTag tags.now) }
{
    for i in 0..tags.len() {
        let (receiver, tag) = tags.get(i);
        put_tag(out, *receiver, tag)?;
    }
    Ok(())
}

fn put_tag(out: &mut Out, receiver: u32, tag: &Tag) -> Result<(), NoMemory>
    requires { receiver ≤ LAST_PARTY }
    ensures ok { OnOk result (out.new ≡ out.old ++ tag_bytes (receiver, tag.now)) }
    ensures tag { OnOk result (IsTag (receiver, tag.now)) }
{
    out.put_u8(receiver as u8)?;
    out.put(tag)?;
    Ok(())
}
