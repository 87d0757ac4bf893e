//! The makers of a record and their tags, read in place.

ghost use Rattle.std.specs.Prelude.{◌≡◌, ◌≢◌, ◌≤◌, ◌+◌, ◌↔◌, List, length, All, Contains, IfOk, IfSome, None};
ghost use Rattle.nys_stmt.specs.Lists.{AreTags};
ghost use Rattle.nys_stmt.specs.Makers.{AreMakers};
ghost use Rattle.nys_wire.specs.Answers.{Finds, Passes, Tells};
ghost use Rattle.nys_wire.specs.Reading.{each_at, maker_at, makers_at, tag_at, tags_at};

use crate::fault::RefFault;
use crate::fields::Fields;
use nys_bytes::NoMemory;
use nys_mac::{LAST_PARTY, Tag};
use nys_stmt::{MakerList, TagList, Tags, WireKind};
use std::alloc::Global;
use std::marker::Model;

/// The most makers of a record: each party.
const MAX_MAKERS: u8 = 33;

/// The most tags of one maker: one for each party.
const MAX_TAGS: u8 = 33;

/// The tags of one maker, where they lie: an iterator. Contracts see those that are left, each with its
/// receiver.
#[derive(Drop)]
pub struct TagIter<'a> {
    fields: Fields<'a>,
    count: u32,
    least: u32,
}

impl<'a> Model for TagIter<'a> {
    ghost use Rattle.std.specs.Prelude.{ℕ, ◌+◌, List, IsOk};
    ghost use Rattle.nys_wire.specs.InPlace.{items_of};
    ghost use Rattle.nys_wire.specs.Reading.{each_at, tag_at};

    ghost Value = { List (ℕ × List ℕ) };

    ghost view = { λ t. items_of (each_at tag_at (λ x. x.0 + 1) t.count t.least t.fields) };

    ghost invariant = { λ t. IsOk (each_at tag_at (λ x. x.0 + 1) t.count t.least t.fields) };
}

impl<'a> TagIter<'a> {
    /// The tags that stand next.
    #[tactic(auto, unfolding(crate::specs::Reading::tags_at, crate::specs::Reading::counted_at))]
    fn read(fields: &mut Fields<'a>) -> Result<TagIter<'a>, RefFault>
        ensures { Finds result fields.new (tags_at fields.old) }
    {
        let count = fields.byte_within(1, MAX_TAGS, WireKind::Count)?;
        let first = fields.again();
        pass_tags(fields, count)?;
        Ok(TagIter {
            fields: first,
            count,
            least: 0,
        })
    }

    /// The same tags again.
    fn again(&self) -> TagIter<'a>
        ensures same { result ≡ self.now }
        ensures rule { AreTags self.now }
    {
        TagIter {
            fields: self.fields.again(),
            count: self.count,
            least: self.least,
        }
    }
}

impl<'a> Iterator for TagIter<'a> {
    ghost use Rattle.std.specs.Iterator.{YieldsFirstBy, item_count};

    type Item = (u32, &'a Tag);

    ghost next_gives = { YieldsFirstBy (λ x. (x.0, x.1.now)) (λ t. t) };

    ghost remaining = { item_count (λ t. t) };

    fn next(&mut self) -> Option<(u32, &'a Tag)> {
        if self.count == 0 {
            return None;
        }
        match tag(&mut self.fields, self.least) {
            Ok((receiver, tag)) => {
                self.count -= 1;
                self.least = receiver + 1;
                Some((receiver, tag))
            }
            Err(_) => None,
        }
    }
}

/// Passes so many tags.
fn pass_tags(fields: &mut Fields, count: u32) -> Result<(), RefFault>
    ensures { Passes result fields.new (each_at tag_at (λ t. t.0 + 1) count 0 fields.old) }
{
    let mut least = 0;
    for _ in 0..count {
        let (receiver, _) = tag(fields, least)?;
        least = receiver + 1;
    }
    Ok(())
}

/// A receiver, at least `least`, and its tag.
#[tactic(auto, unfolding(crate::specs::Reading::tag_at))]
fn tag<'a>(fields: &mut Fields<'a>, least: u32) -> Result<(u32, &'a Tag), RefFault>
    ensures tells { Tells (λ t. (t.0, t.1.now)) result fields.new (tag_at least fields.old) }
    ensures most { IfOk result (λ t. t.0 ≤ LAST_PARTY) }
{
    let receiver = fields.party(least)?;
    let tag = fields.tag()?;
    Ok((receiver, tag))
}

/// A maker and its tags, where they lie in a record. Contracts see it as `Tags`.
#[derive(Drop)]
pub struct MakerRef<'a> {
    maker: u32,
    tags: TagIter<'a>,
}

impl<'a> Model for MakerRef<'a> {
    ghost use Rattle.std.specs.Prelude.{◌≤◌};
    ghost use Rattle.nys_mac.specs.declared.keys.TheConstants.{LAST_PARTY};
    ghost use Rattle.nys_stmt.specs.declared.tags.Tags.{Tags};

    ghost Value = { Tags };

    ghost view = { λ m. record { maker = m.maker; tags = m.tags } };

    ghost invariant = { λ m. m.maker ≤ LAST_PARTY };
}

impl<'a> MakerRef<'a> {
    /// The maker that stands next, at least `least`.
    #[tactic(auto, unfolding(crate::specs::Reading::maker_at))]
    fn read(fields: &mut Fields<'a>, least: u32) -> Result<MakerRef<'a>, RefFault>
        ensures { Finds result fields.new (maker_at least fields.old) }
    {
        let maker = fields.party(least)?;
        let tags = TagIter::read(fields)?;
        Ok(MakerRef { maker, tags })
    }

    /// The party that made the statement.
    pub fn maker(&self) -> u32
        ensures maker { result ≡ self.now.maker }
        ensures party { result ≤ LAST_PARTY }
    {
        self.maker
    }

    /// The tag for a receiver, where the maker has one. Takes no memory.
    pub fn tag_for(&self, receiver: u32) -> Option<&'a Tag>
        ensures some { IfSome result (λ tag. Contains self.now.tags (receiver, tag.now)) }
        // It has none exactly where it has no tag for the receiver.
        ensures none { (result ≡ None) ↔ All (λ t. t.0 ≢ receiver) self.now.tags }
    {
        for (to, tag) in self.tags.again() {
            if to == receiver {
                return Some(tag);
            }
        }
        None
    }

    /// All its tags, each with its receiver: an iterator over the bytes. Takes no memory.
    pub fn each_tag(&self) -> TagIter<'a>
        ensures { result ≡ self.now.tags }
    {
        self.tags.again()
    }

    /// All its tags, with memory of their own.
    pub fn tags(&self, alloc: Global) -> Result<TagList, NoMemory>
        ensures { IfOk result (λ tags. tags ≡ self.now.tags) }
    {
        let mut tags = TagList::new(alloc);
        for (receiver, tag) in self.tags.again() {
            tags.push((receiver, *tag))?;
        }
        Ok(tags)
    }

    /// The maker and its tags, with memory of their own.
    pub fn owned(&self, alloc: Global) -> Result<Tags, NoMemory>
        ensures { IfOk result (λ tags. tags ≡ self.now) }
    {
        let tags = self.tags(alloc)?;
        Ok(Tags {
            maker: self.maker,
            tags,
        })
    }
}

/// The makers of a record, rising, each with its tags: an iterator over the bytes. Contracts see those
/// that are left. Takes no memory.
#[derive(Drop)]
pub struct MakerIter<'a> {
    fields: Fields<'a>,
    count: u32,
    least: u32,
}

impl<'a> Model for MakerIter<'a> {
    ghost use Rattle.std.specs.Prelude.{◌+◌, List, IsOk};
    ghost use Rattle.nys_stmt.specs.declared.tags.Tags.{Tags};
    ghost use Rattle.nys_wire.specs.InPlace.{items_of};
    ghost use Rattle.nys_wire.specs.Reading.{each_at, maker_at};

    ghost Value = { List Tags };

    ghost view = { λ m. items_of (each_at maker_at (λ t. t.maker + 1) m.count m.least m.fields) };

    ghost invariant = { λ m. IsOk (each_at maker_at (λ t. t.maker + 1) m.count m.least m.fields) };
}

impl<'a> MakerIter<'a> {
    /// The makers that stand next.
    #[tactic(auto, unfolding(crate::specs::Reading::makers_at, crate::specs::Reading::counted_at))]
    pub fn read(fields: &mut Fields<'a>) -> Result<MakerIter<'a>, RefFault>
        ensures { Finds result fields.new (makers_at fields.old) }
    {
        let count = fields.byte_within(1, MAX_MAKERS, WireKind::Count)?;
        let first = fields.again();
        pass_makers(fields, count)?;
        Ok(MakerIter {
            fields: first,
            count,
            least: 0,
        })
    }

    /// The same makers again.
    pub fn again(&self) -> MakerIter<'a>
        ensures same { result ≡ self.now }
        ensures rule { AreMakers self.now }
    {
        MakerIter {
            fields: self.fields.again(),
            count: self.count,
            least: self.least,
        }
    }

    /// The makers with memory of their own.
    pub fn owned(&self, alloc: Global) -> Result<MakerList, NoMemory>
        ensures { IfOk result (λ makers. makers ≡ self.now) }
    {
        let mut makers = MakerList::new(alloc);
        for maker in self.again() {
            let tags = maker.owned(alloc)?;
            makers.push(tags)?;
        }
        Ok(makers)
    }
}

impl<'a> Iterator for MakerIter<'a> {
    ghost use Rattle.std.specs.Iterator.{YieldsFirst, item_count};

    type Item = MakerRef<'a>;

    ghost next_gives = { YieldsFirst (λ m. m) };

    ghost remaining = { item_count (λ m. m) };

    fn next(&mut self) -> Option<MakerRef<'a>> {
        if self.count == 0 {
            return None;
        }
        match MakerRef::read(&mut self.fields, self.least) {
            Ok(maker) => {
                self.count -= 1;
                self.least = maker.maker() + 1;
                Some(maker)
            }
            Err(_) => None,
        }
    }
}

/// Passes so many makers.
fn pass_makers(fields: &mut Fields, count: u32) -> Result<(), RefFault>
    ensures { Passes result fields.new (each_at maker_at (λ t. t.maker + 1) count 0 fields.old) }
{
    let mut least = 0;
    for _ in 0..count {
        let maker = MakerRef::read(fields, least)?;
        least = maker.maker() + 1;
    }
    Ok(())
}
