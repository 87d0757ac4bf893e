//! The fields of which statements and records are made.

ghost use Rattle.std.specs.Prelude.{◌≡◌, ◌==◌, ◌<◌, ◌≤◌, ◌-◌, ◌+◌, length, All, IfOk};
ghost use Rattle.std.specs.Int.{w16};
ghost use Rattle.byteorder.specs.Endian.{big_bytes};
ghost use Rattle.nys_stmt.specs.Lists.{IsLength};
ghost use Rattle.nys_wire.specs.Answers.{Finds, Tells};
ghost use Rattle.nys_wire.specs.Reading.{byte_at, bytes_at, host_at, length_at, number_at, party_at, upto_at, within};

use crate::fault::RefFault;
use byteorder::{BigEndian, ByteOrder};
use nys_mac::{LAST_PARTY, TAG_LEN, Tag};
use nys_stmt::{MAX_HOST, MAX_LENGTH, WireKind};
use std::marker::Model;

/// What stands in the place of a length for a retired host.
const RETIRED: u16 = 0xffff;

/// A reader that stands at a field. Contracts see its place and the bytes from there on. No call takes
/// memory.
#[derive(Drop)]
pub struct Fields<'a> {
    left: &'a [u8],
    size: usize,
}

impl<'a> Model for Fields<'a> {
    ghost use Rattle.std.specs.Prelude.{◌-◌, ◌≤◌, length};
    ghost use Rattle.nys_bytes.specs.Reading.{Reading};

    ghost Value = { Reading };

    ghost view = { λ f. record { place = f.size - length f.left.now; left = f.left.now } };

    ghost invariant = { λ f. length f.left.now ≤ f.size };
}

impl<'a> Fields<'a> {
    /// A reader at the first of these bytes.
    pub fn new(bytes: &'a [u8]) -> Fields<'a>
        ensures place { result.place ≡ 0 }
        ensures left { result.left ≡ bytes.now }
    {
        Fields {
            left: bytes,
            size: bytes.len(),
        }
    }

    /// Another reader at the same field.
    pub fn again(&self) -> Fields<'a>
        ensures { result ≡ self.now }
    {
        Fields {
            left: self.left,
            size: self.size,
        }
    }

    /// The place of the next field.
    pub fn place(&self) -> usize
        ensures { result ≡ self.now.place }
    {
        self.size - self.left.len()
    }

    /// Whether no byte is left.
    pub fn is_at_end(&self) -> bool
        ensures { result ≡ (length self.now.left == 0) }
    {
        self.left.is_empty()
    }

    /// A field that has more bytes than are left.
    fn short(&self) -> RefFault
        ensures place { result.place ≡ self.now.place + length self.now.left }
        ensures kind { result.kind ≡ WireKind.Short }
    {
        RefFault {
            place: self.size,
            kind: WireKind::Short,
        }
    }

    /// The next `n` bytes, as they lie.
    pub fn take(&mut self, n: usize) -> Result<&'a [u8], RefFault>
        ensures lies { Tells (λ field. field.now) result self.new (bytes_at n self.old) }
        ensures each { IfOk result (λ field. All (λ b. b < 256) field.now) }
    {
        if self.left.len() < n {
            return Err(self.short());
        }
        let (field, rest) = self.left.split_at(n);
        self.left = rest;
        Ok(each_below(field))
    }

    /// One byte.
    #[tactic(auto, unfolding(crate::specs::Reading::byte_at))]
    pub fn byte(&mut self) -> Result<u8, RefFault>
        ensures { Finds result self.new (byte_at self.old) }
    {
        match self.left.split_first() {
            Some((first, rest)) => {
                self.left = rest;
                Ok(*first)
            }
            None => Err(self.short()),
        }
    }

    /// A number of two bytes.
    pub fn two(&mut self) -> Result<u16, RefFault>
        ensures { Finds result self.new (number_at w16 self.old) }
    {
        let field = self.take(2)?;
        Ok(two_of(field))
    }

    /// A number of one byte that is within a range, else a fault of this kind.
    #[tactic(auto, unfolding(crate::specs::Reading::within))]
    pub fn byte_within(&mut self, least: u8, most: u8, kind: WireKind) -> Result<u32, RefFault>
        ensures gives { Finds result self.new (within least most kind byte_at self.old) }
        ensures least { IfOk result (λ value. least ≤ value) }
        ensures most { IfOk result (λ value. value ≤ most) }
    {
        let place = self.place();
        let value = self.byte()?;
        if least <= value && value <= most {
            Ok(value as u32)
        } else {
            Err(RefFault { place, kind })
        }
    }

    /// A number of two bytes that is within a range, else a fault of this kind.
    #[tactic(auto, unfolding(crate::specs::Reading::within))]
    pub fn two_within(&mut self, least: u16, most: u16, kind: WireKind) -> Result<u32, RefFault>
        ensures gives { Finds result self.new (within least most kind (number_at w16) self.old) }
        ensures least { IfOk result (λ value. least ≤ value) }
        ensures most { IfOk result (λ value. value ≤ most) }
    {
        let place = self.place();
        let value = self.two()?;
        if least <= value && value <= most {
            Ok(value as u32)
        } else {
            Err(RefFault { place, kind })
        }
    }

    /// A host or a sender.
    pub fn host(&mut self) -> Result<u32, RefFault>
        ensures { Finds result self.new (host_at self.old) }
    {
        self.byte_within(0, MAX_HOST as u8, WireKind::Range)
    }

    /// A number of two bytes that is at most this.
    pub fn upto(&mut self, most: u16) -> Result<u32, RefFault>
        ensures gives { Finds result self.new (upto_at most self.old) }
        ensures most { IfOk result (λ value. value ≤ most) }
    {
        self.two_within(0, most, WireKind::Range)
    }

    /// A maker or a receiver, at least `least`.
    #[tactic(auto, unfolding(crate::specs::Reading::party_at))]
    pub fn party(&mut self, least: u32) -> Result<u32, RefFault>
        ensures gives { Finds result self.new (party_at least self.old) }
        ensures least { IfOk result (λ party. least ≤ party) }
        ensures most { IfOk result (λ party. party ≤ LAST_PARTY) }
    {
        let place = self.place();
        let party = self.byte()? as u32;
        if party > LAST_PARTY {
            return Err(RefFault {
                place,
                kind: WireKind::Range,
            });
        }
        if party < least {
            return Err(RefFault {
                place,
                kind: WireKind::Order,
            });
        }
        Ok(party)
    }

    /// A member of an opening.
    #[tactic(auto, unfolding(crate::specs::Reading::length_at))]
    pub fn length(&mut self) -> Result<Option<u32>, RefFault>
        ensures gives { Finds result self.new (length_at self.old) }
        ensures member { IfOk result (λ member. IsLength member) }
    {
        let place = self.place();
        let value = self.two()?;
        if value == RETIRED {
            return Ok(None);
        }
        let value = value as u32;
        if value <= MAX_LENGTH {
            Ok(Some(value))
        } else {
            Err(RefFault {
                place,
                kind: WireKind::Range,
            })
        }
    }

    /// A tag, as it lies.
    pub fn tag(&mut self) -> Result<&'a Tag, RefFault>
        ensures { Tells (λ tag. tag.now) result self.new (bytes_at TAG_LEN self.old) }
    {
        let field = self.take(TAG_LEN)?;
        match field.try_into() {
            Ok(tag) => Ok(tag),
            Err(_) => Err(self.short()),
        }
    }
}

/// The same bytes, of which it is then known that each is below 256.
fn each_below(field: &[u8]) -> &[u8]
    ensures same { result.now ≡ field.now }
    ensures below { All (λ b. b < 256) result.now }
{
    field
}

fn two_of(field: &[u8]) -> u16
    requires { length field.now ≡ 2 }
    ensures { big_bytes 2 result ≡ field.now }
{
    BigEndian::read_u16(field)
}
