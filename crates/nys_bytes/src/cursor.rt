//! Bytes that are read one field after another.

ghost use Rattle.std.specs.Prelude.{◌≡◌, ◌≤◌, ◌+◌, ◌-◌, ◌↔◌, ℕ, List, ◌∷◌, [], ◌++◌, length, IsOk, IfOk, OnErr};
ghost use Rattle.byteorder.specs.Endian.{big_bytes};
ghost use Rattle.nys_bytes.specs.Reading.{Reading};

use crate::fault::Short;
use byteorder::{BigEndian, ByteOrder};
use std::marker::Model;

/// A reader that stands at a place of some bytes. A call that answers `Short` leaves it there; no
/// call takes memory.
#[derive(Debug, Drop)]
pub struct Cursor<'a> {
    whole: &'a [u8],
    left: &'a [u8],
}

impl<'a> Model for Cursor<'a> {
    ghost Value = { Reading };

    ghost view = { λ c. record { place = length c.whole.now - length c.left.now; left = c.left.now } };

    ghost invariant = { λ c. length c.left.now ≤ length c.whole.now };
}

impl<'a> Cursor<'a> {
    /// A reader at the first of these bytes.
    pub fn new(bytes: &'a [u8]) -> Cursor<'a>
        ensures place { result.place ≡ 0 }
        ensures left { result.left ≡ bytes.now }
    {
        Cursor {
            whole: bytes,
            left: bytes,
        }
    }

    /// How many bytes were passed.
    pub fn place(&self) -> usize
        ensures { result ≡ self.now.place }
    {
        self.whole.len() - self.left.len()
    }

    /// The next `n` bytes.
    pub fn take(&mut self, n: usize) -> Result<&'a [u8], Short>
        ensures found { IsOk result ↔ (n ≤ length self.old.left) }
        ensures size { IfOk result (λ field. length field.now ≡ n) }
        ensures read { IfOk result (λ field. self.old.left ≡ field.now ++ self.new.left) }
        ensures place { IfOk result (λ _. self.new.place ≡ self.old.place + n) }
        ensures err { OnErr result (self.new ≡ self.old) }
    {
        if self.left.len() < n {
            return Err(Short);
        }
        let (field, rest) = self.left.split_at(n);
        self.left = rest;
        Ok(field)
    }

    /// The next byte.
    pub fn u8(&mut self) -> Result<u8, Short>
        ensures found { IsOk result ↔ (1 ≤ length self.old.left) }
        ensures read { IfOk result (λ value. self.old.left ≡ value ∷ self.new.left) }
        ensures place { IfOk result (λ _. self.new.place ≡ self.old.place + 1) }
        ensures err { OnErr result (self.new ≡ self.old) }
    {
        let field = self.take(1)?;
        Ok(field[0])
    }

    /// The number in the next two bytes, the greatest first.
    pub fn u16(&mut self) -> Result<u16, Short>
        ensures found { IsOk result ↔ (2 ≤ length self.old.left) }
        ensures read { IfOk result (λ value. self.old.left ≡ big_bytes 2 value ++ self.new.left) }
        ensures place { IfOk result (λ _. self.new.place ≡ self.old.place + 2) }
        ensures err { OnErr result (self.new ≡ self.old) }
    {
        let field = self.take(2)?;
        Ok(u16_of(field))
    }

    /// The number in the next four bytes, the greatest first.
    pub fn u32(&mut self) -> Result<u32, Short>
        ensures found { IsOk result ↔ (4 ≤ length self.old.left) }
        ensures read { IfOk result (λ value. self.old.left ≡ big_bytes 4 value ++ self.new.left) }
        ensures place { IfOk result (λ _. self.new.place ≡ self.old.place + 4) }
        ensures err { OnErr result (self.new ≡ self.old) }
    {
        let field = self.take(4)?;
        Ok(u32_of(field))
    }

    /// The number in the next eight bytes, the greatest first.
    pub fn u64(&mut self) -> Result<u64, Short>
        ensures found { IsOk result ↔ (8 ≤ length self.old.left) }
        ensures read { IfOk result (λ value. self.old.left ≡ big_bytes 8 value ++ self.new.left) }
        ensures place { IfOk result (λ _. self.new.place ≡ self.old.place + 8) }
        ensures err { OnErr result (self.new ≡ self.old) }
    {
        let field = self.take(8)?;
        Ok(u64_of(field))
    }
}

// Beside the laws of `byteorder`: the bytes of a number that was read are those from which it was read.

fn u16_of(field: &[u8]) -> u16
    requires { length field.now ≡ 2 }
    ensures { big_bytes 2 result ≡ field.now }
{
    BigEndian::read_u16(field)
}

fn u32_of(field: &[u8]) -> u32
    requires { length field.now ≡ 4 }
    ensures { big_bytes 4 result ≡ field.now }
{
    BigEndian::read_u32(field)
}

fn u64_of(field: &[u8]) -> u64
    requires { length field.now ≡ 8 }
    ensures { big_bytes 8 result ≡ field.now }
{
    BigEndian::read_u64(field)
}
