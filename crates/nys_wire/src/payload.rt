//! Payloads, read in place.

ghost use Rattle.std.specs.Prelude.{◌≡◌, ◌≤◌, ◌+◌, ◌*◌, List, length, IfOk, OnErr, Err};
ghost use Rattle.std.specs.Prelude.{◌++◌};
ghost use Rattle.byteorder.specs.Endian.{big_bytes};
ghost use Rattle.sha2.specs.Sha256.{sha256};
ghost use Rattle.nys_stmt.specs.Spelling.{digest, payload_bytes};
ghost use Rattle.nys_wire.specs.Answers.{Finds};
ghost use Rattle.nys_wire.specs.InPlace.{number_of, numbers_in};
ghost use Rattle.nys_wire.specs.Reading.{payload_at};

use crate::fault::RefFault;
use crate::fields::Fields;
use byteorder::{BigEndian, ByteOrder};
use nys_bytes::{MAX_NUMBERS, NoMemory, Payload, PayloadFault};
use nys_stmt::{DIGEST_LEN, WireKind};
use sha2::{Digest, Sha256};
use std::alloc::Global;
use std::marker::Model;

/// The bytes of a number of a payload.
const NUMBER_LEN: usize = 8;

/// The bytes of the count of the numbers.
const COUNT_LEN: usize = 2;

/// A payload, where its numbers lie. Contracts see the numbers.
#[derive(Drop)]
pub struct PayloadRef<'a> {
    count: u32,
    numbers: &'a [u8],
}

impl<'a> Model for PayloadRef<'a> {
    ghost use Rattle.std.specs.Prelude.{ℤ, List};
    ghost use Rattle.nys_wire.specs.InPlace.{numbers_in, AreNumbers};

    ghost Value = { List ℤ };

    ghost view = { λ p. numbers_in p.count p.numbers.now };

    ghost invariant = { λ p. AreNumbers p.count p.numbers.now };
}

impl<'a> PayloadRef<'a> {
    /// The payload that stands next.
    #[tactic(auto, unfolding(crate::specs::Reading::payload_at, crate::specs::Reading::counted_at))]
    pub fn read(fields: &mut Fields<'a>) -> Result<PayloadRef<'a>, RefFault>
        ensures { Finds result fields.new (payload_at fields.old) }
    {
        let count = fields.two_within(1, MAX_NUMBERS as u16, WireKind::Count)?;
        let numbers = fields.take(NUMBER_LEN * count as usize)?;
        Ok(PayloadRef { count, numbers })
    }

    /// How many bytes its spelling has.
    pub fn size(&self) -> usize
        ensures { result ≡ length (payload_bytes self.now) }
    {
        COUNT_LEN + self.numbers.len()
    }

    /// Its digest, over the bytes where they lie. Takes no memory.
    pub fn digest(&self) -> [u8; DIGEST_LEN]
        ensures { result ≡ digest self.now }
    {
        hashed(self.count as u16, self.numbers)
    }

    /// The payload with memory of its own.
    pub fn owned(&self, alloc: Global) -> Result<Payload, NoMemory>
        ensures { IfOk result (λ payload. payload ≡ self.now) }
    {
        let numbers = numbers(alloc, self.count, self.numbers)?;
        payload_of(alloc, numbers.as_slice())
    }
}

fn hashed(count: u16, numbers: &[u8]) -> [u8; DIGEST_LEN]
    ensures { result ≡ sha256 (big_bytes 2 count ++ numbers.now) }
{
    let mut hasher = Sha256::new();
    hasher.update(&count.to_be_bytes());
    hasher.update(numbers);
    hasher.finalize()
}

/// So many numbers.
fn numbers(alloc: Global, count: u32, bytes: &[u8]) -> Result<Vec<i64>, NoMemory>
    requires { length bytes.now ≡ 8 * count }
    ensures { IfOk result (λ numbers. numbers.items ≡ numbers_in count bytes.now) }
{
    let mut numbers = Vec::new(alloc);
    let mut left = bytes;
    for _ in 0..count {
        let (field, rest) = left.split_at(NUMBER_LEN);
        numbers.push(number_of(field))?;
        left = rest;
    }
    Ok(numbers)
}

fn number_of(field: &[u8]) -> i64
    requires { length field.now ≡ 8 }
    ensures { result ≡ number_of field.now }
{
    eight_of(field).cast_signed()
}

fn eight_of(field: &[u8]) -> u64
    requires { length field.now ≡ 8 }
    ensures { big_bytes 8 result ≡ field.now }
{
    BigEndian::read_u64(field)
}

fn payload_of(alloc: Global, numbers: &[i64]) -> Result<Payload, NoMemory>
    requires some { 1 ≤ length numbers.now }
    requires few { length numbers.now ≤ MAX_NUMBERS }
    ensures { IfOk result (λ payload. payload ≡ numbers.now) }
{
    match Payload::new(alloc, numbers) {
        Ok(payload) => Ok(payload),
        Err(PayloadFault::Length) => Err(NoMemory),
        Err(PayloadFault::NoMemory) => Err(NoMemory),
    }
}
