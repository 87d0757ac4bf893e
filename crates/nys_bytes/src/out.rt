//! Bytes that are written one piece after another.

ghost use Rattle.std.specs.Prelude.{◌≡◌, ℕ, List, [], ◌∷◌, ◌++◌, OnOk, OnErr};
ghost use Rattle.byteorder.specs.Endian.{big_bytes};

use crate::fault::NoMemory;
use byteorder::{BigEndian, ByteOrder};
use std::alloc::Global;
use std::marker::Model;

/// The bytes so far, in memory that grows. A call that answers `NoMemory` leaves them as they were.
#[derive(Debug, Drop)]
pub struct Out {
    held: Vec<u8>,
}

impl Model for Out {
    ghost Value = { List ℕ };

    ghost view = { λ o. o.held.items };
}

impl Out {
    /// No bytes yet. Takes no memory.
    pub fn new(alloc: Global) -> Out
        ensures { result ≡ [] }
    {
        Out {
            held: Vec::new(alloc),
        }
    }

    /// Appends these bytes.
    pub fn put(&mut self, bytes: &[u8]) -> Result<(), NoMemory>
        ensures ok { OnOk result (self.new ≡ self.old ++ bytes.now) }
        ensures err { OnErr result (self.new ≡ self.old) }
    {
        self.held.extend_from_slice(bytes)?;
        Ok(())
    }

    /// Appends one byte.
    pub fn put_u8(&mut self, value: u8) -> Result<(), NoMemory>
        ensures ok { OnOk result (self.new ≡ self.old ++ value ∷ []) }
        ensures err { OnErr result (self.new ≡ self.old) }
    {
        self.put(&[value])
    }

    /// Appends a number in two bytes, the greatest first.
    pub fn put_u16(&mut self, value: u16) -> Result<(), NoMemory>
        ensures ok { OnOk result (self.new ≡ self.old ++ big_bytes 2 value) }
        ensures err { OnErr result (self.new ≡ self.old) }
    {
        let mut field = [0u8; 2];
        BigEndian::write_u16(&mut field, value);
        self.put(&field)
    }

    /// Appends a number in four bytes, the greatest first.
    pub fn put_u32(&mut self, value: u32) -> Result<(), NoMemory>
        ensures ok { OnOk result (self.new ≡ self.old ++ big_bytes 4 value) }
        ensures err { OnErr result (self.new ≡ self.old) }
    {
        let mut field = [0u8; 4];
        BigEndian::write_u32(&mut field, value);
        self.put(&field)
    }

    /// Appends a number in eight bytes, the greatest first.
    pub fn put_u64(&mut self, value: u64) -> Result<(), NoMemory>
        ensures ok { OnOk result (self.new ≡ self.old ++ big_bytes 8 value) }
        ensures err { OnErr result (self.new ≡ self.old) }
    {
        let mut field = [0u8; 8];
        BigEndian::write_u64(&mut field, value);
        self.put(&field)
    }

    /// The bytes as a vector, with no copy.
    pub fn into_bytes(self) -> Vec<u8>
        ensures { result.items ≡ self }
    {
        self.held
    }
}
