//! A reader of frames from bytes that come in pieces.

ghost use Rattle.std.specs.Prelude.{◌≡◌, ◌↔◌, ◌≤◌, ℕ, List, [], ◌++◌, Ok, Err, IfOk, IfSome, OnOk, OnErr, drop, true, false, length};
ghost use Rattle.byteorder.specs.Endian.{big_bytes, big_number};
ghost use Rattle.nys_outside.specs.Frames.{IsFrame};
ghost use Rattle.nys_frame.specs.Framing.{front_of, IsBad, IsNext, IsSpelled};
ghost use Rattle.nys_frame.specs.Framing as spec;

use crate::fault::FrameFault;
use byteorder::{BigEndian, ByteOrder};
use nys_bytes::NoMemory;
use nys_hosts::MAX_FRAME;
use std::alloc::Global;
use std::marker::Model;

/// The bytes of the length in front of a frame, the greatest first.
pub const LENGTH_BYTES: usize = 4;

/// Bytes that were fed and not yet given, cut anywhere between the pieces.
#[derive(Debug, Drop)]
pub struct FrameReader {
    held: Vec<u8>,
}

impl Model for FrameReader {
    ghost Value = { List ℕ };

    ghost view = { λ r. r.held.items };
}

impl FrameReader {
    /// A reader of no bytes. Takes no memory.
    pub fn new(alloc: Global) -> FrameReader
        ensures { result ≡ [] }
    {
        FrameReader {
            held: Vec::new(alloc),
        }
    }

    /// Appends a piece of any length. Refuses it where the length in front is none that a frame has:
    /// then nothing can be read any more.
    pub fn feed(&mut self, piece: &[u8]) -> Result<(), FrameFault>
        ensures ok { OnOk result (self.new ≡ self.old ++ piece.now) }
        ensures err { OnErr result (self.new ≡ self.old) }
        ensures bad { (size : ℕ) → (result ≡ Err (FrameFault.BadLength size)) ↔ IsBad self.old size }
    {
        self.front()?;
        self.held.extend_from_slice(piece)?;
        Ok(())
    }

    /// Puts the next frame into the buffer, and answers whether one was whole. A length in front that is 0
    /// or greater than `MAX_FRAME` is answered from then on. Where no frame is given, no byte is lost.
    pub fn next(&mut self, buf: &mut Vec<u8>) -> Result<bool, FrameFault>
        ensures answer { IsNext (front_of self.old) result buf.new.items self.old self.new }
        ensures whole { result ≡ Ok true → IsFrame buf.new.items }
        ensures none { result ≡ Ok false → buf.new.items ≡ buf.old.items }
        ensures bad { (size : ℕ) → (result ≡ Err (FrameFault.BadLength size)) ↔ IsBad self.old size }
    {
        let Some(size) = self.front()? else {
            return Ok(false);
        };
        let end = LENGTH_BYTES + size;
        buf.clear();
        buf.extend_from_slice(&self.held[LENGTH_BYTES..end])?;
        self.forget(end);
        Ok(true)
    }

    /// Makes room for a piece of so many bytes.
    pub fn make_room(&mut self, piece: usize) -> Result<(), NoMemory>
        ensures { self.new ≡ self.old }
    {
        self.held.reserve(piece)?;
        Ok(())
    }

    /// Drops the first bytes.
    fn forget(&mut self, count: usize)
        requires { count ≤ length self.old }
        ensures { self.new ≡ drop count self.old }
    {
        self.held.drain(..count);
    }

    /// The length of the frame in front, where it is whole.
    fn front(&self) -> Result<Option<usize>, FrameFault>
        ensures front { result ≡ front_of self.now }
        ensures spelled { IfOk result (λ found. IfSome found (λ size. IsSpelled self.now size)) }
    {
        if self.held.len() < LENGTH_BYTES {
            return Ok(None);
        }
        let size = number_of(&self.held[..LENGTH_BYTES]);
        if !is_frame_length(size) {
            return Err(FrameFault::BadLength(size));
        }
        let size = size as usize;
        if self.held.len() < LENGTH_BYTES + size {
            return Ok(None);
        }
        Ok(Some(size))
    }
}

fn number_of(field: &[u8]) -> u32
    requires { length field.now ≡ LENGTH_BYTES }
    ensures number { result ≡ big_number LENGTH_BYTES field.now }
    ensures bytes { big_bytes LENGTH_BYTES result ≡ field.now }
{
    BigEndian::read_u32(field)
}

fn is_frame_length(size: u32) -> bool
    ensures { result ≡ spec.is_frame_length size }
{
    0 < size && size as usize <= MAX_FRAME
}
