//! One end of a stream between two hosts.

ghost use Rattle.std.specs.Prelude.{◌≡◌, ◌≢◌, Some};
ghost use Rattle.nys_outside.specs.Frames.{IsFrame};

use crate::fault::FrameFault;
use crate::reader::{FrameReader, LENGTH_BYTES};
use nys_hosts::MAX_FRAME;
use nys_outside::{Failed, Got};
use std::alloc::Global;
use std::io::{ErrorKind, Read, Write};
use std::net::{OpenStream, Shutdown};

/// The bytes that one read takes at most.
const PIECE: usize = 4096;

/// The reads of one poll at most: more than bring the greatest frame with its length, if it is there.
const READS: usize = (LENGTH_BYTES + MAX_FRAME) / PIECE + 2;

/// A stream that doesn't wait, and what was read of the frames that come over it.
#[derive(Drop)]
pub struct End<S: Read + Write + OpenStream + Drop> {
    stream: S,
    reader: FrameReader,
}

impl<S: Read + Write + OpenStream + Drop> End<S> {
    /// An end over which nothing came. Takes no memory.
    pub fn new(alloc: Global, stream: S) -> End<S> {
        End {
            stream,
            reader: FrameReader::new(alloc),
        }
    }

    /// Sends a frame with its length in one write, which fails where it would wait or is short. After a
    /// short one nothing more is sent: the other end finds the stream closed behind the whole frames.
    pub fn send(&mut self, framed: &[u8]) -> Result<(), Failed> {
        match self.stream.write(framed) {
            Ok(count) if count == framed.len() => Ok(()),
            Ok(_) => {
                let _ = self.stream.shutdown(Shutdown::Write);
                Err(Failed)
            }
            Err(_) => Err(Failed),
        }
    }

    /// Puts the oldest frame that came into the buffer, if it came whole. Reads no more than it needs, and
    /// where it answers `NoMemory` no byte is lost.
    pub fn poll(&mut self, buf: &mut Vec<u8>) -> Got
        ensures { result ≡ Got.Frame → IsFrame buf.new.items }
    {
        for _ in 0..READS {
            if let Some(got) = self.give(buf) {
                return got;
            }
            if let Some(got) = self.read() {
                return got;
            }
        }
        Got::NotYet
    }

    /// What the bytes that were read answer; nothing where they are less than a frame.
    fn give(&mut self, buf: &mut Vec<u8>) -> Option<Got>
        ensures { result ≡ Some Got.Frame → IsFrame buf.new.items }
    {
        match self.reader.next(buf) {
            Ok(true) => Some(Got::Frame),
            Ok(false) => None,
            Err(FrameFault::BadLength(_)) => Some(Got::Closed),
            Err(FrameFault::NoMemory) => Some(Got::NoMemory),
        }
    }

    /// Reads once, and answers why no byte came; nothing where one did.
    fn read(&mut self) -> Option<Got>
        ensures { result ≢ Some Got.Frame }
    {
        if self.reader.make_room(PIECE).is_err() {
            return Some(Got::NoMemory);
        }
        let mut piece = [0u8; PIECE];
        match self.stream.read(&mut piece) {
            Ok(0) => Some(Got::Closed),
            Ok(count) => self.feed(&piece[..count]),
            Err(error) if error.kind() == ErrorKind::WouldBlock => Some(Got::NotYet),
            Err(_) => Some(Got::Failed),
        }
    }

    fn feed(&mut self, piece: &[u8]) -> Option<Got>
        ensures { result ≢ Some Got.Frame }
    {
        match self.reader.feed(piece) {
            Ok(()) => None,
            Err(FrameFault::BadLength(_)) => Some(Got::Closed),
            Err(FrameFault::NoMemory) => Some(Got::NoMemory),
        }
    }
}
