//! A source whose bytes stand in memory.

ghost use Rattle.std.specs.Prelude.{◌≡◌, ◌↔◌, ◌≤◌, ℕ, List, length, take, drop, min, IfOk, IsErr, IsTrue, Some};
ghost use Rattle.std.specs.Io.{ReadsAtMost};
ghost use Rattle.nys_outside.specs.Counts.{HasCause, RoseOnce, Calls, first_calls, is_listed};
ghost use Rattle.nys_outside.specs.Input.{Input, Reads, fresh};
ghost use Rattle.nys_outside.specs.Memory.{MemInput};

use crate::calls::CallList;
use crate::fault::Failed;
use crate::source::Source;
use nys_bytes::NoMemory;
use std::alloc::Global;
use std::marker::Model;

/// Bytes in memory, which tell how far they were read. The reads whose numbers were listed fail.
#[derive(Debug, Drop)]
pub struct MemSource {
    bytes: Vec<u8>,
    at: usize,
    calls: CallList,
}

impl Model for MemSource {
    ghost Value = { MemInput };

    ghost view = { λ s. record {
      input = record { taken = take s.at s.bytes.items; left = drop s.at s.bytes.items; reads = s.calls.made };
      calls = s.calls;
    } };

    ghost invariant = { λ s. s.at ≤ length s.bytes.items };
}

impl MemSource {
    /// A source of these bytes, of which no read was made. The reads with the numbers in `fails` fail,
    /// the first one being number 0.
    pub fn new(alloc: Global, bytes: &[u8], fails: &[u32]) -> Result<MemSource, NoMemory>
        ensures input { IfOk result (λ source. source.input ≡ fresh bytes.now) }
        ensures calls { IfOk result (λ source. source.calls ≡ first_calls fails.now) }
    {
        Ok(MemSource {
            bytes: Vec::from_slice(alloc, bytes)?,
            at: 0,
            calls: CallList::new(alloc, fails)?,
        })
    }
}

/// Copies as many bytes as there are and fit to the front of the buffer.
fn copy_front(bytes: &[u8], buf: &mut [u8]) -> usize
    ensures size { result ≡ min (length bytes.now) (length buf.old) }
    ensures copied { take result buf.new ≡ take result bytes.now }
{
    let n = bytes.len().min(buf.len());
    buf[..n].copy_from_slice(&bytes[..n]);
    n
}

impl Source for MemSource {
    ghost told = { λ s. Some s.input };

    ghost faults = { λ s. s.calls.faults };

    /// Fails exactly where the number of the read was listed.
    fn read(&mut self, buf: &mut [u8]) -> Result<usize, Failed>
        ensures bound { ReadsAtMost result buf.new }
        ensures bytes { Reads (Some self.old.input) (Some self.new.input) result buf.new }
        ensures cause { HasCause self.old.calls.faults self.new.calls.faults result }
        ensures listed { IsErr result ↔ IsTrue (is_listed self.old.calls) }
        ensures fails { self.new.calls.fails ≡ self.old.calls.fails }
        ensures made { RoseOnce self.old.calls.made self.new.calls.made }
    {
        self.calls.begin()?;
        let n = copy_front(&self.bytes[self.at..], buf);
        self.at += n;
        Ok(n)
    }
}
