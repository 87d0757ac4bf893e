//! A sink that keeps its bytes in memory.

ghost use Rattle.std.specs.Prelude.{◌≡◌, ◌↔◌, ℕ, List, [], IfOk, IsErrOf, IsTrue, Some};
ghost use Rattle.std.specs.Io.{WritesAtMost};
ghost use Rattle.std.specs.Io.KnownBytes.{WriteAppends};
ghost use Rattle.nys_outside.specs.Counts.{HasOutCause, RoseOnce, Calls, first_calls, is_listed};
ghost use Rattle.nys_outside.specs.Memory.{MemOutput};

use crate::calls::CallList;
use crate::fault::OutFault;
use crate::sink::Sink;
use nys_bytes::NoMemory;
use std::alloc::Global;
use std::marker::Model;

/// The bytes written so far. Each write takes its whole piece; those whose numbers were listed fail.
#[derive(Debug, Drop)]
pub struct MemSink {
    bytes: Vec<u8>,
    calls: CallList,
}

impl Model for MemSink {
    ghost Value = { MemOutput };

    ghost view = { λ s. record { written = s.bytes.items; calls = s.calls } };
}

impl MemSink {
    /// A sink to which nothing was written. The writes with the numbers in `fails` fail, the first one
    /// being number 0.
    pub fn new(alloc: Global, fails: &[u32]) -> Result<MemSink, NoMemory>
        ensures written { IfOk result (λ sink. sink.written ≡ []) }
        ensures calls { IfOk result (λ sink. sink.calls ≡ first_calls fails.now) }
    {
        Ok(MemSink {
            bytes: Vec::new(alloc),
            calls: CallList::new(alloc, fails)?,
        })
    }

    /// The bytes that were written.
    pub fn written(&self) -> &[u8]
        ensures { result.now ≡ self.now.written }
    {
        &self.bytes
    }
}

impl Sink for MemSink {
    ghost written = { λ s. Some s.written };

    ghost faults = { λ s. s.calls.faults };

    /// Fails exactly where the number of the write was listed.
    fn write(&mut self, buf: &[u8]) -> Result<usize, OutFault>
        ensures bound { WritesAtMost result buf.now }
        ensures some { IfOk result (λ n. n ≡ 0 → buf.now ≡ []) }
        ensures bytes { WriteAppends (Some self.old.written) (Some self.new.written) result buf.now }
        ensures cause { HasOutCause self.old.calls.faults self.new.calls.faults result }
        ensures listed { IsErrOf result OutFault.Failed ↔ IsTrue (is_listed self.old.calls) }
        ensures fails { self.new.calls.fails ≡ self.old.calls.fails }
        ensures made { RoseOnce self.old.calls.made self.new.calls.made }
    {
        self.calls.begin()?;
        self.bytes.extend_from_slice(buf)?;
        Ok(buf.len())
    }
}
