//! The text of an answer, as a sink.

ghost use Rattle.std.specs.Prelude.{◌≡◌, ℕ, List, [], IfOk, Some};
ghost use Rattle.std.specs.Io.{WritesAtMost};
ghost use Rattle.std.specs.Io.KnownBytes.{WriteAppends};
ghost use Rattle.nys_outside.specs.Counts.{HasOutCause};

use nys_outside::{OutFault, Sink};
use std::alloc::Global;
use std::marker::Model;

/// The bytes written so far. A write takes its whole piece, and no write fails but for want of memory.
#[derive(Drop)]
pub(crate) struct Written {
    held: Vec<u8>,
}

impl Model for Written {
    ghost Value = { List ℕ };

    ghost view = { λ w. w.held.items };
}

impl Written {
    /// Nothing yet.
    pub(crate) fn new(alloc: Global) -> Written
        ensures { result ≡ [] }
    {
        Written {
            held: Vec::new(alloc),
        }
    }

    /// The bytes.
    pub(crate) fn bytes(&self) -> &[u8]
        ensures { result.now ≡ self.now }
    {
        &self.held
    }
}

impl Sink for Written {
    ghost written = { λ w. Some w };

    ghost faults = { λ _. 0 };

    fn write(&mut self, buf: &[u8]) -> Result<usize, OutFault>
        ensures bound { WritesAtMost result buf.now }
        ensures some { IfOk result (λ n. n ≡ 0 → buf.now ≡ []) }
        ensures bytes { WriteAppends (Some self.old) (Some self.new) result buf.now }
        ensures cause { HasOutCause 0 0 result }
    {
        self.held.extend_from_slice(buf)?;
        Ok(buf.len())
    }
}
