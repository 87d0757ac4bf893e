//! The document that was handed in, as a source.

ghost use Rattle.std.specs.Prelude.{◌≡◌, [], IfOk, Some};
ghost use Rattle.std.specs.Io.{ReadsAtMost};
ghost use Rattle.nys_outside.specs.Counts.{HasCause};
ghost use Rattle.nys_outside.specs.Input.{Input, Reads, fresh};

use nys_bytes::NoMemory;
use nys_outside::{Failed, MemSource, Source};
use std::alloc::Global;
use std::marker::Model;

/// A copy of the caller's bytes, which tells how far they were read. No read of it fails.
#[derive(Drop)]
pub(crate) struct Document {
    held: MemSource,
}

impl Model for Document {
    ghost Value = { Input };

    ghost view = { λ d. d.held.input };

    ghost invariant = { λ d. d.held.calls.fails ≡ [] };
}

impl Document {
    /// A document of which nothing was read.
    pub(crate) fn new(alloc: Global, bytes: &[u8]) -> Result<Document, NoMemory>
        ensures { IfOk result (λ document. document ≡ fresh bytes.now) }
    {
        let held = MemSource::new(alloc, bytes, &[])?;
        Ok(Document { held })
    }
}

impl Source for Document {
    ghost told = { λ d. Some d };

    ghost faults = { λ _. 0 };

    fn read(&mut self, buf: &mut [u8]) -> Result<usize, Failed>
        ensures bound { ReadsAtMost result buf.new }
        ensures bytes { Reads (Some self.old) (Some self.new) result buf.new }
        ensures cause { HasCause 0 0 result }
    {
        self.held.read(buf)
    }
}
