//! A source that adapts a reader of std.

ghost use Rattle.std.specs.Prelude.{◌≡◌, ℕ, None};

use crate::fault::Failed;
use crate::source::Source;
use std::io::Read;

/// A reader, and how often it has failed. It tells no content.
#[derive(Drop)]
pub struct StdSource<R: Read + Drop> {
    reader: R,
    faults: u64,
}

impl<R: Read + Drop> StdSource<R> {
    /// The reader as a source without faults.
    pub fn new(reader: R) -> StdSource<R>
        ensures { ⟦<StdSource<R> as Source>⟧.faults result ≡ 0 }
    {
        StdSource { reader, faults: 0 }
    }
}

impl<R: Read + Drop> Source for StdSource<R> {
    ghost told = { λ _. None };

    ghost faults = { λ s. s.faults };

    /// One read of the reader. Whatever error it answers is a fault.
    fn read(&mut self, buf: &mut [u8]) -> Result<usize, Failed> {
        match self.reader.read(buf) {
            Ok(n) => Ok(n),
            Err(_) => {
                self.faults = self.faults.saturating_add(1);
                Err(Failed)
            }
        }
    }
}
