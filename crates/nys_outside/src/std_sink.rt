//! A sink that adapts a writer of std.

ghost use Rattle.std.specs.Prelude.{◌≡◌, ◌≤◌, ℕ, [], length, None, IfSome};

use crate::fault::OutFault;
use crate::sink::Sink;
use std::io::Write;

/// A writer, and how often it has failed. It tells no content.
#[derive(Drop)]
pub struct StdSink<W: Write + Drop> {
    writer: W,
    faults: u64,
}

impl<W: Write + Drop> StdSink<W> {
    /// The writer as a sink without faults.
    pub fn new(writer: W) -> StdSink<W>
        ensures { ⟦<StdSink<W> as Sink>⟧.faults result ≡ 0 }
    {
        StdSink { writer, faults: 0 }
    }
}

/// One write and a flush: how much was taken, where both went well and the write took something of a
/// piece that isn't empty.
fn write_through<W: Write>(writer: &mut W, buf: &[u8]) -> Option<usize>
    ensures bound { IfSome result (λ n. n ≤ length buf.now) }
    ensures some { IfSome result (λ n. n ≡ 0 → buf.now ≡ []) }
{
    let taken = writer.write(buf).ok()?;
    writer.flush().ok()?;
    if taken == 0 && !buf.is_empty() {
        return None;
    }
    Some(taken)
}

impl<W: Write + Drop> Sink for StdSink<W> {
    ghost written = { λ _. None };

    ghost faults = { λ s. s.faults };

    /// One write of the writer and a flush. Whatever error they answer is a fault, and so is a write
    /// that takes nothing of a piece that isn't empty.
    fn write(&mut self, buf: &[u8]) -> Result<usize, OutFault> {
        match write_through(&mut self.writer, buf) {
            Some(n) => Ok(n),
            None => {
                self.faults = self.faults.saturating_add(1);
                Err(OutFault::Failed)
            }
        }
    }
}
