//! Where bytes go.

ghost use Rattle.std.specs.Prelude.{◌≡◌, ℕ, List, [], Option, IfOk};
ghost use Rattle.std.specs.Io.{WritesAtMost};
ghost use Rattle.std.specs.Io.KnownBytes.{WriteAppends};
ghost use Rattle.nys_outside.specs.Counts.{HasOutCause};

use crate::fault::OutFault;

/// A sink of bytes. A write that would take nothing of a non-empty piece is a fault.
pub trait Sink {
    /// The bytes that were written, where it tells them.
    ghost written: { Self → Option (List ℕ) };

    /// How often it has failed.
    ghost faults: { Self → ℕ };

    /// Takes bytes from the front of the piece, and answers how many. A refused piece is not taken at all.
    fn write(&mut self, buf: &[u8]) -> Result<usize, OutFault>
        ensures bound { WritesAtMost result buf.now }
        ensures some { IfOk result (λ n. n ≡ 0 → buf.now ≡ []) }
        ensures bytes { WriteAppends (written self.old) (written self.new) result buf.now }
        ensures cause { HasOutCause (faults self.old) (faults self.new) result };
}
