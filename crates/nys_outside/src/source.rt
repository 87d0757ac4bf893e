//! Where bytes come from.

ghost use Rattle.std.specs.Prelude.{ℕ, Option};
ghost use Rattle.std.specs.Io.{ReadsAtMost};
ghost use Rattle.nys_outside.specs.Counts.{HasCause};
ghost use Rattle.nys_outside.specs.Input.{Input, Reads};

use crate::fault::Failed;

/// A source of bytes. A read of a non-empty buffer that gives 0 is the end of the input.
pub trait Source {
    /// The bytes that were read and those that are left, where it tells them.
    ghost told: { Self → Option Input };

    /// How often it has failed.
    ghost faults: { Self → ℕ };

    /// Puts bytes into the front of the buffer, and answers how many.
    fn read(&mut self, buf: &mut [u8]) -> Result<usize, Failed>
        ensures bound { ReadsAtMost result buf.new }
        ensures bytes { Reads (told self.old) (told self.new) result buf.new }
        ensures cause { HasCause (faults self.old) (faults self.new) result };
}
