//! A direction is polled.

ghost use Rattle.std.specs.Prelude.{◌≡◌, ℕ, Bool, IfOk};
ghost use Rattle.nys_outside.specs.Frames.{IsFrame, AreLinked};
ghost use Rattle.nys_carry.specs.Carrying.{Carriage, Carries, Past};
ghost use Rattle.nys_carry.specs.Polling.{with_polled};

use crate::count::one_more;
use nys_bytes::NoMemory;
use nys_outside::{Got, Links};

/// What a poll came to.
#[derive(Clone, Copy, Debug, PartialEq, Eq)]
pub enum Polled {
    /// The oldest frame that waited stands in the buffer.
    Frame,
    /// No frame came.
    Nothing,
    /// No frame waits, and none will come.
    Closed,
}

/// Polls a direction between two different connected hosts once, and counts it where it fails.
pub fn poll<L: Links>(
    links: &mut L,
    from: u32,
    to: u32,
    buf: &mut Vec<u8>,
    lost: &mut u64,
) -> Result<Polled, NoMemory>
    requires linked { AreLinked (L.connected links.old) from to }
    ensures hosts { L.connected links.new ≡ L.connected links.old }
    ensures whole { IfOk result (λ got. got ≡ Polled.Frame → IsFrame buf.new.items) }
    ensures carries { (honest : ℕ → Bool) (past : Past) (all : Carriage) → all.lost ≡ lost.old
        → Carries honest past all (L.told links.old) (L.faults links.old)
        → IfOk result (λ got. Carries honest past (with_polled from to got buf.new.items lost.new all)
        (L.told links.new) (L.faults links.new)) }
{
    match links.poll(from, to, buf) {
        Got::Frame => Ok(Polled::Frame),
        Got::NotYet => Ok(Polled::Nothing),
        Got::Closed => Ok(Polled::Closed),
        Got::Failed => {
            *lost = one_more(*lost)?;
            Ok(Polled::Nothing)
        }
        Got::NoMemory => Err(NoMemory),
    }
}
