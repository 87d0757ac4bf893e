//! A packet is offered to links.

ghost use Rattle.std.specs.Prelude.{◌≡◌, ℕ, Bool, true, IfOk};
ghost use Rattle.nys_outside.specs.Frames.{IsFrame, AreLinked};
ghost use Rattle.nys_carry.specs.Carrying.{Carriage, Carries, Past, is_due, with_offered};

use crate::count::one_more;
use nys_bytes::NoMemory;
use nys_outside::{Links, OutFault};
use nys_rules::Packet;

/// Offers a packet between two different connected hosts, with a frame that links take, and answers how many
/// sends and polls have failed by then.
pub fn offer<L: Links>(links: &mut L, packet: &Packet, lost: u64) -> Result<u64, NoMemory>
    requires linked { AreLinked (L.connected links.old) packet.now.from packet.now.to }
    requires whole { IsFrame packet.now.frame }
    ensures hosts { L.connected links.new ≡ L.connected links.old }
    ensures carries { (honest : ℕ → Bool) (past : Past) (all : Carriage) → all.lost ≡ lost
        → is_due honest packet.now ≡ true
        → Carries honest past all (L.told links.old) (L.faults links.old)
        → IfOk result (λ count. Carries honest past (with_offered packet.now count all) (L.told links.new)
        (L.faults links.new)) }
{
    match links.send(packet.from, packet.to, packet.frame.as_slice()) {
        Ok(()) => Ok(lost),
        Err(OutFault::Failed) => one_more(lost),
        Err(OutFault::NoMemory) => Err(NoMemory),
    }
}
