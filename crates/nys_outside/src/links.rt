//! Frames between hosts.

ghost use Rattle.std.specs.Prelude.{◌≡◌, ℕ, Option};
ghost use Rattle.nys_outside.specs.Counts.{HasOutCause, HasPollCause};
ghost use Rattle.nys_outside.specs.Frames.{IsFrame, AreLinked, connected_by};
ghost use Rattle.nys_outside.specs.Network.{Network, Connects, Sends, Polls};

use crate::fault::OutFault;
use crate::got::Got;

/// Links between hosts, in each direction apart. Hosts are numbered from 0.
pub trait Links {
    /// The number of hosts for which it is connected, if it is.
    ghost connected: { Self → Option ℕ };

    /// The frames in each direction, where it tells them.
    ghost told: { Self → Option Network };

    /// How often it has failed.
    ghost faults: { Self → ℕ };

    /// Connects `n` hosts. After an error it is connected for none.
    fn connect(&mut self, n: u32) -> Result<(), OutFault>
        ensures hosts { connected self.new ≡ connected_by n result }
        ensures frames { Connects (told self.old) (told self.new) }
        ensures cause { HasOutCause (faults self.old) (faults self.new) result };

    /// Sends a frame of 1 to `MAX_FRAME` of `nys_hosts` bytes. A refused frame is not sent at all.
    fn send(&mut self, from: u32, to: u32, frame: &[u8]) -> Result<(), OutFault>
        requires linked { AreLinked (connected self.old) from to }
        requires whole { IsFrame frame.now }
        ensures hosts { connected self.new ≡ connected self.old }
        ensures frames { Sends from to frame.now result (told self.old) (told self.new) }
        ensures cause { HasOutCause (faults self.old) (faults self.new) result };

    /// Puts the oldest frame that waits in this direction into the buffer. Doesn't wait for one.
    fn poll(&mut self, from: u32, to: u32, buf: &mut Vec<u8>) -> Got
        requires linked { AreLinked (connected self.old) from to }
        ensures hosts { connected self.new ≡ connected self.old }
        ensures whole { result ≡ Got.Frame → IsFrame buf.new.items }
        ensures frames { Polls from to result buf.new.items (told self.old) (told self.new) }
        ensures cause { HasPollCause (faults self.old) (faults self.new) result };
}
