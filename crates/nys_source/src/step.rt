//! The steps of the source system.

use nys_bytes::Payload;

/// One step of a run. Hosts are numbered from 0.
#[derive(Debug, Drop)]
pub enum Step {
    /// Host `h` takes an input.
    Input { h: u32, payload: Payload },
    /// Host `h` takes the payload with the number `k`, counted from 0, that its neighbour `p` sent it.
    Receive { h: u32, p: u32, k: u32 },
    /// Host `h` stops for ever.
    Stop { h: u32 },
}

/// Why something is no step where it stands. The tests are made in the order of the variants.
#[derive(Clone, Copy, Debug, PartialEq, Eq)]
pub enum NotAStep {
    /// This host is past the last; the host of the step is tested before its sender.
    NoHost(u32),
    /// This host has stopped.
    Stopped(u32),
    /// The sender and the host are no neighbours.
    NotNeighbour(u32, u32),
    /// The sender has sent the host no payload with this number, or another one is next.
    NothingSent(u32, u32, u32),
    /// The allocator had no room.
    NoMemory,
}
