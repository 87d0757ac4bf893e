//! Frames over sockets: bytes that are cut anywhere become whole frames again, and hosts send each other
//! frames over loopback.
//!
//! Below: `nys_outside` (`Links`), `nys_hosts` (the greatest frame), `nys_bytes` (fields of bytes). Above:
//! nothing yet.
//! Contracts see a `FrameReader` as the bytes that were fed and not yet given. `TcpLinks` tells no frames:
//! its contracts say for how many hosts it is connected, and where its count of faults rose.
//! Begin at `FrameReader::next`, then `TcpLinks`.
#![tactic(auto)]

mod end;
mod fault;
mod framed;
mod pair;
mod reader;
mod tcp;
#[cfg(test)]
mod tests;

pub use fault::FrameFault;
pub use reader::FrameReader;
pub use tcp::TcpLinks;
