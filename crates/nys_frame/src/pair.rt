//! The stream between two hosts, and the place of a pair of hosts in a table.

ghost use Rattle.std.specs.Prelude.{◌≡◌, IfOk};
ghost use Rattle.nys_outside.specs.Frames.{IsFrame};
ghost use Rattle.nys_frame.specs.Pairs.{pairs_of, place_of};

use crate::end::End;
use nys_outside::{Failed, Got};
use std::alloc::Global;
use std::io;
use std::io::{ErrorKind, Read, Write};
use std::net::{Net, OpenListener, OpenStream, SocketAddr};

/// The two ends of one stream: that of the lesser host, and that of the greater.
#[derive(Drop)]
pub struct Pair<S: Read + Write + OpenStream + Drop> {
    low: End<S>,
    high: End<S>,
}

impl<S: Read + Write + OpenStream + Drop> Pair<S> {
    /// Sends a frame with its length, upward from the lesser host or downward to it.
    pub fn send(&mut self, upward: bool, framed: &[u8]) -> Result<(), Failed> {
        if upward {
            self.low.send(framed)
        } else {
            self.high.send(framed)
        }
    }

    /// Gives the oldest frame that came, upward from the lesser host or downward to it.
    pub fn poll(&mut self, upward: bool, buf: &mut Vec<u8>) -> Got
        ensures { result ≡ Got.Frame → IsFrame buf.new.items }
    {
        if upward {
            self.high.poll(buf)
        } else {
            self.low.poll(buf)
        }
    }
}

/// Opens one stream over a listener at this address. Refuses a stranger that came in between.
pub fn open<R: Net>(
    alloc: Global,
    rt: &R,
    listener: &R::Listener,
    address: SocketAddr,
) -> io::Result<Pair<R::Stream>> {
    let low = rt.connect(address)?;
    let (high, peer) = listener.accept()?;
    if low.local_addr()? != peer {
        return Err(io::Error::from(ErrorKind::ConnectionAborted));
    }
    make_ready(&low)?;
    make_ready(&high)?;
    Ok(Pair {
        low: End::new(alloc, low),
        high: End::new(alloc, high),
    })
}

/// From here on the stream doesn't wait, and holds nothing back.
fn make_ready<S: OpenStream>(stream: &S) -> io::Result<()> {
    stream.set_nonblocking(true)?;
    stream.set_nodelay(true)
}

/// How many pairs so many hosts have.
pub fn pairs(hosts: u32) -> usize
    ensures { result ≡ pairs_of hosts }
{
    let hosts = hosts as usize;
    hosts * hosts.saturating_sub(1) / 2
}

/// The place of a pair: behind the pairs of lesser hosts.
pub fn place(a: u32, b: u32) -> usize
    ensures { result ≡ place_of a b }
{
    if a < b {
        pairs(b) + a as usize
    } else {
        pairs(a) + b as usize
    }
}
