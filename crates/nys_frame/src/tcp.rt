//! Links over sockets of this machine.

ghost use Rattle.std.specs.Prelude.{◌≡◌, ◌≤◌, ℕ, Option, None, IfOk, OnOk, ◌+◌, length};
ghost use Rattle.nys_outside.specs.Counts.{Rose};
ghost use Rattle.nys_frame.specs.Pairs.{pairs_of, HasPairs, Sockets};

use crate::framed::with_length;
use crate::pair::{Pair, open, pairs, place};
use nys_outside::{Got, Links, OutFault};
use std::alloc::Global;
use std::io;
use std::io::{Read, Write};
use std::marker::Model;
use std::net::{Ipv4Addr, Net, OpenListener, OpenStream, SocketAddr, SocketAddrV4};

/// Links over 127.0.0.1, one stream for each pair of hosts. No call but `connect` waits.
#[derive(Drop)]
pub struct TcpLinks<R: Net + Clone + Drop> {
    alloc: Global,
    rt: R,
    hosts: Option<u32>,
    pairs: Vec<Pair<R::Stream>>,
    faults: u64,
}

impl<R: Net + Clone + Drop> Model for TcpLinks<R> {
    ghost use Rattle.nys_frame.specs.Pairs.{HasPairs, Sockets};
    ghost use Rattle.std.specs.Prelude.{length};

    ghost Value = { Sockets };

    ghost view = { λ l. record { hosts = l.hosts; faults = l.faults } };

    ghost invariant = { λ l. HasPairs l.hosts (length l.pairs.items) };
}

impl<R: Net + Clone + Drop> TcpLinks<R> {
    /// Links that are connected for no hosts. Takes no memory, and opens nothing.
    pub fn new(alloc: Global, rt: R) -> TcpLinks<R>
        ensures hosts { result.hosts ≡ None }
        ensures faults { result.faults ≡ 0 }
    {
        TcpLinks {
            alloc,
            rt,
            hosts: None,
            pairs: Vec::new(alloc),
            faults: 0,
        }
    }

    fn count_fault(&mut self)
        ensures hosts { self.new.hosts ≡ self.old.hosts }
        ensures rose { Rose self.old.faults self.new.faults }
        ensures later { self.old.faults ≤ self.new.faults }
    {
        self.faults = self.faults.saturating_add(1);
    }
}

impl<R: Net + Clone + Drop> Links for TcpLinks<R> {
    ghost connected = { λ l. l.hosts };

    ghost told = { λ _. None };

    ghost faults = { λ l. l.faults };

    /// Opens one stream for each pair of hosts, one after the other. Those that were open are closed.
    fn connect(&mut self, n: u32) -> Result<(), OutFault> {
        self.hosts = None;
        self.pairs.clear();
        match open_all(self.alloc, &self.rt, n) {
            Ok(opened) => {
                self.pairs = opened;
                self.hosts = Some(n);
                Ok(())
            }
            Err(OutFault::Failed) => {
                self.count_fault();
                Err(OutFault::Failed)
            }
            Err(OutFault::NoMemory) => Err(OutFault::NoMemory),
        }
    }

    /// Writes the frame with its length at once. Where it doesn't go whole, the direction closes behind the
    /// frames that went, and each later send fails.
    fn send(&mut self, from: u32, to: u32, frame: &[u8]) -> Result<(), OutFault> {
        let bytes = with_length(self.alloc, frame)?;
        match self.pairs[place(from, to)].send(from < to, &bytes) {
            Ok(()) => Ok(()),
            Err(_) => {
                self.count_fault();
                Err(OutFault::Failed)
            }
        }
    }

    /// Reads what is there, until a frame is whole.
    fn poll(&mut self, from: u32, to: u32, buf: &mut Vec<u8>) -> Got {
        let got = self.pairs[place(from, to)].poll(from < to, buf);
        if got == Got::Failed {
            self.count_fault();
        }
        got
    }
}

/// Opens a stream for each pair of hosts, over a listener at a port that the system picks.
fn open_all<R: Net>(alloc: Global, rt: &R, hosts: u32) -> Result<Vec<Pair<R::Stream>>, OutFault>
    ensures { IfOk result (λ opened. pairs_of hosts ≤ length opened.items) }
{
    let (listener, address) = or_failed(listen(rt))?;
    let mut opened = Vec::new(alloc);
    for _ in 0..pairs(hosts) {
        let pair = or_failed(open(alloc, rt, &listener, address))?;
        add(&mut opened, pair)?;
    }
    Ok(opened)
}

fn add<S: Read + Write + OpenStream + Drop>(
    opened: &mut Vec<Pair<S>>,
    pair: Pair<S>,
) -> Result<(), OutFault>
    ensures { OnOk result (length opened.new.items ≡ length opened.old.items + 1) }
{
    match opened.push(pair) {
        Ok(()) => Ok(()),
        Err(_) => Err(OutFault::NoMemory),
    }
}

/// A listener on the loopback, and its address.
fn listen<R: Net>(rt: &R) -> io::Result<(R::Listener, SocketAddr)> {
    let any_port = SocketAddr::V4(SocketAddrV4::new(Ipv4Addr::LOCALHOST, 0));
    let listener = rt.bind(any_port)?;
    let address = listener.local_addr()?;
    Ok((listener, address))
}

fn or_failed<T>(answer: io::Result<T>) -> Result<T, OutFault> {
    match answer {
        Ok(value) => Ok(value),
        Err(_) => Err(OutFault::Failed),
    }
}
