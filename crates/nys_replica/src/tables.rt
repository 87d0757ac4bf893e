//! Tables of one host by the other hosts. Contracts see them as lists, and say what they have at each
//! place.

ghost use Rattle.std.specs.Prelude.{◌≡◌, ◌<◌, ◌+◌, ◌++◌, ◌∷◌, ℕ, ℤ, List, [], IfOk, OnOk, length, replicate};
ghost use Rattle.nys_source.specs.Tables.{put, added, at_each, lists_at};

use nys_bytes::{NoMemory, Payload};
use nys_graph::MAX_HOSTS;
use std::alloc::Global;
use std::marker::Model;

/// Payloads in order.
#[derive(Drop)]
struct Payloads {
    held: Vec<Payload>,
}

impl Model for Payloads {
    ghost Value = { List (List ℤ) };

    ghost view = { λ p. p.held.items };
}

impl Payloads {
    fn new(alloc: Global) -> Payloads
        ensures { result ≡ [] }
    {
        Payloads {
            held: Vec::new(alloc),
        }
    }

    fn items(&self) -> &[Payload]
        ensures { result.now ≡ self.now }
    {
        self.held.as_slice()
    }

    fn push(&mut self, payload: Payload) -> Result<(), NoMemory>
        ensures { OnOk result (self.new ≡ self.old ++ payload ∷ []) }
    {
        self.held.push(payload)?;
        Ok(())
    }
}

/// Payloads in order for each host.
#[derive(Drop)]
pub(crate) struct HostPayloads {
    rows: Vec<Payloads>,
}

impl Model for HostPayloads {
    ghost use Rattle.std.specs.Prelude.{◌≡◌, ℤ, List, length};
    ghost use Rattle.nys_hosts.specs.declared.limits.TheConstants.{MAX_HOSTS};

    ghost Value = { List (List (List ℤ)) };

    ghost view = { λ t. t.rows.items };

    ghost invariant = { λ t. length t.rows.items ≡ MAX_HOSTS };
}

impl HostPayloads {
    pub(crate) fn new(alloc: Global) -> Result<HostPayloads, NoMemory>
        ensures { IfOk result (λ table. table ≡ replicate MAX_HOSTS []) }
    {
        let mut rows = Vec::new(alloc);
        for _host in 0..MAX_HOSTS {
            rows.push(Payloads::new(alloc))?;
        }
        Ok(HostPayloads { rows })
    }

    pub(crate) fn of(&self, h: u32) -> &[Payload]
        requires { h < MAX_HOSTS }
        ensures { result.now ≡ lists_at self.now h }
    {
        self.rows[h as usize].items()
    }

    pub(crate) fn push(&mut self, h: u32, payload: Payload) -> Result<(), NoMemory>
        requires { h < MAX_HOSTS }
        ensures { OnOk result (lists_at self.new ≡ added (lists_at self.old) h payload) }
    {
        self.rows[h as usize].push(payload)?;
        Ok(())
    }
}

/// A number for each host.
#[derive(Drop)]
pub(crate) struct HostNumbers {
    held: [u32; MAX_HOSTS],
}

impl Model for HostNumbers {
    ghost Value = { List ℕ };

    ghost view = { λ t. t.held };
}

impl HostNumbers {
    pub(crate) fn new() -> HostNumbers
        ensures { result ≡ replicate MAX_HOSTS 0 }
    {
        HostNumbers {
            held: [0; MAX_HOSTS],
        }
    }

    pub(crate) fn of(&self, h: u32) -> u32
        requires { h < MAX_HOSTS }
        ensures { result ≡ at_each (λ _. 0) self.now h }
    {
        self.held[h as usize]
    }

    /// Adds one to the host's number.
    pub(crate) fn count(&mut self, h: u32)
        requires host { h < MAX_HOSTS }
        requires room { at_each (λ _. 0) self.old h < 4294967295 }
        ensures { at_each (λ _. 0) self.new
            ≡ put (at_each (λ _. 0) self.old) h (at_each (λ _. 0) self.old h + 1) }
    {
        self.held[h as usize] += 1;
    }
}
