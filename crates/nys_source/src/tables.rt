//! Tables by host and by link. Contracts see them as lists, and say what they have at each place.

ghost use Rattle.std.specs.Prelude.{◌≡◌, ◌<◌, ◌≤◌, ◌+◌, ◌++◌, ◌∷◌, ℕ, ℤ, Bool, true, false, List, [], IfOk, OnOk, length, replicate};
ghost use Rattle.nys_hosts.specs.declared.limits.TheConstants.{MAX_HOSTS};
ghost use Rattle.nys_source.specs.Tables.{put, put_at, added, added_at, at_each, lists_at, lists_at_both, numbers_at_both};

use nys_bytes::{NoMemory, Payload};
use nys_graph::MAX_HOSTS;
use std::alloc::Global;
use std::marker::Model;

/// Payloads in order.
#[derive(Drop)]
pub(crate) struct Payloads {
    held: Vec<Payload>,
}

impl Model for Payloads {
    ghost Value = { List (List ℤ) };

    ghost view = { λ p. p.held.items };
}

impl Payloads {
    fn new(alloc: Global) -> Payloads
        ensures { result ≡ [] }
    {
        Payloads {
            held: Vec::new(alloc),
        }
    }

    fn items(&self) -> &[Payload]
        ensures { result.now ≡ self.now }
    {
        self.held.as_slice()
    }

    fn push(&mut self, payload: Payload) -> Result<(), NoMemory>
        ensures { OnOk result (self.new ≡ self.old ++ payload ∷ []) }
    {
        self.held.push(payload)?;
        Ok(())
    }
}

/// Payloads in order for each host.
#[derive(Drop)]
pub(crate) struct HostPayloads {
    rows: Vec<Payloads>,
}

impl Model for HostPayloads {
    ghost Value = { List (List (List ℤ)) };

    ghost view = { λ t. t.rows.items };

    ghost invariant = { λ t. length t.rows.items ≡ MAX_HOSTS };
}

impl HostPayloads {
    pub(crate) fn new(alloc: Global) -> Result<HostPayloads, NoMemory>
        ensures { IfOk result (λ table. table ≡ replicate MAX_HOSTS []) }
    {
        let mut rows = Vec::new(alloc);
        for _host in 0..MAX_HOSTS {
            rows.push(Payloads::new(alloc))?;
        }
        Ok(HostPayloads { rows })
    }

    pub(crate) fn of(&self, h: u32) -> &[Payload]
        requires { h < MAX_HOSTS }
        ensures { result.now ≡ lists_at self.now h }
    {
        self.rows[h as usize].items()
    }

    pub(crate) fn push(&mut self, h: u32, payload: Payload) -> Result<(), NoMemory>
        requires { h < MAX_HOSTS }
        ensures { OnOk result (lists_at self.new ≡ added (lists_at self.old) h payload) }
    {
        self.rows[h as usize].push(payload)?;
        Ok(())
    }
}

/// Payloads in order for each directed link.
#[derive(Drop)]
pub(crate) struct LinkPayloads {
    rows: Vec<HostPayloads>,
}

impl Model for LinkPayloads {
    ghost Value = { List (List (List (List ℤ))) };

    ghost view = { λ t. t.rows.items };

    ghost invariant = { λ t. length t.rows.items ≡ MAX_HOSTS };
}

impl LinkPayloads {
    pub(crate) fn new(alloc: Global) -> Result<LinkPayloads, NoMemory>
        ensures { IfOk result (λ table. table ≡ replicate MAX_HOSTS (replicate MAX_HOSTS [])) }
    {
        let mut rows = Vec::new(alloc);
        for _host in 0..MAX_HOSTS {
            rows.push(HostPayloads::new(alloc)?)?;
        }
        Ok(LinkPayloads { rows })
    }

    pub(crate) fn of(&self, p: u32, h: u32) -> &[Payload]
        requires sender { p < MAX_HOSTS }
        requires receiver { h < MAX_HOSTS }
        ensures { result.now ≡ lists_at_both self.now p h }
    {
        self.rows[p as usize].of(h)
    }

    pub(crate) fn push(&mut self, p: u32, h: u32, payload: Payload) -> Result<(), NoMemory>
        requires sender { p < MAX_HOSTS }
        requires receiver { h < MAX_HOSTS }
        ensures { OnOk result (lists_at_both self.new ≡ added_at (lists_at_both self.old) p h payload) }
    {
        self.rows[p as usize].push(h, payload)?;
        Ok(())
    }
}

/// A flag for each host.
#[derive(Drop)]
pub(crate) struct HostFlags {
    held: [bool; MAX_HOSTS],
}

impl Model for HostFlags {
    ghost Value = { List Bool };

    ghost view = { λ t. t.held };
}

impl HostFlags {
    /// All flags are set.
    pub(crate) fn new() -> HostFlags
        ensures { result ≡ replicate MAX_HOSTS true }
    {
        HostFlags {
            held: [true; MAX_HOSTS],
        }
    }

    pub(crate) fn of(&self, h: u32) -> bool
        requires { h < MAX_HOSTS }
        ensures { result ≡ at_each (λ _. true) self.now h }
    {
        self.held[h as usize]
    }

    pub(crate) fn clear(&mut self, h: u32)
        requires { h < MAX_HOSTS }
        ensures { at_each (λ _. true) self.new ≡ put (at_each (λ _. true) self.old) h false }
    {
        self.held[h as usize] = false;
    }
}

/// A number for each host.
#[derive(Drop)]
struct HostNumbers {
    held: [u32; MAX_HOSTS],
}

impl Model for HostNumbers {
    ghost Value = { List ℕ };

    ghost view = { λ t. t.held };
}

impl HostNumbers {
    fn new() -> HostNumbers
        ensures { result ≡ replicate MAX_HOSTS 0 }
    {
        HostNumbers {
            held: [0; MAX_HOSTS],
        }
    }

    fn of(&self, h: u32) -> u32
        requires { h < MAX_HOSTS }
        ensures { result ≡ at_each (λ _. 0) self.now h }
    {
        self.held[h as usize]
    }

    fn count(&mut self, h: u32)
        requires host { h < MAX_HOSTS }
        requires room { at_each (λ _. 0) self.old h < 4294967295 }
        ensures { at_each (λ _. 0) self.new
            ≡ put (at_each (λ _. 0) self.old) h (at_each (λ _. 0) self.old h + 1) }
    {
        self.held[h as usize] += 1;
    }
}

/// A number for each directed link.
#[derive(Drop)]
pub(crate) struct LinkNumbers {
    rows: Vec<HostNumbers>,
}

impl Model for LinkNumbers {
    ghost Value = { List (List ℕ) };

    ghost view = { λ t. t.rows.items };

    ghost invariant = { λ t. length t.rows.items ≡ MAX_HOSTS };
}

impl LinkNumbers {
    pub(crate) fn new(alloc: Global) -> Result<LinkNumbers, NoMemory>
        ensures { IfOk result (λ table. table ≡ replicate MAX_HOSTS (replicate MAX_HOSTS 0)) }
    {
        let mut rows = Vec::new(alloc);
        for _host in 0..MAX_HOSTS {
            rows.push(HostNumbers::new())?;
        }
        Ok(LinkNumbers { rows })
    }

    pub(crate) fn of(&self, p: u32, h: u32) -> u32
        requires sender { p < MAX_HOSTS }
        requires receiver { h < MAX_HOSTS }
        ensures { result ≡ numbers_at_both self.now p h }
    {
        self.rows[p as usize].of(h)
    }

    /// Adds one to the link's number.
    pub(crate) fn count(&mut self, p: u32, h: u32)
        requires sender { p < MAX_HOSTS }
        requires receiver { h < MAX_HOSTS }
        requires room { numbers_at_both self.old p h < 4294967295 }
        ensures { numbers_at_both self.new
            ≡ put_at (numbers_at_both self.old) p h (numbers_at_both self.old p h + 1) }
    {
        self.rows[p as usize].count(h);
    }
}
