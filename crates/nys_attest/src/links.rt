//! The numbers of each link that a node attested.

ghost use Rattle.std.specs.Prelude.{◌≡◌, ◌<◌, ℕ, None, IfOk, replicate, slice_index_or};
ghost use Rattle.nys_attest.specs.Ranges.{link_at};
ghost use Rattle.nys_source.specs.Tables.{put, put_at};

use nys_bytes::NoMemory;
use nys_hosts::MAX_HOSTS;
use nys_rules::Attested;
use std::alloc::Global;
use std::marker::Model;

/// What a node attested of the messages to one host: a range of numbers for each link, by its sender.
#[derive(Drop)]
pub(crate) struct LinkRow {
    ranges: Vec<Option<Attested>>,
}

impl Model for LinkRow {
    ghost use Rattle.std.specs.Prelude.{◌≡◌, List, Option, length};
    ghost use Rattle.nys_rules.specs.declared.kept.Attested.{Attested};
    ghost use Rattle.nys_hosts.specs.declared.limits.TheConstants.{MAX_HOSTS};

    ghost Value = { List (Option Attested) };

    ghost view = { λ r. r.ranges.items };

    ghost invariant = { λ r. length r.ranges.items ≡ MAX_HOSTS };
}

/// What a node attested of the messages between hosts 0 to 31: a range of numbers for each link, none
/// where it has not begun.
#[derive(Drop)]
pub struct Links {
    rows: Vec<LinkRow>,
}

impl Model for Links {
    ghost use Rattle.std.specs.Prelude.{◌≡◌, List, Option, length};
    ghost use Rattle.nys_rules.specs.declared.kept.Attested.{Attested};
    ghost use Rattle.nys_hosts.specs.declared.limits.TheConstants.{MAX_HOSTS};

    ghost Value = { List (List (Option Attested)) };

    ghost view = { λ l. l.rows.items };

    ghost invariant = { λ l. length l.rows.items ≡ MAX_HOSTS };
}

impl LinkRow {
    /// No link has begun.
    fn new(alloc: Global) -> Result<LinkRow, NoMemory>
        ensures { IfOk result (λ row. row ≡ replicate MAX_HOSTS None) }
    {
        let mut ranges = Vec::new(alloc);
        for _ in 0..MAX_HOSTS {
            ranges.push(None)?;
        }
        Ok(LinkRow { ranges })
    }

    /// The range of the link from `p`.
    fn get(&self, p: u32) -> Option<Attested>
        requires { p < MAX_HOSTS }
        ensures { result ≡ slice_index_or self.now p None }
    {
        self.ranges[p as usize]
    }

    /// Puts the range of the link from `p`.
    fn put(&mut self, p: u32, range: Option<Attested>)
        requires { p < MAX_HOSTS }
        ensures { (q : ℕ) → slice_index_or self.new q None
            ≡ put (λ x. slice_index_or self.old x None) p range q }
    {
        self.ranges[p as usize] = range;
    }
}

impl Links {
    /// No link has begun.
    pub fn new(alloc: Global) -> Result<Links, NoMemory>
        ensures { IfOk result (λ links. (p h : ℕ) → link_at links p h ≡ None) }
    {
        let mut rows = Vec::new(alloc);
        for _ in 0..MAX_HOSTS {
            rows.push(LinkRow::new(alloc)?)?;
        }
        Ok(Links { rows })
    }

    /// The numbers of the link from `p` to `h` that were attested, if it has begun.
    pub fn get(&self, p: u32, h: u32) -> Option<Attested>
        requires sender { p < MAX_HOSTS }
        requires host { h < MAX_HOSTS }
        ensures { result ≡ link_at self.now p h }
    {
        self.rows[h as usize].get(p)
    }

    /// Puts the range of the link from `p` to `h`. Takes no memory.
    pub fn put(&mut self, p: u32, h: u32, range: Option<Attested>)
        requires sender { p < MAX_HOSTS }
        requires host { h < MAX_HOSTS }
        ensures { (q g : ℕ) → link_at self.new q g ≡ put_at (link_at self.old) p h range q g }
    {
        self.rows[h as usize].put(p, range);
    }
}
