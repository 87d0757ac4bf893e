//! The table of one host.

ghost use Rattle.std.specs.Prelude.{◌≡◌, ◌≢◌, ◌<◌, ◌≤◌, ◌+◌, ℕ, Ok, IfOk, option_copied};
ghost use Rattle.nys_attest.specs.Windows.{next_of, recorded, seats_at};
ghost use Rattle.nys_rules.specs.Heads.{with_own};
ghost use Rattle.nys_source.specs.Tables.{put, put_at};
ghost use Rattle.nys_votes.specs.Attested.{attested};
ghost use Rattle.nys_votes.specs.Seats.{no_seats, with_seat};
ghost use Rattle.nys_stmt.specs.declared.limits.TheConstants.{MAX_NUMBER};

use crate::heard::Heard;
use crate::window::{Recorded, Window};
use nys_bytes::{NoMemory, Payload};
use nys_hosts::MAX_HOSTS;
use std::alloc::Global;
use std::marker::Model;

/// What makers attest of the messages to one host: for the link from each of the hosts 0 to 31 the number
/// that comes next, and for the `WINDOW` numbers of `nys_rules` from it on the first payload of each maker.
#[derive(Drop)]
pub struct AttestTable {
    alloc: Global,
    links: Vec<Window>,
}

impl Model for AttestTable {
    ghost use Rattle.std.specs.Prelude.{◌≡◌, List, length};
    ghost use Rattle.nys_attest.specs.Windows.{Window};
    ghost use Rattle.nys_hosts.specs.declared.limits.TheConstants.{MAX_HOSTS};

    ghost Value = { List Window };

    ghost view = { λ t. t.links.items };

    ghost invariant = { λ t. length t.links.items ≡ MAX_HOSTS };
}

impl AttestTable {
    /// Nothing is kept, and on each link number 0 comes next.
    pub fn new(alloc: Global) -> Result<AttestTable, NoMemory>
        ensures next { IfOk result (λ table. (p : ℕ) → next_of table p ≡ 0) }
        ensures seats { IfOk result (λ table. (p k : ℕ) → seats_at table p k ≡ no_seats) }
    {
        let mut links = Vec::new(alloc);
        for _ in 0..MAX_HOSTS {
            links.push(Window::new(alloc))?;
        }
        Ok(AttestTable { alloc, links })
    }

    /// The number that comes next on the link from `p`. Takes no memory.
    #[tactic(auto, unfolding(crate::specs::Windows::next_of))]
    pub fn next(&self, p: u32) -> u32
        requires link { p < MAX_HOSTS }
        ensures { result ≡ next_of self.now p }
    {
        self.links[p as usize].next()
    }

    /// Keeps what a maker attests for number `k` of the link from `p`, where it is the first of the maker and
    /// the number is one of the `WINDOW` from the next on. Else, and after want of memory, all is as before.
    pub fn note(
        &mut self,
        p: u32,
        k: u32,
        maker: u32,
        payload: &Payload,
    ) -> Result<Recorded, NoMemory>
        requires link { p < MAX_HOSTS }
        requires maker { maker < MAX_HOSTS }
        ensures answer { IfOk result (λ answer. answer
            ≡ recorded (next_of self.old p) k (seats_at self.old p k) maker payload.now) }
        ensures next { (q : ℕ) → next_of self.new q ≡ next_of self.old q }
        ensures kept { result ≡ Ok Recorded.New → (q l : ℕ) → seats_at self.new q l
            ≡ put_at (seats_at self.old) p k (with_seat maker payload.now (seats_at self.old p k)) q l }
        ensures same { result ≢ Ok Recorded.New → (q l : ℕ) → seats_at self.new q l ≡ seats_at self.old q l }
    {
        self.links[p as usize].note(self.alloc, k, maker, payload)
    }

    /// Goes on to the next number of the link from `p`: what is kept of the number that was next is
    /// forgotten, and nothing is kept yet of the window's new last number. Takes no memory.
    pub fn took(&mut self, p: u32)
        requires link { p < MAX_HOSTS }
        requires next { next_of self.old p ≤ MAX_NUMBER }
        ensures next { (q : ℕ) → next_of self.new q ≡ put (next_of self.old) p (next_of self.old p + 1) q }
        ensures seats { (q l : ℕ) → seats_at self.new q l
            ≡ put_at (seats_at self.old) p (next_of self.old p) no_seats q l }
    {
        self.links[p as usize].took();
    }

    /// Goes on from number `next` of the link from `p`, with nothing kept of the link. Takes no memory.
    pub fn restart(&mut self, p: u32, next: u32)
        requires link { p < MAX_HOSTS }
        ensures next { (q : ℕ) → next_of self.new q ≡ put (next_of self.old) p next q }
        ensures seats { (q l : ℕ) → seats_at self.new q l ≡ put (seats_at self.old) p (λ _. no_seats) q l }
    {
        self.links[p as usize].restart(next);
    }

    /// The payload that more than `t` makers attest for number `k` of the link from `p`, of several the one
    /// that the lowest of their makers gave. `None` where there is none, as outside the window. Takes no
    /// memory.
    #[tactic(auto, unfolding(crate::specs::Windows::seats_at))]
    pub fn attested(&self, p: u32, k: u32, t: u32) -> Option<&Payload>
        requires link { p < MAX_HOSTS }
        ensures { option_copied result ≡ attested t (seats_at self.now p k) }
    {
        Heard::new(self.links[p as usize].seats(k), 0, None).attested(t)
    }

    /// The same, where host `me` also attests its `own` payload, if nothing is kept of `me`. Takes no memory.
    #[tactic(auto, unfolding(crate::specs::Windows::seats_at))]
    pub fn attested_with<'a>(
        &'a self,
        p: u32,
        k: u32,
        t: u32,
        me: u32,
        own: Option<&'a Payload>,
    ) -> Option<&'a Payload>
        requires link { p < MAX_HOSTS }
        ensures { option_copied result ≡ attested t
            (with_own me (option_copied own.entry) (seats_at self.now p k)) }
    {
        Heard::new(self.links[p as usize].seats(k), me, own).attested(t)
    }
}
