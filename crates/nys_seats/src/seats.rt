//! Seats by maker.

ghost use Rattle.std.specs.Prelude.{◌≡◌, ◌<◌, ◌≤◌, ℕ, None, not, length, slice_set, IfOk};
ghost use Rattle.nys_hosts.specs.Sets.{has};
ghost use Rattle.nys_votes.specs.Seats.{count_all, is_seated, no_seats, seat_of, with_seat};

use nys_bytes::NoMemory;
use nys_hosts::{HostSet, MAX_HOSTS};
use std::alloc::Global;
use std::marker::Model;

/// A seat for each of the hosts 0 to 31, at the host's number, each empty at first.
#[derive(Drop)]
pub struct Seats<T: Drop> {
    held: Vec<Option<T>>,
    taken: u32,
}

impl<T: Drop> Model for Seats<T> {
    ghost use Rattle.std.specs.Prelude.{List, Option};
    ghost use Rattle.nys_seats.specs.Counted.{AreCounted};

    ghost Value = { List (Option T) };

    ghost view = { λ s. s.held.items };

    ghost invariant = { λ s. AreCounted s.held.items s.taken };
}

impl<T: Drop> Seats<T> {
    /// Empty seats.
    pub fn new(alloc: Global) -> Result<Seats<T>, NoMemory>
        ensures { IfOk result (λ seats. seats ≡ no_seats) }
    {
        let mut held = Vec::new(alloc);
        for _ in 0..MAX_HOSTS {
            held.push(None)?;
        }
        Ok(Seats { held, taken: 0 })
    }

    /// Keeps this of a maker. Where its seat is taken already it answers `false`, and nothing changes.
    /// Takes no memory.
    #[tactic(auto, unfolding(nys_votes::specs::Seats::with_seat))]
    pub fn keep(&mut self, maker: u32, what: T) -> bool
        requires maker { maker < MAX_HOSTS }
        ensures again { result ≡ not (is_seated self.old maker) }
        ensures kept { self.new ≡ with_seat maker what self.old }
    {
        match self.held[maker as usize] {
            Some(_) => false,
            None => {
                self.held[maker as usize] = Some(what);
                self.taken += 1;
                true
            }
        }
    }

    /// How many seats there are, `MAX_HOSTS`.
    pub fn len(&self) -> u32
        ensures len { result ≡ length self.now }
        ensures all { result ≡ MAX_HOSTS }
    {
        self.held.len() as u32
    }

    /// The seat of a maker.
    pub fn get(&self, maker: u32) -> &Option<T>
        requires maker { maker < MAX_HOSTS }
        ensures { result.now ≡ seat_of self.now maker }
    {
        &self.held[maker as usize]
    }

    /// Empties the seat of a maker. Takes no memory.
    pub fn clear(&mut self, maker: u32)
        requires maker { maker < MAX_HOSTS }
        ensures { self.new ≡ slice_set self.old maker None }
    {
        let was = self.held[maker as usize].take();
        if was.is_none() {
            return;
        }
        self.taken -= 1;
    }

    /// How many seats are taken, without a look at them.
    pub fn count(&self) -> u32
        ensures count { result ≡ count_all self.now }
        ensures few { result ≤ MAX_HOSTS }
        ensures seats { length self.now ≡ MAX_HOSTS }
    {
        self.taken
    }

    /// The makers whose seats are taken.
    pub fn makers(&self) -> HostSet
        ensures { (h : ℕ) → has result h ≡ is_seated self.now h }
    {
        let mut makers = HostSet::empty();
        for maker in 0..MAX_HOSTS as u32 {
            if self.held[maker as usize].is_some() {
                makers = makers.with(maker);
            }
        }
        makers
    }
}
