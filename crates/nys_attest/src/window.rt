//! The window of one link.

ghost use Rattle.std.specs.Prelude.{◌≡◌, ◌≢◌, ◌<◌, ◌≤◌, ◌+◌, ◌-◌, ℕ, Ok, true, false, IfNone, IfOk, IfSome, OnErr, OnOk, option_copied};
ghost use Rattle.nys_attest.specs.Windows.{is_in_window, no_window, recorded, seats_in, seats_of};
ghost use Rattle.nys_source.specs.Tables.{put};
ghost use Rattle.nys_votes.specs.Seats.{no_seats, with_seat};
ghost use Rattle.nys_hosts.specs.declared.limits.TheConstants.{MAX_HOSTS};
ghost use Rattle.nys_stmt.specs.declared.limits.TheConstants.{MAX_NUMBER};

use crate::kept::{beside, drop_first, keep_at, seat_at, seats_in};
use nys_bytes::{NoMemory, Payload};
use nys_rules::WINDOW;
use nys_seats::Seats;
use std::alloc::Global;
use std::marker::Model;

/// How an attestation was recorded.
#[derive(Clone, Copy, Debug, PartialEq, Eq)]
pub enum Recorded {
    /// It is the first of its maker for the number, and is kept.
    New,
    /// The same payload is kept of the maker already.
    Same,
    /// Another payload is kept of the maker, and stays.
    Other,
    /// The number isn't one of the window's.
    OutOfWindow,
}

/// What is kept of one link. The seats of a number take memory from its first attestation on.
#[derive(Drop)]
pub(crate) struct Window {
    next: u32,
    kept: Vec<Option<Seats<Payload>>>,
}

impl Model for Window {
    ghost use Rattle.std.specs.Prelude.{◌≤◌, length};
    ghost use Rattle.nys_attest.specs.Windows.{Window};
    ghost use Rattle.nys_rules.specs.declared.limits.TheConstants.{WINDOW};

    ghost Value = { Window };

    ghost view = { λ w. record { next = w.next; kept = w.kept.items } };

    ghost invariant = { λ w. length w.kept.items ≤ WINDOW };
}

impl Window {
    /// Nothing is kept, and number 0 comes next.
    pub(crate) fn new(alloc: Global) -> Window
        ensures { result ≡ no_window }
    {
        Window {
            next: 0,
            kept: Vec::new(alloc),
        }
    }

    pub(crate) fn next(&self) -> u32
        ensures { result ≡ self.now.next }
    {
        self.next
    }

    /// The seats of a number, where something is kept of it.
    #[tactic(auto, unfolding(crate::specs::Windows::seats_of))]
    pub(crate) fn seats(&self, k: u32) -> Option<&Seats<Payload>>
        ensures { seats_in (option_copied result) ≡ seats_of self.now k }
    {
        match place_in(self.next, k) {
            Some(place) => seats_in(&self.kept, place),
            None => None,
        }
    }

    /// Moves the window by one number: what is kept of the first is forgotten.
    pub(crate) fn took(&mut self)
        requires next { self.old.next ≤ MAX_NUMBER }
        ensures next { self.new.next ≡ self.old.next + 1 }
        ensures seats { (k : ℕ) → seats_of self.new k ≡ put (seats_of self.old) self.old.next no_seats k }
    {
        drop_first(&mut self.kept);
        self.next += 1;
    }

    /// Goes on from this number, with nothing kept.
    pub(crate) fn restart(&mut self, next: u32)
        ensures next { self.new.next ≡ next }
        ensures seats { (k : ℕ) → seats_of self.new k ≡ no_seats }
    {
        self.kept.clear();
        self.next = next;
    }

    /// Keeps what a maker attests for a number, where it is the first.
    pub(crate) fn note(
        &mut self,
        alloc: Global,
        k: u32,
        maker: u32,
        payload: &Payload,
    ) -> Result<Recorded, NoMemory>
        requires maker { maker < MAX_HOSTS }
        ensures answer { IfOk result (λ answer. answer
            ≡ recorded self.old.next k (seats_of self.old k) maker payload.now) }
        ensures next { self.new.next ≡ self.old.next }
        ensures kept { result ≡ Ok Recorded.New → (l : ℕ) → seats_of self.new l
            ≡ put (seats_of self.old) k (with_seat maker payload.now (seats_of self.old k)) l }
        ensures same { result ≢ Ok Recorded.New → (l : ℕ) → seats_of self.new l ≡ seats_of self.old l }
    {
        let answer = self.answer(k, maker, payload);
        match answer {
            Recorded::New => {
                self.keep(alloc, k, maker, payload)?;
                Ok(Recorded::New)
            }
            _ => Ok(answer),
        }
    }

    /// How what a maker attests for a number would be recorded.
    #[tactic(auto, unfolding(crate::specs::Windows::recorded))]
    fn answer(&self, k: u32, maker: u32, payload: &Payload) -> Recorded
        requires maker { maker < MAX_HOSTS }
        ensures answer { result ≡ recorded self.now.next k (seats_of self.now k) maker payload.now }
        ensures new { result ≡ Recorded.New → is_in_window self.now.next k ≡ true }
    {
        match place_in(self.next, k) {
            None => Recorded::OutOfWindow,
            Some(_) => beside(seat_at(self.seats(k), maker), payload),
        }
    }

    /// Keeps what a maker attests for a number of the window, unless something is kept of it.
    #[tactic(auto, unfolding(crate::specs::Windows::seats_of))]
    fn keep(&mut self, alloc: Global, k: u32, maker: u32, payload: &Payload) -> Result<(), NoMemory>
        requires maker { maker < MAX_HOSTS }
        requires inside { is_in_window self.old.next k ≡ true }
        ensures next { self.new.next ≡ self.old.next }
        ensures kept { OnOk result ((l : ℕ) → seats_of self.new l
            ≡ put (seats_of self.old) k (with_seat maker payload.now (seats_of self.old k)) l) }
        ensures same { OnErr result ((l : ℕ) → seats_of self.new l ≡ seats_of self.old l) }
    {
        let payload = payload.copy(alloc)?;
        keep_at(
            alloc,
            &mut self.kept,
            (k - self.next) as usize,
            maker,
            payload,
        )
    }
}

/// The place of a number in the window.
fn place_in(next: u32, k: u32) -> Option<usize>
    ensures some { IfSome result (λ place. (is_in_window next k ≡ true) × (place ≡ k - next)
        × (place < WINDOW) × (next + place ≡ k)) }
    ensures none { IfNone result (is_in_window next k ≡ false) }
{
    if k < next {
        return None;
    }
    let place = (k - next) as usize;
    if place < WINDOW { Some(place) } else { None }
}
