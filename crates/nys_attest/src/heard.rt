//! What is heard of one number, with what the node itself attests.

ghost use Rattle.std.specs.Prelude.{◌≡◌, ◌<◌, ◌≤◌, None, length, nat_lt, option_copied};
ghost use Rattle.nys_attest.specs.Windows.{seats_in};
ghost use Rattle.nys_rules.specs.Heads.{with_own};
ghost use Rattle.nys_votes.specs.Attested.{attested, attests_for};
ghost use Rattle.nys_votes.specs.Contents.{same_payload};
ghost use Rattle.nys_votes.specs.Seats.{passes, seat_of};

use crate::kept::{is_same, seat_at};
use nys_bytes::Payload;
use nys_hosts::MAX_HOSTS;
use nys_seats::Seats;
use std::marker::Model;

/// The seats of one number, where some are kept, and the own payload of host `me`, which counts where
/// nothing is kept of `me`.
#[derive(Drop)]
pub(crate) struct Heard<'a> {
    seats: Option<&'a Seats<Payload>>,
    me: u32,
    own: Option<&'a Payload>,
}

impl<'a> Model for Heard<'a> {
    ghost use Rattle.std.specs.Prelude.{ℤ, List, Option, option_copied};
    ghost use Rattle.nys_attest.specs.Windows.{seats_in};
    ghost use Rattle.nys_rules.specs.Heads.{with_own};

    ghost Value = { List (Option (List ℤ)) };

    ghost view = { λ h. with_own h.me (option_copied h.own) (seats_in (option_copied h.seats)) };
}

impl<'a> Heard<'a> {
    pub(crate) fn new(
        seats: Option<&'a Seats<Payload>>,
        me: u32,
        own: Option<&'a Payload>,
    ) -> Heard<'a>
        ensures { result ≡ with_own me (option_copied own.entry) (seats_in (option_copied seats.entry)) }
    {
        Heard { seats, me, own }
    }

    /// How many seats there are, `MAX_HOSTS`.
    fn len(&self) -> u32
        ensures len { result ≡ length self.now }
        ensures all { result ≡ MAX_HOSTS }
    {
        match self.seats {
            Some(seats) => seats.len(),
            None => MAX_HOSTS as u32,
        }
    }

    /// What a maker attests.
    fn get(&self, maker: u32) -> Option<&'a Payload>
        requires maker { maker < MAX_HOSTS }
        requires seat { maker < length self.now }
        ensures { option_copied result ≡ seat_of self.now maker }
    {
        match seat_at(self.seats, maker) {
            Some(payload) => Some(payload),
            None => { if maker == self.me { self.own } else { None } }
        }
    }

    /// How many makers attest the payload.
    #[tactic(auto, unfolding(nys_votes::specs::Attested::attests_for, nys_votes::specs::Seats::count_seats))]
    fn count_for(&self, payload: &Payload) -> u32
        ensures count { result ≡ attests_for payload.now self.now }
        ensures few { result ≤ MAX_HOSTS }
    {
        let mut count = 0;
        for maker in 0..self.len() {
            if is_for(self.get(maker), payload) {
                count += 1;
            }
        }
        count
    }

    fn has_makers(&self, seat: Option<&Payload>, t: u32) -> bool
        ensures { result ≡ passes (λ payload. nat_lt t (attests_for payload self.now))
            (option_copied seat.entry) }
    {
        match seat {
            Some(payload) => t < self.count_for(payload),
            None => false,
        }
    }

    /// Of the payloads that more than `t` makers attest, that of the lowest maker.
    #[tactic(auto, unfolding(nys_votes::specs::Attested::attested, nys_votes::specs::Seats::lowest))]
    pub(crate) fn attested(&self, t: u32) -> Option<&'a Payload>
        ensures { option_copied result ≡ attested t self.now }
    {
        for maker in 0..self.len() {
            let seat = self.get(maker);
            if self.has_makers(seat, t) {
                return seat;
            }
        }
        None
    }
}

fn is_for(seat: Option<&Payload>, payload: &Payload) -> bool
    ensures { result ≡ passes (same_payload payload.now) (option_copied seat.entry) }
{
    match seat {
        Some(other) => is_same(payload, other),
        None => false,
    }
}
