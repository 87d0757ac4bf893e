//! What the Olympus answers when it is told to decide a log or to give a host up.

ghost use Rattle.std.specs.Prelude.{◌≡◌, ◌<◌, ◌≤◌, false, IfOk, OnOk, nat_le, length};
ghost use Rattle.nys_olympus.specs.Means.{IsMeant, IsViewOf, Known};
ghost use Rattle.nys_olympus.specs.Supports.{supports_of};
ghost use Rattle.nys_config.specs.Config.{IsConfig};
ghost use Rattle.nys_rules.specs.Olympus.{after_decision, Decides, first_bare, frozen_at, is_settled, open_decision, OlympusView, Retires, supports, with_decision};
ghost use Rattle.nys_rules.specs.Scope.{quorum_at, Scope};
ghost use Rattle.nys_config.specs.Scopes.{scope_in};
ghost use Rattle.nys_votes.specs.Seats.{count_seats, passes};
ghost use Rattle.nys_hosts.specs.declared.limits.TheConstants.{MAX_HOSTS};
ghost use Rattle.nys_stmt.specs.declared.limits.TheConstants.{MAX_LENGTH};

use crate::kept::Docket;
use crate::olympus::Olympus;
use nys_bytes::{Content, NoMemory};
use nys_config::{Config, guards_of, threshold};
use nys_hosts::{MAX_SLOTS, quorum};
use nys_rules::{Decision, Retired};
use nys_seats::Seats;
use nys_source::Protocol;
use std::alloc::Global;

/// Whether a guard is frozen at the slot or an earlier one.
fn is_frozen(seat: &Option<u32>, slot: u32) -> bool
    ensures { result ≡ passes (λ f. nat_le f slot) seat.now }
{
    match seat {
        Some(frozen) => *frozen <= slot,
        None => false,
    }
}

/// How many guards are frozen at the slot or an earlier one.
#[tactic(auto, unfolding(nys_votes::specs::Seats::count_seats))]
fn count_frozen(seats: &Seats<u32>, slot: u32) -> u32
    ensures count { result ≡ count_seats (λ f. nat_le f slot) seats.now }
    ensures few { result ≤ MAX_HOSTS }
{
    let mut count = 0;
    for guard in 0..seats.len() {
        if is_frozen(seats.get(guard), slot) {
            count += 1;
        }
    }
    count
}

/// The contents that support the slots from `base` on, up to the first that isn't supported.
fn supporting(alloc: Global, docket: &Docket, t: u32, base: u32) -> Result<Vec<Content>, NoMemory>
    requires { base ≤ MAX_LENGTH }
    ensures value { IfOk result (λ contents. contents.items ≡ supports_of MAX_LENGTH t docket.now base) }
    ensures few { IfOk result (λ contents. length contents.items ≤ MAX_LENGTH) }
{
    let mut contents = Vec::new(alloc);
    for i in 0..MAX_SLOTS as u32 {
        match docket.supported(base + i, t) {
            Some(content) => {
                let content = content.copy(alloc)?;
                contents.push(content)?;
            }
            None => return Ok(contents),
        }
    }
    Ok(contents)
}

impl<P: Protocol> Olympus<P> {
    /// What may follow the decided log of a host.
    fn supports(&self, alloc: Global, cx: &Config<P>, h: u32) -> Result<Vec<Content>, NoMemory>
        requires host { h < MAX_HOSTS }
        requires means { IsMeant (scope_in P.rules cx.now) self.now }
        ensures value { IfOk result (λ contents.
            Known (scope_in P.rules cx.now) self.now (λ o.
            contents.items ≡ supports (scope_in P.rules cx.now) o h)) }
        ensures few { IfOk result (λ contents. length contents.items ≤ MAX_LENGTH) }
    {
        let t = threshold(cx, self.epoch, h);
        let base = self.base_of(cx, h);
        supporting(alloc, &self.reports[h as usize], t, base)
    }

    /// The length at which the epoch began the log of a host.
    fn base_of(&self, _cx: &Config<P>, h: u32) -> u32
        requires host { h < MAX_HOSTS }
        requires means { IsMeant (scope_in P.rules _cx.now) self.now }
        ensures value { (scope : Scope P.State) → Known scope self.now (λ o. result ≡ o.base h) }
        ensures few { result ≤ MAX_LENGTH }
    {
        self.base[h as usize]
    }

    /// How many guards are a quorum of those of a host.
    #[tactic(auto, unfolding(nys_rules::specs::Scope::quorum_at))]
    fn quorum(&self, cx: &Config<P>, h: u32) -> u32
        requires config { IsConfig (P.rules cx.now.protocol).hosts cx.now }
        ensures { Known (scope_in P.rules cx.now) self.now (λ o.
            result ≡ quorum_at (scope_in P.rules cx.now) o.epoch h) }
    {
        quorum(
            guards_of(cx, self.epoch, h).count(),
            threshold(cx, self.epoch, h),
        )
    }

    /// The decision where it is open, by the first slot that isn't supported.
    fn open_decision(&self, cx: &Config<P>, h: u32, bare: u32) -> Decision
        requires config { IsConfig (P.rules cx.now.protocol).hosts cx.now }
        requires host { h < MAX_HOSTS }
        requires rows { length self.now.frozen.items ≡ MAX_HOSTS }
        ensures { Known (scope_in P.rules cx.now) self.now (λ o.
            bare ≡ first_bare (scope_in P.rules cx.now) o h
            → result ≡ open_decision (scope_in P.rules cx.now) o h) }
    {
        let frozen = count_frozen(&self.frozen[h as usize], bare);
        if self.quorum(cx, h) <= frozen {
            Decision::Decided { len: bare }
        } else {
            Decision::Undecided {
                supported: bare,
                frozen,
            }
        }
    }

    /// The log of a host is decided: these contents follow.
    fn settle(&mut self, h: u32, contents: Vec<Content>) -> Result<(), NoMemory>
        requires host { h < MAX_HOSTS }
        requires rows { length self.old.decided.items ≡ MAX_HOSTS }
        ensures { OnOk result ((scope : Scope P.State)
            → Known scope self.old (λ o. is_settled o h ≡ false → contents.items ≡ supports scope o h
            → IsViewOf scope self.new (with_decision scope h o))) }
    {
        self.decided_now = self.decided_now.with(h);
        self.decided[h as usize].extend(contents)
    }

    /// The Olympus after an answer of these contents.
    fn answered(&mut self, h: u32, contents: Vec<Content>, answer: Decision) -> Result<(), NoMemory>
        requires host { h < MAX_HOSTS }
        requires rows { length self.old.decided.items ≡ MAX_HOSTS }
        ensures { OnOk result ((scope : Scope P.State) → Known scope self.old (λ o.
            is_settled o h ≡ false → contents.items ≡ supports scope o h
            → IsViewOf scope self.new (after_decision scope o h answer))) }
    {
        match answer {
            Decision::Decided { .. } => self.settle(h, contents),
            Decision::Undecided { .. } => Ok(()),
            Decision::NotWedged => Ok(()),
            Decision::Settled => Ok(()),
        }
    }

    /// Told to decide the log of a host, it answers what it can, and where the host is decided its log
    /// grows. Want of memory gives the Olympus up.
    pub fn decide(&mut self, alloc: Global, cx: &Config<P>, h: u32) -> Result<Decision, NoMemory>
        requires config { IsConfig (P.rules cx.now.protocol).hosts cx.now }
        requires host { h < MAX_HOSTS }
        requires means { IsMeant (scope_in P.rules cx.now) self.old }
        ensures decides { IfOk result (λ answer.
            Known (scope_in P.rules cx.now) self.old (λ o.
            (after : OlympusView) × IsViewOf (scope_in P.rules cx.now) self.new after
            × Decides (scope_in P.rules cx.now) o h after answer)) }
    {
        if !self.wedged {
            return Ok(Decision::NotWedged);
        }
        if self.is_settled(h) {
            return Ok(Decision::Settled);
        }
        let contents = self.supports(alloc, cx, h)?;
        let bare = self.base_of(cx, h) + contents.len() as u32;
        let answer = self.open_decision(cx, h, bare);
        self.answered(h, contents, answer)?;
        Ok(answer)
    }

    /// Told to give a host up, it does where the host isn't settled.
    /// Takes no memory.
    pub fn retire(&mut self, h: u32) -> Retired
        requires host { h < MAX_HOSTS }
        ensures retires { (scope : Scope P.State)
            → Known scope self.old (λ o. (after : OlympusView) × IsViewOf scope self.new after
            × Retires o h after result) }
    {
        if !self.wedged {
            return Retired::NotWedged;
        }
        if self.is_settled(h) {
            return Retired::Settled;
        }
        self.retired = self.retired.with(h);
        Retired::Done
    }
}
