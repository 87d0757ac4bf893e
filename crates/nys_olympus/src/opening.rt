//! What the Olympus does when it is told to end its epoch or to open the next one.

ghost use Rattle.std.specs.Prelude.{◌≡◌, ◌<◌, ◌≤◌, ◌+◌, ◌∷◌, [], ℕ, Some, None, if◌then◌else◌, IfOk, OnOk, All, fold, length, slice_get};
ghost use Rattle.nys_olympus.specs.Means.{IsMeant, IsViewOf, Known};
ghost use Rattle.nys_config.specs.Config.{IsConfig};
ghost use Rattle.nys_rules.specs.Olympus.{hosts_of, in_next_epoch, lengths_told, opening_acts, OlympusView, Opens, proclaimed, unsettled, Wedges};
ghost use Rattle.nys_rules.specs.Packets.{joined};
ghost use Rattle.nys_rules.specs.Scope.{Scope};
ghost use Rattle.nys_sending.specs.Receivers.{AreReceivers};
ghost use Rattle.nys_config.specs.Scopes.{scope_in};
ghost use Rattle.nys_olympus.specs.Handing.{handed_over, inheritances};
ghost use Rattle.nys_source.specs.Tables.{lists_at};
ghost use Rattle.nys_stmt.specs.Lists.{IsLength};
ghost use Rattle.nys_stmt.specs.Ranges.{IsBodyInRange, IsContentInRange};
ghost use Rattle.nys_stmt.specs.declared.limits.TheConstants.{MAX_EPOCH, MAX_LENGTH};

use crate::kept::DecidedLog;
use crate::olympus::{Olympus, no_reports, none_frozen};
use crate::telling::done;
use nys_bytes::{Content, NoMemory};
use nys_config::{Config, hosts, is_epoch};
use nys_hosts::{HostSet, MAX_HOSTS};
use nys_mac::LAST_PARTY;
use nys_rules::{Handled, Opened};
use nys_sending::outbox::Outbox;
use nys_sending::sending::guard_list;
use nys_source::Protocol;
use nys_stmt::{Body, FilledKind, Lengths, Statement};
use std::alloc::Global;

/// All hosts of the protocol, rising.
#[tactic(auto, unfolding(nys_config::specs::Scopes::scope_of))]
fn host_list<P: Protocol>(alloc: Global, cx: &Config<P>) -> Result<Vec<u32>, NoMemory>
    ensures value { IfOk result (λ list. list.items ≡ hosts_of (scope_in P.rules cx.now)) }
    ensures rule { IfOk result (λ list. AreReceivers list.items) }
{
    let mut list = Vec::new(alloc);
    for h in 0..hosts(cx) {
        list.push(h)?;
    }
    Ok(list)
}

/// The Olympus makes a statement of an epoch to parties.
fn proclaim<P: Protocol>(
    alloc: Global,
    cx: &Config<P>,
    epoch: u32,
    body: Body,
    receivers: &[u32],
    out: &mut Outbox,
) -> Result<(), NoMemory>
    requires epoch { epoch ≤ MAX_EPOCH }
    requires range { IsBodyInRange body }
    requires rule { AreReceivers receivers.now }
    ensures { OnOk result (out.new ≡ joined out.old
        (proclaimed (scope_in P.rules cx.now) epoch body receivers.now)) }
{
    out.announce(alloc, cx, LAST_PARTY, Statement { epoch, body }, receivers)
}

/// The entries of the log of a host go to its guards of the epoch.
fn hand_each<P: Protocol>(
    alloc: Global,
    cx: &Config<P>,
    epoch: u32,
    h: u32,
    contents: &[Content],
    out: &mut Outbox,
) -> Result<(), NoMemory>
    requires epoch { epoch ≤ MAX_EPOCH }
    requires host { h < MAX_HOSTS }
    requires short { length contents.now ≤ MAX_LENGTH }
    requires range { All IsContentInRange contents.now }
    ensures { OnOk result (out.new ≡ fold joined out.old
        (handed_over (scope_in P.rules cx.now) epoch h contents.now)) }
{
    let guards = guard_list(alloc, cx, epoch, h)?;
    for slot in 0..contents.len() {
        let content = contents[slot].copy(alloc)?;
        let body = Body::Filled {
            kind: FilledKind::Inherit,
            h,
            slot: slot as u32,
            content,
        };
        proclaim(alloc, cx, epoch, body, guards.as_slice(), out)?;
    }
    Ok(())
}

impl<P: Protocol> Olympus<P> {
    /// Told to end its epoch, it makes `Wedge` to all hosts and answers true, unless the epoch is
    /// ending already. Want of memory gives it up.
    pub fn wedge(&mut self, alloc: Global, cx: &Config<P>) -> Result<(bool, Handled), NoMemory>
        requires config { IsConfig (P.rules cx.now.protocol).hosts cx.now }
        requires means { IsMeant (scope_in P.rules cx.now) self.old }
        ensures wedges { IfOk result (λ r. Known (scope_in P.rules cx.now) self.old
            (λ o. (after : OlympusView) × IsViewOf (scope_in P.rules cx.now) self.new after
            × Wedges (scope_in P.rules cx.now) o after r.0 r.1)) }
    {
        let mut out = Outbox::new(alloc);
        if self.wedged {
            return Ok((false, done(out)));
        }
        let list = host_list(alloc, cx)?;
        proclaim(
            alloc,
            cx,
            self.epoch,
            Body::Wedge,
            list.as_slice(),
            &mut out,
        )?;
        self.wedged = true;
        Ok((true, done(out)))
    }
}

/// How long each of the logs is.
fn lengths_of(logs: &[DecidedLog]) -> [u32; MAX_HOSTS]
    requires rows { length logs.now ≡ MAX_HOSTS }
    requires short { All (λ log. length log ≤ MAX_LENGTH) logs.now }
    ensures size { length result ≡ MAX_HOSTS }
    ensures each { (h n : ℕ) → slice_get result h ≡ Some n → n ≡ length (lists_at logs.now h) }
{
    let mut lengths = [0; MAX_HOSTS];
    for h in 0..MAX_HOSTS {
        lengths[h] = logs[h].items().len() as u32;
    }
    lengths
}

impl<P: Protocol> Olympus<P> {
    /// The length that an Open tells of a host.
    fn length_told(&self, h: u32) -> Option<u32>
        requires host { h < MAX_HOSTS }
        requires rows { length self.now.decided.items ≡ MAX_HOSTS }
        requires short { All (λ log. length log ≤ MAX_LENGTH) self.now.decided.items }
        ensures value { (scope : Scope P.State) → Known scope self.now (λ o.
            result ≡ (if o.retired h then None else Some (length (o.decided h)))) }
        ensures length { IsLength result }
    {
        if self.retired.contains(h) {
            return None;
        }
        Some(self.decided[h as usize].items().len() as u32)
    }

    /// The lengths that an Open tells.
    fn lengths(&self, alloc: Global, cx: &Config<P>) -> Result<Lengths, NoMemory>
        requires means { IsMeant (scope_in P.rules cx.now) self.now }
        ensures some { IfOk result (λ lengths. 1 ≤ length lengths) }
        ensures value { IfOk result (λ lengths. Known (scope_in P.rules cx.now) self.now (λ o.
            lengths ≡ lengths_told (scope_in P.rules cx.now) o)) }
    {
        let mut lengths = Lengths::new(alloc);
        for h in 0..hosts(cx) {
            lengths.push(self.length_told(h))?;
        }
        Ok(lengths)
    }

    /// The lowest host that is neither decided nor retired.
    fn unsettled(&self, cx: &Config<P>) -> Option<u32>
        ensures { Known (scope_in P.rules cx.now) self.now (λ o.
            result ≡ unsettled (scope_in P.rules cx.now) o) }
    {
        for h in 0..hosts(cx) {
            if !self.is_settled(h) {
                return Some(h);
            }
        }
        None
    }

    /// The entries of a host that isn't retired go to its guards of the epoch.
    fn hand_over(
        &self,
        alloc: Global,
        cx: &Config<P>,
        epoch: u32,
        h: u32,
        out: &mut Outbox,
    ) -> Result<(), NoMemory>
        requires host { h < MAX_HOSTS }
        requires epoch { epoch ≤ MAX_EPOCH }
        requires means { IsMeant (scope_in P.rules cx.now) self.now }
        ensures { OnOk result (Known (scope_in P.rules cx.now) self.now (λ o.
            out.new ≡ fold joined out.old (inheritances (scope_in P.rules cx.now) o epoch (h ∷ [])))) }
    {
        if self.retired.contains(h) {
            return Ok(());
        }
        hand_each(alloc, cx, epoch, h, self.decided[h as usize].items(), out)
    }

    /// The entries of each host that isn't retired, rising, go to its guards of the epoch.
    fn hand_over_all(
        &self,
        alloc: Global,
        cx: &Config<P>,
        epoch: u32,
        out: &mut Outbox,
    ) -> Result<(), NoMemory>
        requires epoch { epoch ≤ MAX_EPOCH }
        requires means { IsMeant (scope_in P.rules cx.now) self.now }
        ensures { OnOk result (Known (scope_in P.rules cx.now) self.now (λ o.
            out.new ≡ fold joined out.old
            (inheritances (scope_in P.rules cx.now) o epoch (hosts_of (scope_in P.rules cx.now))))) }
    {
        for h in 0..hosts(cx) {
            self.hand_over(alloc, cx, epoch, h, out)?;
        }
        Ok(())
    }

    /// What is made when the epoch opens.
    fn opening_made(&self, alloc: Global, cx: &Config<P>, epoch: u32) -> Result<Outbox, NoMemory>
        requires epoch { epoch ≤ MAX_EPOCH }
        requires means { IsMeant (scope_in P.rules cx.now) self.now }
        ensures { IfOk result (λ out. Known (scope_in P.rules cx.now) self.now (λ o.
            out ≡ opening_acts (scope_in P.rules cx.now) o epoch)) }
    {
        let lengths = self.lengths(alloc, cx)?;
        let list = host_list(alloc, cx)?;
        let mut out = Outbox::new(alloc);
        proclaim(
            alloc,
            cx,
            epoch,
            Body::Open { lengths },
            list.as_slice(),
            &mut out,
        )?;
        self.hand_over_all(alloc, cx, epoch, &mut out)?;
        Ok(out)
    }

    /// The Olympus in its next epoch.
    fn next_epoch(&mut self, alloc: Global) -> Result<(), NoMemory>
        requires epoch { self.old.epoch ≤ MAX_EPOCH }
        requires rows { length self.old.decided.items ≡ MAX_HOSTS }
        requires short { All (λ log. length log ≤ MAX_LENGTH) self.old.decided.items }
        ensures { OnOk result ((scope : Scope P.State) → Known scope self.old (λ o.
            o.epoch + 1 < scope.epochs → IsViewOf scope self.new (in_next_epoch o))) }
    {
        let reports = no_reports(alloc)?;
        let frozen = none_frozen(alloc)?;
        let base = lengths_of(self.decided.as_slice());
        self.epoch += 1;
        self.wedged = false;
        self.decided_now = HostSet::empty();
        self.base = base;
        self.reports = reports;
        self.frozen = frozen;
        Ok(())
    }

    /// Told to open the next epoch, it makes the opening where the epoch is ending, there is a next one
    /// and each host is decided or retired. Want of memory gives it up.
    pub fn open_next(
        &mut self,
        alloc: Global,
        cx: &Config<P>,
    ) -> Result<(Opened, Handled), NoMemory>
        requires config { IsConfig (P.rules cx.now.protocol).hosts cx.now }
        requires means { IsMeant (scope_in P.rules cx.now) self.old }
        ensures opens { IfOk result (λ r. Known (scope_in P.rules cx.now) self.old
            (λ o. (after : OlympusView) × IsViewOf (scope_in P.rules cx.now) self.new after
            × Opens (scope_in P.rules cx.now) o after r.0 r.1)) }
    {
        if !self.wedged {
            return Ok((Opened::NotWedged, done(Outbox::new(alloc))));
        }
        let epoch = self.epoch + 1;
        if !is_epoch(cx, epoch) {
            return Ok((Opened::NoNext, done(Outbox::new(alloc))));
        }
        if let Some(h) = self.unsettled(cx) {
            return Ok((Opened::NotAll { h }, done(Outbox::new(alloc))));
        }
        let out = self.opening_made(alloc, cx, epoch)?;
        self.next_epoch(alloc)?;
        Ok((Opened::Done { epoch }, done(out)))
    }
}
