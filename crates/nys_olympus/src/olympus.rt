//! The Olympus and what it tells of itself.

ghost use Rattle.std.specs.Prelude.{◌≡◌, ℕ, ◌<◌, ◌≤◌, ◌||◌, [], IfOk, length};
ghost use Rattle.nys_hosts.specs.Sets.{has};
ghost use Rattle.nys_olympus.specs.Means.{IsViewOf, Known};
ghost use Rattle.nys_sending.specs.Tables.{IsTable};
ghost use Rattle.nys_votes.specs.Seats.{no_seats};
ghost use Rattle.nys_config.specs.Config.{IsConfig};
ghost use Rattle.nys_rules.specs.Olympus.{first_olympus, is_settled};
ghost use Rattle.nys_rules.specs.Scope.{Scope};
ghost use Rattle.nys_config.specs.Scopes.{scope_in};

use crate::kept::{DecidedLog, Docket};
use nys_bytes::{Content, NoMemory};
use nys_config::Config;
use nys_hosts::{HostSet, MAX_HOSTS};
use nys_seats::Seats;
use nys_source::Protocol;
use std::alloc::Global;
use std::marker::PhantomData;

/// The trusted service. Contracts say which views it means.
#[derive(Drop)]
pub struct Olympus<P: Protocol> {
    pub(crate) epoch: u32,
    pub(crate) wedged: bool,
    /// The hosts that are decided for the end of this epoch.
    pub(crate) decided_now: HostSet,
    /// The hosts that are given up, for ever.
    pub(crate) retired: HostSet,
    /// By host: the length at which the epoch began its log.
    pub(crate) base: [u32; MAX_HOSTS],
    /// By host: its decided log.
    pub(crate) decided: Vec<DecidedLog>,
    /// By host: what guards reported in this epoch.
    pub(crate) reports: Vec<Docket>,
    /// By host: the slot of the first Frozen of each guard in this epoch.
    pub(crate) frozen: Vec<Seats<u32>>,
    of: PhantomData<P>,
}

/// An empty log for each host.
fn no_logs(alloc: Global) -> Result<Vec<DecidedLog>, NoMemory>
    ensures { IfOk result (λ logs. IsTable logs.items (λ _. [])) }
{
    let mut logs = Vec::new(alloc);
    for _ in 0..MAX_HOSTS {
        logs.push(DecidedLog::new(alloc))?;
    }
    Ok(logs)
}

/// No report about any host.
pub(crate) fn no_reports(alloc: Global) -> Result<Vec<Docket>, NoMemory>
    ensures { IfOk result (λ dockets. IsTable dockets.items (λ _. [])) }
{
    let mut dockets = Vec::new(alloc);
    for _ in 0..MAX_HOSTS {
        dockets.push(Docket::new(alloc))?;
    }
    Ok(dockets)
}

/// No guard of any host is frozen.
pub(crate) fn none_frozen(alloc: Global) -> Result<Vec<Seats<u32>>, NoMemory>
    ensures { IfOk result (λ frozen. IsTable frozen.items (λ _. no_seats)) }
{
    let mut frozen = Vec::new(alloc);
    for _ in 0..MAX_HOSTS {
        let seats = Seats::new(alloc)?;
        frozen.push(seats)?;
    }
    Ok(frozen)
}

impl<P: Protocol> Olympus<P> {
    /// The Olympus in epoch 0: nothing is decided, and no host is retired.
    #[tactic(auto, unfolding(nys_config::specs::Scopes::scope_of))]
    pub fn new(alloc: Global, cx: &Config<P>) -> Result<Olympus<P>, NoMemory>
        requires config { IsConfig (P.rules cx.now.protocol).hosts cx.now }
        ensures view { IfOk result (λ olympus. IsViewOf (scope_in P.rules cx.now) olympus first_olympus) }
    {
        let decided = no_logs(alloc)?;
        let reports = no_reports(alloc)?;
        let frozen = none_frozen(alloc)?;
        Ok(Olympus {
            epoch: 0,
            wedged: false,
            decided_now: HostSet::empty(),
            retired: HostSet::empty(),
            base: [0; MAX_HOSTS],
            decided,
            reports,
            frozen,
            of: PhantomData,
        })
    }

    /// The epoch that it is in.
    pub fn epoch(&self) -> u32
        ensures { (scope : Scope P.State) → Known scope self.now (λ o. result ≡ o.epoch) }
    {
        self.epoch
    }

    /// The decided log of a host, the oldest entry first.
    pub fn decided(&self, h: u32) -> &[Content]
        requires host { h < MAX_HOSTS }
        ensures { (scope : Scope P.State) → Known scope self.now (λ o. result.now ≡ o.decided h) }
    {
        match self.decided.get(h as usize) {
            Some(log) => log.items(),
            None => &[],
        }
    }

    /// The hosts that are given up.
    pub fn retired(&self) -> HostSet
        ensures { (scope : Scope P.State) → Known scope self.now (λ o. (h : ℕ) → has result h ≡ o.retired h) }
    {
        self.retired
    }

    /// Whether the host is given up.
    pub fn is_retired(&self, h: u32) -> bool
        ensures { (scope : Scope P.State) → Known scope self.now (λ o. result ≡ o.retired h) }
    {
        self.retired.contains(h)
    }

    /// Whether nothing more can change about the host in this epoch.
    pub(crate) fn is_settled(&self, h: u32) -> bool
        ensures { (scope : Scope P.State) → Known scope self.now (λ o. result ≡ is_settled o h) }
    {
        self.decided_now.contains(h) || self.retired.contains(h)
    }
}
