//! The rule Open: an epoch begins, with its guards, its bases and the hosts that are retired.

ghost use Rattle.std.specs.Prelude.{◌≡◌, ℕ, ◌<◌, ◌≤◌, ◌==◌, ◌&&◌, ◌||◌, Bool, List, [], length, nat_lt, not, true, false, IfOk, IsTrue, OnOk, Some, None};
ghost use Rattle.nys_agreement.specs.Alone.{alone};
ghost use Rattle.nys_bytes.specs.declared.content.Content.{Content};
ghost use Rattle.nys_hosts.specs.Sets.{has};
ghost use Rattle.nys_node.specs.Entering.{AreReplicas, Carries, entered, HearNothing, HearsNothing};
ghost use Rattle.nys_node.specs.Means.{IsReplicaOf, IsViewOf, Means, Known};
ghost use Rattle.nys_config.specs.Scopes.{scope_in};
ghost use Rattle.nys_sending.specs.Tables.{IsTable};
ghost use Rattle.nys_rules.specs.Noting.{bases, retirements};
ghost use Rattle.nys_config.specs.Config.{IsConfig};
ghost use Rattle.nys_rules.specs.Scope.{Scope};
ghost use Rattle.nys_rules.specs.View.{empty_desk, entering, first_view, newborn, View};
ghost use Rattle.nys_source.specs.Rules.{Rules};
ghost use Rattle.nys_votes.specs.Seats.{no_seats};
ghost use Rattle.nys_hosts.specs.declared.limits.TheConstants.{MAX_HOSTS};
ghost use Rattle.nys_node.specs.HeadDrops.{counted_drop};

use crate::forgetting::forget_all;
use crate::node::Node;
use circular_buffer::HeapCircularBuffer;
use nys_attest::{AttestTable, Links};
use nys_bytes::{Content, NoMemory};
use nys_config::{Config, credit, guards_of, hosts, is_epoch};
use nys_credit::CreditBank;
use nys_desk::{Desk, KeptSlots};
use nys_hosts::{HostSet, MAX_HOSTS};
use nys_replica::Replica;
use nys_rules::{DropCause, MAX_WAITING};
use nys_source::Protocol;
use nys_stmt::Lengths;
use std::alloc::Global;

/// The set with the host, where it is to join.
fn with_if(set: HostSet, h: u32, joins: bool) -> HostSet
    requires host { h < MAX_HOSTS }
    ensures { (k : ℕ) → has result k ≡ (has set k || ((h == k) && joins)) }
{
    if joins { set.with(h) } else { set }
}

/// The hosts that a host guards in an epoch.
pub(crate) fn guarded_by<P: Protocol>(cx: &Config<P>, epoch: u32, me: u32) -> HostSet
    ensures value { (h : ℕ) → has result h ≡ (nat_lt h (P.rules cx.now.protocol).hosts
        && (scope_in P.rules cx.now).guards epoch h me) }
    ensures hosts { (h : ℕ) → has result h ≡ true → h < (P.rules cx.now.protocol).hosts }
{
    let mut found = HostSet::empty();
    let count = hosts(cx);
    for h in 0..count {
        found = with_if(found, h, guards_of(cx, epoch, h).contains(me));
    }
    found
}

/// The first hosts that are guarded and aren't retired.
pub(crate) fn live_of(guarded: &HostSet, retired: &HostSet, count: u32) -> HostSet
    requires few { count ≤ MAX_HOSTS }
    ensures { (h : ℕ) → has result h ≡ (nat_lt h count && (has guarded.now h && not (has retired.now h))) }
{
    let mut found = HostSet::empty();
    for h in 0..count {
        found = with_if(found, h, guarded.contains(h) && !retired.contains(h));
    }
    found
}

/// The hosts that an opening gives no length.
pub(crate) fn retired_by(lengths: &Lengths) -> HostSet
    ensures { (h : ℕ) → has result h ≡ retirements lengths.now h }
{
    let mut found = HostSet::empty();
    let count = lengths.len();
    for h in 0..count {
        found = with_if(found, h, lengths.get(h).is_none());
    }
    found
}

/// By host, the length at which an opening begins its log.
pub(crate) fn bases_by(lengths: &Lengths) -> [u32; MAX_HOSTS]
    ensures { IsTable result (bases lengths.now) }
{
    let mut found = [0; MAX_HOSTS];
    let count = lengths.len();
    for h in 0..count {
        found[h as usize] = lengths.get(h).unwrap_or(0);
    }
    found
}

/// An empty desk for each host.
pub(crate) fn empty_desks(alloc: Global) -> Result<Vec<Desk>, NoMemory>
    ensures { IfOk result (λ desks. IsTable desks.items (λ _. empty_desk)) }
{
    let mut desks = Vec::new(alloc);
    for _ in 0..MAX_HOSTS {
        desks.push(Desk::new())?;
    }
    Ok(desks)
}

/// No slot that is kept of any host.
pub(crate) fn no_slots(alloc: Global) -> Result<Vec<KeptSlots>, NoMemory>
    ensures { IfOk result (λ kept. IsTable kept.items (λ _. [])) }
{
    let mut kept = Vec::new(alloc);
    for _ in 0..MAX_HOSTS {
        kept.push(KeptSlots::new(alloc))?;
    }
    Ok(kept)
}

/// No heads of links into any host, under this credit.
pub(crate) fn no_heads(alloc: Global, credit: u32) -> Result<Vec<CreditBank>, NoMemory>
    ensures { IfOk result (λ banks. IsTable banks.items (λ _. (credit, no_seats))) }
{
    let mut banks = Vec::new(alloc);
    for _ in 0..MAX_HOSTS {
        banks.push(CreditBank::new(alloc, credit)?)?;
    }
    Ok(banks)
}

/// The number of the message from `p` that comes next in the log of a host; the first where it has no log.
fn next_in<P: Protocol>(replica: &Option<Replica<P>>, p: u32) -> u32
    requires sender { p < MAX_HOSTS }
    ensures { (rules : Rules P.State) (h : ℕ) (log : List Content) (kept : ℕ) (known : Bool)
        → IsReplicaOf rules h replica.now log kept known → result ≡ (alone rules h log).received p h }
{
    match replica {
        Some(replica) => replica.next(p),
        None => 0,
    }
}

/// Nothing was heard of the links into a host; on each the number comes next that does in its log.
fn heard_by<P: Protocol>(
    alloc: Global,
    replica: &Option<Replica<P>>,
) -> Result<AttestTable, NoMemory>
    ensures { IfOk result (λ table. (rules : Rules P.State) (h : ℕ) (log : List Content) (kept : ℕ) (known : Bool)
        → IsReplicaOf rules h replica.now log kept known → HearsNothing rules h log table) }
{
    let mut table = AttestTable::new(alloc)?;
    for p in 0..MAX_HOSTS as u32 {
        table.restart(p, next_in(replica, p));
    }
    Ok(table)
}

/// The same for each host.
pub(crate) fn heard_by_all<P: Protocol>(
    alloc: Global,
    replicas: &[Option<Replica<P>>],
) -> Result<Vec<AttestTable>, NoMemory>
    ensures { IfOk result (λ tables. (rules : Rules P.State) (logs : ℕ → List Content) (kept : ℕ → ℕ)
        (known : ℕ → Bool) → AreReplicas rules replicas.now logs kept known → HearNothing rules logs tables.items) }
{
    let mut tables = Vec::new(alloc);
    for i in 0..replicas.len() {
        let table = heard_by(alloc, &replicas[i])?;
        tables.push(table)?;
    }
    Ok(tables)
}

/// No host has a replica.
pub(crate) fn no_replicas<P: Protocol>(alloc: Global) -> Result<Vec<Option<Replica<P>>>, NoMemory>
    ensures { IfOk result (λ replicas. (rules : Rules P.State)
        → AreReplicas rules replicas.items (λ _. []) (λ _. 0) (λ _. false)) }
{
    let mut replicas = Vec::new(alloc);
    for _ in 0..MAX_HOSTS {
        replicas.push(None)?;
    }
    Ok(replicas)
}

/// A host that is guarded has a replica: it begins with an empty log where it has none.
fn begin_replica<P: Protocol>(
    replica: &mut Option<Replica<P>>,
    alloc: Global,
    cx: &Config<P>,
    h: u32,
) -> Result<(), NoMemory>
    requires host { h < (P.rules cx.now.protocol).hosts }
    ensures { OnOk result ((log : List Content) (kept : ℕ) (known : Bool)
        → IsReplicaOf (P.rules cx.now.protocol) h replica.old log kept known
        → IsReplicaOf (P.rules cx.now.protocol) h replica.new log kept true) }
{
    if replica.is_none() {
        *replica = Some(Replica::new(alloc, &cx.protocol, h)?);
    }
    Ok(())
}

/// The host has a replica, where it is guarded.
fn begin_guarded<P: Protocol>(
    replicas: &mut Vec<Option<Replica<P>>>,
    alloc: Global,
    cx: &Config<P>,
    h: u32,
    guarded: bool,
) -> Result<(), NoMemory>
    requires host { IsTrue guarded → h < (P.rules cx.now.protocol).hosts }
    ensures { OnOk result ((logs : ℕ → List Content) (kept : ℕ → ℕ) (known : ℕ → Bool)
        → AreReplicas (P.rules cx.now.protocol) replicas.old.items logs kept known
        → AreReplicas (P.rules cx.now.protocol) replicas.new.items logs kept (λ x.
        known x || ((h == x) && guarded))) }
{
    if guarded {
        if let Some(replica) = replicas.get_mut(h as usize) {
            begin_replica(replica, alloc, cx, h)?;
        }
    }
    Ok(())
}

/// Each host that is guarded has a replica.
pub(crate) fn begin_replicas<P: Protocol>(
    replicas: &mut Vec<Option<Replica<P>>>,
    alloc: Global,
    cx: &Config<P>,
    guarded: &HostSet,
) -> Result<(), NoMemory>
    requires hosts { (h : ℕ) → has guarded.now h ≡ true → h < (P.rules cx.now.protocol).hosts }
    ensures { OnOk result ((logs : ℕ → List Content) (kept : ℕ → ℕ) (known : ℕ → Bool)
        → AreReplicas (P.rules cx.now.protocol) replicas.old.items logs kept known
        → AreReplicas (P.rules cx.now.protocol) replicas.new.items logs kept (λ x.
        known x || (nat_lt x MAX_HOSTS && has guarded.now x))) }
{
    for h in 0..MAX_HOSTS as u32 {
        begin_guarded(replicas, alloc, cx, h, guarded.contains(h))?;
    }
    Ok(())
}

impl<P: Protocol> Node<P> {
    /// The node begins an epoch with what it takes over and still needs, before any link is attested.
    fn begin_epoch(
        &mut self,
        alloc: Global,
        cx: &Config<P>,
        epoch: u32,
        lengths: &Lengths,
    ) -> Result<(), NoMemory>
        requires epoch { epoch < (scope_in P.rules cx.now).epochs }
        ensures { OnOk result ((v : View) → Carries (scope_in P.rules cx.now) self.old v
            → Means (scope_in P.rules cx.now) self.new
            (entered (scope_in P.rules cx.now) epoch (bases lengths.now)
            (retirements lengths.now) v)) }
    {
        let guarded = guarded_by(cx, epoch, self.me);
        begin_replicas(&mut self.replicas, alloc, cx, &guarded)?;
        self.heard = heard_by_all(alloc, self.replicas.as_slice())?;
        self.desks = empty_desks(alloc)?;
        self.kept = no_slots(alloc)?;
        self.banks = no_heads(alloc, credit(cx, epoch))?;
        self.links = Links::new(alloc)?;
        self.retired = retired_by(lengths);
        self.live = live_of(&guarded, &self.retired, hosts(cx));
        self.base = bases_by(lengths);
        forget_all(&mut self.replicas, &self.live, self.base);
        self.voted_to = bases_by(lengths);
        self.epoch = epoch;
        self.wedged = false;
        Ok(())
    }

    /// The node enters an epoch, for which an opening tells the lengths at which logs begin. Of earlier
    /// epochs it keeps its logs, without the entries that are needed no more, and its waiting inputs. Want of memory may leave this half done; the node
    /// is given up then.
    #[tactic(auto, unfolding(nys_rules::specs::View::entering))]
    pub(crate) fn enter(
        &mut self,
        alloc: Global,
        cx: &Config<P>,
        epoch: u32,
        lengths: &Lengths,
    ) -> Result<(), NoMemory>
        requires epoch { epoch < (scope_in P.rules cx.now).epochs }
        ensures { OnOk result ((v : View) → Carries (scope_in P.rules cx.now) self.old v
            → Means (scope_in P.rules cx.now) self.new
            (entering (scope_in P.rules cx.now) epoch (bases lengths.now)
            (retirements lengths.now) v)) }
    {
        self.begin_epoch(alloc, cx, epoch, lengths)?;
        self.begin_links(cx);
        Ok(())
    }

    /// The node of a host, in epoch 0.
    pub fn new(alloc: Global, cx: &Config<P>, me: u32) -> Result<Node<P>, NoMemory>
        requires config { IsConfig (P.rules cx.now.protocol).hosts cx.now }
        requires me { me < (P.rules cx.now.protocol).hosts }
        ensures view { IfOk result (λ node. IsViewOf (scope_in P.rules cx.now) node
            (first_view (scope_in P.rules cx.now) me)) }
    {
        let mut node = Node::newborn(alloc, me)?;
        let lengths = Lengths::new(alloc);
        node.enter(alloc, cx, 0, &lengths)?;
        Ok(node)
    }

    /// A node before its first epoch: it knows no host.
    fn newborn(alloc: Global, me: u32) -> Result<Node<P>, NoMemory>
        ensures { IfOk result (λ node. (scope : Scope P.State) → me < scope.rules.hosts
            → Carries scope node (newborn me)) }
    {
        Ok(Node {
            me,
            epoch: 0,
            wedged: false,
            live: HostSet::empty(),
            retired: HostSet::empty(),
            base: [0; MAX_HOSTS],
            voted_to: [0; MAX_HOSTS],
            waiting: HeapCircularBuffer::with_capacity(alloc, MAX_WAITING)?,
            replicas: no_replicas(alloc)?,
            desks: Vec::new(alloc),
            kept: Vec::new(alloc),
            links: Links::new(alloc)?,
            heard: Vec::new(alloc),
            banks: Vec::new(alloc),
        })
    }

    /// The epoch that an opening begins.
    pub(crate) fn note_open(
        &mut self,
        alloc: Global,
        cx: &Config<P>,
        epoch: u32,
        lengths: &Lengths,
    ) -> Result<(), NoMemory>
        requires epoch { epoch < (scope_in P.rules cx.now).epochs }
        ensures { OnOk result ((v : View) → Means (scope_in P.rules cx.now) self.old v
            → Means (scope_in P.rules cx.now) self.new
            (entering (scope_in P.rules cx.now) epoch (bases lengths.now)
            (retirements lengths.now) v)) }
    {
        self.enter(alloc, cx, epoch, lengths)?;
        Ok(())
    }

    /// The first test that an Open of so many lengths fails before its makers are looked at.
    #[tactic(auto, unfolding(nys_config::specs::Scopes::scope_of))]
    pub(crate) fn open_drop(&self, cx: &Config<P>, epoch: u32, count: u32) -> Option<DropCause>
        ensures { Known (scope_in P.rules cx.now) self.now (λ v.
            result ≡ counted_drop (scope_in P.rules cx.now) v epoch count) }
    {
        if !(self.epoch < epoch && is_epoch(cx, epoch)) {
            return Some(DropCause::Epoch);
        }
        if count == hosts(cx) {
            None
        } else {
            Some(DropCause::NotGuard)
        }
    }
}
