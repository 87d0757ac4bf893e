//! The calls of a node: it is handed an input, takes bytes, or is told to ask. Each makes the node settle.

ghost use Rattle.std.specs.Prelude.{◌≡◌, ◌<◌, ◌==◌, ◌&&◌, ◌||◌, ℕ, nat_lt, AllPairs, length, IfOk, None, OnErr};
ghost use Rattle.std.specs.List.{list_any};
ghost use Rattle.nys_hosts.specs.declared.limits.TheConstants.{MAX_HOSTS};
ghost use Rattle.nys_hosts.specs.Sets.{has, members};
ghost use Rattle.nys_node.specs.Handling.{CanNote, NamesNoDrop};
ghost use Rattle.nys_node.specs.Means.{HasView, IsViewOf, Known, Means};
ghost use Rattle.nys_config.specs.Scopes.{scope_in};
ghost use Rattle.nys_config.specs.Config.{IsConfig};
ghost use Rattle.nys_rules.specs.Dropping.{misplaced, verdict};
ghost use Rattle.nys_rules.specs.Handling.{AnswersTo, Asks, dropped_by, Goes, Handles, hosts_among, Notes, Takes, with_input};
ghost use Rattle.nys_rules.specs.Scope.{olympus, Scope};
ghost use Rattle.nys_rules.specs.View.{View};
ghost use Rattle.nys_stmt.specs.Records.{IsRecord};

use crate::node::Node;
use nys_bytes::{NoMemory, Payload};
use nys_config::Config;
use nys_hosts::{HostSet, MAX_HOSTS};
use nys_mac::LAST_PARTY;
use nys_rules::{DropCause, Handled, MAX_WAITING};
use nys_sending::accepting::{accepted, first_accepted};
use nys_sending::outbox::Outbox;
use nys_source::Protocol;
use nys_stmt::{Record, Tags};
use nys_wire::{RecordRef, RefFault};
use std::alloc::Global;

/// What is told of a call that dropped what it was given. Takes no memory.
fn dropped(alloc: Global, cause: DropCause) -> Handled
    ensures { result ≡ dropped_by cause }
{
    Handled {
        packets: Vec::new(alloc),
        statement: None,
        accepted: HostSet::empty(),
        olympus: false,
        made: Vec::new(alloc),
        grew: Vec::new(alloc),
        dropped: Some(cause),
    }
}

/// The set with a maker, where that is a host.
fn with_maker(set: &HostSet, m: u32) -> HostSet
    ensures { (k : ℕ) → has result k ≡ (has set.now k || ((m == k) && nat_lt m MAX_HOSTS)) }
{
    if m < MAX_HOSTS as u32 {
        set.with(m)
    } else {
        *set
    }
}

/// The hosts among makers that rise.
fn hosts_among(makers: &[Tags]) -> HostSet
    requires rising { AllPairs (λ a b. a.maker < b.maker) makers.now }
    ensures { members result ≡ hosts_among makers.now }
{
    let mut found = HostSet::empty();
    for i in 0..makers.len() {
        let tags = &makers[i];
        found = with_maker(&found, tags.maker);
    }
    found
}

/// Whether the Olympus is among makers.
fn has_olympus(makers: &[Tags]) -> bool
    ensures { result ≡ list_any (λ m. m.maker == olympus) makers.now }
{
    for i in 0..makers.len() {
        let tags = &makers[i];
        if tags.maker == LAST_PARTY {
            return true;
        }
    }
    false
}

impl<P: Protocol> Node<P> {
    /// The input waits, the last of all.
    fn wait(&mut self, payload: Payload)
        ensures { (scope : Scope P.State) (v : View) → length v.waiting < MAX_WAITING → Means scope self.old v
            → Means scope self.new (with_input payload v) }
    {
        self.waiting.push_back(payload);
    }

    /// The node settles after it did these things, and was given no record.
    fn go_on(&mut self, alloc: Global, cx: &Config<P>, mut out: Outbox) -> Result<Handled, NoMemory>
        requires config { IsConfig (P.rules cx.now.protocol).hosts cx.now }
        requires means { HasView (scope_in P.rules cx.now) self.old }
        ensures { IfOk result (λ done. (v : View) → IsViewOf (scope_in P.rules cx.now) self.old v
            → (after : View) × IsViewOf (scope_in P.rules cx.now) self.new after
            × Goes (scope_in P.rules cx.now) v out after done) }
    {
        self.settle(alloc, cx, &mut out)?;
        Ok(out.handled(None, HostSet::empty(), false))
    }

    /// The node does what an accepted record asks for, notes it, and settles.
    fn take_accepted(
        &mut self,
        alloc: Global,
        cx: &Config<P>,
        given: Record,
        makers: Vec<Tags>,
    ) -> Result<Handled, NoMemory>
        requires config { IsConfig (P.rules cx.now.protocol).hosts cx.now }
        requires ready { CanNote (scope_in P.rules cx.now) self.old given makers.items }
        ensures { IfOk result (λ done. (v : View) → IsViewOf (scope_in P.rules cx.now) self.old v
            → (after : View) × IsViewOf (scope_in P.rules cx.now) self.new after
            × Notes (scope_in P.rules cx.now) v given after done) }
    {
        let mut out = Outbox::new(alloc);
        self.act(
            alloc,
            cx,
            &given.statement.body,
            makers.as_slice(),
            &mut out,
        )?;
        let hosts = hosts_among(makers.as_slice());
        let olympus = has_olympus(makers.as_slice());
        self.note(alloc, cx, &given.statement, makers)?;
        self.settle(alloc, cx, &mut out)?;
        Ok(out.handled(Some(given.statement), hosts, olympus))
    }

    /// A record that has its place: it is dropped where no maker is accepted. No tag is looked at before,
    /// and no memory taken.
    fn take_placed(
        &mut self,
        alloc: Global,
        cx: &Config<P>,
        given: &RecordRef,
    ) -> Result<Handled, NoMemory>
        requires config { IsConfig (P.rules cx.now.protocol).hosts cx.now }
        requires means { HasView (scope_in P.rules cx.now) self.old }
        requires well { IsRecord given.now }
        requires placed { Known (scope_in P.rules cx.now) self.old (λ v.
            misplaced (scope_in P.rules cx.now) v given.now.statement ≡ None) }
        ensures answers { IfOk result (λ done. (v : View)
            → IsViewOf (scope_in P.rules cx.now) self.old v
            → (after : View) × IsViewOf (scope_in P.rules cx.now) self.new after
            × AnswersTo (scope_in P.rules cx.now) v given.now
            (verdict (scope_in P.rules cx.now) v given.now) after done) }
        ensures named { OnErr result (Known (scope_in P.rules cx.now) self.old (λ v.
            verdict (scope_in P.rules cx.now) v given.now ≡ None)) }
    {
        let Some(first) = first_accepted(cx, self.me, given) else {
            return Ok(dropped(alloc, DropCause::NoTag));
        };
        let makers = accepted(alloc, cx, self.me, given, first)?;
        let record = given.owned(alloc)?;
        let done = self.take_accepted(alloc, cx, record, makers)?;
        Ok(done)
    }

    /// A record: it is dropped where it has no place.
    fn take_record(
        &mut self,
        alloc: Global,
        cx: &Config<P>,
        given: &RecordRef,
    ) -> Result<Handled, NoMemory>
        requires config { IsConfig (P.rules cx.now.protocol).hosts cx.now }
        requires means { HasView (scope_in P.rules cx.now) self.old }
        requires well { IsRecord given.now }
        ensures answers { IfOk result (λ done. (v : View)
            → IsViewOf (scope_in P.rules cx.now) self.old v
            → (after : View) × IsViewOf (scope_in P.rules cx.now) self.new after
            × AnswersTo (scope_in P.rules cx.now) v given.now
            (verdict (scope_in P.rules cx.now) v given.now) after done) }
        ensures named { OnErr result (Known (scope_in P.rules cx.now) self.old (λ v.
            verdict (scope_in P.rules cx.now) v given.now ≡ None)) }
    {
        match self.misplaced(cx, given) {
            Some(cause) => Ok(dropped(alloc, cause)),
            None => {
                let done = self.take_placed(alloc, cx, given)?;
                Ok(done)
            }
        }
    }

    /// The node is given bytes. It drops them where they are no record, or one that has no place at it now,
    /// or one of which it accepts no maker; of these the first is told, and nothing changes. Else it does
    /// what the record asks for, notes it, and settles. Bytes are read, and tags tested, where they lie: what
    /// is dropped takes no memory. Want of memory gives the node up.
    pub fn handle(
        &mut self,
        alloc: Global,
        cx: &Config<P>,
        frame: &[u8],
    ) -> Result<Handled, NoMemory>
        requires config { IsConfig (P.rules cx.now.protocol).hosts cx.now }
        requires means { HasView (scope_in P.rules cx.now) self.old }
        ensures handles { IfOk result (λ done. (v : View)
            → IsViewOf (scope_in P.rules cx.now) self.old v
            → (after : View) × IsViewOf (scope_in P.rules cx.now) self.new after
            × Handles (scope_in P.rules cx.now) v frame.now after done) }
        // where the bytes are to be dropped, that is answered, and never want of memory
        ensures named { OnErr result (Known (scope_in P.rules cx.now) self.old (λ v.
            NamesNoDrop (scope_in P.rules cx.now) v frame.now)) }
    {
        match RecordRef::read(frame) {
            Ok(record) => {
                let done = self.take_record(alloc, cx, &record)?;
                Ok(done)
            }
            Err(RefFault { place, kind }) => {
                Ok(dropped(alloc, DropCause::Malformed { place, kind }))
            }
        }
    }

    /// The node is handed an input. It waits for a slot, and the node settles; at most `MAX_WAITING` inputs
    /// wait, and one more is dropped. Want of memory gives the node up.
    pub fn input(
        &mut self,
        alloc: Global,
        cx: &Config<P>,
        payload: Payload,
    ) -> Result<Handled, NoMemory>
        requires config { IsConfig (P.rules cx.now.protocol).hosts cx.now }
        requires means { HasView (scope_in P.rules cx.now) self.old }
        ensures takes { IfOk result (λ done. (v : View)
            → IsViewOf (scope_in P.rules cx.now) self.old v
            → (after : View) × IsViewOf (scope_in P.rules cx.now) self.new after
            × Takes (scope_in P.rules cx.now) v payload after done) }
    {
        if self.waiting.len() >= MAX_WAITING {
            return Ok(dropped(alloc, DropCause::QueueFull));
        }
        self.wait(payload);
        let done = self.go_on(alloc, cx, Outbox::new(alloc))?;
        Ok(done)
    }

    /// The node is told to ask: it asks about each host that is live at it, and settles. A wedged node asks
    /// nothing. Want of memory gives the node up.
    pub fn ask(&mut self, alloc: Global, cx: &Config<P>) -> Result<Handled, NoMemory>
        requires config { IsConfig (P.rules cx.now.protocol).hosts cx.now }
        requires means { HasView (scope_in P.rules cx.now) self.old }
        ensures asks { IfOk result (λ done. (v : View)
            → IsViewOf (scope_in P.rules cx.now) self.old v
            → (after : View) × IsViewOf (scope_in P.rules cx.now) self.new after
            × Asks (scope_in P.rules cx.now) v after done) }
    {
        let mut out = Outbox::new(alloc);
        self.ask_all(alloc, cx, &mut out)?;
        let done = self.go_on(alloc, cx, out)?;
        Ok(done)
    }
}
