//! A replica: what the log of one host gives.

ghost use Rattle.std.specs.Prelude.{◌≡◌, ◌<◌, ◌≤◌, ◌↔◌, ◌++◌, ◌∷◌, ℕ, ℤ, List, [], IfOk, IsTrue, length, slice_get, Some};
ghost use Rattle.nys_bytes.specs.declared.content.Content.{Content};
ghost use Rattle.nys_graph.specs.Links.{IsGraph};
ghost use Rattle.nys_source.specs.Rules.{Rules};
ghost use Rattle.nys_agreement.specs.Alone.{alone, Fits};
ghost use Rattle.nys_replica.specs.Packing.{IsPacked, packed};
ghost use Rattle.nys_replica.specs.Stands.{CanTake, entry_count, IsReplica, kept_from, StandsFor};
ghost use Rattle.nys_hosts.specs.declared.limits.TheConstants.{MAX_HOSTS};

mod taking;

use crate::entries::Entries;
use crate::packing::{pack, unpack};
use crate::tables::{HostNumbers, HostPayloads};
use nys_bytes::{Content, NoMemory, Payload};
use nys_source::Protocol;
use std::alloc::Global;
use std::marker::PhantomData;

/// What is kept of one host: the entries of its log from a slot on, and the state, outputs, sent lists and
/// numbers taken that the whole log gives. Contracts say of it for which logs it stands: two of these differ
/// in forgotten entries alone.
#[derive(Drop)]
pub struct Replica<P: Protocol> {
    h: u32,
    entries: Entries,
    packed: Vec<u8>,
    outs: Vec<Payload>,
    sent: HostPayloads,
    received: HostNumbers,
    of: PhantomData<P::State>,
}

impl<P: Protocol> Replica<P> {
    /// The replica of host `h` that has taken nothing.
    pub fn new(alloc: Global, protocol: &P, h: u32) -> Result<Replica<P>, NoMemory>
        requires host { h < (P.rules protocol.now).hosts }
        ensures stands { IfOk result (λ r. StandsFor (P.rules protocol.now) h r []) }
        ensures kept { IfOk result (λ r. kept_from r ≡ 0) }
    {
        let state = protocol.start(alloc, h)?;
        let packed = packed_state(alloc, protocol, &state)?;
        let sent = HostPayloads::new(alloc)?;
        Ok(Replica {
            h,
            entries: Entries::new(alloc),
            packed,
            outs: Vec::new(alloc),
            sent,
            received: HostNumbers::new(),
            of: PhantomData,
        })
    }

    /// Whether the content comes next: an input, or the next message of a neighbour.
    pub fn fits(&self, protocol: &P, content: &Content) -> bool
        requires replica { IsReplica (P.rules protocol.now) self.now }
        ensures fits { (h : ℕ) (log : List Content) → StandsFor (P.rules protocol.now) h self.now log
            → (IsTrue result ↔ Fits (P.rules protocol.now) h log content.now) }
    {
        match content {
            Content::External { .. } => true,
            Content::Message { p, k, .. } => self.is_next(protocol, *p, *k),
        }
    }

    /// The replica with one entry more. It asks for fewer than `MAX_SLOTS` entries and for a content
    /// that `fits`. Want of memory gives the replica up.
    pub fn apply(
        self,
        alloc: Global,
        protocol: &P,
        content: Content,
    ) -> Result<Replica<P>, NoMemory>
        requires next { CanTake (P.rules protocol.now) self content }
        ensures stands { IfOk result (λ r. (h : ℕ) (log : List Content)
            → StandsFor (P.rules protocol.now) h self log
            → StandsFor (P.rules protocol.now) h r (log ++ content ∷ [])) }
        ensures kept { IfOk result (λ r. kept_from r ≡ kept_from self) }
    {
        let _hosts = hosts_of(protocol);
        let mut taken = self.take(alloc, protocol, &content)?;
        taken.entries.push(content)?;
        Ok(taken)
    }

    /// How many entries the log has, with those that are forgotten; at most `MAX_SLOTS`.
    pub fn len(&self) -> u32
        ensures size { result ≡ entry_count self.now }
        ensures count { (rules : Rules P.State) (h : ℕ) (log : List Content)
            → StandsFor rules h self.now log → result ≡ length log }
    {
        self.entries.len()
    }

    /// The slot from which on the entries are kept.
    pub fn kept_from(&self) -> u32
        ensures kept { result ≡ kept_from self.now }
    {
        self.entries.first()
    }

    /// The entry of a slot, counted from 0. It asks for one that is kept.
    pub fn entry(&self, slot: u32) -> &Content
        requires kept { kept_from self.now ≤ slot }
        requires slot { slot < entry_count self.now }
        ensures entry { (rules : Rules P.State) (h : ℕ) (log : List Content)
            → StandsFor rules h self.now log → slice_get log slot ≡ Some result.now }
    {
        self.entries.get(slot)
    }

    /// Forgets the entries below the slot, which is one from the first that is kept to the length of the log.
    /// Takes no memory.
    pub fn forget(&mut self, slot: u32)
        requires kept { kept_from self.old ≤ slot }
        requires slot { slot ≤ entry_count self.old }
        ensures stands { (rules : Rules P.State) (h : ℕ) (log : List Content)
            → StandsFor rules h self.old log → StandsFor rules h self.new log }
        ensures kept { kept_from self.new ≡ slot }
    {
        self.entries.forget(slot)
    }

    /// The bytes of the numbers that show the state: eight for each, in two's complement, the greatest first.
    pub fn packed(&self) -> &[u8]
        ensures bytes { (rules : Rules P.State) (h : ℕ) (log : List Content)
            → StandsFor rules h self.now log
            → result.now ≡ packed (rules.view ((alone rules h log).state h)) }
    {
        self.packed.as_slice()
    }

    /// The numbers that show the state.
    pub fn view(&self, alloc: Global, protocol: &P) -> Result<Vec<i64>, NoMemory>
        ensures numbers { IfOk result (λ numbers. (h : ℕ) (log : List Content)
            → StandsFor (P.rules protocol.now) h self.now log
            → numbers.items ≡ (P.rules protocol.now).view ((alone (P.rules protocol.now) h log).state h)) }
    {
        unpack(alloc, self.packed.as_slice())
    }

    /// The number of the message that comes next from `p`, a host below 32: how many the log has of it.
    pub fn next(&self, p: u32) -> u32
        requires sender { p < MAX_HOSTS }
        ensures number { (rules : Rules P.State) (h : ℕ) (log : List Content)
            → StandsFor rules h self.now log → result ≡ (alone rules h log).received p h }
    {
        self.received.of(p)
    }

    /// What the host has sent to `to`, a host below 32, in order.
    pub fn sent(&self, to: u32) -> &[Payload]
        requires receiver { to < MAX_HOSTS }
        ensures payloads { (rules : Rules P.State) (h : ℕ) (log : List Content)
            → StandsFor rules h self.now log → result.now ≡ (alone rules h log).sent h to }
    {
        self.sent.of(to)
    }

    /// The outputs of the host, in order.
    pub fn outs(&self) -> &[Payload]
        ensures payloads { (rules : Rules P.State) (h : ℕ) (log : List Content)
            → StandsFor rules h self.now log → result.now ≡ (alone rules h log).outs h }
    {
        self.outs.as_slice()
    }

    /// Whether `p` is a neighbour and `k` the number of its next message.
    fn is_next(&self, protocol: &P, p: u32, k: u32) -> bool
        requires { IsReplica (P.rules protocol.now) self.now }
        ensures { (h : ℕ) (log : List Content) (payload : List ℤ)
            → StandsFor (P.rules protocol.now) h self.now log
            → (IsTrue result ↔ Fits (P.rules protocol.now) h log (Content.Message p k payload)) }
    {
        if p >= hosts_of(protocol) {
            return false;
        }
        protocol.graph().linked(p, self.h) && k == self.received.of(p)
    }
}

/// The bytes of the numbers that show the state.
pub(crate) fn packed_state<P: Protocol>(
    alloc: Global,
    protocol: &P,
    state: &P::State,
) -> Result<Vec<u8>, NoMemory>
    ensures { IfOk result (λ bytes. IsPacked bytes.items ((P.rules protocol.now).view state.now)) }
{
    let numbers = protocol.view(alloc, state)?;
    pack(alloc, numbers.as_slice())
}

/// How many hosts the protocol has.
fn hosts_of<P: Protocol>(protocol: &P) -> u32
    ensures hosts { result ≡ (P.rules protocol.now).hosts }
    ensures few { (P.rules protocol.now).hosts ≤ MAX_HOSTS }
    ensures shape { IsGraph (P.rules protocol.now).hosts (P.rules protocol.now).linked }
{
    protocol.graph().hosts()
}
