//! Packets and bytes are given to parties.

ghost use Rattle.std.specs.Prelude.{◌≡◌, ◌<◌, ◌++◌, ◌∷◌, [], ◌&&◌, ◌-◌, ℕ, if◌then◌else◌, IfOk, length, List, None, not, OnOk, slice_get, Some, true};
ghost use Rattle.nys_rules.specs.Asked.{IsParty};
ghost use Rattle.nys_rules.specs.Happening.{Delivers, DeliversAll, honest_packets, IsGiven, NodeTakes, OlympusTakes, undelivered, with_injected};
ghost use Rattle.nys_rules.specs.World.{is_honest, World};
ghost use Rattle.nys_world.specs.Given.{bytes_given, bytes_in, frame_in};
ghost use Rattle.nys_world.specs.Outcomes.{Goes};
ghost use Rattle.nys_world.specs.Shows.{setting_in, AreTakes, IsKept, IsShown, IsStage, Keeps};
ghost use Rattle.nys_rules.specs.declared.notice.Take.{Take};
ghost use Rattle.nys_hosts.specs.declared.limits.TheConstants.{MAX_HOSTS};

use crate::books::Books;
use crate::handing::is_honest_host;
use crate::moment::Moment;
use crate::stage::Stage;
use nys_bytes::NoMemory;
use nys_mac::LAST_PARTY;
use nys_rules::{End, Injected, Packet, Take};
use nys_source::Protocol;
use std::alloc::Global;

/// The bytes of a packet; none where there is no such packet.
fn frame_at(pool: &[Packet], k: u32) -> &[u8]
    ensures { result.now ≡ frame_in (slice_get pool.now k) }
{
    match pool.get(k as usize) {
        Some(packet) => packet.frame.as_slice(),
        None => &[],
    }
}

/// The bytes that an event gave last; none where no event gave any.
fn last_injected(injected: &[Injected]) -> &[u8]
    ensures { result.now ≡ bytes_in (slice_get injected.now (length injected.now - 1)) }
{
    match injected.last() {
        Some(given) => given.frame.as_slice(),
        None => &[],
    }
}

/// The bytes that are given: those of a packet, or else those that an event gave last.
fn bytes_given(books: &Books, packet: Option<u32>) -> &[u8]
    ensures { (w : World) → Keeps books.now w → result.now ≡ bytes_given w packet }
{
    match packet {
        Some(k) => frame_at(books.pool.as_slice(), k),
        None => last_injected(books.injected.as_slice()),
    }
}

/// It is told what was given to a party, where that is kept.
pub(crate) fn keep_take(takes: &mut Vec<Take>, traced: bool, taken: Take) -> Result<(), NoMemory>
    ensures { OnOk result ((all : List Take) → AreTakes traced takes.old.items all
        → AreTakes traced takes.new.items (all ++ taken ∷ [])) }
{
    if !traced {
        return Ok(());
    }
    takes.push(taken)?;
    Ok(())
}

/// Appends the number where its packet passes a test.
fn push_if(ks: &mut Vec<u32>, k: u32, passes: bool) -> Result<(), NoMemory>
    ensures { OnOk result (ks.new.items ≡ ks.old.items ++ (if passes then k ∷ [] else [])) }
{
    if !passes {
        return Ok(());
    }
    ks.push(k)?;
    Ok(())
}

/// The packets that were never given, in order of sending.
fn undelivered(alloc: Global, books: &Books) -> Result<Vec<u32>, NoMemory>
    requires { IsKept books.now }
    ensures { IfOk result (λ ks. (w : World) → Keeps books.now w → ks.items ≡ undelivered w) }
{
    let mut ks = Vec::new(alloc);
    for k in 0..books.pool.len() {
        push_if(&mut ks, k as u32, !books.delivered[k])?;
    }
    Ok(ks)
}

/// Whether neither the sender nor the receiver of the packet lies.
fn is_between_honest<P: Protocol>(stage: &Stage<P>, packet: &Packet) -> bool
    ensures { result ≡ (is_honest (setting_in P.rules stage.now) packet.now.from
        && is_honest (setting_in P.rules stage.now) packet.now.to) }
{
    stage.is_honest(packet.from) && stage.is_honest(packet.to)
}

/// The packets between parties that don't lie, in order of sending.
fn honest_packets<P: Protocol>(
    alloc: Global,
    stage: &Stage<P>,
    books: &Books,
) -> Result<Vec<u32>, NoMemory>
    requires { IsKept books.now }
    ensures { IfOk result (λ ks. (w : World) → Keeps books.now w
        → ks.items ≡ honest_packets (setting_in P.rules stage.now) w) }
{
    let mut ks = Vec::new(alloc);
    for k in 0..books.pool.len() {
        push_if(&mut ks, k as u32, is_between_honest(stage, &books.pool[k]))?;
    }
    Ok(ks)
}

impl<P: Protocol> Moment<P> {
    /// A host that doesn't lie is given a packet, or the bytes that an event gave last. Where the head of the
    /// packet's record tells that the host drops it, nothing more is read.
    fn give_host(
        &mut self,
        alloc: Global,
        stage: &Stage<P>,
        g: u32,
        packet: Option<u32>,
    ) -> Result<(), End>
        requires stage { IsStage (P.rules stage.now.cx.protocol) stage.now }
        requires shown { IsShown (P.rules stage.now.cx.protocol) stage.now self.old }
        requires host { g < MAX_HOSTS }
        requires honest { is_honest (setting_in P.rules stage.now) g ≡ true }
        ensures { Goes (P.rules stage.now.cx.protocol) stage.now self.old self.new
            (λ setting w. NodeTakes setting w g packet (bytes_given w packet)) result }
    {
        if let Some(cause) = self.known_drop(stage, g, packet) {
            return self.give_dropped(stage, g, packet, cause);
        }
        self.give_node(alloc, stage, g, packet)
    }

    /// The node of a host that doesn't lie is given a packet, or the bytes that an event gave last.
    fn give_node(
        &mut self,
        alloc: Global,
        stage: &Stage<P>,
        g: u32,
        packet: Option<u32>,
    ) -> Result<(), End>
        requires stage { IsStage (P.rules stage.now.cx.protocol) stage.now }
        requires shown { IsShown (P.rules stage.now.cx.protocol) stage.now self.old }
        requires host { g < MAX_HOSTS }
        requires honest { is_honest (setting_in P.rules stage.now) g ≡ true }
        ensures { Goes (P.rules stage.now.cx.protocol) stage.now self.old self.new
            (λ setting w. NodeTakes setting w g packet (bytes_given w packet)) result }
    {
        match &mut self.nodes[g as usize] {
            Some(node) => {
                let handled = node.handle(alloc, &stage.cx, bytes_given(&self.books, packet))?;
                let taken = Take {
                    event: self.books.events,
                    to: g,
                    packet,
                    dropped: handled.dropped,
                };
                keep_take(&mut self.takes, stage.traced, taken)?;
                self.books.node_took(alloc, stage, g, node, handled)
            }
            None => Ok(()),
        }
    }

    /// The Olympus is given a packet, or the bytes that an event gave last. Where the head of the
    /// packet's record tells that it drops it, nothing more is read.
    fn give_olympus(
        &mut self,
        alloc: Global,
        stage: &Stage<P>,
        packet: Option<u32>,
    ) -> Result<(), End>
        requires stage { IsStage (P.rules stage.now.cx.protocol) stage.now }
        requires shown { IsShown (P.rules stage.now.cx.protocol) stage.now self.old }
        ensures { Goes (P.rules stage.now.cx.protocol) stage.now self.old self.new
            (λ setting w. OlympusTakes setting w packet (bytes_given w packet)) result }
    {
        if let Some(cause) = self.known_unheard(stage, packet) {
            return self.give_unheard(stage, packet, cause);
        }
        self.be_heard(alloc, stage, packet)
    }

    /// The Olympus hears a packet, or the bytes that an event gave last.
    fn be_heard(&mut self, alloc: Global, stage: &Stage<P>, packet: Option<u32>) -> Result<(), End>
        requires stage { IsStage (P.rules stage.now.cx.protocol) stage.now }
        requires shown { IsShown (P.rules stage.now.cx.protocol) stage.now self.old }
        ensures { Goes (P.rules stage.now.cx.protocol) stage.now self.old self.new
            (λ setting w. OlympusTakes setting w packet (bytes_given w packet)) result }
    {
        let handled = self
            .olympus
            .handle(alloc, &stage.cx, bytes_given(&self.books, packet))?;
        let taken = Take {
            event: self.books.events,
            to: LAST_PARTY,
            packet,
            dropped: handled.dropped,
        };
        keep_take(&mut self.takes, stage.traced, taken)?;
        self.books.olympus_took(alloc, stage, handled)
    }

    /// A party is given a packet, or the bytes that an event gave last. A liar does nothing.
    fn give(
        &mut self,
        alloc: Global,
        stage: &Stage<P>,
        to: u32,
        packet: Option<u32>,
    ) -> Result<(), End>
        requires stage { IsStage (P.rules stage.now.cx.protocol) stage.now }
        requires shown { IsShown (P.rules stage.now.cx.protocol) stage.now self.old }
        ensures { Goes (P.rules stage.now.cx.protocol) stage.now self.old self.new
            (λ setting w. IsGiven setting w to packet (bytes_given w packet)) result }
    {
        if to == LAST_PARTY {
            return self.give_olympus(alloc, stage, packet);
        }
        if !is_honest_host(stage, to) {
            return Ok(());
        }
        self.give_host(alloc, stage, to, packet)
    }

    /// Packet `k`, which was sent, is given to its party.
    fn give_packet(&mut self, alloc: Global, stage: &Stage<P>, k: u32) -> Result<(), End>
        requires stage { IsStage (P.rules stage.now.cx.protocol) stage.now }
        requires shown { IsShown (P.rules stage.now.cx.protocol) stage.now self.old }
        requires sent { k < length self.old.books.pool.items }
        ensures { Goes (P.rules stage.now.cx.protocol) stage.now self.old self.new
            (λ setting w. Delivers setting w k) result }
    {
        let to = self.books.pool[k as usize].to;
        self.books.mark(k);
        self.give(alloc, stage, to, Some(k))
    }

    /// Packet `k` is given to its party.
    pub(crate) fn deliver(&mut self, alloc: Global, stage: &Stage<P>, k: u32) -> Result<(), End>
        requires stage { IsStage (P.rules stage.now.cx.protocol) stage.now }
        requires shown { IsShown (P.rules stage.now.cx.protocol) stage.now self.old }
        ensures { Goes (P.rules stage.now.cx.protocol) stage.now self.old self.new
            (λ setting w. Delivers setting w k) result }
    {
        let have = self.books.pool.len() as u32;
        if k >= have {
            return Err(End::NoPacket {
                event: self.books.events,
                packet: k,
                have,
            });
        }
        self.give_packet(alloc, stage, k)
    }

    /// Packets are given one after another.
    fn deliver_all(&mut self, alloc: Global, stage: &Stage<P>, ks: &[u32]) -> Result<(), End>
        requires stage { IsStage (P.rules stage.now.cx.protocol) stage.now }
        requires shown { IsShown (P.rules stage.now.cx.protocol) stage.now self.old }
        ensures { Goes (P.rules stage.now.cx.protocol) stage.now self.old self.new
            (λ setting w. DeliversAll setting w ks.now) result }
    {
        for k in ks {
            self.deliver(alloc, stage, *k)?;
        }
        Ok(())
    }

    /// Each packet that was never given is given, in order of sending.
    pub(crate) fn flush(&mut self, alloc: Global, stage: &Stage<P>) -> Result<(), End>
        requires stage { IsStage (P.rules stage.now.cx.protocol) stage.now }
        requires shown { IsShown (P.rules stage.now.cx.protocol) stage.now self.old }
        ensures { Goes (P.rules stage.now.cx.protocol) stage.now self.old self.new
            (λ setting w. DeliversAll setting w (undelivered w)) result }
    {
        let ks = undelivered(alloc, &self.books)?;
        self.deliver_all(alloc, stage, ks.as_slice())
    }

    /// Each packet between parties that don't lie is given again, in order of sending.
    pub(crate) fn exchange(&mut self, alloc: Global, stage: &Stage<P>) -> Result<(), End>
        requires stage { IsStage (P.rules stage.now.cx.protocol) stage.now }
        requires shown { IsShown (P.rules stage.now.cx.protocol) stage.now self.old }
        ensures { Goes (P.rules stage.now.cx.protocol) stage.now self.old self.new
            (λ setting w. DeliversAll setting w (honest_packets setting w)) result }
    {
        let ks = honest_packets(alloc, stage, &self.books)?;
        self.deliver_all(alloc, stage, ks.as_slice())
    }

    /// Bytes that nobody sent are given to a party.
    pub(crate) fn give_bytes(
        &mut self,
        alloc: Global,
        stage: &Stage<P>,
        to: u32,
        frame: Vec<u8>,
    ) -> Result<(), End>
        requires stage { IsStage (P.rules stage.now.cx.protocol) stage.now }
        requires shown { IsShown (P.rules stage.now.cx.protocol) stage.now self.old }
        requires party { IsParty (P.rules stage.now.cx.protocol).hosts to }
        ensures { Goes (P.rules stage.now.cx.protocol) stage.now self.old self.new
            (λ setting w. IsGiven setting (with_injected to frame.items w) to None frame.items) result }
    {
        self.books.inject(to, frame)?;
        self.give(alloc, stage, to, None)
    }
}
