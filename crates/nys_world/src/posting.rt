//! Packets join the pool, statements the ledger, and entries the run.

ghost use Rattle.std.specs.Prelude.{◌≡◌, ◌<◌, ◌≤◌, ◌+◌, ◌||◌, nat_le, nat_lt, length, IfOk, OnOk, Some, [], ◌∷◌, ◌++◌};
ghost use Rattle.nys_agreement.specs.Alone.{step_of};
ghost use Rattle.nys_rules.specs.Forged.{with_made};
ghost use Rattle.nys_rules.specs.World.{with_decided, with_packets, with_slot, World};
ghost use Rattle.nys_rules.specs.declared.notice.End.TheVariants.{PoolFull};
ghost use Rattle.nys_world.specs.Outcomes.{Happened, Writes};
ghost use Rattle.nys_world.specs.Shows.{IsKept, Keeps};
ghost use Rattle.nys_hosts.specs.declared.limits.TheConstants.{MAX_HOSTS};

use crate::books::Books;
use nys_bytes::{Content, NoMemory};
use nys_rules::{End, MAX_PACKETS, MAX_POOL_BYTES, Packet};
use nys_source::Step;
use nys_stmt::Statement;
use nys_wire::head_in;
use std::alloc::Global;

/// The step in which a host takes a content.
fn step_of(alloc: Global, h: u32, content: &Content) -> Result<Step, NoMemory>
    ensures { IfOk result (λ step. step ≡ step_of h content.now) }
{
    match content {
        Content::External { payload } => {
            let payload = payload.copy(alloc)?;
            Ok(Step::Input { h, payload })
        }
        Content::Message { p, k, .. } => Ok(Step::Receive { h, p: *p, k: *k }),
    }
}

impl Books {
    /// The packets join the pool, in order. The world ends at the first that has no room.
    pub(crate) fn post(&mut self, packets: Vec<Packet>) -> Result<(), End>
        requires { IsKept self.old }
        ensures { (w : World) → Keeps self.old w → Happened (λ _ next. Keeps self.new next) (λ r. r
            ≡ with_packets packets.items w) result }
    {
        for packet in packets {
            self.post_one(packet)?;
        }
        Ok(())
    }

    /// The packet joins the pool. The world ends where it has no room.
    fn post_one(&mut self, packet: Packet) -> Result<(), End>
        requires { IsKept self.old }
        ensures { (w : World) → Keeps self.old w → Happened (λ _ next. Keeps self.new next) (λ r. r
            ≡ with_packets (packet ∷ []) w) result }
    {
        let size = packet.frame.len() as u64;
        if self.is_too_much(size) {
            return Err(self.pool_full());
        }
        self.add(packet, size)?;
        Ok(())
    }

    /// Whether a packet of so many bytes would pass the limit of packets, or that of their bytes.
    fn is_too_much(&self, size: u64) -> bool
        requires { self.now.bytes ≤ MAX_POOL_BYTES }
        ensures { result ≡ (nat_le MAX_PACKETS (length self.now.pool.items)
            || nat_lt MAX_POOL_BYTES (self.now.bytes + size)) }
    {
        self.pool.len() >= MAX_PACKETS || size > MAX_POOL_BYTES as u64 - self.bytes
    }

    /// What the end tells of a pool that has no room.
    fn pool_full(&self) -> End
        requires { length self.now.pool.items ≤ MAX_PACKETS }
        ensures { result ≡ PoolFull self.now.events (length self.now.pool.items) self.now.bytes }
    {
        End::PoolFull {
            event: self.events,
            packets: self.pool.len() as u32,
            bytes: self.bytes,
        }
    }

    /// The packet of so many bytes joins the pool, which has room for it. The head of its record is read
    /// once.
    fn add(&mut self, packet: Packet, size: u64) -> Result<(), NoMemory>
        requires size { size ≡ length packet.frame }
        requires few { length self.old.pool.items < MAX_PACKETS }
        requires light { self.old.bytes + size ≤ MAX_POOL_BYTES }
        ensures { OnOk result (Writes self.old self.new (λ w. record w { pool = w.pool ++ packet ∷ [] })) }
    {
        let head = head_in(packet.frame.as_slice());
        self.pool.push(packet)?;
        self.heads.push(head)?;
        self.delivered.push(false)?;
        self.bytes += size;
        Ok(())
    }

    /// A party made these statements.
    pub(crate) fn made(&mut self, party: u32, statements: &[Statement]) -> Result<(), NoMemory>
        ensures { OnOk result (Writes self.old self.new
            (λ w. record w { ledger = with_made party statements.now w.ledger })) }
    {
        for statement in statements {
            self.made_one(party, statement)?;
        }
        Ok(())
    }

    /// A party made the statement.
    fn made_one(&mut self, party: u32, statement: &Statement) -> Result<(), NoMemory>
        ensures { OnOk result (Writes self.old self.new
            (λ w. record w { ledger = with_made party (statement.now ∷ []) w.ledger })) }
    {
        self.ledger.made(party, statement)?;
        Ok(())
    }

    /// A log of `h` got this entry in the slot: the first log that has the slot adds a step to the run.
    pub(crate) fn log(
        &mut self,
        alloc: Global,
        h: u32,
        slot: u32,
        content: &Content,
    ) -> Result<(), NoMemory>
        requires host { h < MAX_HOSTS }
        requires slot { slot < 4294967295 }
        ensures { OnOk result (Writes self.old self.new (with_slot h slot (Some content.now))) }
    {
        if slot < self.longest[h as usize] {
            return Ok(());
        }
        let step = step_of(alloc, h, content)?;
        self.run.push(step)?;
        self.longest[h as usize] = slot + 1;
        Ok(())
    }

    /// The Olympus decided these entries of `h`, the whole log.
    pub(crate) fn decided(
        &mut self,
        alloc: Global,
        h: u32,
        contents: &[Content],
    ) -> Result<(), NoMemory>
        requires host { h < MAX_HOSTS }
        requires slots { length contents.now < 4294967295 }
        ensures { OnOk result (Writes self.old self.new (with_decided h 0 contents.now)) }
    {
        for (slot, content) in contents.iter().enumerate() {
            self.log(alloc, h, slot as u32, content)?;
        }
        Ok(())
    }
}
