//! What a ring keeps between two calls of its links.

ghost use Rattle.std.specs.Prelude.{◌≡◌, IfOk, ℕ, ◌+◌};
ghost use Rattle.nys_rules.specs.Events.{plain};
ghost use Rattle.nys_rules.specs.World as rules;
ghost use Rattle.nys_world.specs.Shows.{is_honest_host, IsStage, setting_in};
ghost use Rattle.nys_world.specs.Worlds.{HasWorld, IsWorldOf};
ghost use Rattle.nys_ring.specs.Courses.{HasCourse, Happened, IsCourse, IsRingPlain, KeepsRest, plains, Tells};

use crate::copying::copied;
use crate::fault::RingFault;
use nys_bare::MAX_EVENTS;
use nys_hosts::HostSet;
use nys_rules::{End, Event};
use nys_schedule_text::line_len;
use nys_source::Protocol;
use nys_world::World;
use std::alloc::Global;

/// The bytes of the schedule that a ring prints, at most.
pub const MAX_SCHEDULE: u64 = 8_388_608;

/// The world, the events that made it, and what became of its packets.
#[derive(Drop)]
pub(crate) struct Course<P: Protocol> {
    pub world: World<P>,
    /// The events, in order.
    pub events: Vec<Event>,
    /// How long their lines are.
    pub length: u64,
    /// How many packets of the world were offered to the links.
    pub sent: usize,
    /// How many sends and polls failed.
    pub lost: u64,
    /// For each host, the hosts to which its direction answered that it is closed.
    pub shut: Vec<HostSet>,
}

impl<P: Protocol> Course<P> {
    /// The event happens behind the others, or is refused.
    pub(crate) fn happen(self, alloc: Global, event: Event) -> Result<Course<P>, RingFault>
        requires stage { IsStage (P.rules self.world.stage.cx.protocol) self.world.stage }
        requires course { HasCourse (P.rules self.world.stage.cx.protocol) self }
        requires event { IsRingPlain (P.rules self.world.stage.cx.protocol).hosts (plain event) }
        ensures rest { IfOk result (λ next. KeepsRest self next) }
        ensures happened { (first w : rules.World) → IsCourse (P.rules self.world.stage.cx.protocol) first w self
            → Happened (P.rules self.world.stage.cx.protocol) first w self (plain event) result }
    {
        let Course {
            world,
            mut events,
            length,
            sent,
            lost,
            shut,
        } = self;
        let line = line_len(&event);
        let copy = copied(alloc, &event)?;
        events.push(copy)?;
        if MAX_EVENTS < events.len() {
            return Err(RingFault::TooMany { events, lost });
        }
        if MAX_SCHEDULE - length < line {
            return Err(RingFault::TooLong { events, lost });
        }
        match world.step(alloc, event) {
            Ok(world) => Ok(Course {
                world,
                events,
                length: length + line,
                sent,
                lost,
                shut,
            }),
            Err(end) => Err(fault_of(events, lost, end)),
        }
    }

    /// How many hosts there are.
    pub(crate) fn hosts(&self) -> u32
        ensures { result ≡ (P.rules self.now.world.stage.cx.protocol).hosts }
    {
        self.world.config().protocol.graph().hosts()
    }
}

/// What the end of the world after these events is to a ring.
fn fault_of(events: Vec<Event>, lost: u64, end: End) -> RingFault
    ensures { Tells (plains events.items) lost end result }
{
    match end {
        End::NoMemory => RingFault::NoMemory,
        end => RingFault::End { events, lost, end },
    }
}

/// Whether the number is that of a host that doesn't lie.
pub(crate) fn is_honest<P: Protocol>(world: &World<P>, h: u32) -> bool
    requires { HasWorld (P.rules world.now.stage.cx.protocol) world.now }
    ensures { result ≡ is_honest_host (setting_in P.rules world.now.stage) h }
{
    world.node(h).is_some()
}
