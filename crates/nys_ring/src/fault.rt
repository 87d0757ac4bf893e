//! What a ring comes to.

use nys_bytes::NoMemory;
use nys_rules::{End, Event};
use nys_source::Protocol;
use nys_world::World;
use std::alloc::{AllocError, AllocFailed};

/// A ring that took all its turns.
#[derive(Drop)]
pub struct RingDone<P: Protocol> {
    /// Its events, in order.
    pub events: Vec<Event>,
    /// The world that these events made.
    pub world: World<P>,
    /// How many sends and polls failed.
    pub lost: u64,
}

/// Why a ring ended early. Its events are all so far, the refused one last.
#[derive(Debug, Drop)]
pub enum RingFault {
    /// The links could not be connected, and their count of faults rose.
    Connect,
    /// The last event ends the world so; the end is neither want of memory nor a packet that is missing.
    End {
        events: Vec<Event>,
        lost: u64,
        end: End,
    },
    /// The last event is one more than `MAX_EVENTS`.
    TooMany {
        events: Vec<Event>,
        lost: u64,
    },
    /// With the line of the last event the schedule is longer than `MAX_SCHEDULE`.
    TooLong {
        events: Vec<Event>,
        lost: u64,
    },
    /// The allocator had no room.
    NoMemory,
}

impl From<NoMemory> for RingFault {
    ghost use Rattle.std.specs.Prelude.{◌≡◌};
    ghost use Rattle.nys_ring.specs.declared.fault.RingFault.TheVariants as ring_fault;

    ghost from_gives = { λ _ fault. fault ≡ ring_fault.NoMemory };

    fn from(_error: NoMemory) -> RingFault {
        RingFault::NoMemory
    }
}

impl From<AllocError> for RingFault {
    ghost use Rattle.std.specs.Prelude.{◌≡◌};
    ghost use Rattle.nys_ring.specs.declared.fault.RingFault.TheVariants as ring_fault;

    ghost from_gives = { λ _ fault. fault ≡ ring_fault.NoMemory };

    fn from(_error: AllocError) -> RingFault {
        RingFault::NoMemory
    }
}

impl<T: Drop> From<AllocFailed<T>> for RingFault {
    ghost use Rattle.std.specs.Prelude.{◌≡◌};
    ghost use Rattle.nys_ring.specs.declared.fault.RingFault.TheVariants as ring_fault;

    ghost from_gives = { λ _ fault. fault ≡ ring_fault.NoMemory };

    fn from(_error: AllocFailed<T>) -> RingFault {
        RingFault::NoMemory
    }
}
