//! The ring: the same nodes over links that may fail. What the links give becomes events of one world.
//!
//! Below: `nys_world` (the world that events make), `nys_schedule_text` (how long the lines of events are).
//! Above: nothing yet.
//! Contracts see which events made the world, or which event was refused and why.
//! Begin at `Course::happen`.
#![tactic(auto)]

mod copying;
mod course;
mod fault;

pub use fault::{RingDone, RingFault};
