//! What links carry of packets: each send and each poll, with what failed counted.
//!
//! Below: `nys_outside` (`Links`), `nys_rules` (packets). Above: `nys_ring`.
//! Contracts see, where the links tell, that what they gave and what waits is what waited at first, then the
//! packets that were offered, less those that are counted as lost (`specs/Carrying.antt`).
//! Begin at `offer`, then `poll`.
#![tactic(auto)]

mod count;
mod offering;
mod polling;

pub use offering::offer;
pub use polling::{Polled, poll};
