//! What the calls of this crate answer where they refuse.

use std::alloc::{AllocError, AllocFailed};
use thiserror::Error;

/// The allocator had no room. The call that answers it says what it leaves.
#[derive(Clone, Copy, Debug, PartialEq, Eq, Error)]
#[error("no memory")]
pub struct NoMemory;

impl From<AllocError> for NoMemory {
    fn from(_error: AllocError) -> NoMemory {
        NoMemory
    }
}

impl<T: Drop> From<AllocFailed<T>> for NoMemory {
    fn from(_error: AllocFailed<T>) -> NoMemory {
        NoMemory
    }
}

/// Fewer bytes are left than were asked for.
#[derive(Clone, Copy, Debug, PartialEq, Eq, Error)]
#[error("short")]
pub struct Short;

/// Why numbers make no payload.
#[derive(Clone, Copy, Debug, PartialEq, Eq, Error)]
pub enum PayloadFault {
    /// There are no numbers, or more than `MAX_NUMBERS`.
    #[error("length")]
    Length,
    /// The allocator had no room for them.
    #[error("no memory")]
    NoMemory,
}

impl From<AllocError> for PayloadFault {
    ghost use Rattle.std.specs.Prelude.{◌≡◌};
    ghost use Rattle.nys_bytes.specs.declared.fault.PayloadFault.TheVariants as payload_fault;

    ghost from_gives = { λ _ fault. fault ≡ payload_fault.NoMemory };

    fn from(_error: AllocError) -> PayloadFault {
        PayloadFault::NoMemory
    }
}
