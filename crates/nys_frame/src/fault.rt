//! Why bytes give no frame.

use std::alloc::AllocError;
use thiserror::Error;

/// What a frame reader answers where it refuses.
#[derive(Clone, Copy, Debug, Drop, PartialEq, Eq, Error)]
pub enum FrameFault {
    /// The length in front is 0 or greater than `MAX_FRAME`; nothing behind it can be read.
    #[error("length {0}")]
    BadLength(u32),
    /// The allocator had no room; the reader is as it was.
    #[error("no memory")]
    NoMemory,
}

impl From<AllocError> for FrameFault {
    ghost use Rattle.std.specs.Prelude.{◌≡◌};
    ghost use Rattle.nys_frame.specs.declared.fault.FrameFault.TheVariants as frame_fault;

    ghost from_gives = { λ _ fault. fault ≡ frame_fault.NoMemory };

    fn from(_error: AllocError) -> FrameFault {
        FrameFault::NoMemory
    }
}
