//! What the calls of the outside answer where they fail.

use nys_bytes::NoMemory;
use std::alloc::AllocError;
use thiserror::Error;

/// The outside failed: the count of faults of the object that answers it rose in that call.
#[derive(Clone, Copy, Debug, PartialEq, Eq, Error)]
#[error("failed")]
pub struct Failed;

/// Why a write, a send or a connect took nothing.
#[derive(Clone, Copy, Debug, PartialEq, Eq, Error)]
pub enum OutFault {
    /// The outside failed, and the object's count of faults rose.
    #[error("failed")]
    Failed,
    /// The allocator had no room; no count rose.
    #[error("no memory")]
    NoMemory,
}

impl From<Failed> for OutFault {
    ghost use Rattle.std.specs.Prelude.{◌≡◌};
    ghost use Rattle.nys_outside.specs.declared.fault.OutFault.TheVariants as out_fault;

    ghost from_gives = { λ _ fault. fault ≡ out_fault.Failed };

    fn from(_fault: Failed) -> OutFault {
        OutFault::Failed
    }
}

impl From<AllocError> for OutFault {
    ghost use Rattle.std.specs.Prelude.{◌≡◌};
    ghost use Rattle.nys_outside.specs.declared.fault.OutFault.TheVariants as out_fault;

    ghost from_gives = { λ _ fault. fault ≡ out_fault.NoMemory };

    fn from(_error: AllocError) -> OutFault {
        OutFault::NoMemory
    }
}

impl From<NoMemory> for OutFault {
    ghost use Rattle.std.specs.Prelude.{◌≡◌};
    ghost use Rattle.nys_outside.specs.declared.fault.OutFault.TheVariants as out_fault;

    ghost from_gives = { λ _ fault. fault ≡ out_fault.NoMemory };

    fn from(_error: NoMemory) -> OutFault {
        OutFault::NoMemory
    }
}
