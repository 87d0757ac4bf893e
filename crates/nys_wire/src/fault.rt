//! Why bytes are no record.

use nys_bytes::NoMemory;
use nys_stmt::WireKind;

/// Why bytes are no record: the first field at fault, by the place of its first byte, for `Short` the
/// number of bytes; and what is wrong with it.
#[derive(Clone, Copy, Debug, PartialEq, Eq)]
pub struct RefFault {
    pub place: usize,
    pub kind: WireKind,
}

/// Why bytes gave no record.
#[derive(Clone, Copy, Debug, PartialEq, Eq)]
pub enum WireFault {
    /// The first field at fault: the place of its first byte, for `Short` the number of bytes; and what
    /// is wrong with it.
    At { place: usize, kind: WireKind },
    /// The allocator had no room.
    NoMemory,
}

impl From<RefFault> for WireFault {
    ghost use Rattle.std.specs.Prelude.{◌≡◌};
    ghost use Rattle.nys_wire.specs.declared.fault.WireFault.TheVariants as fault;

    ghost from_gives = { λ f e. e ≡ fault.At f.place f.kind };

    fn from(fault: RefFault) -> WireFault {
        WireFault::At {
            place: fault.place,
            kind: fault.kind,
        }
    }
}

impl From<NoMemory> for WireFault {
    ghost use Rattle.std.specs.Prelude.{◌≡◌};
    ghost use Rattle.nys_wire.specs.declared.fault.WireFault.TheVariants as fault;

    ghost from_gives = { λ _ e. e ≡ fault.NoMemory };

    fn from(_error: NoMemory) -> WireFault {
        WireFault::NoMemory
    }
}
