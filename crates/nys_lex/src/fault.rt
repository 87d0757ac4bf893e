use nys_bytes::NoMemory;
use std::alloc::{AllocError, AllocFailed};

/// What is wrong with a machine's text. The place is that of the token, the byte or the name at fault.
#[derive(Clone, Copy, Debug, PartialEq, Eq)]
pub enum MachineKind {
    /// The text is longer than 65,536 bytes. The place is line 1, column 1.
    Long,
    /// A byte begins no token.
    Character,
    /// A number is greater than 9,223,372,036,854,775,807, or a name is longer than 32 bytes.
    Number,
    /// A token that the grammar doesn't allow there, or the end of the text.
    Expected,
    /// The token opens the 65th level.
    Deep,
    /// A name is declared where it is seen already, or is the second of two equal names after
    /// `on receive`.
    Doubled,
    /// A name is used that isn't seen.
    Unknown,
    /// A list is used without an index and outside `len`.
    List,
    /// A scalar is indexed or given to `len`.
    Scalar,
    /// A payload, a sender or the name of a loop is assigned.
    Fixed,
    /// A variable's list has length 0, or the state passes 256 numbers.
    Size,
}

/// Why a machine's text isn't one.
#[derive(Clone, Copy, Debug, PartialEq, Eq)]
pub enum MachineFault {
    /// The first fault of the text: its line and its column, both from 1, and its kind. Columns count
    /// bytes.
    At {
        line: u32,
        col: u32,
        kind: MachineKind,
    },
    /// Memory ran out before the text was read.
    NoMemory,
}

impl From<NoMemory> for MachineFault {
    ghost use Rattle.std.specs.Prelude.{◌≡◌};
    ghost use Rattle.nys_lex.specs.declared.fault.MachineFault.TheVariants as fault;

    ghost from_gives = { λ _ given. given ≡ fault.NoMemory };

    fn from(_fault: NoMemory) -> MachineFault {
        MachineFault::NoMemory
    }
}

impl From<AllocError> for MachineFault {
    ghost use Rattle.std.specs.Prelude.{◌≡◌};
    ghost use Rattle.nys_lex.specs.declared.fault.MachineFault.TheVariants as fault;

    ghost from_gives = { λ _ given. given ≡ fault.NoMemory };

    fn from(_fault: AllocError) -> MachineFault {
        MachineFault::NoMemory
    }
}

impl<T: Drop> From<AllocFailed<T>> for MachineFault {
    ghost use Rattle.std.specs.Prelude.{◌≡◌};
    ghost use Rattle.nys_lex.specs.declared.fault.MachineFault.TheVariants as fault;

    ghost from_gives = { λ _ given. given ≡ fault.NoMemory };

    fn from(_fault: AllocFailed<T>) -> MachineFault {
        MachineFault::NoMemory
    }
}
