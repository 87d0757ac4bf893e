//! What `read` answers where a document is no scenario.

ghost use Rattle.std.specs.Prelude.{◌≡◌};
ghost use Rattle.nys_scenario.specs.Keys.{word_of};

use nys_bytes::{NoMemory, Text};
use nys_lex::{MachineFault, MachineKind};

/// What is wrong with a key.
#[derive(Clone, Copy, Debug, PartialEq, Eq)]
pub enum KeyKind {
    /// The bytes are no TOML document; the key is `document`.
    Syntax,
    /// The key is not there, and has to be.
    Missing,
    /// The value is of another type.
    Kind,
    /// The value is out of its range.
    Range,
    /// No scenario has such a key.
    Unknown,
}

impl KeyKind {
    /// The word that is printed for it.
    pub fn word(self) -> &'static str
        ensures { result.now ≡ word_of self }
    {
        match self {
            KeyKind::Syntax => "syntax",
            KeyKind::Missing => "missing",
            KeyKind::Kind => "type",
            KeyKind::Range => "range",
            KeyKind::Unknown => "unknown",
        }
    }
}

/// Why a document is no scenario.
#[derive(Debug, Drop)]
pub enum ScenarioFault {
    /// A key is at fault.
    Key {
        /// The key as it is printed: as the table of keys writes it, with the number of its epoch.
        key: Text,
        /// What is wrong with it.
        kind: KeyKind,
    },
    /// Every key is right, the protocol is a machine, and its text is none: the line and the column of
    /// its first fault, both from 1, and what is wrong there.
    Machine {
        line: u32,
        col: u32,
        kind: MachineKind,
    },
    /// The allocator had no room.
    NoMemory,
}

impl From<MachineFault> for ScenarioFault {
    ghost use Rattle.std.specs.Prelude.{◌≡◌};
    ghost use Rattle.nys_scenario.specs.Keys.{fault_of};

    ghost from_gives = { λ given fault. fault ≡ fault_of given };

    fn from(fault: MachineFault) -> ScenarioFault {
        match fault {
            MachineFault::At { line, col, kind } => ScenarioFault::Machine { line, col, kind },
            MachineFault::NoMemory => ScenarioFault::NoMemory,
        }
    }
}

impl From<NoMemory> for ScenarioFault {
    ghost use Rattle.std.specs.Prelude.{◌≡◌};
    ghost use Rattle.nys_scenario.specs.declared.fault.ScenarioFault.TheVariants as scenario_fault;

    ghost from_gives = { λ _ fault. fault ≡ scenario_fault.NoMemory };

    fn from(_error: NoMemory) -> ScenarioFault {
        ScenarioFault::NoMemory
    }
}
