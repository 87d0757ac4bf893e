//! Why a run text is refused.

ghost use Rattle.std.specs.Prelude.{◌≡◌};
ghost use Rattle.nys_runs.specs.StepLines.{run_fault};

use nys_text::TextFault;

/// A line that is none of the grammar.
#[derive(Clone, Copy, Debug, Drop, PartialEq, Eq)]
pub struct NotALine;

/// Why a run text is refused.
#[derive(Clone, Copy, Debug, PartialEq, Eq)]
pub enum RunFault {
    /// The first line that is none of the grammar, counted from 1.
    Grammar { line: u32 },
    /// A line with one step more than `MAX_STEPS`, where no line before it is at fault.
    TooMany,
    /// The allocator had no room.
    NoMemory,
}

/// The same fault, of a run text.
pub(crate) fn run_fault(fault: TextFault<NotALine>) -> RunFault
    ensures { result ≡ run_fault fault }
{
    match fault {
        TextFault::Line { line, kind: _ } => RunFault::Grammar { line },
        TextFault::TooMany => RunFault::TooMany,
        TextFault::NoMemory => RunFault::NoMemory,
    }
}
