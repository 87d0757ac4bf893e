//! Why a schedule is refused.

ghost use Rattle.std.specs.Prelude.{◌≡◌};
ghost use Rattle.nys_bare.specs.Schedule.{schedule_fault};

use nys_text::TextFault;

/// How a line of a schedule is at fault. A line that is none of the grammar is no fault of another kind.
#[derive(Clone, Copy, Debug, PartialEq, Eq)]
pub enum LineKind {
    /// The line is none of the grammar.
    Grammar,
    /// It names a host past the last.
    Host,
    /// It lets an honest host say what only a liar says.
    Liar,
}

/// Why a schedule is refused.
#[derive(Clone, Copy, Debug, PartialEq, Eq)]
pub enum ScheduleFault {
    /// The first line at fault, counted from 1, and how it is.
    Line { line: u32, kind: LineKind },
    /// A line with one event more than `MAX_EVENTS`, where no line before it is at fault.
    TooMany,
    /// The allocator had no room.
    NoMemory,
}

/// The same fault, of a schedule.
pub fn schedule_fault(fault: TextFault<LineKind>) -> ScheduleFault
    ensures { result ≡ schedule_fault fault }
{
    match fault {
        TextFault::Line { line, kind } => ScheduleFault::Line { line, kind },
        TextFault::TooMany => ScheduleFault::TooMany,
        TextFault::NoMemory => ScheduleFault::NoMemory,
    }
}
