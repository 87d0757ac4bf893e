//! The words that are printed for faults of a machine's text.

ghost use Rattle.std.specs.Prelude.{◌≡◌};
ghost use Rattle.nys_top.specs.Words.{machine_word};

use nys_lex::MachineKind;

/// The word for each kind of fault.
pub(crate) fn machine_word(kind: MachineKind) -> &'static str
    ensures { result.now ≡ machine_word kind }
{
    match kind {
        MachineKind::Long => "long",
        MachineKind::Character => "character",
        MachineKind::Number => "number",
        MachineKind::Expected => "expected",
        MachineKind::Deep => "deep",
        MachineKind::Doubled => "doubled",
        MachineKind::Unknown => "unknown",
        MachineKind::List => "list",
        MachineKind::Scalar => "scalar",
        MachineKind::Fixed => "fixed",
        MachineKind::Size => "size",
    }
}
