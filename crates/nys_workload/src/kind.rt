//! Which kind of event is drawn.

ghost use Rattle.std.specs.Prelude.{◌≡◌, ◌<◌};
ghost use Rattle.nys_workload.specs.Kinds.{kind_by};

/// How many inputs are drawn at most.
pub(crate) const MAX_INPUTS: u32 = 32;

/// The kinds of events that are drawn.
#[derive(Clone, Copy, Debug, PartialEq, Eq)]
pub(crate) enum Kind {
    /// A number is handed to a host.
    Input,
    /// Each packet between parties that don't lie is given again.
    Exchange,
    /// Each packet that was never given is given.
    Flush,
    /// One packet is given, or where there is none a host asks.
    One,
}

/// The kind of the event for a number below 64, where so many inputs were drawn before it.
pub(crate) fn kind_by(inputs: u32, number: u64) -> Kind
    ensures kind { result ≡ kind_by inputs number }
    ensures room { result ≡ Kind.Input → inputs < MAX_INPUTS }
{
    if number == 0 {
        if inputs < MAX_INPUTS {
            Kind::Input
        } else {
            Kind::Flush
        }
    } else if number == 1 {
        Kind::Exchange
    } else if number < 16 {
        Kind::Flush
    } else {
        Kind::One
    }
}
