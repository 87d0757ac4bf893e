//! How the program ends.

ghost use Rattle.std.specs.Prelude.{◌≡◌};
ghost use Rattle.nys_answer.specs.Codes.{code_of};

/// How the program ends. The numbers are those of `code`, and stand there alone; 13 is no number of a
/// command: it is kept for links that can't be connected.
#[derive(Clone, Copy, Debug, PartialEq, Eq)]
pub enum Status {
    /// The text is what the command prints.
    Done,
    /// A step of the run text isn't lawful after those before it.
    NotARun,
    /// The words are no command.
    Words,
    /// The document says no scenario.
    Scenario,
    /// The machine's text is none.
    Machine,
    /// A guard graph isn't good, or can't be planned.
    Guards,
    /// More liars than an epoch allows guard a host.
    Liars,
    /// A line of a schedule or a run text is at fault.
    Schedule,
    /// A packet or message past those sent is named.
    NoPacket,
    /// An event is forged.
    Forged,
    /// Something would pass its limit.
    TooLarge,
    /// The input could not be read.
    ReadFault,
    /// The text could not be written.
    WriteFault,
    /// The allocator had no room.
    NoMemory,
    /// An event clashes: a statement has the spelling of another that its maker made.
    Clash,
}

impl Status {
    /// The number with which the program ends.
    pub fn code(self) -> u8
        ensures { result ≡ code_of self }
    {
        match self {
            Status::Done => 0,
            Status::NotARun => 1,
            Status::Words => 2,
            Status::Scenario => 3,
            Status::Machine => 4,
            Status::Guards => 5,
            Status::Liars => 6,
            Status::Schedule => 7,
            Status::NoPacket => 8,
            Status::Forged => 9,
            Status::TooLarge => 10,
            Status::ReadFault => 11,
            Status::WriteFault => 12,
            Status::NoMemory => 14,
            Status::Clash => 15,
        }
    }
}
