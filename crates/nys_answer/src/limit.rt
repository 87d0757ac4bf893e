//! What an answer says would pass its limit. The limit itself stands in the crate that keeps it; that of
//! the input stands here, as commands name it.

ghost use Rattle.std.specs.Prelude.{◌≡◌};
ghost use Rattle.nys_answer.specs.Lines.{limit_word};

/// The most bytes of an input.
pub const INPUT_LIMIT: usize = 16_777_216;

/// What would pass its limit.
#[derive(Clone, Copy, Debug, PartialEq, Eq)]
pub enum Limit {
    /// The bytes of the input.
    Input,
    /// The events of a schedule, or the steps of a run text.
    Events,
    /// The messages of a bare run, or the packets of a world.
    Packets,
    /// The bytes of a world's packets.
    Bytes,
}

impl Limit {
    /// What it is, as it is printed.
    pub fn word(self) -> &'static str
        ensures { result.now ≡ limit_word self }
    {
        match self {
            Limit::Input => "input",
            Limit::Events => "events",
            Limit::Packets => "packets",
            Limit::Bytes => "bytes",
        }
    }
}
