//! The commands of the program.

ghost use Rattle.std.specs.Prelude.{◌≡◌};
ghost use Rattle.nys_words.specs.Words.{command_of};

/// What the program is asked to do with a document.
#[derive(Debug, Clone, Copy, PartialEq, Eq)]
pub enum Command {
    /// Run the source system alone, with no guards.
    Bare,
    /// Test whether a text is a run of the source system.
    Verify,
    /// Test the guards and the liars of every epoch.
    Check,
    /// Plan the guards of every epoch.
    Plan,
    /// Run the guards of every epoch by a schedule.
    Replay,
    /// Run them in the same way, and show all packets and what became of them.
    Trace,
}

/// The command on a document that a word names.
pub(crate) fn named(word: &str) -> Option<Command>
    ensures { result ≡ command_of word.now }
{
    if word == "bare" {
        return Some(Command::Bare);
    }
    if word == "verify" {
        return Some(Command::Verify);
    }
    if word == "check" {
        return Some(Command::Check);
    }
    if word == "plan" {
        return Some(Command::Plan);
    }
    if word == "replay" {
        return Some(Command::Replay);
    }
    if word == "trace" {
        return Some(Command::Trace);
    }
    None
}
