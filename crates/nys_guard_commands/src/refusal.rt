//! What a part of a command gives where the command ends with it.

ghost use Rattle.std.specs.Prelude.{◌≡◌};
ghost use Rattle.nys_guard_commands.specs.Refusals.{answer_of, refusal_of};

use nys_answer::Answer;
use nys_bytes::NoMemory;

/// Why a command goes no further.
#[derive(Debug, Drop)]
pub enum Refusal {
    /// This is what the command answers.
    Answered(Answer),
    /// The allocator had no room.
    NoMemory,
}

impl Refusal {
    /// The answer of the command, where there is one.
    pub fn answer(self) -> Result<Answer, NoMemory>
        ensures { result ≡ answer_of self }
    {
        match self {
            Refusal::Answered(answer) => Ok(answer),
            Refusal::NoMemory => Err(NoMemory),
        }
    }
}

/// A refusal by this answer, where there was room for it.
pub(crate) fn answered(answer: Result<Answer, NoMemory>) -> Refusal
    ensures { result ≡ refusal_of answer }
{
    match answer {
        Ok(answer) => Refusal::Answered(answer),
        Err(NoMemory) => Refusal::NoMemory,
    }
}
