//! Answers.

ghost use Rattle.std.specs.Prelude.{◌≡◌, IfOk, codes, ◌++◌};

use crate::limit::Limit;
use crate::status::Status;
use nys_bytes::{NoMemory, Out};
use nys_text::put_number;
use std::alloc::Global;

/// What a command answers.
#[derive(Debug, Drop)]
pub struct Answer {
    /// How the program ends.
    pub status: Status,
    /// The whole text.
    pub text: Out,
}

impl Answer {
    ghost use Rattle.nys_answer.specs.Lines.{line_answer, too_large};

    /// The answer whose text is one line, which is given with its line feed left out.
    pub fn line(status: Status, mut line: Out) -> Result<Answer, NoMemory>
        ensures { IfOk result (λ answer. answer ≡ line_answer status line) }
    {
        line.put(b"\n")?;
        Ok(Answer { status, text: line })
    }

    /// The answer where something would pass its limit, which is so many.
    pub fn too_large(alloc: Global, limit: Limit, most: u32) -> Result<Answer, NoMemory>
        ensures { IfOk result (λ answer. answer ≡ too_large limit most) }
    {
        let mut line = Out::new(alloc);
        line.put(b"too large: ")?;
        line.put(limit.word().as_bytes())?;
        line.put(b" ")?;
        put_number(&mut line, most)?;
        Answer::line(Status::TooLarge, line)
    }
}
