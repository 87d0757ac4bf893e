//! What the program answers: a status and the whole text.
//!
//! Below: `nys_bytes` (the text's bytes), `nys_text` (numbers, printed). Above: the commands, each of
//! which gives one answer, and the top call, which writes it.
//! Contracts see an `Answer` as its status and its bytes; definitions of what a command answers are
//! functions to `Answer`.
//! Begin at `Status`, then `specs/Lines.antt`. The statuses stand in the README.
#![tactic(auto)]

mod answer;
mod limit;
mod status;

pub use answer::Answer;
pub use limit::{INPUT_LIMIT, Limit};
pub use status::Status;
