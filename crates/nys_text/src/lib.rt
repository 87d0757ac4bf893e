//! Texts as lines of words: which lines tell something, the numbers that words write, and numbers
//! printed as text.
//!
//! Below: `nys_bytes` (payloads, bytes that are written) and `itoa`. Above: every reader and printer of
//! texts, as `nys_bare` and `nys_runs`.
//! Contracts see a line and a word as its bytes, and the words of a line as the list of them.
//! Begin at `num` and `payload_of`, then `words_of`. The rules are "Texts, lines and numbers" in
//! docs/FORMATS.md.
#![tactic(auto)]

mod number;
mod payload;
mod print;
mod reader;
mod words;

pub use number::{int, num, only_num};
pub use payload::payload_of;
pub use print::{put_number, put_outs, put_signed, put_spaced, put_state};
pub use reader::{Grammar, TextFault, read_lines};
pub use words::{is_skipped, words_of};
