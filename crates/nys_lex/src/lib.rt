//! The tokens of a machine's text: the text is cut from left to right into names, numbers, words and
//! symbols, each with the line and the column of its first byte.
//!
//! Below: `nys_bytes` (texts). Above: `nys_parse` (the tree of the tokens), and all of the machine
//! language, which answers its faults as a `MachineFault`.
//! Contracts see a `Token` as its line, its column and its kind, a text being the list of its bytes.
//! Begin at `tokens`, whose definition is `specs/Tokens.antt`. The rule is "Machine language" in
//! docs/FORMATS.md.
#![tactic(auto)]

mod bytes;
mod cutting;
mod fault;
mod lexeme;
mod number;
mod place;
mod token;
mod word;

pub use cutting::{MAX_TEXT, tokens};
pub use fault::{MachineFault, MachineKind};
pub use lexeme::MAX_NAME;
pub use token::{Token, TokenKind};
