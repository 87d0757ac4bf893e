//! The values that every other crate is made of: payloads, contents, texts, and bytes read and written in
//! order.
//!
//! Below: `byteorder` (numbers as big-endian bytes) and `thiserror`. Above: every crate of the project.
//! Contracts see a `Payload` as its list of numbers, a `Text` and an `Out` as their bytes, and a
//! `Cursor` as the bytes that are left and the place at which they stand.
//! Begin at `Payload::new`, then `Out::put` and `Cursor::take`.
#![tactic(auto)]

mod content;
mod cursor;
mod fault;
mod out;
mod payload;
mod text;

pub use content::Content;
pub use cursor::Cursor;
pub use fault::{NoMemory, PayloadFault, Short};
pub use out::Out;
pub use payload::{MAX_NUMBERS, Payload};
pub use text::Text;
