//! Authenticators: HMAC with SHA-256, the key that two parties share, and the tag by which one of
//! them shows the other what it said.
//!
//! Below: `sha2`, `nys_bytes` (want of memory). Above: `nys_stmt` (what is tagged), and each crate that
//! makes or checks votes.
//! Contracts see `Keys` as the bytes of its master key, and a `Tag` as its bytes. Only `Keys::ready_for`
//! takes memory, for what makes tags cheaper.
//! Begin at `Keys::tag`. The rule is "Authenticators" in docs/RULES.md.
#![tactic(auto)]

mod authenticating;
mod keys;
mod pairs;

pub use authenticating::{MAX_TEXT_LEN, TAG_LEN, Tag, hmac};
pub use keys::{Keys, LAST_PARTY};
