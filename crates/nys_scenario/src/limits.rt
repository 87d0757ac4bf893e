//! Limits of a document.

/// How many bytes a master key has.
pub const MASTER_BYTES: usize = 32;
