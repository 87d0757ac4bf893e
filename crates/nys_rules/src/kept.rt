//! What a node keeps beside its logs, as plain data.

use nys_bytes::Content;
use nys_stmt::MakerList;

/// The numbers of a link that a node attested in this epoch: from `first` on, below `next`.
#[derive(Clone, Copy, Debug, PartialEq, Eq)]
pub struct Attested {
    /// The first number that it attests, or would.
    pub first: u32,
    /// The number that it attests next.
    pub next: u32,
}

/// The Deliver votes with which a slot was logged.
#[derive(Debug, Drop)]
pub struct Kept {
    /// The slot, counted from 0.
    pub slot: u32,
    /// What was logged in it.
    pub content: Content,
    /// Who voted for it, rising, with all their tags.
    pub makers: MakerList,
}
