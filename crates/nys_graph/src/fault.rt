//! What is wrong with a list of links.

/// Why a list of links makes no graph: its first link at fault, by its place from 0.
#[derive(Clone, Copy, Debug, PartialEq, Eq)]
pub enum GraphFault {
    /// The link has a host past the last.
    OutOfRange(usize),
    /// The link joins a host to itself.
    SelfLink(usize),
    /// The link joins two hosts that an earlier link joins, in the same direction or the other.
    Doubled(usize),
}
