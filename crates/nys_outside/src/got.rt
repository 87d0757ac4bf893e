//! What a poll answers.

/// The answer of a poll of one direction.
#[derive(Clone, Copy, Debug, PartialEq, Eq)]
pub enum Got {
    /// The oldest frame that waited stands in the buffer.
    Frame,
    /// No frame waits yet.
    NotYet,
    /// No frame waits, and none will come: the direction is closed.
    Closed,
    /// The outside failed, and the links' count of faults rose.
    Failed,
    /// The allocator had no room; a frame that waited waits on.
    NoMemory,
}
