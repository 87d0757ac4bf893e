//! Why a record is dropped.

use nys_stmt::WireKind;

/// The first test that bytes or an input fail at a node or at the Olympus. What is dropped changes
/// nothing.
#[derive(Clone, Copy, Debug, PartialEq, Eq)]
pub enum DropCause {
    /// The bytes are no record: the place of the first field at fault, and what is wrong with it.
    Malformed { place: usize, kind: WireKind },
    /// The taker has no part for this kind of statement.
    NotMine,
    /// The statement is of another epoch.
    Epoch,
    /// The taker is wedged, or, at the Olympus, isn't.
    Wedged,
    /// The host, the sender or the lengths are ones that the taker doesn't know of.
    NotGuard,
    /// The slot, the number or the content isn't one that can come now.
    Slot,
    /// No maker that may say this has a tag that verifies.
    NoTag,
    /// Of an input alone: `MAX_WAITING` inputs wait already.
    QueueFull,
}
