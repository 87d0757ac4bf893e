//! Why a handler stops before its end.

/// Why a handler stops before its end.
#[derive(Clone, Copy, Debug, PartialEq, Eq)]
pub enum Stop {
    /// A fault of the machine: the state stays, and nothing is sent.
    Fault,
    /// The allocator had no room.
    NoMemory,
}
