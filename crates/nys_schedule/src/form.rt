//! What a schedule is for.

/// What a schedule is for, which says what lines it may have.
#[derive(Clone, Copy, Debug, PartialEq, Eq)]
pub enum Form {
    /// To be replayed: each line of the grammar.
    Replay,
    /// To begin a ring with: inputs alone.
    Ring,
}
