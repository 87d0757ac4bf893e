//! What a command needs of a document.

/// Which of the keys that may be left out a command needs.
#[derive(Clone, Copy, Debug, PartialEq, Eq)]
pub struct Needs {
    /// The key `master` has to be there.
    pub master: bool,
    /// The key `epoch` has to be there.
    pub epochs: bool,
}
