//! What `read` answers where the words are no command.

use std::alloc::AllocError;
use thiserror::Error;

/// Why words are no command.
#[derive(Clone, Copy, Debug, PartialEq, Eq, Error)]
pub enum WordsFault {
    /// The place of the first wrong word, from 0, or the number of words where one is missing.
    #[error("words: {0}")]
    At(usize),
    /// The allocator had no room.
    #[error("no memory")]
    NoMemory,
}

impl From<AllocError> for WordsFault {
    ghost use Rattle.std.specs.Prelude.{◌≡◌};
    ghost use Rattle.nys_words.specs.declared.fault.WordsFault.TheVariants as words_fault;

    ghost from_gives = { λ _ fault. fault ≡ words_fault.NoMemory };

    fn from(_error: AllocError) -> WordsFault {
        WordsFault::NoMemory
    }
}
