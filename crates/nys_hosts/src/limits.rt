//! The limits of the guarded system (docs/FORMATS.md). Each stands here alone, and all that tests or prints
//! one names it.

/// The most hosts that a system has: hosts are numbers below it.
pub const MAX_HOSTS: usize = 32;

/// The greatest `t`, the number of liars that a host's guards may have among them.
pub const MAX_T: u32 = 5;

/// The most epochs: epochs are numbers below it.
pub const MAX_EPOCHS: usize = 64;

/// The greatest credit of an epoch.
pub const MAX_CREDIT: u32 = 1024;

/// The most entries that a log has: slots are numbers below it.
pub const MAX_SLOTS: usize = 1024;

/// The most bytes of a frame, which is what one host sends to another at once.
pub const MAX_FRAME: usize = 65_536;
