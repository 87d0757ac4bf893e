//! What the Olympus answers to its commands.

/// The answer to `decide`. `NotWedged` is tested first, then `Settled`; else the guards that are
/// frozen decide.
#[derive(Clone, Copy, Debug, PartialEq, Eq)]
pub enum Decision {
    /// The host's log is decided for the end of this epoch: its length.
    Decided { len: u32 },
    /// Too few guards are frozen: the first slot that isn't supported, and the guards frozen there.
    Undecided { supported: u32, frozen: u32 },
    /// The epoch isn't ending.
    NotWedged,
    /// The host is decided for this epoch's end already, or retired.
    Settled,
}

/// The answer to `retire`. `NotWedged` is tested first, then `Settled`.
#[derive(Clone, Copy, Debug, PartialEq, Eq)]
pub enum Retired {
    /// The host is given up for ever.
    Done,
    /// The epoch isn't ending.
    NotWedged,
    /// The host is decided for this epoch's end already, or retired.
    Settled,
}

/// The answer to `open_next`. `NotWedged` is tested first, then `NoNext`, then `NotAll`.
#[derive(Clone, Copy, Debug, PartialEq, Eq)]
pub enum Opened {
    /// The next epoch is open: its number.
    Done { epoch: u32 },
    /// The epoch isn't ending.
    NotWedged,
    /// The scenario has no further epoch.
    NoNext,
    /// The lowest host that is neither decided nor retired.
    NotAll { h: u32 },
}
