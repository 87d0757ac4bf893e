//! The ranges of the numbers in statements.

use nys_hosts::{MAX_EPOCHS, MAX_HOSTS, MAX_SLOTS};

/// The greatest epoch.
pub const MAX_EPOCH: u32 = MAX_EPOCHS as u32 - 1;

/// The greatest host.
pub const MAX_HOST: u32 = MAX_HOSTS as u32 - 1;

/// The greatest slot of a host's log.
pub const MAX_SLOT: u32 = MAX_SLOTS as u32 - 1;

/// The greatest length of a host's log, which is the greatest slot at which a guard freezes.
pub const MAX_LENGTH: u32 = MAX_SLOTS as u32;

/// The most lengths that an opening tells, one for each host.
pub const MAX_LENGTHS: u32 = MAX_HOSTS as u32;

/// The greatest number of a message on its link.
pub const MAX_NUMBER: u32 = 65_535;
