//! What a host knows of one destination.

use nys_hosts::MAX_HOSTS;

/// The distance that stands for an unknown one.
pub const UNKNOWN: u32 = MAX_HOSTS as u32;

/// The first number that is no distance of a neighbour's: 0 to 30 are.
pub const MAX_HEARD: u32 = UNKNOWN - 1;

/// A distance, 0 to 31 or `UNKNOWN`, and the neighbour that told of it.
#[derive(Clone, Copy, Debug, PartialEq, Eq)]
pub struct Way {
    pub distance: u32,
    pub hop: Option<u32>,
}
