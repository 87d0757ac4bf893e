//! The limits of the guarded system (docs/FORMATS.md).

/// How many numbers of a link, from the next one on, may be attested.
pub const WINDOW: usize = 64;

/// How many slots' delivered records a guard keeps of a host.
pub const MAX_KEPT: usize = 64;

/// The most inputs that wait at a node.
pub const MAX_WAITING: usize = 1024;

/// The most packets that a world has.
pub const MAX_PACKETS: usize = 200_000;

/// The most bytes that these packets have.
pub const MAX_POOL_BYTES: usize = 67_108_864;
