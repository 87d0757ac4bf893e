//! What a statement says beside its payload, as far as its kind has it.

use crate::kind::Kind;

/// The numbers of a statement. A field that the kind hasn't is 0.
#[derive(Clone, Copy, Debug, PartialEq, Eq)]
pub struct Head {
    pub kind: Kind,
    /// The epoch in which it is said.
    pub epoch: u32,
    /// The sender of the message that an attestation tells.
    pub p: u32,
    /// The host of which it speaks.
    pub h: u32,
    /// The slot of the log, of an attestation the message's number, of `Frozen` the length, of `Open` how
    /// many lengths it has.
    pub at: u32,
}
