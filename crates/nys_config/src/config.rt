//! What all honest parties know before anything happens.

use nys_guards::GuardGraph;
use nys_mac::Keys;

/// The protocol that is replicated, the guards of each epoch from epoch 0 on, and the keys of all
/// pairs of parties. What nodes ask of it is `IsConfig`; the guards need not be good.
#[derive(Drop)]
pub struct Config<P: Drop> {
    pub protocol: P,
    pub epochs: Vec<GuardGraph>,
    pub keys: Keys,
}
