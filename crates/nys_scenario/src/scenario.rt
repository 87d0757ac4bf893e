//! What a document says.

use crate::choice::Choice;
use crate::epoch::EpochText;
use crate::limits::MASTER_BYTES;
use nys_bytes::Text;
use nys_graph::Graph;
use nys_hosts::HostSet;

/// A scenario: the hosts, what they run, and what happens to them. The schedule and the run are
/// as they stand, unread.
#[derive(Drop)]
pub struct Scenario {
    /// The hosts and their links.
    pub graph: Graph,
    /// The protocol that every host runs.
    pub choice: Choice,
    /// The schedule, empty where there is none.
    pub schedule: Text,
    /// The run, empty where there is none.
    pub run: Text,
    /// The master key, zeros where there is none.
    pub master: [u8; MASTER_BYTES],
    /// The hosts that lie.
    pub liars: HostSet,
    /// The epochs in their order, at most 64; none where there are none.
    pub epochs: Vec<EpochText>,
}
