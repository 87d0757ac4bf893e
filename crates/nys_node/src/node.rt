//! The honest process of one host.

ghost use Rattle.std.specs.Prelude.{◌≡◌};

use circular_buffer::HeapCircularBuffer;
use nys_attest::{AttestTable, Links};
use nys_bytes::Payload;
use nys_credit::CreditBank;
use nys_desk::{Desk, KeptSlots};
use nys_hosts::{HostSet, MAX_HOSTS};
use nys_replica::Replica;
use nys_source::Protocol;

/// The honest process of one host. Contracts say which views it means.
#[derive(Drop)]
pub struct Node<P: Protocol> {
    pub(crate) me: u32,
    pub(crate) epoch: u32,
    pub(crate) wedged: bool,
    /// The hosts that it guards in its epoch and that aren't retired.
    pub(crate) live: HostSet,
    pub(crate) retired: HostSet,
    /// By host: the length at which the epoch began its log.
    pub(crate) base: [u32; MAX_HOSTS],
    /// By host: one past the greatest slot of a Deliver in this epoch, or the base.
    pub(crate) voted_to: [u32; MAX_HOSTS],
    /// Inputs that wait for a slot, the oldest first.
    pub(crate) waiting: HeapCircularBuffer<Payload>,
    /// By host: its replica, if the node guards it or did.
    pub(crate) replicas: Vec<Option<Replica<P>>>,
    /// By host: what it keeps about the open slot.
    pub(crate) desks: Vec<Desk>,
    /// By host: the Deliver votes of the slots that it logged last in this epoch.
    pub(crate) kept: Vec<KeptSlots>,
    /// What it attested of each link in this epoch.
    pub(crate) links: Links,
    /// By host: what others attest of the messages to it.
    pub(crate) heard: Vec<AttestTable>,
    /// By host: the heads of the links into it.
    pub(crate) banks: Vec<CreditBank>,
}

impl<P: Protocol> Node<P> {
    /// The epoch that it is in.
    pub fn epoch(&self) -> u32
        ensures { result ≡ self.now.epoch }
    {
        self.epoch
    }
}
