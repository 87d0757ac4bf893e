//! The rules by which a node goes on by itself.

use nys_bytes::{Content, Payload};

/// What a node does next about a host that it guards, in the order in which the rules are tried.
#[derive(Debug, Drop)]
pub enum Rule {
    /// The host offers a content for its open slot.
    Offer {
        h: u32,
        content: Content,
    },
    /// A guard orders the offer that it holds.
    Order {
        h: u32,
        content: Content,
    },
    /// The host sends the orders that it collected of its offer.
    Certificate {
        h: u32,
        content: Content,
    },
    /// A guard votes to deliver.
    Deliver {
        h: u32,
        content: Content,
    },
    /// A guard appends a delivered content to its log of the host.
    Log {
        h: u32,
        content: Content,
    },
    /// A guard of both attests the next payload on the link from `p` to `h`.
    Attest {
        p: u32,
        h: u32,
        k: u32,
        payload: Payload,
    },
}
