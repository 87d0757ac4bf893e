//! What a host's step of its protocol gives.

use nys_bytes::Payload;

/// The most effects of one step.
pub const MAX_EFFECTS: usize = 64;

/// One effect of a step.
#[derive(Debug, Drop)]
pub enum Effect {
    /// A payload goes to a neighbour.
    Send { to: u32, payload: Payload },
    /// A payload goes out to the world.
    Out { payload: Payload },
}

/// What a protocol makes of one payload: the new state, and the effects in order.
#[derive(Drop)]
pub struct Stepped<S: Drop> {
    pub state: S,
    pub effects: Vec<Effect>,
}
