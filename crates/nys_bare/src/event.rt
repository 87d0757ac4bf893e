//! What a line of a bare schedule says.

use nys_bytes::Payload;

/// One event of a bare schedule. Hosts and messages are numbered from 0.
#[derive(Debug, Drop)]
pub enum BareEvent {
    /// Host `h` is given an input.
    Input { h: u32, payload: Payload },
    /// Message `k` of the whole run is handed to the host that it was sent to.
    Deliver { k: u32 },
    /// Host `h` stops for ever.
    Stop { h: u32 },
}
