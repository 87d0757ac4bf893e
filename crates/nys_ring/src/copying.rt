//! Copies of events.

ghost use Rattle.std.specs.Prelude.{◌≡◌, IfOk};
ghost use Rattle.nys_rules.specs.Events.{plain};

use nys_bytes::NoMemory;
use nys_rules::Event;
use std::alloc::Global;

/// An equal event with memory of its own: of an input, an ask or bytes.
pub(crate) fn copied(alloc: Global, event: &Event) -> Result<Event, NoMemory>
    ensures { IfOk result (λ copy. plain copy ≡ plain event.now) }
{
    match event {
        Event::Input { h, payload } => Ok(Event::Input {
            h: *h,
            payload: payload.copy(alloc)?,
        }),
        Event::Bytes { to, frame } => Ok(Event::Bytes {
            to: *to,
            frame: Vec::from_slice(alloc, frame.as_slice())?,
        }),
        Event::Ask { h } => Ok(Event::Ask { h: *h }),
        _ => Err(NoMemory),
    }
}
