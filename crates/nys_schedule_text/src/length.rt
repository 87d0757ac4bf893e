//! How long the lines of events are.

ghost use Rattle.std.specs.Prelude.{◌≡◌, ◌≤◌, ◌*◌, codes, decimal, length};
ghost use Rattle.std.specs.Fmt.{signed_decimal};
ghost use Rattle.nys_bytes.specs.declared.payload.TheConstants.{MAX_NUMBERS};
ghost use Rattle.nys_text.specs.Printed.{spaced};
ghost use Rattle.nys_rules.specs.Events.{plain};
ghost use Rattle.nys_schedule_text.specs.EventLines.{event_line, event_words, IsRingEvent};

use itoa::Buffer;
use nys_bytes::Payload;
use nys_rules::Event;

/// The bytes of the line of an event that a ring has, with its line feed. Takes no memory.
#[tactic(auto, unfolding(crate::specs::EventLines::event_words))]
pub fn line_len(event: &Event) -> u64
    requires { IsRingEvent (plain event.now) }
    ensures { result ≡ length (event_line (plain event.now)) }
{
    match event {
        Event::Input { h, payload } => "input ".len() as u64
            + number_len(*h)
            + payload_len(payload)
            + 1,
        Event::Ask { h } => "ask ".len() as u64 + number_len(*h) + 1,
        Event::Bytes { to, frame } => {
            "bytes ".len() as u64 + number_len(*to) + 1 + 2 * frame.len() as u64 + 1
        }
        _ => 0,
    }
}

fn number_len(number: u32) -> u64
    ensures size { result ≡ length (decimal number) }
    ensures few { result ≤ 10 }
{
    Buffer::new().format(number).len() as u64
}

fn payload_len(payload: &Payload) -> u64
    ensures size { result ≡ length (spaced payload.now) }
    ensures few { result ≤ 21 * MAX_NUMBERS }
{
    let mut total = 0;
    for number in payload.numbers() {
        total += 1 + signed_len(*number);
    }
    total
}

fn signed_len(number: i64) -> u64
    ensures size { result ≡ length (signed_decimal number) }
    ensures few { result ≤ 20 }
{
    Buffer::new().format(number).len() as u64
}
