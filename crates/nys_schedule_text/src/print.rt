//! Events printed as lines. A call that answers `NoMemory` may have appended a part of its text.

ghost use Rattle.std.specs.Prelude.{◌≡◌, ◌++◌, ◌∷◌, [], All, OnOk, codes, map};
ghost use Rattle.std.specs.List.{flat_map};
ghost use Rattle.hex.specs.Hex.{encode_lower, encode_with};
ghost use Rattle.nys_rules.specs.Events.{plain};
ghost use Rattle.nys_schedule_text.specs.EventLines.{event_line, event_lines, event_words, IsRingEvent};

use nys_bytes::{NoMemory, Out};
use nys_rules::Event;
use nys_text::{put_number, put_spaced};

/// Appends a line for each event, in order. The events are those of a ring: inputs, asks, and bytes of a
/// frame.
pub fn schedule_text(events: &[Event], out: &mut Out) -> Result<(), NoMemory>
    requires { All (λ event. IsRingEvent (plain event)) events.now }
    ensures { OnOk result (out.new ≡ out.old ++ event_lines (map plain events.now)) }
{
    for event in events {
        put_line(event, out)?;
    }
    Ok(())
}

/// Appends the line of an event.
fn put_line(event: &Event, out: &mut Out) -> Result<(), NoMemory>
    requires { IsRingEvent (plain event.now) }
    ensures { OnOk result (out.new ≡ out.old ++ event_line (plain event.now)) }
{
    put_words(event, out)?;
    out.put(b"\n")
}

/// Appends what the line of an event says.
#[tactic(auto, unfolding(crate::specs::EventLines::event_words))]
fn put_words(event: &Event, out: &mut Out) -> Result<(), NoMemory>
    requires { IsRingEvent (plain event.now) }
    ensures { OnOk result (out.new ≡ out.old ++ event_words (plain event.now)) }
{
    match event {
        Event::Input { h, payload } => {
            out.put(b"input ")?;
            put_number(out, *h)?;
            put_spaced(out, payload.numbers())
        }
        Event::Ask { h } => {
            out.put(b"ask ")?;
            put_number(out, *h)
        }
        Event::Bytes { to, frame } => {
            out.put(b"bytes ")?;
            put_number(out, *to)?;
            out.put(b" ")?;
            put_hex(frame.as_slice(), out)
        }
        _ => Ok(()),
    }
}

/// Appends two digits for each byte, straight to the text.
#[tactic(auto, unfolding(hex::specs::Hex::encode_with))]
fn put_hex(bytes: &[u8], out: &mut Out) -> Result<(), NoMemory>
    ensures { OnOk result (out.new ≡ out.old ++ encode_lower bytes.now) }
{
    for byte in bytes {
        put_byte(*byte, out)?;
    }
    Ok(())
}

/// Appends the two digits of a byte.
fn put_byte(byte: u8, out: &mut Out) -> Result<(), NoMemory>
    ensures { OnOk result (out.new ≡ out.old ++ encode_lower (byte ∷ [])) }
{
    let mut digits = [0u8; 2];
    let _ = hex::encode_to_slice([byte], &mut digits);
    out.put(&digits)
}
