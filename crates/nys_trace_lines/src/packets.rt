//! The lines of packets and of bytes that nobody sent.

ghost use Rattle.std.specs.Prelude.{◌≡◌, ◌++◌, ◌∷◌, [], OnOk, codes, decimal};
ghost use Rattle.std.specs.List.{flat_map};
ghost use Rattle.hex.specs.Hex.{encode_lower, encode_with, lower_digits};
ghost use Rattle.nys_trace_lines.specs.TraceLines.{bytes_words, given_line, injected_text, packet_line, packet_lines, packets_text, way_words};

use itoa::Buffer;
use nys_bytes::{NoMemory, Out};
use nys_rules::{Injected, Packet};
use nys_text::put_number;

/// Appends the title of packets and a line for each, in order, numbered from 0.
pub fn put_packets(pool: &[Packet], out: &mut Out) -> Result<(), NoMemory>
    ensures { OnOk result (out.new ≡ out.old ++ packets_text pool.now) }
{
    out.put(b"packets\n")?;
    put_packet_lines(pool, out)
}

/// Appends a line for each packet, in order, numbered from 0.
fn put_packet_lines(pool: &[Packet], out: &mut Out) -> Result<(), NoMemory>
    ensures { OnOk result (out.new ≡ out.old ++ packet_lines 0 pool.now) }
{
    let mut k: usize = 0;
    for packet in pool {
        put_packet(k, packet, out)?;
        k += 1;
    }
    Ok(())
}

/// Appends the line of the packet with this number.
#[tactic(auto, unfolding(crate::specs::TraceLines::packet_line))]
fn put_packet(k: usize, packet: &Packet, out: &mut Out) -> Result<(), NoMemory>
    ensures { OnOk result (out.new ≡ out.old ++ packet_line k packet.now) }
{
    out.put(b"packet ")?;
    let mut buffer = Buffer::new();
    out.put(buffer.format(k).as_bytes())?;
    put_way(packet.from, packet.to, out)?;
    put_bytes(packet.frame.as_slice(), out)
}

/// Appends who sent it, and whom it is for.
fn put_way(from: u32, to: u32, out: &mut Out) -> Result<(), NoMemory>
    ensures { OnOk result (out.new ≡ out.old ++ way_words from to) }
{
    out.put(b" from ")?;
    put_number(out, from)?;
    out.put(b" to ")?;
    put_number(out, to)
}

/// Appends the title of bytes that events gave and a line for each, in order.
pub fn put_injected(injected: &[Injected], out: &mut Out) -> Result<(), NoMemory>
    ensures { OnOk result (out.new ≡ out.old ++ injected_text injected.now) }
{
    out.put(b"injected\n")?;
    put_given_lines(injected, out)
}

/// Appends a line for all bytes that events gave, in order.
fn put_given_lines(injected: &[Injected], out: &mut Out) -> Result<(), NoMemory>
    ensures { OnOk result (out.new ≡ out.old ++ flat_map given_line injected.now) }
{
    for given in injected {
        put_given(given, out)?;
    }
    Ok(())
}

/// Appends the line of bytes that an event gave.
#[tactic(auto, unfolding(crate::specs::TraceLines::given_line))]
fn put_given(given: &Injected, out: &mut Out) -> Result<(), NoMemory>
    ensures { OnOk result (out.new ≡ out.old ++ given_line given.now) }
{
    out.put(b"bytes ")?;
    put_number(out, given.event)?;
    out.put(b" ")?;
    put_number(out, given.to)?;
    put_bytes(given.frame.as_slice(), out)
}

/// Appends bytes as digits, which end the line.
fn put_bytes(bytes: &[u8], out: &mut Out) -> Result<(), NoMemory>
    ensures { OnOk result (out.new ≡ out.old ++ bytes_words bytes.now) }
{
    out.put(b" ")?;
    put_hex(bytes, out)?;
    out.put(b"\n")
}

/// Appends two digits for each byte, straight to the text.
#[tactic(auto, unfolding(hex::specs::Hex::encode_with))]
fn put_hex(bytes: &[u8], out: &mut Out) -> Result<(), NoMemory>
    ensures { OnOk result (out.new ≡ out.old ++ encode_lower bytes.now) }
{
    for byte in bytes {
        put_byte(*byte, out)?;
    }
    Ok(())
}

/// Appends the two digits of a byte, the high one first.
#[tactic(auto, unfolding(hex::specs::Hex::encode_with))]
fn put_byte(byte: u8, out: &mut Out) -> Result<(), NoMemory>
    ensures { OnOk result (out.new ≡ out.old ++ encode_lower (byte ∷ [])) }
{
    let digits = b"0123456789abcdef";
    let high = digits[(byte / 16) as usize];
    let low = digits[(byte % 16) as usize];
    out.put(&[high, low])
}
