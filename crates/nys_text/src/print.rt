//! Numbers printed as text. A call that answers `NoMemory` may have appended a part of its text.

ghost use Rattle.std.specs.Prelude.{◌≡◌, ◌++◌, OnOk, codes, decimal};
ghost use Rattle.std.specs.Fmt.{signed_decimal};
ghost use Rattle.std.specs.List.{flat_map};
ghost use Rattle.nys_text.specs.Printed.{comma_text, outs_text, spaced, state_text};

use itoa::Buffer;
use nys_bytes::{NoMemory, Out, Payload};

/// Appends a number in decimal, without leading zeros.
pub fn put_number(out: &mut Out, number: u32) -> Result<(), NoMemory>
    ensures { OnOk result (out.new ≡ out.old ++ decimal number) }
{
    let mut buffer = Buffer::new();
    out.put(buffer.format(number).as_bytes())
}

/// Appends a signed number in decimal, without leading zeros; `-` stands before one below 0.
pub fn put_signed(out: &mut Out, number: i64) -> Result<(), NoMemory>
    ensures { OnOk result (out.new ≡ out.old ++ signed_decimal number) }
{
    let mut signed = Buffer::new();
    out.put(signed.format(number).as_bytes())
}

/// Appends the numbers as words, with a space before each.
pub fn put_spaced(out: &mut Out, numbers: &[i64]) -> Result<(), NoMemory>
    ensures { OnOk result (out.new ≡ out.old ++ spaced numbers.now) }
{
    put_after_each(out, b" ", numbers)
}

/// Appends the numbers joined by `,`, or `-` where there are none.
pub fn put_state(out: &mut Out, numbers: &[i64]) -> Result<(), NoMemory>
    ensures { OnOk result (out.new ≡ out.old ++ state_text numbers.now) }
{
    if numbers.is_empty() {
        return out.put(b"-");
    }
    put_commas(out, numbers)
}

/// Appends the payloads joined by single spaces, in each the numbers joined by `,`; or `-` where there
/// are none.
pub fn put_outs(out: &mut Out, outs: &[Payload]) -> Result<(), NoMemory>
    ensures { OnOk result (out.new ≡ out.old ++ outs_text outs.now) }
{
    match outs {
        [] => out.put(b"-"),
        [first, rest @ ..] => {
            put_commas(out, first.numbers())?;
            put_more_outs(out, rest)
        }
    }
}

fn put_more_outs(out: &mut Out, outs: &[Payload]) -> Result<(), NoMemory>
    ensures { OnOk result (out.new ≡ out.old ++ flat_map (λ o. codes " " ++ comma_text o) outs.now) }
{
    for payload in outs {
        put_out(out, payload)?;
    }
    Ok(())
}

fn put_out(out: &mut Out, payload: &Payload) -> Result<(), NoMemory>
    ensures { OnOk result (out.new ≡ out.old ++ (codes " " ++ comma_text payload.now)) }
{
    out.put(b" ")?;
    put_commas(out, payload.numbers())
}

fn put_commas(out: &mut Out, numbers: &[i64]) -> Result<(), NoMemory>
    ensures { OnOk result (out.new ≡ out.old ++ comma_text numbers.now) }
{
    match numbers {
        [] => Ok(()),
        [first, rest @ ..] => {
            put_signed(out, *first)?;
            put_after_each(out, b",", rest)
        }
    }
}

fn put_after_each(out: &mut Out, separator: &[u8], numbers: &[i64]) -> Result<(), NoMemory>
    ensures { OnOk result (out.new ≡ out.old ++ flat_map (λ n. separator.now
        ++ signed_decimal n) numbers.now) }
{
    for number in numbers {
        put_after(out, separator, *number)?;
    }
    Ok(())
}

fn put_after(out: &mut Out, separator: &[u8], number: i64) -> Result<(), NoMemory>
    ensures { OnOk result (out.new ≡ out.old ++ (separator.now ++ signed_decimal number)) }
{
    out.put(separator)?;
    put_signed(out, number)
}
