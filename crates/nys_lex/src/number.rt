//! The value of a number.

ghost use Rattle.std.specs.Prelude.{◌≡◌, ◌≤◌, ◌<◌, ◌^◌, pos, IfSome, IfNone};
ghost use Rattle.nys_lex.specs.Lexeme as spec;

/// The least value that is too great for a number.
const TOO_GREAT: u64 = 1 << 63;

/// The number whose digits are those of `value` and then this one, where it fits.
fn with_digit(value: u64, digit: u8) -> Option<u64>
    ensures fits { IfSome result (λ next. (next ≡ spec.with_digit value digit) × (next < 2 ^ 63)) }
    ensures great { IfNone result (2 ^ 63 ≤ spec.with_digit value digit) }
{
    if value > TOO_GREAT / 10 {
        return None;
    }
    let next = 10 * value + digit.saturating_sub(b'0') as u64;
    if next >= TOO_GREAT {
        return None;
    }
    Some(next)
}

/// The number that these digits write, where it is below 2^63.
#[tactic(auto, using(crate::proofs::NumberLemmas::stays_great))]
pub fn value_of(digits: &[u8]) -> Option<u64>
    ensures fits { IfSome result (λ value. (value ≡ spec.value_of digits.now) × (value < 2 ^ 63)) }
    ensures great { IfNone result (2 ^ 63 ≤ spec.value_of digits.now) }
{
    let mut value: u64 = 0;
    for digit in digits {
        value = with_digit(value, *digit)?;
    }
    Some(value)
}

/// The same number with a sign.
pub fn signed(value: u64) -> i64
    requires { value < 2 ^ 63 }
    ensures { result ≡ pos value }
{
    value as i64
}
