//! The numbers that words write.

ghost use Rattle.std.specs.Prelude.{◌≡◌, ◌≤◌, ◌<◌, ◌+◌, ◌^◌, IfSome, map};
ghost use Rattle.nys_text.specs.Numbers.{numeral_below, num_of, int_of, longer, only_num, pos_of, neg_of};

/// The NUM of a word: digits alone, at least one, with a value below 2^32. Leading zeros are taken.
#[tactic(auto, unfolding(crate::specs::Numbers::num_of))]
pub fn num(word: &[u8]) -> Option<u32>
    ensures { result ≡ num_of word.now }
{
    let value = numeral(word, 1 << 32)?;
    Some(value as u32)
}

/// The NUM of words that are one word alone. None where they are more or fewer, or it is no NUM.
pub fn only_num(words: &[&[u8]]) -> Option<u32>
    ensures { result ≡ only_num (map (λ word. word.now) words.now) }
{
    if words.len() != 1 {
        return None;
    }
    num(words[0])
}

/// The INT of a word: an optional `-`, then digits alone, at least one, with a value that fits. Leading
/// zeros are taken, and `-0` is 0.
#[tactic(auto, unfolding(crate::specs::Numbers::int_of))]
pub fn int(word: &[u8]) -> Option<i64>
    ensures { result ≡ int_of word.now }
{
    match word {
        [b'-', digits @ ..] => negative(digits),
        _ => positive(word),
    }
}

fn positive(digits: &[u8]) -> Option<i64>
    ensures { result ≡ pos_of (numeral_below (2 ^ 63) digits.now) }
{
    let value = numeral(digits, 1 << 63)?;
    0i64.checked_add_unsigned(value)
}

fn negative(digits: &[u8]) -> Option<i64>
    ensures { result ≡ neg_of (numeral_below (2 ^ 63 + 1) digits.now) }
{
    let value = numeral(digits, (1 << 63) + 1)?;
    0i64.checked_sub_unsigned(value)
}

/// The value of digits alone, at least one, where it is below the limit.
fn numeral(word: &[u8], limit: u64) -> Option<u64>
    requires { 0 < limit }
    ensures value { result ≡ numeral_below limit word.now }
    ensures bound { IfSome result (λ value. value < limit) }
{
    if word.is_empty() {
        return None;
    }
    let mut value = 0;
    for digit in word {
        value = with_digit(value, *digit, limit)?;
    }
    Some(value)
}

/// The value with one more digit behind it, where it stays below the limit.
fn with_digit(value: u64, digit: u8, limit: u64) -> Option<u64>
    ensures value { result ≡ longer limit value digit }
    ensures bound { IfSome result (λ next. next < limit) }
{
    if !digit.is_ascii_digit() {
        return None;
    }
    let next = value.checked_mul(10)?.checked_add(u64::from(digit - b'0'))?;
    if next < limit { Some(next) } else { None }
}
