//! The sorts of bytes that a machine's text is made of.

ghost use Rattle.std.specs.Prelude.{◌≡◌, ◌≤◌, length};
ghost use Rattle.std.specs.List.{prefix_len};
ghost use Rattle.nys_lex.specs.Bytes as spec;

/// A sort of bytes of which a token or a gap is the longest run.
#[derive(Clone, Copy, Debug)]
pub enum Sort {
    /// Digits.
    Digit,
    /// Letters, digits and `_`.
    Name,
    /// All bytes of a line but the line feed at its end.
    Line,
}

/// Whether the byte separates tokens: a space, a tab, a carriage return or a line feed.
pub fn is_blank(byte: u8) -> bool
    ensures { result ≡ spec.is_blank byte }
{
    byte == b' ' || byte == b'\t' || byte == b'\r' || byte == b'\n'
}

/// Whether a name may begin with the byte: an ASCII letter or `_`.
pub fn is_letter(byte: u8) -> bool
    ensures { result ≡ spec.is_letter byte }
{
    byte.is_ascii_alphabetic() || byte == b'_'
}

/// Whether the byte is of the sort.
pub fn is_in(sort: Sort, byte: u8) -> bool
    ensures { result ≡ spec.is_in sort byte }
{
    match sort {
        Sort::Digit => byte.is_ascii_digit(),
        Sort::Name => byte.is_ascii_alphanumeric() || byte == b'_',
        Sort::Line => byte != b'\n',
    }
}

/// How many bytes from the front are of the sort.
pub fn run_of(sort: Sort, text: &[u8]) -> usize
    ensures value { result ≡ prefix_len (spec.is_in sort) text.now }
    ensures within { result ≤ length text.now }
{
    let mut len = 0;
    while len < text.len() && is_in(sort, text[len]) {
        len += 1;
    }
    len
}
