//! The words and the symbols of the grammar.

ghost use Rattle.std.specs.Prelude.{◌≡◌, map, true, false, IfSome, IfNone};
ghost use Rattle.nys_lex.specs.Lexeme as spec;

/// The words of the grammar, which are no names.
pub const WORDS: [&str; 20] = [
    "var", "on", "input", "receive", "let", "if", "else", "for", "from", "to", "each", "send",
    "all", "out", "or", "and", "not", "me", "hosts", "len",
];

/// The symbols of two bytes.
pub const PAIRS: [&str; 4] = ["==", "!=", "<=", ">="];

/// The symbols of one byte.
pub const SINGLES: [&str; 17] = [
    "[", "]", "=", "-", ";", "{", "}", ":", ",", "<", ">", "+", "*", "/", "%", "(", ")",
];

/// The spelling among these that these bytes are.
pub fn find(spellings: &[&'static str], text: &[u8]) -> Option<&'static str>
    ensures same { IfSome result (λ found. found.now ≡ text.now) }
    ensures some { IfSome result (λ _. spec.is_among (map (λ s. s.now) spellings.now) text.now ≡ true) }
    ensures none { IfNone result (spec.is_among (map (λ s. s.now) spellings.now) text.now ≡ false) }
{
    for spelling in spellings {
        if text == spelling.as_bytes() {
            return Some(*spelling);
        }
    }
    None
}
