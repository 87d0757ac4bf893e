//! What stands first in a text.

ghost use Rattle.std.specs.Prelude.{◌≡◌, ◌<◌, length, IfOk};
ghost use Rattle.std.specs.Str.{IsAscii};
ghost use Rattle.nys_lex.specs.Lexeme as spec;

use crate::bytes::{Sort, is_blank, is_letter, run_of};
use crate::fault::MachineKind;
use crate::number::{signed, value_of};
use crate::token::TokenKind;
use crate::word::{PAIRS, SINGLES, WORDS, find};
use nys_bytes::{NoMemory, Text};
use std::alloc::Global;

/// The most bytes of a name.
pub const MAX_NAME: usize = 32;

/// What stands first in a text that is not empty.
#[derive(Debug, Drop)]
pub enum Lexeme {
    /// Bytes that separate tokens, so many.
    Gap { len: usize },
    /// A token of this kind and of so many bytes.
    Found { kind: TokenKind, len: usize },
    /// No token, for this cause.
    Refused { kind: MachineKind },
}

/// A text of bytes of a name.
fn name_text(alloc: Global, bytes: &[u8]) -> Result<Text, NoMemory>
    requires { IsAscii bytes.now }
    ensures { IfOk result (λ text. text ≡ bytes.now) }
{
    match str::from_utf8(bytes) {
        Ok(text) => Text::new(alloc, text),
        Err(_) => unreachable!(),
    }
}

#[tactic(auto, unfolding(crate::specs::Lexeme::number_of))]
fn number(digits: &[u8]) -> Lexeme
    ensures { result ≡ spec.number_of digits.now }
{
    match value_of(digits) {
        Some(value) => Lexeme::Found {
            kind: TokenKind::Number {
                value: signed(value),
            },
            len: digits.len(),
        },
        None => Lexeme::Refused {
            kind: MachineKind::Number,
        },
    }
}

#[tactic(auto, unfolding(crate::specs::Lexeme::word_of))]
fn word(alloc: Global, text: &[u8]) -> Result<Lexeme, NoMemory>
    requires { IsAscii text.now }
    ensures { IfOk result (λ lexeme. lexeme ≡ spec.word_of text.now) }
{
    let len = text.len();
    if let Some(word) = find(&WORDS, text) {
        let text = Text::new(alloc, word)?;
        return Ok(Lexeme::Found {
            kind: TokenKind::Word { text },
            len,
        });
    }
    if len > MAX_NAME {
        return Ok(Lexeme::Refused {
            kind: MachineKind::Number,
        });
    }
    let text = name_text(alloc, text)?;
    Ok(Lexeme::Found {
        kind: TokenKind::Name { text },
        len,
    })
}

fn found_symbol(alloc: Global, symbol: &str) -> Result<Lexeme, NoMemory>
    ensures { IfOk result (λ lexeme. lexeme ≡ spec.found_symbol symbol.now) }
{
    let text = Text::new(alloc, symbol)?;
    Ok(Lexeme::Found {
        kind: TokenKind::Symbol { text },
        len: symbol.len(),
    })
}

#[tactic(auto, unfolding(crate::specs::Lexeme::symbol_of))]
fn symbol(alloc: Global, text: &[u8]) -> Result<Lexeme, NoMemory>
    ensures { IfOk result (λ lexeme. lexeme ≡ spec.symbol_of text.now) }
{
    if let Some(pair) = find(&PAIRS, &text[..text.len().min(2)]) {
        return found_symbol(alloc, pair);
    }
    if let Some(single) = find(&SINGLES, &text[..text.len().min(1)]) {
        return found_symbol(alloc, single);
    }
    Ok(Lexeme::Refused {
        kind: MachineKind::Character,
    })
}

/// What stands first in a text that is not empty.
#[tactic(auto, unfolding(crate::specs::Lexeme::first_lexeme))]
pub fn first_lexeme(alloc: Global, text: &[u8]) -> Result<Lexeme, NoMemory>
    requires { 0 < length text.now }
    ensures value { IfOk result (λ lexeme. lexeme ≡ spec.first_lexeme text.now) }
{
    let first = text[0];
    if is_blank(first) {
        return Ok(Lexeme::Gap { len: 1 });
    }
    if first == b'#' {
        return Ok(Lexeme::Gap {
            len: run_of(Sort::Line, text),
        });
    }
    if first.is_ascii_digit() {
        return Ok(number(&text[..run_of(Sort::Digit, text)]));
    }
    if is_letter(first) {
        return word(alloc, &text[..run_of(Sort::Name, text)]);
    }
    symbol(alloc, text)
}
