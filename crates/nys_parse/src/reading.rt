//! The steps that every rule is made of.

ghost use Rattle.std.specs.Prelude.{◌≡◌, ◌<◌, ◌≤◌, ◌-◌, length, drop, true, false, Ok, Err, IfSome, IfNone, IfOk, IfErr, MatchResult};
ghost use Rattle.std.specs.Str.{bytes_eq};
ghost use Rattle.nys_parse.specs.Parsing as spec;

use nys_lex::{MachineFault, MachineKind, Token, TokenKind};
use nys_tree::Name;
use sqlite_items::Items;
use std::alloc::Global;

/// A fault of this kind at the next token.
fn fault_at(kind: MachineKind, tokens: &[Token]) -> MachineFault
    ensures { result ≡ spec.fault_at kind tokens.now }
{
    let (line, col) = match tokens {
        [token, ..] => (token.line, token.col),
        [] => (1, 1),
    };
    MachineFault::At { line, col, kind }
}

/// The next token isn't allowed here.
pub fn expected(tokens: &[Token]) -> MachineFault
    ensures { result ≡ spec.fault_at MachineKind.Expected tokens.now }
{
    fault_at(MachineKind::Expected, tokens)
}

/// The next token opens a level too many.
pub fn deep(tokens: &[Token]) -> MachineFault
    ensures { result ≡ spec.fault_at MachineKind.Deep tokens.now }
{
    fault_at(MachineKind::Deep, tokens)
}

pub fn spelling(tokens: &[Token]) -> &str
    ensures { result.now ≡ spec.spelling tokens.now }
{
    match tokens {
        [token, ..] => spelling_of(&token.kind),
        [] => "",
    }
}

fn spelling_of(kind: &TokenKind) -> &str
    ensures { result.now ≡ spec.spelling_of kind.now }
{
    match kind {
        TokenKind::Word { text } => text.as_str(),
        TokenKind::Symbol { text } => text.as_str(),
        TokenKind::Name { .. } | TokenKind::Number { .. } | TokenKind::End => "",
    }
}

/// Whether the next token is this word or symbol.
#[tactic(auto, unfolding(crate::specs::Parsing::sees))]
pub fn sees(tokens: &[Token], word: &str) -> bool
    ensures { result ≡ spec.sees word.now tokens.now }
{
    spelling(tokens).as_bytes() == word.as_bytes()
}

/// The tokens behind the next one.
pub fn behind(tokens: &[Token]) -> &[Token]
    ensures { result.now ≡ drop 1 tokens.now }
{
    match tokens {
        [_, rest @ ..] => rest,
        [] => tokens,
    }
}

/// The tokens behind this word or symbol, where it comes next.
pub fn eat<'a>(tokens: &'a [Token], word: &str) -> Option<&'a [Token]>
    ensures some { IfSome result (λ _. spec.sees word.now tokens.now ≡ true) }
    ensures rest { IfSome result (λ rest. rest.now ≡ drop 1 tokens.now) }
    ensures none { IfNone result (spec.sees word.now tokens.now ≡ false) }
{
    if sees(tokens, word) {
        Some(behind(tokens))
    } else {
        None
    }
}

/// The tokens behind this word or symbol, which must come next.
#[tactic(auto, unfolding(crate::specs::Parsing::expect))]
pub fn expect<'a>(tokens: &'a [Token], word: &str) -> Result<&'a [Token], MachineFault>
    ensures { MatchResult result (λ rest. spec.expect word.now tokens.now ≡ Ok (tt, rest.now))
        (λ fault. spec.expect word.now tokens.now ≡ Err fault) }
{
    if sees(tokens, word) {
        Ok(behind(tokens))
    } else {
        Err(expected(tokens))
    }
}

/// What was read, where this word or symbol comes behind it.
pub fn closed<'a, T: Drop>(
    read: T,
    tokens: &'a [Token],
    word: &str,
) -> Result<(T, &'a [Token]), MachineFault>
    ensures { MatchResult result (λ p. (p.0 ≡ read)
        × (spec.expect word.now tokens.now ≡ Ok (tt, p.1.now))) (λ fault. spec.expect word.now tokens.now
        ≡ Err fault) }
{
    match expect(tokens, word) {
        Ok(left) => Ok((read, left)),
        Err(fault) => Err(fault),
    }
}

/// Drops what was read in front of a fault, and gives the fault.
pub fn refused<T: Drop>(_read: T, fault: MachineFault) -> MachineFault
    ensures { result ≡ fault }
{
    fault
}

/// NAME, with no place yet.
#[tactic(auto, unfolding(crate::specs::Parsing::name))]
pub fn name(alloc: Global, tokens: &[Token]) -> Result<(Name, &[Token]), MachineFault>
    ensures { spec.Reads (spec.name tokens.now) result }
{
    let [token, rest @ ..] = tokens else {
        return Err(expected(tokens));
    };
    let TokenKind::Name { text } = &token.kind else {
        return Err(expected(tokens));
    };
    let text = Items::from_slice(alloc, text.as_str().as_bytes())?;
    let name = Name {
        line: token.line,
        col: token.col,
        place: 0,
        len: 0,
        text,
    };
    Ok((name, rest))
}

/// NUMBER.
#[tactic(auto, unfolding(crate::specs::Parsing::number))]
pub fn number(tokens: &[Token]) -> Result<(i64, &[Token]), MachineFault>
    ensures { spec.Reads (spec.number tokens.now) result }
{
    match tokens {
        [
            Token {
                kind: TokenKind::Number { value },
                ..
            },
            rest @ ..,
        ] => Ok((*value, rest)),
        _ => Err(expected(tokens)),
    }
}

/// Whether the next token is a NUMBER.
pub fn is_number(tokens: &[Token]) -> bool
    ensures { result ≡ spec.is_number (spec.next tokens.now).kind }
{
    match tokens {
        [token, ..] => match token.kind {
            TokenKind::Number { .. } => true,
            _ => false,
        },
        [] => false,
    }
}

/// The end of the text.
#[tactic(auto, unfolding(crate::specs::Parsing::end))]
pub fn ends(tokens: &[Token]) -> Result<(), MachineFault>
    ensures { MatchResult result (λ _. spec.end tokens.now ≡ Ok (tt, tokens.now))
        (λ fault. spec.end tokens.now ≡ Err fault) }
{
    match tokens {
        [token, ..] => match token.kind {
            TokenKind::End => Ok(()),
            _ => Err(expected(tokens)),
        },
        [] => Ok(()),
    }
}
