//! The tokens of a whole text.

ghost use Rattle.std.specs.Prelude.{◌≡◌, ◌≢◌, ◌++◌, ◌∷◌, ◌+◌, ◌<◌, ◌≤◌, length, take, drop, [], Ok, Err, OnOk, IfOk, IfErr};
ghost use Rattle.nys_lex.specs.Place.{past};
ghost use Rattle.nys_lex.specs.Tokens as spec;

use crate::fault::{MachineFault, MachineKind};
use crate::lexeme::{Lexeme, first_lexeme};
use crate::place::{Place, START};
use crate::token::{Token, TokenKind};
use nys_bytes::NoMemory;
use std::alloc::Global;

/// The most bytes of a machine's text.
pub const MAX_TEXT: usize = 65_536;

fn fault_at(place: Place, kind: MachineKind) -> MachineFault
    ensures { result ≡ spec.fault_at place kind }
{
    MachineFault::At {
        line: place.line,
        col: place.col,
        kind,
    }
}

fn push(found: &mut Vec<Token>, place: Place, kind: TokenKind) -> Result<(), NoMemory>
    ensures { OnOk result (found.new.items ≡ found.old.items ++ spec.token_at place kind ∷ []) }
{
    found.push(Token {
        line: place.line,
        col: place.col,
        kind,
    })?;
    Ok(())
}

/// Takes what stands first: how many bytes it has. A token joins those that were found.
fn take_lexeme(
    alloc: Global,
    found: &mut Vec<Token>,
    place: Place,
    text: &[u8],
) -> Result<usize, MachineFault>
    requires { 0 < length text.now }
    ensures within { IfOk result (λ len. (1 ≤ len) × (len ≤ length text.now)) }
    ensures ok { IfOk result (λ len. spec.prepend found.old.items (spec.cut place 0 text.now)
        ≡ spec.prepend found.new.items (spec.cut (past place (take len text.now)) 0 (drop len text.now))) }
    ensures err { IfErr result (λ fault. fault ≢ MachineFault.NoMemory
        → spec.cut place 0 text.now ≡ Err fault) }
{
    match first_lexeme(alloc, text)? {
        Lexeme::Gap { len } => Ok(len),
        Lexeme::Found { kind, len } => {
            push(found, place, kind)?;
            Ok(len)
        }
        Lexeme::Refused { kind } => Err(fault_at(place, kind)),
    }
}

/// Passes what stands first in a text that stands at the place: what is left, which stands at the place
/// then.
fn step<'a>(
    alloc: Global,
    found: &mut Vec<Token>,
    place: &mut Place,
    text: &'a [u8],
) -> Result<&'a [u8], MachineFault>
    requires some { 0 < length text.now }
    requires line { place.old.line + length text.now ≤ 65537 }
    requires col { place.old.col + length text.now ≤ 65537 }
    ensures ok { IfOk result (λ left. spec.prepend found.old.items (spec.cut place.old 0 text.now)
        ≡ spec.prepend found.new.items (spec.cut place.new 0 left.now)) }
    ensures less { IfOk result (λ left. length left.now < length text.now) }
    ensures line { IfOk result (λ left. place.new.line + length left.now ≤ 65537) }
    ensures col { IfOk result (λ left. place.new.col + length left.now ≤ 65537) }
    ensures err { IfErr result (λ fault. fault ≢ MachineFault.NoMemory
        → spec.cut place.old 0 text.now ≡ Err fault) }
{
    let len = take_lexeme(alloc, found, *place, text)?;
    let (read, left) = text.split_at(len);
    *place = place.past(read);
    Ok(left)
}

/// Cuts a text of at most 65,536 bytes into its tokens, the last of which is its end.
#[tactic(auto, using(crate::proofs::CutLemmas::cut_end), unfolding(crate::specs::Tokens::tokens))]
pub fn tokens(alloc: Global, text: &str) -> Result<Vec<Token>, MachineFault>
    ensures ok { IfOk result (λ found. spec.tokens text.now ≡ Ok found.items) }
    ensures err { IfErr result (λ fault. fault ≢ MachineFault.NoMemory → spec.tokens text.now ≡ Err fault) }
{
    if text.len() > MAX_TEXT {
        return Err(fault_at(START, MachineKind::Long));
    }
    let mut found = Vec::new(alloc);
    let mut place = START;
    let mut rest = text.as_bytes();
    while !rest.is_empty() {
        rest = step(alloc, &mut found, &mut place, rest)?;
    }
    push(&mut found, place, TokenKind::End)?;
    Ok(found)
}
