//! The rules of expressions: a function for each line of the grammar, over the tokens that are left.
//! `depth` is how many levels may still be opened. A level of operators is one loop, so the stack
//! depends on the levels alone.

ghost use Rattle.std.specs.Prelude.{◌≡◌, Ok, Err, MatchResult};
ghost use Rattle.nys_parse.specs.Parsing.{Reads};
ghost use Rattle.nys_parse.specs.Expressions as spec;

use crate::operator::{add_op, compare_op, mul_op};
use crate::reading::{
    behind, closed, deep, eat, expect, expected, is_number, name, number, refused, sees,
};
use nys_lex::{MachineFault, Token};
use nys_tree::{Both, Compare, Expr, Factor, Neg, Sum, Tail, Term, TermTail, Test};
use sqlite_items::{Boxed, Items};
use std::alloc::Global;

/// What a rule reads, and the tokens behind it.
pub type Read<'a, T> = Result<(T, &'a [Token]), MachineFault>;

/// An expression, from the token that opens its level on.
#[cycle(parse)]
fn inner_expr(alloc: Global, tokens: &[Token], depth: usize) -> Read<'_, Expr>
    ensures { Reads ((spec.deeper_of depth).expr tokens.now) result }
{
    if depth == 0 {
        return Err(deep(tokens));
    }
    expr(alloc, behind(tokens), depth - 1)
}

/// A factor, from the token that opens its level on.
#[cycle(parse)]
fn inner_factor(alloc: Global, tokens: &[Token], depth: usize) -> Read<'_, Factor>
    ensures { Reads ((spec.deeper_of depth).factor tokens.now) result }
{
    if depth == 0 {
        return Err(deep(tokens));
    }
    factor(alloc, behind(tokens), depth - 1)
}

/// A negation, from the token that opens its level on.
#[cycle(parse)]
fn inner_neg(alloc: Global, tokens: &[Token], depth: usize) -> Read<'_, Neg>
    ensures { Reads ((spec.deeper_of depth).neg tokens.now) result }
{
    if depth == 0 {
        return Err(deep(tokens));
    }
    neg(alloc, behind(tokens), depth - 1)
}

/// The token that opens a level.
fn level(tokens: &[Token], depth: usize) -> Result<&[Token], MachineFault>
    ensures { MatchResult result (λ rest. (spec.deeper_of depth).level tokens.now ≡ Ok (tt, rest.now))
        (λ fault. (spec.deeper_of depth).level tokens.now ≡ Err fault) }
{
    if depth == 0 {
        Err(deep(tokens))
    } else {
        Ok(behind(tokens))
    }
}

/// `"(" NAME ")"`, behind `len`.
#[tactic(auto, unfolding(crate::specs::Expressions::len_of))]
fn len_of(alloc: Global, tokens: &[Token], depth: usize) -> Read<'_, Factor>
    ensures { Reads (spec.len_of (spec.deeper_of depth) tokens.now) result }
{
    if !sees(tokens, "(") {
        return Err(expected(tokens));
    }
    let left = level(tokens, depth)?;
    let (list, left) = name(alloc, left)?;
    let left = expect(left, ")")?;
    Ok((Factor::Len(list), left))
}

/// `"[" expr "]"`
#[cycle(parse)]
#[tactic(auto, unfolding(crate::specs::Expressions::bracketed))]
pub fn bracketed(alloc: Global, tokens: &[Token], depth: usize) -> Read<'_, Expr>
    ensures { Reads (spec.bracketed (spec.deeper_of depth) tokens.now) result }
{
    let (found, left) = inner_expr(alloc, tokens, depth)?;
    closed(found, left, "]")
}

/// `NAME [ "[" expr "]" ]`
#[cycle(parse)]
#[tactic(auto, unfolding(crate::specs::Expressions::named))]
fn named(alloc: Global, tokens: &[Token], depth: usize) -> Read<'_, Factor>
    ensures { Reads (spec.named (spec.deeper_of depth) tokens.now) result }
{
    let (found, left) = name(alloc, tokens)?;
    if !sees(left, "[") {
        return Ok((Factor::Scalar(found), left));
    }
    match bracketed(alloc, left, depth) {
        Ok((index, left)) => Ok((Factor::Item(found, Boxed::new(alloc, index)?), left)),
        Err(fault) => Err(refused(found, fault)),
    }
}

/// `"(" expr ")"`
#[cycle(parse)]
#[tactic(auto, unfolding(crate::specs::Expressions::inner))]
fn inner(alloc: Global, tokens: &[Token], depth: usize) -> Read<'_, Factor>
    ensures { Reads (spec.inner (spec.deeper_of depth) tokens.now) result }
{
    let (whole, left) = inner_expr(alloc, tokens, depth)?;
    let (whole, left) = closed(whole, left, ")")?;
    Ok((Factor::Inner(Boxed::new(alloc, whole)?), left))
}

/// A factor that begins with no symbol and with no word.
#[cycle(parse)]
#[tactic(auto, unfolding(crate::specs::Expressions::plain))]
fn plain(alloc: Global, tokens: &[Token], depth: usize) -> Read<'_, Factor>
    ensures { Reads (spec.plain (spec.deeper_of depth) tokens.now) result }
{
    if is_number(tokens) {
        let (value, left) = number(tokens)?;
        return Ok((Factor::Number(value), left));
    }
    named(alloc, tokens, depth)
}

/// A factor.
#[cycle(parse)]
#[tactic(auto, unfolding(crate::specs::Expressions::factor))]
fn factor(alloc: Global, tokens: &[Token], depth: usize) -> Read<'_, Factor>
    ensures { Reads (spec.factor (spec.deeper_of depth) tokens.now) result }
{
    if sees(tokens, "-") {
        let (turned, left) = inner_factor(alloc, tokens, depth)?;
        return Ok((Factor::Minus(Boxed::new(alloc, turned)?), left));
    }
    if sees(tokens, "(") {
        return inner(alloc, tokens, depth);
    }
    if sees(tokens, "me") {
        return Ok((Factor::Me, behind(tokens)));
    }
    if sees(tokens, "hosts") {
        return Ok((Factor::Hosts, behind(tokens)));
    }
    if sees(tokens, "len") {
        return len_of(alloc, behind(tokens), depth);
    }
    plain(alloc, tokens, depth)
}

/// `( "*" | "/" | "%" ) factor`, where there is one.
#[cycle(parse)]
#[tactic(auto, unfolding(crate::specs::Expressions::next_factor))]
fn next_factor(alloc: Global, tokens: &[Token], depth: usize) -> Read<'_, Option<TermTail>>
    ensures { Reads (spec.next_factor (spec.deeper_of depth) tokens.now) result }
{
    let Some(op) = mul_op(tokens) else {
        return Ok((None, tokens));
    };
    let (factor, left) = factor(alloc, behind(tokens), depth)?;
    Ok((Some(TermTail { op, factor }), left))
}

/// `{ ( "*" | "/" | "%" ) factor }`
#[cycle(parse)]
fn factors(alloc: Global, tokens: &[Token], depth: usize) -> Read<'_, Items<TermTail>>
    ensures { Reads (spec.factors (spec.deeper_of depth) tokens.now) result }
{
    let mut found = Items::new(alloc);
    let mut left = tokens;
    for _turn in 0..tokens.len() {
        let (more, rest) = next_factor(alloc, left, depth)?;
        left = rest;
        match more {
            Some(tail) => found.push(tail)?,
            None => return Ok((found, left)),
        }
    }
    Ok((found, left))
}

/// `factor { ( "*" | "/" | "%" ) factor }`
#[cycle(parse)]
#[tactic(auto, unfolding(crate::specs::Expressions::term))]
fn term(alloc: Global, tokens: &[Token], depth: usize) -> Read<'_, Term>
    ensures { Reads (spec.term (spec.deeper_of depth) tokens.now) result }
{
    let (first, left) = factor(alloc, tokens, depth)?;
    match factors(alloc, left, depth) {
        Ok((rest, left)) => Ok((Term { first, rest }, left)),
        Err(fault) => Err(refused(first, fault)),
    }
}

/// `( "+" | "-" ) term`, where there is one.
#[cycle(parse)]
#[tactic(auto, unfolding(crate::specs::Expressions::next_term))]
fn next_term(alloc: Global, tokens: &[Token], depth: usize) -> Read<'_, Option<Tail>>
    ensures { Reads (spec.next_term (spec.deeper_of depth) tokens.now) result }
{
    let Some(op) = add_op(tokens) else {
        return Ok((None, tokens));
    };
    let (term, left) = term(alloc, behind(tokens), depth)?;
    Ok((Some(Tail { op, term }), left))
}

/// `{ ( "+" | "-" ) term }`
#[cycle(parse)]
fn terms(alloc: Global, tokens: &[Token], depth: usize) -> Read<'_, Items<Tail>>
    ensures { Reads (spec.terms (spec.deeper_of depth) tokens.now) result }
{
    let mut found = Items::new(alloc);
    let mut left = tokens;
    for _turn in 0..tokens.len() {
        let (more, rest) = next_term(alloc, left, depth)?;
        left = rest;
        match more {
            Some(tail) => found.push(tail)?,
            None => return Ok((found, left)),
        }
    }
    Ok((found, left))
}

/// `term { ( "+" | "-" ) term }`
#[cycle(parse)]
#[tactic(auto, unfolding(crate::specs::Expressions::sum))]
fn sum(alloc: Global, tokens: &[Token], depth: usize) -> Read<'_, Sum>
    ensures { Reads (spec.sum (spec.deeper_of depth) tokens.now) result }
{
    let (first, left) = term(alloc, tokens, depth)?;
    match terms(alloc, left, depth) {
        Ok((rest, left)) => Ok((Sum { first, rest }, left)),
        Err(fault) => Err(refused(first, fault)),
    }
}

/// A comparison and the sum behind it, where there is one.
#[cycle(parse)]
#[tactic(auto, unfolding(crate::specs::Expressions::next_sum))]
fn next_sum(alloc: Global, tokens: &[Token], depth: usize) -> Read<'_, Option<(Compare, Sum)>>
    ensures { Reads (spec.next_sum (spec.deeper_of depth) tokens.now) result }
{
    let Some(op) = compare_op(tokens) else {
        return Ok((None, tokens));
    };
    let (right, left) = sum(alloc, behind(tokens), depth)?;
    Ok((Some((op, right)), left))
}

/// A sum, or two sums that are compared.
#[cycle(parse)]
#[tactic(auto, unfolding(crate::specs::Expressions::comparison))]
fn test(alloc: Global, tokens: &[Token], depth: usize) -> Read<'_, Test>
    ensures { Reads (spec.comparison (spec.deeper_of depth) tokens.now) result }
{
    let (left, rest) = sum(alloc, tokens, depth)?;
    match next_sum(alloc, rest, depth) {
        Ok((right, rest)) => Ok((Test { left, right }, rest)),
        Err(fault) => Err(refused(left, fault)),
    }
}

/// `"not" neg | cmp`
#[cycle(parse)]
#[tactic(auto, unfolding(crate::specs::Expressions::neg))]
fn neg(alloc: Global, tokens: &[Token], depth: usize) -> Read<'_, Neg>
    ensures { Reads (spec.neg (spec.deeper_of depth) tokens.now) result }
{
    if sees(tokens, "not") {
        let (turned, left) = inner_neg(alloc, tokens, depth)?;
        return Ok((Neg::Not(Boxed::new(alloc, turned)?), left));
    }
    let (test, left) = test(alloc, tokens, depth)?;
    Ok((Neg::Plain(test), left))
}

/// `"and" neg`, where there is one.
#[cycle(parse)]
#[tactic(auto, unfolding(crate::specs::Expressions::next_neg))]
fn next_neg(alloc: Global, tokens: &[Token], depth: usize) -> Read<'_, Option<Neg>>
    ensures { Reads (spec.next_neg (spec.deeper_of depth) tokens.now) result }
{
    let Some(left) = eat(tokens, "and") else {
        return Ok((None, tokens));
    };
    let (neg, left) = neg(alloc, left, depth)?;
    Ok((Some(neg), left))
}

/// `{ "and" neg }`
#[cycle(parse)]
fn negs(alloc: Global, tokens: &[Token], depth: usize) -> Read<'_, Items<Neg>>
    ensures { Reads (spec.negs (spec.deeper_of depth) tokens.now) result }
{
    let mut found = Items::new(alloc);
    let mut left = tokens;
    for _turn in 0..tokens.len() {
        let (more, rest) = next_neg(alloc, left, depth)?;
        left = rest;
        match more {
            Some(neg) => found.push(neg)?,
            None => return Ok((found, left)),
        }
    }
    Ok((found, left))
}

/// `neg { "and" neg }`
#[cycle(parse)]
#[tactic(auto, unfolding(crate::specs::Expressions::both))]
fn both(alloc: Global, tokens: &[Token], depth: usize) -> Read<'_, Both>
    ensures { Reads (spec.both (spec.deeper_of depth) tokens.now) result }
{
    let (first, left) = neg(alloc, tokens, depth)?;
    match negs(alloc, left, depth) {
        Ok((rest, left)) => Ok((Both { first, rest }, left)),
        Err(fault) => Err(refused(first, fault)),
    }
}

/// `"or" both`, where there is one.
#[cycle(parse)]
#[tactic(auto, unfolding(crate::specs::Expressions::next_both))]
fn next_both(alloc: Global, tokens: &[Token], depth: usize) -> Read<'_, Option<Both>>
    ensures { Reads (spec.next_both (spec.deeper_of depth) tokens.now) result }
{
    let Some(left) = eat(tokens, "or") else {
        return Ok((None, tokens));
    };
    let (both, left) = both(alloc, left, depth)?;
    Ok((Some(both), left))
}

/// `{ "or" both }`
#[cycle(parse)]
fn boths(alloc: Global, tokens: &[Token], depth: usize) -> Read<'_, Items<Both>>
    ensures { Reads (spec.boths (spec.deeper_of depth) tokens.now) result }
{
    let mut found = Items::new(alloc);
    let mut left = tokens;
    for _turn in 0..tokens.len() {
        let (more, rest) = next_both(alloc, left, depth)?;
        left = rest;
        match more {
            Some(both) => found.push(both)?,
            None => return Ok((found, left)),
        }
    }
    Ok((found, left))
}

/// `both { "or" both }`
#[cycle(parse)]
#[tactic(auto, unfolding(crate::specs::Expressions::expr))]
pub fn expr(alloc: Global, tokens: &[Token], depth: usize) -> Read<'_, Expr>
    ensures { Reads (spec.expr (spec.deeper_of depth) tokens.now) result }
{
    let (first, left) = both(alloc, tokens, depth)?;
    match boths(alloc, left, depth) {
        Ok((rest, left)) => Ok((Expr { first, rest }, left)),
        Err(fault) => Err(refused(first, fault)),
    }
}
