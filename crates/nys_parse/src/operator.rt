//! The operators of expressions.

ghost use Rattle.std.specs.Prelude.{◌≡◌};
ghost use Rattle.nys_parse.specs.Parsing.{spelling};
ghost use Rattle.nys_parse.specs.Expressions as spec;

use crate::reading::spelling;
use nys_lex::Token;
use nys_tree::{AddOp, Compare, MulOp};

/// The operator of a term that comes next.
pub fn mul_op(tokens: &[Token]) -> Option<MulOp>
    ensures { result ≡ spec.mul_op (spelling tokens.now) }
{
    match spelling(tokens).as_bytes() {
        b"*" => Some(MulOp::Times),
        b"/" => Some(MulOp::Over),
        b"%" => Some(MulOp::Rest),
        _ => None,
    }
}

/// The operator of a sum that comes next.
pub fn add_op(tokens: &[Token]) -> Option<AddOp>
    ensures { result ≡ spec.add_op (spelling tokens.now) }
{
    match spelling(tokens).as_bytes() {
        b"+" => Some(AddOp::Plus),
        b"-" => Some(AddOp::Minus),
        _ => None,
    }
}

/// The comparison that comes next.
pub fn compare_op(tokens: &[Token]) -> Option<Compare>
    ensures { result ≡ spec.compare_op (spelling tokens.now) }
{
    match spelling(tokens).as_bytes() {
        b"==" => Some(Compare::Equal),
        b"!=" => Some(Compare::NotEqual),
        b"<" => Some(Compare::Less),
        b"<=" => Some(Compare::LessEqual),
        b">" => Some(Compare::Greater),
        b">=" => Some(Compare::GreaterEqual),
        _ => None,
    }
}
