//! The operators, each on numbers that are there already.

ghost use Rattle.std.specs.Prelude.{◌≡◌, ℕ, pos, Some};
ghost use Rattle.nys_meaning.specs.Numbers as n;
ghost use Rattle.nys_meaning.specs.Exprs as m;

use nys_meaning::Value;
use nys_tree::{AddOp, Compare, MulOp};

/// One unit less, or a fault where none is left.
pub fn unit(left: u32) -> Option<u32>
    ensures { result ≡ m.unit left Some }
{
    left.checked_sub(1)
}

/// A truth as a value.
pub fn truth_value(holds: bool, left: u32) -> Value
    ensures { result ≡ m.value (n.truth holds) left }
{
    let number = if holds { 1 } else { 0 };
    Value { number, left }
}

/// Whether the value is 0.
pub fn is_zero(x: Value) -> bool
    ensures { result ≡ n.is_zero x.number }
{
    x.number == 0
}

/// A number of hosts, or of a host, as a value.
pub fn count_value(count: u32, left: u32) -> Value
    ensures { result ≡ m.value (pos count) left }
{
    let number = i64::from(count);
    Value { number, left }
}

/// The value as a truth.
pub fn as_truth(x: Value) -> Value
    ensures { m.as_truth x ≡ Some result }
{
    truth_value(!is_zero(x), x.left)
}

/// The value's opposite, as a truth.
pub fn opposite(x: Value) -> Value
    ensures { m.opposite x ≡ Some result }
{
    truth_value(is_zero(x), x.left)
}

/// The value's opposite, as a number.
#[tactic(auto, using(crate::proofs::Fits::checked_is))]
pub fn negated(x: Value) -> Option<Value>
    ensures { result ≡ m.negated x }
{
    let number = x.number.checked_neg()?;
    Some(Value {
        number,
        left: x.left,
    })
}

#[tactic(auto, using(crate::proofs::Fits::checked_is))]
fn added(op: AddOp, x: i64, y: i64) -> Option<i64>
    ensures { result ≡ n.added op x y }
{
    match op {
        AddOp::Plus => x.checked_add(y),
        AddOp::Minus => x.checked_sub(y),
    }
}

#[tactic(auto, using(crate::proofs::Fits::checked_is, crate::proofs::Fits::divided_is))]
fn multiplied(op: MulOp, x: i64, y: i64) -> Option<i64>
    ensures { result ≡ n.multiplied op x y }
{
    match op {
        MulOp::Times => x.checked_mul(y),
        MulOp::Over => x.checked_div(y),
        MulOp::Rest => x.checked_rem(y),
    }
}

/// A sum or a difference, with the units that the right side left.
pub fn sum_of(op: AddOp, x: Value, y: Value) -> Option<Value>
    ensures { result ≡ m.with_left y.left (n.added op x.number y.number) }
{
    let number = added(op, x.number, y.number)?;
    Some(Value {
        number,
        left: y.left,
    })
}

/// A product, a quotient or a remainder, with the units that the right side left.
pub fn product_of(op: MulOp, x: Value, y: Value) -> Option<Value>
    ensures { result ≡ m.with_left y.left (n.multiplied op x.number y.number) }
{
    let number = multiplied(op, x.number, y.number)?;
    Some(Value {
        number,
        left: y.left,
    })
}

fn compared(op: Compare, x: i64, y: i64) -> bool
    ensures { result ≡ n.compared op x y }
{
    match op {
        Compare::Equal => x == y,
        Compare::NotEqual => x != y,
        Compare::Less => x < y,
        Compare::LessEqual => x <= y,
        Compare::Greater => x > y,
        Compare::GreaterEqual => x >= y,
    }
}

/// A comparison as a truth, with the units that the right side left.
pub fn truth_of(op: Compare, x: Value, y: Value) -> Value
    ensures { result ≡ m.value (n.truth (n.compared op x.number y.number)) y.left }
{
    truth_value(compared(op, x.number, y.number), y.left)
}
