//! The walk: a function for each line of the grammar.

ghost use Rattle.std.specs.Prelude.{◌≡◌, Some};
ghost use Rattle.nys_meaning.specs.Exprs as m;
ghost use Rattle.nys_places.specs.Cells.{place_reads};

use crate::numbers::{
    as_truth, count_value, is_zero, negated, opposite, product_of, sum_of, truth_of, truth_value,
    unit,
};
use nys_meaning::{Here, Value};
use nys_places::Cells;
use nys_tree::{Both, Expr, Factor, Neg, Sum, Tail, Term, TermTail, Test};

/// What the expression gives at this host, with these names and these units; nothing after a fault.
#[cycle(walk)]
#[tactic(auto, using(nys_meaning::proofs::Equations::expr_is))]
pub fn expr(e: &Expr, here: &Here, cells: &Cells, left: u32) -> Option<Value>
    ensures { result ≡ m.expr place_reads here.now e.now cells.now left }
{
    let mut value = both(&e.first, here, cells, left)?;
    for next in e.rest.as_slice() {
        value = or_on(next, value, here, cells)?;
    }
    Some(value)
}

#[cycle(walk)]
fn or_on(right: &Both, x: Value, here: &Here, cells: &Cells) -> Option<Value>
    ensures { result ≡ m.or_on place_reads here.now cells.now (m.both place_reads here.now right.now) x }
{
    let left = unit(x.left)?;
    if is_zero(x) {
        let value = both(right, here, cells, left)?;
        Some(as_truth(value))
    } else {
        Some(truth_value(true, left))
    }
}

#[cycle(walk)]
#[tactic(auto, using(nys_meaning::proofs::Equations::both_is))]
fn both(e: &Both, here: &Here, cells: &Cells, left: u32) -> Option<Value>
    ensures { result ≡ m.both place_reads here.now e.now cells.now left }
{
    let mut value = neg(&e.first, here, cells, left)?;
    for next in e.rest.as_slice() {
        value = and_on(next, value, here, cells)?;
    }
    Some(value)
}

#[cycle(walk)]
fn and_on(right: &Neg, x: Value, here: &Here, cells: &Cells) -> Option<Value>
    ensures { result ≡ m.and_on place_reads here.now cells.now (m.neg place_reads here.now right.now) x }
{
    let left = unit(x.left)?;
    if is_zero(x) {
        Some(truth_value(false, left))
    } else {
        let value = neg(right, here, cells, left)?;
        Some(as_truth(value))
    }
}

#[cycle(walk)]
#[tactic(auto, using(nys_meaning::proofs::Equations::neg_not, nys_meaning::proofs::Equations::neg_plain))]
fn neg(e: &Neg, here: &Here, cells: &Cells, left: u32) -> Option<Value>
    ensures { result ≡ m.neg place_reads here.now e.now cells.now left }
{
    match e {
        Neg::Not(inner) => {
            let left = unit(left)?;
            let value = neg(inner.get(), here, cells, left)?;
            Some(opposite(value))
        }
        Neg::Plain(inner) => test(inner, here, cells, left),
    }
}

#[cycle(walk)]
#[tactic(auto, using(nys_meaning::proofs::Equations::test_is))]
fn test(e: &Test, here: &Here, cells: &Cells, left: u32) -> Option<Value>
    ensures { result ≡ m.test place_reads here.now e.now cells.now left }
{
    let x = sum(&e.left, here, cells, left)?;
    match &e.right {
        None => Some(x),
        Some((op, right)) => {
            let left = unit(x.left)?;
            let y = sum(right, here, cells, left)?;
            Some(truth_of(*op, x, y))
        }
    }
}

#[cycle(walk)]
#[tactic(auto, using(nys_meaning::proofs::Equations::sum_is))]
fn sum(e: &Sum, here: &Here, cells: &Cells, left: u32) -> Option<Value>
    ensures { result ≡ m.sum place_reads here.now e.now cells.now left }
{
    let mut value = term(&e.first, here, cells, left)?;
    for next in e.rest.as_slice() {
        value = tail(next, value, here, cells)?;
    }
    Some(value)
}

#[cycle(walk)]
#[tactic(auto, using(nys_meaning::proofs::Equations::tail_is))]
fn tail(e: &Tail, x: Value, here: &Here, cells: &Cells) -> Option<Value>
    ensures { result ≡ m.tail place_reads here.now e.now cells.now x }
{
    let left = unit(x.left)?;
    let y = term(&e.term, here, cells, left)?;
    sum_of(e.op, x, y)
}

#[cycle(walk)]
#[tactic(auto, using(nys_meaning::proofs::Equations::term_is))]
fn term(e: &Term, here: &Here, cells: &Cells, left: u32) -> Option<Value>
    ensures { result ≡ m.term place_reads here.now e.now cells.now left }
{
    let mut value = factor(&e.first, here, cells, left)?;
    for next in e.rest.as_slice() {
        value = term_tail(next, value, here, cells)?;
    }
    Some(value)
}

#[cycle(walk)]
#[tactic(auto, using(nys_meaning::proofs::Equations::term_tail_is))]
fn term_tail(e: &TermTail, x: Value, here: &Here, cells: &Cells) -> Option<Value>
    ensures { result ≡ m.term_tail place_reads here.now e.now cells.now x }
{
    let left = unit(x.left)?;
    let y = factor(&e.factor, here, cells, left)?;
    product_of(e.op, x, y)
}

#[cycle(walk)]
fn factor(e: &Factor, here: &Here, cells: &Cells, left: u32) -> Option<Value>
    ensures { result ≡ m.factor place_reads here.now e.now cells.now left }
{
    match e {
        Factor::Minus(inner) => {
            let value = factor(inner.get(), here, cells, unit(left)?)?;
            negated(value)
        }
        Factor::Number(number) => Some(Value {
            number: *number,
            left: unit(left)?,
        }),
        Factor::Me => Some(count_value(here.me, unit(left)?)),
        Factor::Hosts => Some(count_value(here.hosts, unit(left)?)),
        Factor::Len(name) => cells.len(name, unit(left)?),
        Factor::Scalar(name) => cells.scalar(name, unit(left)?),
        Factor::Item(name, index) => {
            let at = expr(index.get(), here, cells, unit(left)?)?;
            cells.item(name, at)
        }
        Factor::Inner(inner) => expr(inner.get(), here, cells, left),
    }
}
