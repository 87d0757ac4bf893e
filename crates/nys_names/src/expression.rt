//! Expressions: a copy of the tree with a place at each name.

ghost use Rattle.std.specs.Prelude.{◌≡◌, map};
ghost use Rattle.nys_names.specs.Names.{Answers};
ghost use Rattle.nys_names.specs.Exprs as spec;

use crate::bindings::Bindings;
use crate::naming::{list, refused, scalar};
use nys_lex::MachineFault;
use nys_tree::{Both, Compare, Expr, Factor, Neg, Sum, Tail, Term, TermTail, Test};
use sqlite_items::{Boxed, Items};
use std::alloc::Global;

/// A factor.
#[cycle(place)]
fn factor(alloc: Global, e: &Factor, bindings: &Bindings) -> Result<Factor, MachineFault>
    ensures { Answers (spec.factor e.now bindings.now) result }
{
    match e {
        Factor::Minus(inner) => {
            let turned = factor(alloc, inner.get(), bindings)?;
            Ok(Factor::Minus(Boxed::new(alloc, turned)?))
        }
        Factor::Number(number) => Ok(Factor::Number(*number)),
        Factor::Me => Ok(Factor::Me),
        Factor::Hosts => Ok(Factor::Hosts),
        Factor::Len(name) => Ok(Factor::Len(list(alloc, name, bindings)?)),
        Factor::Scalar(name) => Ok(Factor::Scalar(scalar(alloc, name, bindings)?)),
        Factor::Item(name, index) => {
            let name = list(alloc, name, bindings)?;
            let index = expr(alloc, index.get(), bindings)?;
            Ok(Factor::Item(name, Boxed::new(alloc, index)?))
        }
        Factor::Inner(inner) => {
            let whole = expr(alloc, inner.get(), bindings)?;
            Ok(Factor::Inner(Boxed::new(alloc, whole)?))
        }
    }
}

/// A factor behind its operator.
#[cycle(place)]
#[tactic(auto, using(crate::proofs::ExprEquations::term_tail_is))]
fn term_tail(alloc: Global, e: &TermTail, bindings: &Bindings) -> Result<TermTail, MachineFault>
    ensures { Answers (spec.term_tail e.now bindings.now) result }
{
    let factor = factor(alloc, &e.factor, bindings)?;
    Ok(TermTail { op: e.op, factor })
}

#[cycle(place)]
#[tactic(auto, using(crate::proofs::ListLemmas::all_onto_none))]
fn term_tails(
    alloc: Global,
    list: &[TermTail],
    bindings: &Bindings,
) -> Result<Items<TermTail>, MachineFault>
    ensures { Answers (spec.all_placed (map spec.term_tail list.now) bindings.now) result }
{
    let mut found = Items::new(alloc);
    for next in list {
        let placed = term_tail(alloc, next, bindings)?;
        found.push(placed)?;
    }
    Ok(found)
}

/// Factors of a term.
#[cycle(place)]
#[tactic(auto, using(crate::proofs::ExprEquations::term_is))]
fn term(alloc: Global, e: &Term, bindings: &Bindings) -> Result<Term, MachineFault>
    ensures { Answers (spec.term e.now bindings.now) result }
{
    let first = factor(alloc, &e.first, bindings)?;
    match term_tails(alloc, e.rest.as_slice(), bindings) {
        Ok(rest) => Ok(Term { first, rest }),
        Err(fault) => Err(refused(first, fault)),
    }
}

/// A term behind its operator.
#[cycle(place)]
#[tactic(auto, using(crate::proofs::ExprEquations::tail_is))]
fn tail(alloc: Global, e: &Tail, bindings: &Bindings) -> Result<Tail, MachineFault>
    ensures { Answers (spec.tail e.now bindings.now) result }
{
    let term = term(alloc, &e.term, bindings)?;
    Ok(Tail { op: e.op, term })
}

#[cycle(place)]
#[tactic(auto, using(crate::proofs::ListLemmas::all_onto_none))]
fn tails(alloc: Global, list: &[Tail], bindings: &Bindings) -> Result<Items<Tail>, MachineFault>
    ensures { Answers (spec.all_placed (map spec.tail list.now) bindings.now) result }
{
    let mut found = Items::new(alloc);
    for next in list {
        let placed = tail(alloc, next, bindings)?;
        found.push(placed)?;
    }
    Ok(found)
}

/// Terms of a sum.
#[cycle(place)]
#[tactic(auto, using(crate::proofs::ExprEquations::sum_is))]
fn sum(alloc: Global, e: &Sum, bindings: &Bindings) -> Result<Sum, MachineFault>
    ensures { Answers (spec.sum e.now bindings.now) result }
{
    let first = term(alloc, &e.first, bindings)?;
    match tails(alloc, e.rest.as_slice(), bindings) {
        Ok(rest) => Ok(Sum { first, rest }),
        Err(fault) => Err(refused(first, fault)),
    }
}

/// The right side of a comparison, where there is one.
#[cycle(place)]
fn right(
    alloc: Global,
    right: &Option<(Compare, Sum)>,
    bindings: &Bindings,
) -> Result<Option<(Compare, Sum)>, MachineFault>
    ensures { Answers (spec.right right.now bindings.now) result }
{
    match right {
        None => Ok(None),
        Some((op, right)) => {
            let placed = sum(alloc, right, bindings)?;
            Ok(Some((*op, placed)))
        }
    }
}

/// A sum, or two sums that are compared.
#[cycle(place)]
#[tactic(auto, using(crate::proofs::ExprEquations::test_is))]
fn test(alloc: Global, e: &Test, bindings: &Bindings) -> Result<Test, MachineFault>
    ensures { Answers (spec.test e.now bindings.now) result }
{
    let left = sum(alloc, &e.left, bindings)?;
    match right(alloc, &e.right, bindings) {
        Ok(right) => Ok(Test { left, right }),
        Err(fault) => Err(refused(left, fault)),
    }
}

/// A comparison, or the opposite of a truth.
#[cycle(place)]
#[tactic(auto, using(crate::proofs::ExprEquations::neg_not, crate::proofs::ExprEquations::neg_plain))]
fn neg(alloc: Global, e: &Neg, bindings: &Bindings) -> Result<Neg, MachineFault>
    ensures { Answers (spec.neg e.now bindings.now) result }
{
    match e {
        Neg::Not(inner) => {
            let turned = neg(alloc, inner.get(), bindings)?;
            Ok(Neg::Not(Boxed::new(alloc, turned)?))
        }
        Neg::Plain(inner) => Ok(Neg::Plain(test(alloc, inner, bindings)?)),
    }
}

#[cycle(place)]
#[tactic(auto, using(crate::proofs::ListLemmas::all_onto_none))]
fn negs(alloc: Global, list: &[Neg], bindings: &Bindings) -> Result<Items<Neg>, MachineFault>
    ensures { Answers (spec.all_placed (map spec.neg list.now) bindings.now) result }
{
    let mut found = Items::new(alloc);
    for next in list {
        let placed = neg(alloc, next, bindings)?;
        found.push(placed)?;
    }
    Ok(found)
}

/// Operands of `and`.
#[cycle(place)]
#[tactic(auto, using(crate::proofs::ExprEquations::both_is))]
fn both(alloc: Global, e: &Both, bindings: &Bindings) -> Result<Both, MachineFault>
    ensures { Answers (spec.both e.now bindings.now) result }
{
    let first = neg(alloc, &e.first, bindings)?;
    match negs(alloc, e.rest.as_slice(), bindings) {
        Ok(rest) => Ok(Both { first, rest }),
        Err(fault) => Err(refused(first, fault)),
    }
}

#[cycle(place)]
#[tactic(auto, using(crate::proofs::ListLemmas::all_onto_none))]
fn boths(alloc: Global, list: &[Both], bindings: &Bindings) -> Result<Items<Both>, MachineFault>
    ensures { Answers (spec.all_placed (map spec.both list.now) bindings.now) result }
{
    let mut found = Items::new(alloc);
    for next in list {
        let placed = both(alloc, next, bindings)?;
        found.push(placed)?;
    }
    Ok(found)
}

/// Operands of `or`.
#[cycle(place)]
#[tactic(auto, using(crate::proofs::ExprEquations::expr_is))]
pub fn expr(alloc: Global, e: &Expr, bindings: &Bindings) -> Result<Expr, MachineFault>
    ensures { Answers (spec.expr e.now bindings.now) result }
{
    let first = both(alloc, &e.first, bindings)?;
    match boths(alloc, e.rest.as_slice(), bindings) {
        Ok(rest) => Ok(Expr { first, rest }),
        Err(fault) => Err(refused(first, fault)),
    }
}
