//! Statements: a copy of the tree with a place at each name.

ghost use Rattle.std.specs.Prelude.{◌≡◌, ◌∷◌, map, OnOk, IfOk, IfSome, None};
ghost use Rattle.nys_tree.specs.Bindings.{fixed_of};
ghost use Rattle.nys_names.specs.Names.{Answers, IsNext, IsPlaced};
ghost use Rattle.nys_names.specs.Exprs.{expr};
ghost use Rattle.nys_names.specs.Stmts as spec;

use crate::bindings::{Bindings, Declared};
use crate::expression::expr;
use crate::naming::{new_name, refused, set_list, set_scalar};
use nys_lex::MachineFault;
use nys_tree::{Block, Branch, Else, Expr, Name, Stmt, Target, Values};
use sqlite_items::{Boxed, Items};
use std::alloc::Global;

/// A statement with a place at each of its names, and what it declares.
type Placed = (Stmt, Option<Declared>);

/// To whom a `send` goes.
fn target(alloc: Global, to: &Target, bindings: &Bindings) -> Result<Target, MachineFault>
    ensures { Answers (spec.target to.now bindings.now) result }
{
    match to {
        Target::All => Ok(Target::All),
        Target::Host(host) => Ok(Target::Host(expr(alloc, host, bindings)?)),
    }
}

#[tactic(auto, using(crate::proofs::ListLemmas::exprs_onto))]
fn exprs(alloc: Global, list: &[Expr], bindings: &Bindings) -> Result<Items<Expr>, MachineFault>
    ensures { Answers (spec.exprs list.now bindings.now) result }
{
    let mut found = Items::new(alloc);
    for next in list {
        let placed = expr(alloc, next, bindings)?;
        found.push(placed)?;
    }
    Ok(found)
}

/// The list of a `send` or an `out`.
fn values(alloc: Global, list: &Values, bindings: &Bindings) -> Result<Values, MachineFault>
    ensures { Answers (spec.values list.now bindings.now) result }
{
    let members = exprs(alloc, list.members.as_slice(), bindings)?;
    Ok(Values { members })
}

/// A `let`, and the name that it declares.
#[tactic(auto, using(crate::proofs::StmtEquations::stmt_let))]
fn declaration(
    alloc: Global,
    name: &Name,
    e: &Expr,
    bindings: &Bindings,
) -> Result<Placed, MachineFault>
    ensures placed { Answers (spec.stmt (Stmt.Let name.now e.now) bindings.now) result }
    ensures next { IfOk result (λ p. IfSome p.1 (λ d. IsNext d bindings.now)) }
{
    let name = new_name(alloc, 1, name, bindings)?;
    let declared = Declared::free(alloc, &name)?;
    match expr(alloc, e, bindings) {
        Ok(value) => Ok((Stmt::Let(name, value), Some(declared))),
        Err(fault) => Err(refused((name, declared), fault)),
    }
}

/// An assignment to a scalar.
#[tactic(auto, using(crate::proofs::StmtEquations::stmt_set))]
fn assignment(
    alloc: Global,
    name: &Name,
    e: &Expr,
    bindings: &Bindings,
) -> Result<Placed, MachineFault>
    ensures placed { Answers (spec.stmt (Stmt.Set name.now e.now) bindings.now) result }
    ensures none { IfOk result (λ p. p.1 ≡ None) }
{
    let name = set_scalar(alloc, name, bindings)?;
    match expr(alloc, e, bindings) {
        Ok(value) => Ok((Stmt::Set(name, value), None)),
        Err(fault) => Err(refused(name, fault)),
    }
}

/// An assignment to an item of a list.
#[tactic(auto, using(crate::proofs::StmtEquations::stmt_set_item))]
fn item_assignment(
    alloc: Global,
    name: &Name,
    i: &Expr,
    e: &Expr,
    bindings: &Bindings,
) -> Result<Placed, MachineFault>
    ensures placed { Answers (spec.stmt (Stmt.SetItem name.now i.now e.now) bindings.now) result }
    ensures none { IfOk result (λ p. p.1 ≡ None) }
{
    let name = set_list(alloc, name, bindings)?;
    let index = match expr(alloc, i, bindings) {
        Ok(index) => index,
        Err(fault) => return Err(refused(name, fault)),
    };
    match expr(alloc, e, bindings) {
        Ok(value) => Ok((Stmt::SetItem(name, index, value), None)),
        Err(fault) => Err(refused((name, index), fault)),
    }
}

/// A `send`.
#[tactic(auto, using(crate::proofs::StmtEquations::stmt_send))]
fn sending(
    alloc: Global,
    to: &Target,
    list: &Values,
    bindings: &Bindings,
) -> Result<Placed, MachineFault>
    ensures placed { Answers (spec.stmt (Stmt.Send to.now list.now) bindings.now) result }
    ensures none { IfOk result (λ p. p.1 ≡ None) }
{
    let to = target(alloc, to, bindings)?;
    match values(alloc, list, bindings) {
        Ok(list) => Ok((Stmt::Send(to, list), None)),
        Err(fault) => Err(refused(to, fault)),
    }
}

/// An `out`.
#[tactic(auto, using(crate::proofs::StmtEquations::stmt_out))]
fn output(alloc: Global, list: &Values, bindings: &Bindings) -> Result<Placed, MachineFault>
    ensures placed { Answers (spec.stmt (Stmt.Out list.now) bindings.now) result }
    ensures none { IfOk result (λ p. p.1 ≡ None) }
{
    let list = values(alloc, list, bindings)?;
    Ok((Stmt::Out(list), None))
}

/// The head of a `for`: its name, its first value and its bound.
fn loop_head(
    alloc: Global,
    name: &Name,
    a: &Expr,
    b: &Expr,
    bindings: &Bindings,
) -> Result<(Name, Expr, Expr), MachineFault>
    ensures placed { Answers (spec.loop_head name.now a.now b.now bindings.now) result }
    ensures new { IfOk result (λ head. IsPlaced 1 head.0 bindings.now) }
{
    let name = new_name(alloc, 1, name, bindings)?;
    let first = match expr(alloc, a, bindings) {
        Ok(first) => first,
        Err(fault) => return Err(refused(name, fault)),
    };
    match expr(alloc, b, bindings) {
        Ok(bound) => Ok((name, first, bound)),
        Err(fault) => Err(refused((name, first), fault)),
    }
}

/// A loop's block, which sees the loop's name.
#[cycle(place_block)]
fn loop_body(
    alloc: Global,
    name: &Name,
    body: &Block,
    bindings: &mut Bindings,
) -> Result<Block, MachineFault>
    requires new { IsPlaced 1 name.now bindings.old }
    ensures placed { Answers (spec.block body.now (fixed_of name.now ∷ bindings.old)) result }
    ensures same { OnOk result (bindings.new ≡ bindings.old) }
{
    let declared = Declared::fixed(alloc, name)?;
    within(alloc, declared, body, bindings)
}

/// An `each`.
#[cycle(place_block)]
#[tactic(auto, using(crate::proofs::StmtEquations::stmt_each))]
fn for_each(
    alloc: Global,
    name: &Name,
    body: &Block,
    bindings: &mut Bindings,
) -> Result<Placed, MachineFault>
    ensures placed { Answers (spec.stmt (Stmt.Each name.now body.now) bindings.old) result }
    ensures none { IfOk result (λ p. p.1 ≡ None) }
    ensures same { OnOk result (bindings.new ≡ bindings.old) }
{
    let name = new_name(alloc, 1, name, bindings)?;
    match loop_body(alloc, &name, body, bindings) {
        Ok(body) => Ok((Stmt::Each(name, body), None)),
        Err(fault) => Err(refused(name, fault)),
    }
}

/// An `if`.
#[cycle(place_block)]
#[tactic(auto, using(crate::proofs::StmtEquations::stmt_if))]
fn condition(alloc: Global, b: &Branch, bindings: &mut Bindings) -> Result<Placed, MachineFault>
    ensures placed { Answers (spec.stmt (Stmt.If b.now) bindings.old) result }
    ensures none { IfOk result (λ p. p.1 ≡ None) }
    ensures same { OnOk result (bindings.new ≡ bindings.old) }
{
    let placed = branch(alloc, b, bindings)?;
    Ok((Stmt::If(placed), None))
}

/// A statement, and what it declares. What is seen stays.
#[cycle(place_block)]
#[tactic(auto, using(crate::proofs::StmtEquations::stmt_loop))]
fn stmt(alloc: Global, s: &Stmt, bindings: &mut Bindings) -> Result<Placed, MachineFault>
    ensures placed { Answers (spec.stmt s.now bindings.old) result }
    ensures next { IfOk result (λ p. IfSome p.1 (λ d. IsNext d bindings.new)) }
    ensures same { OnOk result (bindings.new ≡ bindings.old) }
{
    match s {
        Stmt::Let(name, e) => declaration(alloc, name, e, bindings),
        Stmt::Set(name, e) => assignment(alloc, name, e, bindings),
        Stmt::SetItem(name, i, e) => item_assignment(alloc, name, i, e, bindings),
        Stmt::If(b) => condition(alloc, b, bindings),
        Stmt::For(name, a, b, body) => {
            let (name, first, bound) = loop_head(alloc, name, a, b, bindings)?;
            match loop_body(alloc, &name, body, bindings) {
                Ok(body) => Ok((Stmt::For(name, first, bound, body), None)),
                Err(fault) => Err(refused((name, first, bound), fault)),
            }
        }
        Stmt::Each(name, body) => for_each(alloc, name, body, bindings),
        Stmt::Send(to, list) => sending(alloc, to, list, bindings),
        Stmt::Out(list) => output(alloc, list, bindings),
    }
}

/// A block that sees one more name.
#[cycle(place_block)]
#[tactic(auto, using(crate::proofs::BindingLemmas::one_left))]
pub fn within(
    alloc: Global,
    declared: Declared,
    body: &Block,
    bindings: &mut Bindings,
) -> Result<Block, MachineFault>
    requires next { IsNext declared bindings.old }
    ensures placed { Answers (spec.block body.now (declared ∷ bindings.old)) result }
    ensures same { OnOk result (bindings.new ≡ bindings.old) }
{
    let before = bindings.len();
    bindings.push(declared)?;
    let placed = block(alloc, body, bindings)?;
    bindings.leave(before);
    Ok(placed)
}

/// Statements one by one, each seeing what those before it declared.
#[cycle(place_block)]
#[tactic(auto, using(crate::proofs::ListLemmas::stmts_onto_none, crate::proofs::BindingLemmas::behind_kept))]
fn stmts(alloc: Global, list: &[Stmt], bindings: &mut Bindings) -> Result<Items<Stmt>, MachineFault>
    ensures placed { Answers (spec.stmts_placed (map spec.stmt list.now) bindings.old) result }
    ensures same { OnOk result (bindings.new ≡ bindings.old) }
{
    let outer = bindings.len();
    let mut found = Items::new(alloc);
    for next in list {
        let (placed, declared) = stmt(alloc, next, bindings)?;
        found.push(placed)?;
        bindings.see(declared)?;
    }
    bindings.leave(outer);
    Ok(found)
}

/// A block: what it declares is seen in it alone.
#[cycle(place_block)]
#[tactic(auto, using(crate::proofs::StmtEquations::block_is))]
pub fn block(alloc: Global, b: &Block, bindings: &mut Bindings) -> Result<Block, MachineFault>
    ensures placed { Answers (spec.block b.now bindings.old) result }
    ensures same { OnOk result (bindings.new ≡ bindings.old) }
{
    let stmts = stmts(alloc, b.stmts.as_slice(), bindings)?;
    Ok(Block { stmts })
}

/// What stands behind an `if`'s block.
#[cycle(place_block)]
#[tactic(auto, using(crate::proofs::StmtEquations::other_absent, crate::proofs::StmtEquations::other_last, crate::proofs::StmtEquations::other_further))]
fn other(alloc: Global, o: &Else, bindings: &mut Bindings) -> Result<Else, MachineFault>
    ensures placed { Answers (spec.other o.now bindings.old) result }
    ensures same { OnOk result (bindings.new ≡ bindings.old) }
{
    match o {
        Else::Absent => Ok(Else::Absent),
        Else::Last(body) => {
            let body = block(alloc, body, bindings)?;
            Ok(Else::Last(body))
        }
        Else::Further(b) => {
            let further = branch(alloc, b.get(), bindings)?;
            Ok(Else::Further(Boxed::new(alloc, further)?))
        }
    }
}

/// One `if`.
#[cycle(place_block)]
#[tactic(auto, using(crate::proofs::StmtEquations::branch_is))]
fn branch(alloc: Global, b: &Branch, bindings: &mut Bindings) -> Result<Branch, MachineFault>
    ensures placed { Answers (spec.branch b.now bindings.old) result }
    ensures same { OnOk result (bindings.new ≡ bindings.old) }
{
    let test = expr(alloc, &b.test, bindings)?;
    let body = match block(alloc, &b.body, bindings) {
        Ok(body) => body,
        Err(fault) => return Err(refused(test, fault)),
    };
    match other(alloc, &b.other, bindings) {
        Ok(other) => Ok(Branch { test, body, other }),
        Err(fault) => Err(refused((test, body), fault)),
    }
}
