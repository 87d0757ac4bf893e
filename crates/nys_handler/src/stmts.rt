//! The walk over statements: a function for each line of the grammar.

ghost use Rattle.std.specs.Prelude.{◌≡◌, ◌+ℤ◌, ℕ, suc, pos, Some, int_lt, true, OnSome, IfSome};
ghost use Rattle.nys_source.specs.declared.effect.Effect.TheVariants as made;
ghost use Rattle.nys_meaning.specs.Stmts as s;
ghost use Rattle.nys_meaning.specs.Exprs as m;
ghost use Rattle.nys_places.specs.Cells.{by_place};
ghost use Rattle.nys_handler.specs.Does.{Does};

use crate::activation::Activation;
use crate::stop::Stop;
use nys_meaning::{Here, Value};
use nys_tree::{Block, Branch, Else, Expr, Name, Stmt, Target, Values};

/// Does the statements of a block, one by one.
#[cycle(block)]
#[tactic(auto, using(crate::proofs::ByPlace::block_is))]
pub fn block(b: &Block, here: &Here, activation: &mut Activation) -> Result<(), Stop>
    ensures { Does (s.block by_place here.now b.now activation.old) result activation.new }
{
    for next in b.stmts.as_slice() {
        stmt(next, here, activation)?;
    }
    Ok(())
}

/// Does a statement, behind the unit that it takes.
#[cycle(block)]
#[tactic(auto, using(crate::proofs::ByPlace::spent, nys_meaning::proofs::StmtEquations::stmt_is))]
fn stmt(it: &Stmt, here: &Here, activation: &mut Activation) -> Result<(), Stop>
    ensures { Does (s.stmt by_place here.now it.now activation.old) result activation.new }
{
    activation.spend()?;
    act(it, here, activation)
}

#[cycle(block)]
fn act(it: &Stmt, here: &Here, activation: &mut Activation) -> Result<(), Stop>
    ensures { Does (s.acts by_place here.now it.now activation.old) result activation.new }
{
    match it {
        Stmt::Let(name, e) => let_name(name, e, here, activation),
        Stmt::Set(name, e) => set(name, e, here, activation),
        Stmt::SetItem(name, at, e) => set_item(name, at, e, here, activation),
        Stmt::If(it) => branch(it, here, activation),
        Stmt::For(name, from, to, body) => {
            let from = activation.value(from, here)?;
            let to = activation.value(to, here)?;
            turns(name, from, to, body, here, activation)
        }
        Stmt::Each(name, body) => each(name, body, here, activation),
        Stmt::Send(to, list) => send(to, list, here, activation),
        Stmt::Out(list) => out(list, here, activation),
    }
}

fn let_name(name: &Name, e: &Expr, here: &Here, activation: &mut Activation) -> Result<(), Stop>
    ensures { Does (s.given by_place here.now e.now activation.old
        (λ z w. Some (record w { names = by_place.bind w.names name.now z }))) result activation.new }
{
    let value = activation.value(e, here)?;
    activation.bind(name, value)
}

fn set(name: &Name, e: &Expr, here: &Here, activation: &mut Activation) -> Result<(), Stop>
    ensures { Does (s.given by_place here.now e.now activation.old
        (λ z w. s.with_names w (by_place.set w.names name.now z))) result activation.new }
{
    let value = activation.value(e, here)?;
    activation.set(name, value)
}

fn set_item(
    name: &Name,
    at: &Expr,
    e: &Expr,
    here: &Here,
    activation: &mut Activation,
) -> Result<(), Stop>
    ensures { Does (s.given by_place here.now at.now activation.old
        (λ i v. s.given by_place here.now e.now v (λ z w. s.with_names w
        (by_place.set_item w.names name.now i z)))) result activation.new }
{
    let index = activation.value(at, here)?;
    let value = activation.value(e, here)?;
    activation.set_item(name, index, value)
}

fn out(list: &Values, here: &Here, activation: &mut Activation) -> Result<(), Stop>
    ensures { Does (s.list_given by_place here.now list.now.members activation.old
        (λ numbers w. s.with_effect w (made.Out numbers))) result activation.new }
{
    let payload = activation.payload(list, here)?;
    activation.out(payload)
}

fn send(to: &Target, list: &Values, here: &Here, activation: &mut Activation) -> Result<(), Stop>
    ensures { Does (s.send_to by_place here.now to.now list.now.members activation.old) result activation.new }
{
    match to {
        Target::All => {
            let payload = activation.payload(list, here)?;
            activation.send_all(here.near.as_slice(), &payload)
        }
        Target::Host(e) => {
            let host = activation.value(e, here)?;
            let payload = activation.payload(list, here)?;
            match neighbour(here, host) {
                Some(host) => activation.send(host, payload),
                None => Err(Stop::Fault),
            }
        }
    }
}

/// The neighbour of that number.
fn neighbour(here: &Here, host: Value) -> Option<u32>
    ensures { result ≡ s.neighbour here.now host.number }
{
    here.near
        .as_slice()
        .iter()
        .copied()
        .find(|near| i64::from(*near) == host.number)
}

#[cycle(block)]
#[tactic(auto, using(nys_meaning::proofs::StmtEquations::branch_is))]
fn branch(it: &Branch, here: &Here, activation: &mut Activation) -> Result<(), Stop>
    ensures { Does (s.branch by_place here.now it.now activation.old) result activation.new }
{
    let value = activation.value(&it.test, here)?;
    if value.number == 0 {
        other(&it.other, here, activation)
    } else {
        block(&it.body, here, activation)
    }
}

#[cycle(block)]
#[tactic(auto, using(crate::proofs::ByPlace::spent, nys_meaning::proofs::StmtEquations::other_absent, nys_meaning::proofs::StmtEquations::other_last, nys_meaning::proofs::StmtEquations::other_further))]
fn other(it: &Else, here: &Here, activation: &mut Activation) -> Result<(), Stop>
    ensures { Does (s.other by_place here.now it.now activation.old) result activation.new }
{
    match it {
        Else::Absent => Ok(()),
        Else::Last(body) => block(body, here, activation),
        Else::Further(it) => {
            activation.spend()?;
            branch(it.get(), here, activation)
        }
    }
}

/// One turn of a loop, its name bound.
#[cycle(block)]
#[tactic(auto, using(crate::proofs::ByPlace::spent, crate::proofs::ByPlace::turn_is))]
fn turn(
    name: &Name,
    value: Value,
    body: &Block,
    here: &Here,
    activation: &mut Activation,
) -> Result<(), Stop>
    ensures { Does (s.turn by_place here.now
        (s.block by_place here.now body.now) name.now value.number activation.old) result activation.new }
{
    activation.spend()?;
    activation.bind(name, value)?;
    block(body, here, activation)
}

/// Whether a `for` has a turn left.
fn is_less(at: Value, to: Value) -> bool
    ensures { result ≡ int_lt at.number to.number }
{
    at.number < to.number
}

/// The number behind one that is less than another.
fn next(at: Value, to: Value) -> Value
    requires { int_lt at.number to.number ≡ true }
    ensures { result.number ≡ at.number +ℤ pos 1 }
{
    Value {
        number: at.number + 1,
        left: at.left,
    }
}

/// The turns of a `for`. Each takes a unit, so there are at most as many as there are units.
#[tactic(auto, using(crate::proofs::Turns::one_turn, crate::proofs::Turns::no_turn, crate::proofs::Turns::turn_stops, crate::proofs::Turns::no_units))]
#[cycle(block)]
fn turns(
    name: &Name,
    from: Value,
    to: Value,
    body: &Block,
    here: &Here,
    activation: &mut Activation,
) -> Result<(), Stop>
    ensures { Does (s.loop by_place here.now (suc activation.old.left)
        (s.block by_place here.now body.now) name.now to.number from.number activation.old) result activation.new }
{
    let mut at = from;
    for _turn in 0..activation.left() as u64 + 1 {
        if !is_less(at, to) {
            return Ok(());
        }
        turn(name, at, body, here, activation)?;
        at = next(at, to);
    }
    Err(Stop::Fault)
}

/// `each`: one turn for each neighbour.
#[cycle(block)]
fn each(name: &Name, body: &Block, here: &Here, activation: &mut Activation) -> Result<(), Stop>
    ensures { Does (s.turns by_place here.now
        (s.block by_place here.now body.now) name.now here.now.near activation.old) result activation.new }
{
    for host in here.near.as_slice() {
        turn(name, host_value(*host), body, here, activation)?;
    }
    Ok(())
}

fn host_value(host: u32) -> Value
    ensures { result.number ≡ pos host }
{
    Value {
        number: i64::from(host),
        left: 0,
    }
}
