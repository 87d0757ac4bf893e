//! A whole machine: its variables, then its handlers.

ghost use Rattle.std.specs.Prelude.{◌≡◌, [], ◌∷◌, ◌≤◌, ◌≢◌, true, false, Ok, Err, OnOk, IfOk, IfErr, IfSome, IfNone, MatchResult, min, unwrap_or, Some};
ghost use Rattle.nys_tree.specs.Named.{MAX_STATE as MOST, is_named, size_of, var_of};
ghost use Rattle.nys_tree.specs.Bindings.{top};
ghost use Rattle.nys_names.specs.Names.{Answers, IsNext};
ghost use Rattle.nys_names.specs.Stmts as spec;

use crate::bindings::{Bindings, Declared};
use crate::naming::{fault_at, name_at, new_name, refused};
use crate::statement::within;
use nys_lex::{MachineFault, MachineKind};
use nys_named::Named;
use nys_tree::{Machine, OnInput, OnReceive, Var};
use sqlite_items::Items;
use std::alloc::Global;

/// The most numbers of a state.
pub const MAX_STATE: u32 = 256;

/// How many numbers are written in brackets: none below 0, and one too many for all that are too many.
fn capped(size: i64) -> u32
    ensures { result ≡ min (unwrap_or (size_of (Some size)) 0) 257 }
{
    if size < 0 {
        return 0;
    }
    if size > 256 {
        return 257;
    }
    size as u32
}

/// How many numbers the variable has, where there are some, and room for them from this place on.
fn numbers(v: &Var, place: usize) -> Option<u32>
    ensures fits { IfSome result (λ len. len ≡ spec.numbers v.now) }
    ensures some { IfSome result (λ _. spec.has_room v.now place ≡ true) }
    ensures none { IfNone result (spec.has_room v.now place ≡ false) }
{
    let len = match v.size {
        None => 1,
        Some(size) => capped(size),
    };
    if len == 0 {
        return None;
    }
    if len > MAX_STATE {
        return None;
    }
    if place > (MAX_STATE - len) as usize {
        return None;
    }
    Some(len)
}

/// A variable, and what it declares: its name is tested before its size.
#[tactic(auto, unfolding(crate::specs::Stmts::var, crate::specs::Names::new_name))]
fn var(alloc: Global, v: &Var, bindings: &Bindings) -> Result<(Var, Declared), MachineFault>
    ensures placed { IfOk result (λ p. spec.var v.now bindings.now ≡ Ok p.0) }
    ensures declared { IfOk result (λ p. p.1 ≡ var_of p.0 (spec.numbers p.0)) }
    ensures next { IfOk result (λ p. IsNext p.1 bindings.now) }
    ensures few { IfOk result (λ p. top (p.1 ∷ bindings.now) ≤ MOST) }
    ensures err { IfErr result (λ fault. fault ≢ MachineFault.NoMemory
        → spec.var v.now bindings.now ≡ Err fault) }
{
    let place = bindings.top();
    if let Some(_earlier) = bindings.find(v.name.text.as_slice()) {
        return Err(fault_at(MachineKind::Doubled, &v.name));
    }
    let Some(len) = numbers(v, place) else {
        return Err(fault_at(MachineKind::Size, &v.name));
    };
    let name = name_at(alloc, &v.name, place, len)?;
    let declared = Declared::variable(alloc, &name, len, v.size.is_some())?;
    let placed = Var {
        name,
        size: v.size,
        start: v.start,
    };
    Ok((placed, declared))
}

/// The variables, which are seen then.
#[tactic(auto, using(crate::proofs::ListLemmas::vars_onto_none))]
fn vars(alloc: Global, list: &[Var], bindings: &mut Bindings) -> Result<Items<Var>, MachineFault>
    requires few { top bindings.old ≤ MOST }
    ensures placed { IfOk result (λ found. spec.vars list.now bindings.old ≡ Ok (found, bindings.new)) }
    ensures few { OnOk result (top bindings.new ≤ MOST) }
    ensures err { IfErr result (λ fault. fault ≢ MachineFault.NoMemory
        → spec.vars list.now bindings.old ≡ Err fault) }
{
    let mut found = Items::new(alloc);
    for next in list {
        let (placed, declared) = var(alloc, next, bindings)?;
        found.push(placed)?;
        bindings.push(declared)?;
    }
    Ok(found)
}

/// The handler of inputs.
#[tactic(auto, unfolding(crate::specs::Stmts::on_input))]
fn on_input(alloc: Global, i: &OnInput, bindings: &mut Bindings) -> Result<OnInput, MachineFault>
    requires few { top bindings.old ≤ MOST }
    ensures placed { Answers (spec.on_input i.now bindings.old) result }
    ensures same { OnOk result (bindings.new ≡ bindings.old) }
{
    let payload = new_name(alloc, 0, &i.payload, bindings)?;
    let declared = Declared::payload(alloc, &payload)?;
    match within(alloc, declared, &i.body, bindings) {
        Ok(body) => Ok(OnInput { payload, body }),
        Err(fault) => Err(refused(payload, fault)),
    }
}

/// The handler of messages: its sender is declared before its payload.
#[tactic(auto, unfolding(crate::specs::Stmts::on_receive))]
fn on_receive(
    alloc: Global,
    r: &OnReceive,
    bindings: &mut Bindings,
) -> Result<OnReceive, MachineFault>
    requires few { top bindings.old ≤ MOST }
    ensures { Answers (spec.on_receive r.now bindings.old) result }
{
    let sender = new_name(alloc, 1, &r.sender, bindings)?;
    bindings.push(Declared::fixed(alloc, &sender)?)?;
    let payload = new_name(alloc, 0, &r.payload, bindings)?;
    let declared = Declared::payload(alloc, &payload)?;
    match within(alloc, declared, &r.body, bindings) {
        Ok(body) => Ok(OnReceive {
            sender,
            payload,
            body,
        }),
        Err(fault) => Err(refused((sender, payload), fault)),
    }
}

/// The machine with a place at each of its names, where none is seen before it.
#[tactic(auto, unfolding(crate::specs::Stmts::check))]
fn placed(
    alloc: Global,
    machine: &Machine,
    bindings: &mut Bindings,
) -> Result<Machine, MachineFault>
    requires { bindings.old ≡ [] }
    ensures { Answers (spec.check machine.now) result }
{
    let vars = vars(alloc, machine.vars.as_slice(), bindings)?;
    let on_input = match on_input(alloc, &machine.on_input, bindings) {
        Ok(placed) => placed,
        Err(fault) => return Err(refused(vars, fault)),
    };
    match on_receive(alloc, &machine.on_receive, bindings) {
        Ok(on_receive) => Ok(Machine {
            vars,
            on_input,
            on_receive,
        }),
        Err(fault) => Err(refused((vars, on_input), fault)),
    }
}

/// Tests the names of a machine in the order of its text, and gives each its place; or the first fault.
#[tactic(auto, using(crate::proofs::StmtsNamed::check_ok))]
pub fn check_names(alloc: Global, machine: Machine) -> Result<Named, MachineFault>
    ensures ok { IfOk result (λ n. spec.check machine ≡ Ok n.tree) }
    ensures named { IfOk result (λ n. is_named n.tree ≡ true) }
    ensures err { IfErr result (λ fault. fault ≢ MachineFault.NoMemory → spec.check machine ≡ Err fault) }
{
    let mut bindings = Bindings::new(alloc);
    let placed = placed(alloc, &machine, &mut bindings);
    drop(bindings);
    drop(machine);
    Ok(Named::new(placed?))
}
