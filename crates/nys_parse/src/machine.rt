//! The rules of a whole machine.

ghost use Rattle.std.specs.Prelude.{◌≡◌, ◌≢◌, Ok, Err, IfOk, IfErr};
ghost use Rattle.nys_parse.specs.Parsing.{Reads};
ghost use Rattle.nys_parse.specs.Statements as spec;

use crate::expression::Read;
use crate::reading::{closed, eat, ends, expect, name, number, refused};
use crate::statement::block;
use nys_lex::{MachineFault, Token};
use nys_tree::{Block, Machine, OnInput, OnReceive, Var};
use sqlite_items::Items;
use std::alloc::Global;

/// The levels that a machine may open.
pub const MAX_DEPTH: usize = 64;

/// A handler's block.
#[tactic(auto, unfolding(crate::specs::Statements::body))]
fn body(alloc: Global, tokens: &[Token]) -> Read<'_, Block>
    ensures { Reads (spec.body tokens.now) result }
{
    block(alloc, tokens, MAX_DEPTH)
}

/// `[ "[" NUMBER "]" ]`
#[tactic(auto, unfolding(crate::specs::Statements::size))]
fn size(tokens: &[Token]) -> Read<'_, Option<i64>>
    ensures { Reads (spec.size tokens.now) result }
{
    let Some(left) = eat(tokens, "[") else {
        return Ok((None, tokens));
    };
    let (found, left) = number(left)?;
    let left = expect(left, "]")?;
    Ok((Some(found), left))
}

/// The opposite of a number; of a number that a text can write, it fits.
fn opposite(value: i64) -> i64
    ensures { result ≡ spec.opposite value }
{
    value.wrapping_neg()
}

/// `[ "-" ] NUMBER`
#[tactic(auto, unfolding(crate::specs::Statements::start))]
fn start(tokens: &[Token]) -> Read<'_, i64>
    ensures { Reads (spec.start tokens.now) result }
{
    let Some(left) = eat(tokens, "-") else {
        return number(tokens);
    };
    let (value, left) = number(left)?;
    Ok((opposite(value), left))
}

/// `NAME [ "[" NUMBER "]" ] "=" [ "-" ] NUMBER ";"`, behind `var`.
#[tactic(auto, unfolding(crate::specs::Statements::var))]
fn var(alloc: Global, tokens: &[Token]) -> Read<'_, Var>
    ensures { Reads (spec.var tokens.now) result }
{
    let (name, left) = name(alloc, tokens)?;
    let (size, left) = size(left)?;
    let (name, left) = closed(name, left, "=")?;
    let (start, left) = match start(left) {
        Ok(read) => read,
        Err(fault) => return Err(refused(name, fault)),
    };
    let (name, left) = closed(name, left, ";")?;
    Ok((Var { name, size, start }, left))
}

/// A variable, where there is one.
#[tactic(auto, unfolding(crate::specs::Statements::next_var))]
fn next_var(alloc: Global, tokens: &[Token]) -> Read<'_, Option<Var>>
    ensures { Reads (spec.next_var tokens.now) result }
{
    let Some(left) = eat(tokens, "var") else {
        return Ok((None, tokens));
    };
    let (found, left) = var(alloc, left)?;
    Ok((Some(found), left))
}

/// `{ var }`
fn vars(alloc: Global, tokens: &[Token]) -> Read<'_, Items<Var>>
    ensures { Reads (spec.vars tokens.now) result }
{
    let mut found = Items::new(alloc);
    let mut left = tokens;
    for _turn in 0..tokens.len() {
        let (more, rest) = next_var(alloc, left)?;
        left = rest;
        match more {
            Some(var) => found.push(var)?,
            None => return Ok((found, left)),
        }
    }
    Ok((found, left))
}

/// `"on" "input" NAME block`
#[tactic(auto, unfolding(crate::specs::Statements::on_input))]
fn on_input(alloc: Global, tokens: &[Token]) -> Read<'_, OnInput>
    ensures { Reads (spec.on_input tokens.now) result }
{
    let left = expect(tokens, "on")?;
    let left = expect(left, "input")?;
    let (payload, left) = name(alloc, left)?;
    let (body, left) = body(alloc, left)?;
    Ok((OnInput { payload, body }, left))
}

/// `"on" "receive" NAME NAME block`
#[tactic(auto, unfolding(crate::specs::Statements::on_receive))]
fn on_receive(alloc: Global, tokens: &[Token]) -> Read<'_, OnReceive>
    ensures { Reads (spec.on_receive tokens.now) result }
{
    let left = expect(tokens, "on")?;
    let left = expect(left, "receive")?;
    let (sender, left) = name(alloc, left)?;
    let (payload, left) = name(alloc, left)?;
    let (body, left) = body(alloc, left)?;
    Ok((
        OnReceive {
            sender,
            payload,
            body,
        },
        left,
    ))
}

/// A machine, and the end of its text.
#[tactic(auto, unfolding(crate::specs::Statements::machine))]
fn machine(alloc: Global, tokens: &[Token]) -> Read<'_, Machine>
    ensures { Reads (spec.machine tokens.now) result }
{
    let (vars, left) = vars(alloc, tokens)?;
    let (on_input, left) = match on_input(alloc, left) {
        Ok(read) => read,
        Err(fault) => return Err(refused(vars, fault)),
    };
    let (on_receive, left) = match on_receive(alloc, left) {
        Ok(read) => read,
        Err(fault) => return Err(refused((vars, on_input), fault)),
    };
    let machine = Machine {
        vars,
        on_input,
        on_receive,
    };
    match ends(left) {
        Ok(()) => Ok((machine, left)),
        Err(fault) => Err(refused(machine, fault)),
    }
}

/// The tree of a machine's tokens, which are as `tokens` gives them, or their first fault.
#[tactic(auto, unfolding(crate::specs::Statements::parse))]
pub fn parse(alloc: Global, tokens: &[Token]) -> Result<Machine, MachineFault>
    ensures ok { IfOk result (λ tree. spec.parse tokens.now ≡ Ok tree) }
    ensures err { IfErr result (λ fault. fault ≢ MachineFault.NoMemory → spec.parse tokens.now ≡ Err fault) }
{
    let (tree, _rest) = machine(alloc, tokens)?;
    Ok(tree)
}
