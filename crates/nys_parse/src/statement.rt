//! The rules of statements: a function for each line of the grammar, over the tokens that are left.
//! `depth` is how many levels may still be opened.

ghost use Rattle.std.specs.Prelude.{◌≡◌};
ghost use Rattle.nys_parse.specs.Parsing.{Reads};
ghost use Rattle.nys_parse.specs.Expressions.{deeper_of};
ghost use Rattle.nys_parse.specs.Statements as spec;

use crate::expression::{Read, bracketed, expr};
use crate::reading::{behind, closed, deep, eat, expect, expected, name, refused, sees};
use nys_lex::Token;
use nys_tree::{Block, Branch, Else, Expr, MAX_MEMBERS, Name, Stmt, Target, Values};
use sqlite_items::{Boxed, Items};
use std::alloc::Global;

/// `"=" expr ";"`
#[tactic(auto, unfolding(crate::specs::Statements::value))]
fn value(alloc: Global, tokens: &[Token], depth: usize) -> Read<'_, Expr>
    ensures { Reads (spec.value (deeper_of depth) (spec.nested_of depth) tokens.now) result }
{
    let left = expect(tokens, "=")?;
    let (found, left) = expr(alloc, left, depth)?;
    closed(found, left, ";")
}

/// `"," expr`, where there is one.
#[tactic(auto, unfolding(crate::specs::Statements::next_member))]
fn next_member(alloc: Global, tokens: &[Token], depth: usize) -> Read<'_, Option<Expr>>
    ensures { Reads (spec.next_member (deeper_of depth) (spec.nested_of depth) tokens.now) result }
{
    let Some(left) = eat(tokens, ",") else {
        return Ok((None, tokens));
    };
    let (member, left) = expr(alloc, left, depth)?;
    Ok((Some(member), left))
}

/// 1 to `MAX_MEMBERS` members.
fn members(alloc: Global, tokens: &[Token], depth: usize) -> Read<'_, Items<Expr>>
    ensures { Reads (spec.members (deeper_of depth) (spec.nested_of depth) tokens.now) result }
{
    let (first, mut left) = expr(alloc, tokens, depth)?;
    let mut found = Items::new(alloc);
    found.push(first)?;
    for _turn in 1..MAX_MEMBERS {
        let (more, rest) = next_member(alloc, left, depth)?;
        left = rest;
        match more {
            Some(member) => found.push(member)?,
            None => return Ok((found, left)),
        }
    }
    Ok((found, left))
}

/// `expr { "," expr }`, 1 to `MAX_MEMBERS`.
#[tactic(auto, unfolding(crate::specs::Statements::list))]
fn list(alloc: Global, tokens: &[Token], depth: usize) -> Read<'_, Values>
    ensures { Reads (spec.list (deeper_of depth) (spec.nested_of depth) tokens.now) result }
{
    let (members, left) = members(alloc, tokens, depth)?;
    if let Some(one_more) = eat(left, ",") {
        return Err(refused(members, expected(one_more)));
    }
    Ok((Values { members }, left))
}

/// `"all" | expr`
#[tactic(auto, unfolding(crate::specs::Statements::target))]
fn target(alloc: Global, tokens: &[Token], depth: usize) -> Read<'_, Target>
    ensures { Reads (spec.target (deeper_of depth) (spec.nested_of depth) tokens.now) result }
{
    if let Some(left) = eat(tokens, "all") {
        return Ok((Target::All, left));
    }
    let (host, left) = expr(alloc, tokens, depth)?;
    Ok((Target::Host(host), left))
}

/// `NAME "=" expr ";"`, behind `let`.
#[tactic(auto, unfolding(crate::specs::Statements::let_stmt))]
fn let_stmt(alloc: Global, tokens: &[Token], depth: usize) -> Read<'_, Stmt>
    ensures { Reads (spec.let_stmt (deeper_of depth) (spec.nested_of depth) tokens.now) result }
{
    let (found, left) = name(alloc, tokens)?;
    match value(alloc, left, depth) {
        Ok((value, left)) => Ok((Stmt::Let(found, value), left)),
        Err(fault) => Err(refused(found, fault)),
    }
}

/// `"[" expr "]" "=" expr ";"`, behind the name.
#[tactic(auto, unfolding(crate::specs::Statements::item_stmt))]
fn item_stmt(alloc: Global, found: Name, tokens: &[Token], depth: usize) -> Read<'_, Stmt>
    ensures { Reads (spec.item_stmt (deeper_of depth) (spec.nested_of depth) found tokens.now) result }
{
    let (index, left) = match bracketed(alloc, tokens, depth) {
        Ok(read) => read,
        Err(fault) => return Err(refused(found, fault)),
    };
    match value(alloc, left, depth) {
        Ok((value, left)) => Ok((Stmt::SetItem(found, index, value), left)),
        Err(fault) => Err(refused((found, index), fault)),
    }
}

/// `NAME [ "[" expr "]" ] "=" expr ";"`
#[tactic(auto, unfolding(crate::specs::Statements::set_stmt))]
fn set_stmt(alloc: Global, tokens: &[Token], depth: usize) -> Read<'_, Stmt>
    ensures { Reads (spec.set_stmt (deeper_of depth) (spec.nested_of depth) tokens.now) result }
{
    let (found, left) = name(alloc, tokens)?;
    if sees(left, "[") {
        return item_stmt(alloc, found, left, depth);
    }
    match value(alloc, left, depth) {
        Ok((value, left)) => Ok((Stmt::Set(found, value), left)),
        Err(fault) => Err(refused(found, fault)),
    }
}

/// `( "all" | expr ) ":" list ";"`, behind `send`.
#[tactic(auto, unfolding(crate::specs::Statements::send_stmt))]
fn send_stmt(alloc: Global, tokens: &[Token], depth: usize) -> Read<'_, Stmt>
    ensures { Reads (spec.send_stmt (deeper_of depth) (spec.nested_of depth) tokens.now) result }
{
    let (to, left) = target(alloc, tokens, depth)?;
    let (to, left) = closed(to, left, ":")?;
    let (found, left) = match list(alloc, left, depth) {
        Ok(read) => read,
        Err(fault) => return Err(refused(to, fault)),
    };
    let ((to, found), left) = closed((to, found), left, ";")?;
    Ok((Stmt::Send(to, found), left))
}

/// `list ";"`, behind `out`.
#[tactic(auto, unfolding(crate::specs::Statements::out_stmt))]
fn out_stmt(alloc: Global, tokens: &[Token], depth: usize) -> Read<'_, Stmt>
    ensures { Reads (spec.out_stmt (deeper_of depth) (spec.nested_of depth) tokens.now) result }
{
    let (found, left) = list(alloc, tokens, depth)?;
    let (found, left) = closed(found, left, ";")?;
    Ok((Stmt::Out(found), left))
}

/// A block, from its `{` on.
#[cycle(parse_block)]
fn inner_block(alloc: Global, tokens: &[Token], depth: usize) -> Read<'_, Block>
    ensures { Reads ((spec.nested_of depth).block tokens.now) result }
{
    if depth == 0 {
        return Err(deep(tokens));
    }
    braced(alloc, behind(tokens), depth - 1)
}

/// The `if` behind an `else`, from its `if` on.
#[cycle(parse_block)]
fn inner_branch(alloc: Global, tokens: &[Token], depth: usize) -> Read<'_, Branch>
    ensures { Reads ((spec.nested_of depth).branch tokens.now) result }
{
    if depth == 0 {
        return Err(deep(tokens));
    }
    branch(alloc, behind(tokens), depth - 1)
}

/// `"{" { stmt } "}"`
#[cycle(parse_block)]
#[tactic(auto, unfolding(crate::specs::Statements::block))]
pub fn block(alloc: Global, tokens: &[Token], depth: usize) -> Read<'_, Block>
    ensures { Reads (spec.block (deeper_of depth) (spec.nested_of depth) tokens.now) result }
{
    if !sees(tokens, "{") {
        return Err(expected(tokens));
    }
    inner_block(alloc, tokens, depth)
}

/// `"from" expr "to" expr`
#[tactic(auto, unfolding(crate::specs::Statements::range))]
fn range(alloc: Global, tokens: &[Token], depth: usize) -> Read<'_, (Expr, Expr)>
    ensures { Reads (spec.range (deeper_of depth) (spec.nested_of depth) tokens.now) result }
{
    let left = expect(tokens, "from")?;
    let (first, left) = expr(alloc, left, depth)?;
    let (first, left) = closed(first, left, "to")?;
    match expr(alloc, left, depth) {
        Ok((bound, left)) => Ok(((first, bound), left)),
        Err(fault) => Err(refused(first, fault)),
    }
}

/// `NAME "from" expr "to" expr block`, behind `for`.
#[cycle(parse_block)]
#[tactic(auto, unfolding(crate::specs::Statements::for_stmt))]
fn for_stmt(alloc: Global, tokens: &[Token], depth: usize) -> Read<'_, Stmt>
    ensures { Reads (spec.for_stmt (deeper_of depth) (spec.nested_of depth) tokens.now) result }
{
    let (found, left) = name(alloc, tokens)?;
    let ((first, bound), left) = match range(alloc, left, depth) {
        Ok(read) => read,
        Err(fault) => return Err(refused(found, fault)),
    };
    match block(alloc, left, depth) {
        Ok((body, left)) => Ok((Stmt::For(found, first, bound, body), left)),
        Err(fault) => Err(refused((found, first, bound), fault)),
    }
}

/// `NAME block`, behind `each`.
#[cycle(parse_block)]
#[tactic(auto, unfolding(crate::specs::Statements::each_stmt))]
fn each_stmt(alloc: Global, tokens: &[Token], depth: usize) -> Read<'_, Stmt>
    ensures { Reads (spec.each_stmt (deeper_of depth) (spec.nested_of depth) tokens.now) result }
{
    let (found, left) = name(alloc, tokens)?;
    match block(alloc, left, depth) {
        Ok((body, left)) => Ok((Stmt::Each(found, body), left)),
        Err(fault) => Err(refused(found, fault)),
    }
}

/// `block | if`, behind `else`.
#[cycle(parse_block)]
#[tactic(auto, unfolding(crate::specs::Statements::behind_else))]
fn behind_else(alloc: Global, tokens: &[Token], depth: usize) -> Read<'_, Else>
    ensures { Reads (spec.behind_else (deeper_of depth) (spec.nested_of depth) tokens.now) result }
{
    if sees(tokens, "if") {
        let (further, left) = inner_branch(alloc, tokens, depth)?;
        return Ok((Else::Further(Boxed::new(alloc, further)?), left));
    }
    let (last, left) = block(alloc, tokens, depth)?;
    Ok((Else::Last(last), left))
}

/// `[ "else" ( block | if ) ]`
#[cycle(parse_block)]
#[tactic(auto, unfolding(crate::specs::Statements::other))]
fn other(alloc: Global, tokens: &[Token], depth: usize) -> Read<'_, Else>
    ensures { Reads (spec.other (deeper_of depth) (spec.nested_of depth) tokens.now) result }
{
    match eat(tokens, "else") {
        Some(left) => behind_else(alloc, left, depth),
        None => Ok((Else::Absent, tokens)),
    }
}

/// `expr block [ "else" ( block | if ) ]`, behind `if`.
#[cycle(parse_block)]
#[tactic(auto, unfolding(crate::specs::Statements::branch))]
fn branch(alloc: Global, tokens: &[Token], depth: usize) -> Read<'_, Branch>
    ensures { Reads (spec.branch (deeper_of depth) (spec.nested_of depth) tokens.now) result }
{
    let (test, left) = expr(alloc, tokens, depth)?;
    let (body, left) = match block(alloc, left, depth) {
        Ok(read) => read,
        Err(fault) => return Err(refused(test, fault)),
    };
    match other(alloc, left, depth) {
        Ok((other, left)) => Ok((Branch { test, body, other }, left)),
        Err(fault) => Err(refused((test, body), fault)),
    }
}

/// A statement, by its first token.
#[cycle(parse_block)]
#[tactic(auto, unfolding(crate::specs::Statements::stmt))]
fn stmt(alloc: Global, tokens: &[Token], depth: usize) -> Read<'_, Stmt>
    ensures { Reads (spec.stmt (deeper_of depth) (spec.nested_of depth) tokens.now) result }
{
    if sees(tokens, "let") {
        return let_stmt(alloc, behind(tokens), depth);
    }
    if sees(tokens, "if") {
        let (found, left) = branch(alloc, behind(tokens), depth)?;
        return Ok((Stmt::If(found), left));
    }
    if sees(tokens, "for") {
        return for_stmt(alloc, behind(tokens), depth);
    }
    if sees(tokens, "each") {
        return each_stmt(alloc, behind(tokens), depth);
    }
    if sees(tokens, "send") {
        return send_stmt(alloc, behind(tokens), depth);
    }
    if sees(tokens, "out") {
        return out_stmt(alloc, behind(tokens), depth);
    }
    set_stmt(alloc, tokens, depth)
}

/// A statement, where the block doesn't end.
#[cycle(parse_block)]
#[tactic(auto, unfolding(crate::specs::Statements::next_stmt))]
fn next_stmt(alloc: Global, tokens: &[Token], depth: usize) -> Read<'_, Option<Stmt>>
    ensures { Reads (spec.next_stmt (deeper_of depth) (spec.nested_of depth) tokens.now) result }
{
    if sees(tokens, "}") {
        return Ok((None, tokens));
    }
    let (found, left) = stmt(alloc, tokens, depth)?;
    Ok((Some(found), left))
}

/// `{ stmt }`
#[cycle(parse_block)]
fn stmts(alloc: Global, tokens: &[Token], depth: usize) -> Read<'_, Items<Stmt>>
    ensures { Reads (spec.stmts (deeper_of depth) (spec.nested_of depth) tokens.now) result }
{
    let mut found = Items::new(alloc);
    let mut left = tokens;
    for _turn in 0..tokens.len() {
        let (more, rest) = next_stmt(alloc, left, depth)?;
        left = rest;
        match more {
            Some(stmt) => found.push(stmt)?,
            None => return Ok((found, left)),
        }
    }
    Ok((found, left))
}

/// `{ stmt } "}"`, behind `{`.
#[cycle(parse_block)]
#[tactic(auto, unfolding(crate::specs::Statements::braced))]
fn braced(alloc: Global, tokens: &[Token], depth: usize) -> Read<'_, Block>
    ensures { Reads (spec.braced (deeper_of depth) (spec.nested_of depth) tokens.now) result }
{
    let (stmts, left) = stmts(alloc, tokens, depth)?;
    let (stmts, left) = closed(stmts, left, "}")?;
    Ok((Block { stmts }, left))
}
