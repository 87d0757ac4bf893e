use crate::{Expr, Name};
use sqlite_items::{Boxed, Items};

/// The most members of a list, in the text and as a handler's payload.
pub const MAX_MEMBERS: usize = 8;

/// `block`: the statements between two braces.
#[cycle(block)]
#[derive(Drop)]
pub struct Block {
    /// The statements, in order.
    pub stmts: Items<Stmt>,
}

/// `stmt`: one statement.
#[cycle(block)]
#[derive(Drop)]
pub enum Stmt {
    /// `let`: the new name, and its value.
    Let(Name, Expr),
    /// An assignment to a scalar: the name, and its value.
    Set(Name, Expr),
    /// An assignment to an item of a list: the name, the index, and the value.
    SetItem(Name, Expr, Expr),
    /// `if`
    If(Branch),
    /// `for`: the loop's name, the first value, the bound, and the body.
    For(Name, Expr, Expr, Block),
    /// `each`: the loop's name, and the body.
    Each(Name, Block),
    /// `send`: to whom, and the list.
    Send(Target, Values),
    /// `out`: the list.
    Out(Values),
}

/// `if`: a truth, what is done where it holds, and what is done else.
#[cycle(block)]
#[derive(Drop)]
pub struct Branch {
    /// The truth that decides.
    pub test: Expr,
    /// What is done where it is no 0.
    pub body: Block,
    /// What is done where it is 0.
    pub other: Else,
}

/// What stands behind an `if`'s block.
#[cycle(block)]
#[derive(Drop)]
pub enum Else {
    /// No `else`.
    Absent,
    /// `else`, and a block.
    Last(Block),
    /// `else`, and a further `if`.
    Further(Boxed<Branch>),
}

/// To whom a `send` goes.
#[derive(Drop)]
pub enum Target {
    /// `all`: the neighbours.
    All,
    /// The host whose number the expression gives.
    Host(Expr),
}

/// `list`: the expressions of a `send` or an `out`.
#[derive(Drop)]
pub struct Values {
    /// The members, in order, 1 to `MAX_MEMBERS` where they were read from a text.
    pub members: Items<Expr>,
}
