//! The tree of a machine's tokens: a function for each rule of the grammar, or the first fault.
//!
//! Below: `nys_lex` (tokens and faults) and `nys_tree` (the tree's types, which are passed on here).
//! Above: `nys_names`, which tests the names of a tree.
//! Contracts see a tree as plain data, and a rule as a function of the tokens that are left.
//! Begin at `parse`, whose grammar is `specs/Expressions.antt` and `specs/Statements.antt`. The rule is
//! "Machine language" in docs/FORMATS.md.
#![tactic(auto)]

mod expression;
mod machine;
mod operator;
mod reading;
mod statement;

pub use machine::{MAX_DEPTH, parse};
pub use nys_tree::{
    AddOp, Block, Both, Branch, Compare, Else, Expr, Factor, Machine, MulOp, Name, Neg, OnInput,
    OnReceive, Stmt, Sum, Tail, Target, Term, TermTail, Test, Values, Var,
};
