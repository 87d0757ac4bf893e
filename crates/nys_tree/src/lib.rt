//! The tree of a machine: one struct or variant for each line of the language's grammar.
//!
//! Below: `sqlite_items` (lists and boxes that contracts see as what they hold). Above: `nys_parse`,
//! which reads a tree from tokens, `nys_names`, which gives each name its place, and the crates of
//! the meaning. Contracts see a tree as plain data, without pointers, so that two trees are equal
//! exactly where they are spelled alike. `specs/Named.antt` says which trees pass the rules of names.
//! Begin at `Machine`. The grammar is "Machine language" in docs/FORMATS.md.
#![tactic(auto)]

mod expr;
mod machine;
mod name;
mod stmt;

pub use expr::{AddOp, Both, Compare, Expr, Factor, MulOp, Neg, Sum, Tail, Term, TermTail, Test};
pub use machine::{Machine, OnInput, OnReceive, Var};
pub use name::Name;
pub use stmt::{Block, Branch, Else, MAX_MEMBERS, Stmt, Target, Values};
