//! The names of a machine by the rules, each with its place in one vector of numbers.
//!
//! Below: `nys_lex` (faults), `nys_tree` (the tree, and which trees are named) and `nys_named` (a tree
//! that is named, which is passed on here). Above: `nys_interp`.
//! Contracts see a `Named` as its tree, whose every name has the place of what it stands for.
//! Begin at `check_names`, whose definition is `check` in `specs/Stmts.antt`; the rules of one name
//! are `specs/Names.antt`. The rule is "The machine language" in docs/RULES.md.
#![tactic(auto)]

mod bindings;
mod expression;
mod machine;
mod naming;
mod statement;

pub use machine::check_names;
pub use nys_named::Named;
