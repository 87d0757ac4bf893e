//! Machines that are named: what the name check gives and the interpreter takes.
//!
//! Below: `nys_tree` (trees, and the rules of names). Above: `nys_names`, which makes such machines,
//! and `nys_interp`, which runs them. Contracts see a `Named` as its tree, with the proof that each
//! name passes the rules and has the place of what it stands for. Begin at `Named`. The rule is
//! "The machine language" in docs/RULES.md.
#![tactic(auto)]

mod named;

pub use named::Named;
