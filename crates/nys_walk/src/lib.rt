//! The walk over an expression's tree, with its names read by place.
//!
//! Below: `nys_tree`, `nys_meaning` (what the walk must give), `nys_places` (the vector of places).
//! Above: `nys_handler`, `nys_interp`. Contracts see what the walk gives as `expr` of `nys_meaning`, read
//! by place.
//! Begin at `expr`. The rule is "The machine language" in docs/RULES.md.
#![tactic(auto)]

mod numbers;
mod walk;

pub use walk::expr;
