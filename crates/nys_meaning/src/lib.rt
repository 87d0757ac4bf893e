//! What a machine means: the evaluation of its tree by cases, without the vector of places.
//!
//! Below: `nys_tree`, `nys_source` (effects). Above: `nys_places` (the vector), `nys_walk`, which
//! computes what an expression gives, `nys_handler`, which computes what a handler does, and
//! `nys_interp`, which runs a machine. The meaning is written once over whatever keeps the names:
//! `by_name` of `specs/ByName.antt` keeps them in a map from names to lists, which is what a machine
//! means; the walk keeps them in one vector. Begin at `specs/Exprs.antt`, then `specs/Stmts.antt`. The
//! meaning is "The machine language" in docs/RULES.md.
#![tactic(auto)]

mod here;
mod value;

pub use here::Here;
pub use value::{Listed, Value};

/// The units of work that a handler may take.
pub const MAX_UNITS: u32 = 10_000;
