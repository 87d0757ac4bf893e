//! What a handler does: the walk over its statements, with its names kept by place.
//!
//! Below: `nys_meaning` (what must be done), `nys_places`, `nys_walk` (expressions). Above:
//! `nys_interp`. Contracts see an `Activation` as the record `Run` of `nys_meaning`. Begin at `block`. The
//! rule is "The machine language" in docs/RULES.md.
#![tactic(auto)]

mod activation;
mod stmts;
mod stop;

pub use activation::Activation;
pub use stmts::block;
pub use stop::Stop;
