//! The honest process of one host, exactly as the rules say. A node is made in epoch 0; then it is given
//! bytes (`handle`), handed inputs (`input`) or told to ask (`ask`). Each call changes the node in place,
//! so that it has settled, and tells what it did; where memory runs out, nothing is said of the node, and
//! the caller gives it up.
//!
//! Below: `nys_rules` (the definitions), `nys_replica` (logs), `nys_desk` (what is kept of open slots).
//! Contracts say which views a node means: `Means` of `specs/Means.antt`; each call goes from any view
//! that the node means to one that it means then.
//! Begin at `specs/Means.antt`, then `handle` in `src/handle.rt`. The rules are in docs/RULES.md, under
//! "The guarded system".
#![tactic(auto)]

mod ask;
mod attest;
mod certificate;
mod deliver;
mod drops;
mod forgetting;
mod handle;
mod heads;
mod inherit;
mod links;
mod log;
mod node;
mod note;
mod offer;
mod opening;
mod order;
mod reading;
mod reply;
mod say;
mod settle;
mod wedge;

pub use node::Node;
