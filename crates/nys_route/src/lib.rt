//! Protocols that find routes and that multicast down a tree.
//!
//! Below: `nys_source` (what a protocol is), `nys_graph`. Above: the commands, which run them.
//! Contracts see each as its rules, `route_rules` and `tree_rules` of `specs/`, on the graph's links; a
//! state of `Route` as the list of its ways. The laws in `laws.rt` say what holds of every run.
//! Begin at `specs/Walks.antt`, then `specs/Routed.antt` and `specs/Multicast.antt`. The rules are
//! "Graphs, protocols and the source system" in docs/RULES.md.
#![tactic(auto)]

mod growing;
mod laws;
mod reading;
mod route;
mod sends;
mod tree;
mod way;
mod ways;

pub use growing::parents;
pub use laws::{route_law, tree_law};
pub use route::Route;
pub use tree::Tree;
pub use way::{MAX_HEARD, UNKNOWN, Way};
pub use ways::Ways;
