//! The communication graph: which hosts there are, and which of them are linked.
//!
//! Below: `nys_hosts` (sets of hosts). Above: the guards (`nys_guards`), the source system, and all that
//! speaks of neighbours.
//! Contracts see a `Graph` as its number of hosts and the test `linked_in graph.rows`; definitions
//! above take these two, and not the type. Its ghost field `shape` says what makes them a graph.
//! Begin at `Graph::new`. The rule is "Graphs" in docs/RULES.md.
#![tactic(auto)]

mod fault;
mod joining;
mod table;

pub use fault::GraphFault;
pub use nys_hosts::MAX_HOSTS;
pub use table::Graph;
