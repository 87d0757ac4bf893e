//! Protocols that are built in: the sum and the flood.
//!
//! Below: `nys_source` (what a protocol is). Above: the commands, which run them.
//! Contracts see each as its rules, `sum_rules` and `flood_rules` of `specs/`, on the graph's links.
//! Begin at `specs/Sums.antt` and `Sum`. The rules are "Graphs, protocols and the source system" in
//! docs/RULES.md.
#![tactic(auto)]

mod flood;
mod neighbours;
mod sum;
mod total;

pub use flood::Flood;
pub use sum::Sum;
pub use total::Total;
