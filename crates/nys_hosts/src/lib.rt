//! Sets of hosts, quorums, and the law that two quorums share an honest host.
//!
//! Below: nothing. Above: the graph (`nys_graph`), the guards (`nys_guards`), and all that counts makers.
//! Contracts see a `HostSet` by the test `has` and as the rising list `members`. Counts stand over tests
//! of hosts: `hosts_with` how many pass one, `AtLeast` that at least n different makers said something.
//! Begin at `HostSet`, then `quorum_law`. The rule is "Quorums" in docs/RULES.md.
#![tactic(auto)]

mod laws;
mod limits;
mod quorums;
mod set;

pub use laws::{makers_law, members_law, quorum_law, share_law};
pub use limits::{MAX_CREDIT, MAX_EPOCHS, MAX_FRAME, MAX_HOSTS, MAX_SLOTS, MAX_T};
pub use quorums::quorum;
pub use set::HostSet;
