//! Why guards can't be planned.

/// Why the planner has no guards to offer.
#[derive(Clone, Copy, Debug, PartialEq, Eq)]
pub enum PlanFault {
    /// The hosts, and the `3t + 1` guards that the greatest threshold `t` needs, which are more.
    TooFewHosts(u32, u32),
    /// The lowest host with more neighbours than credit, the credit, its neighbours.
    CreditTooSmall(u32, u32, u32),
}
