//! An epoch of a scenario.

ghost use Rattle.std.specs.Prelude.{◌≤◌, All, IfSome};
ghost use Rattle.std.proofs.Props.{props};
ghost use Rattle.nys_hosts.specs.declared.limits.TheConstants.{MAX_CREDIT, MAX_T};

use nys_hosts::{HostSet, MAX_HOSTS};

/// An epoch as a document gives it.
#[derive(Clone, Copy, Debug, PartialEq, Eq)]
pub struct EpochText {
    /// The most of a host's guards that may lie, 0 to `MAX_T`.
    pub t: u32,
    /// How many slots of a log the head of a link may wait until it is overdue, 1 to `MAX_CREDIT`.
    pub credit: u32,
    /// For each host how many of its guards may lie, at most `t`, 0 past the last host; left out where
    /// it is `t` for each.
    pub thresholds: Option<[u32; MAX_HOSTS]>,
    /// For each host its guards, none past the last host; left out where they are to be planned.
    pub guards: Option<[HostSet; MAX_HOSTS]>,
    pub ghost t_is_small: { t ≤ MAX_T },
    pub ghost credit_is_some: { 1 ≤ credit },
    pub ghost credit_is_small: { credit ≤ MAX_CREDIT },
    pub ghost thresholds_are_small: { IfSome thresholds (All (λ own. own ≤ t)) } by { Prim.hlevel props },
}
