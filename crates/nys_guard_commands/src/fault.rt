//! What is wrong with the guards of an epoch.

use nys_guards::GuardFault;
use nys_plan::PlanFault;

/// Why the guards of an epoch are refused.
#[derive(Clone, Copy, Debug, PartialEq, Eq)]
pub enum EpochFault {
    /// None are listed, and the planner has none.
    Unplanned(PlanFault),
    /// The listed ones are not good.
    NotGood(GuardFault),
}
