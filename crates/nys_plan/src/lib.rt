//! The planner: good guards for a graph, by a fixed rule, where the rule promises some.
//!
//! Below: `nys_hosts`, `nys_graph`, `nys_guards` (what good guards are). Above: scenarios, whose epochs
//! without guards are planned.
//! Contracts see the rule as facts, `IsPlanned`: a host's component by walks along links, the order of
//! its guards as a list, and how many it takes: by the greatest threshold of the component.
//! Begin at `plan`. The rule is "Plans" in docs/RULES.md.
#![tactic(auto)]

mod choosing;
mod component;
mod fault;
mod greatest;
mod planning;

pub use fault::PlanFault;
pub use planning::plan;
