//! What all honest parties know from the beginning, and what they look up in it.
//!
//! Below: `nys_source` (the protocol), `nys_guards` (the guards of an epoch), `nys_mac` (keys), and
//! `nys_rules` (the scope that the rules stand in). Above: the nodes and the Olympus, and what they send.
//! Contracts see a `Config` as the scope that it gives, `scope_of` of `specs/Scopes.antt`; what parties ask
//! of it is `IsConfig` of `specs/Config.antt`.
//! Begin at `Config`, then `threshold`. The rules are "Configurations" in docs/RULES.md.
#![tactic(auto)]

mod config;
mod scope;

pub use config::Config;
pub use scope::{credit, guards_of, hosts, is_epoch, linked, threshold};
