//! What each party of the guarded system does with records: whose tags it accepts, what it tags, and what
//! it makes and sends in one call.
//!
//! Below: `nys_rules` (the definitions), `nys_config` (what all honest parties know), `nys_wire` (frames).
//! Above: `nys_node` and `nys_olympus`, which are the parties.
//! Contracts see an `Outbox` as the acts of one call. Begin at `accepted` in `src/accepting.rt`, then
//! `Outbox::announce`. The rules are in docs/RULES.md, under "The guarded system".
#![tactic(auto)]

pub mod accepting;
pub mod outbox;
pub mod sending;
