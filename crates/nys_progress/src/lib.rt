//! What must come in the guarded worlds: where certain things were said, taken and given, others follow.
//! No code.
//!
//! Below: `nys_follows` (what worlds promise), `nys_laws` (what each step of a node keeps), `nys_rules`
//! (worlds). Above: `nys_rule_examples`, worked worlds in which the premises are met.
//! Begin at `specs/Sent.antt`, `specs/Decision.antt`, `specs/Relay.antt`, `specs/Ordered.antt`,
//! `specs/FourExchanges.antt` and `specs/Credits.antt`, then `src/laws.rt`. A relation that each step of a world keeps is carried over
//! events by `MovesKeep` in `proofs/EventMoves.antt`, and what a step of a node does to the log and the desk
//! of one host is `HostMoves` in `proofs/HostMoves.antt`. The rules are "The guarded system" in
//! docs/RULES.md.
#![tactic(auto)]

mod laws;

pub use laws::{
    calm_law, clean_law, credit_law, decision_law, first_law, four_law, order_law, relay_law,
    sent_law, unspoiled_law, whole_law,
};
