//! What makers attest of the messages on the links into one host.
//!
//! Below: `nys_seats` (a seat for each maker), `nys_votes` (what is attested), `nys_rules` (a node's own
//! attestation). Above: `nys_node`.
//! Contracts see an `AttestTable` by two words: `next_of` a link, and `seats_at` a link and a number.
//! Begin at `AttestTable::note`. The rule is "Attested" in docs/RULES.md, under "Tallies".
#![tactic(auto)]

mod heard;
mod kept;
mod links;
mod table;
mod window;

pub use links::Links;
pub use table::AttestTable;
pub use window::Recorded;
