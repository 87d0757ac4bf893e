//! What the guarded system is: what a node keeps, which records it drops, which rule it takes next,
//! what the Olympus decides, and what each event makes of a world. Data and definitions, no logic.
//!
//! Below: `nys_votes` (certificates and credit), `nys_stmt` and `nys_wire` (records), `nys_agreement`
//! (what a log means). Above: `nys_node`, `nys_olympus`, `nys_world`, which do exactly this.
//! Contracts see a node through a `View` that it means, and a world through a `World`.
//! Begin at `specs/Lib.antt`, which lists the definitions in reading order. The rules are in
//! docs/RULES.md, under "The guarded system".
#![tactic(auto)]

mod cause;
mod decision;
mod event;
mod handled;
mod kept;
mod laws;
mod limits;
mod notice;
mod packet;
mod rule;

pub use cause::DropCause;
pub use decision::{Decision, Opened, Retired};
pub use event::{Event, Parties};
pub use handled::Handled;
pub use kept::{Attested, Kept};
pub use laws::{certificates_law, rules_law, world_law};
pub use limits::{MAX_KEPT, MAX_PACKETS, MAX_POOL_BYTES, MAX_WAITING, WINDOW};
pub use notice::{End, Injected, Note, NoteKind, Take};
pub use packet::{Packet, STRANGER};
pub use rule::Rule;
