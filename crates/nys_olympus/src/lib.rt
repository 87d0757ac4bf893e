//! The Olympus: the trusted service that ends an epoch, decides the logs by what guards report, and
//! opens the next epoch.
//!
//! Below: `nys_rules` (what the Olympus knows, decides and makes), `nys_sending` (whose tags it accepts,
//! and what it sends), `nys_seats` (a seat for each guard). Above: `nys_world`.
//! Contracts say which views an `Olympus` means: `IsViewOf` of `specs/Means.antt`.
//! Begin at `Olympus::handle`, then `Olympus::decide` and `Olympus::open_next`. The rules are in
//! docs/RULES.md, under "The guarded system".
#![tactic(auto)]

mod deciding;
mod hearing;
mod kept;
mod olympus;
mod opening;
mod telling;

pub use olympus::Olympus;
