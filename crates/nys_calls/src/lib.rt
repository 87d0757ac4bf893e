//! What only a call can show: that calls answer with memory at hand, values that standards and worked
//! examples give, and faults of the outside. Tests alone.
//!
//! Below: each crate whose calls stand here. Above: nothing. What a document can show is a row in `rows/`.
//! What is wanted comes from RFC 4231, from docs/FORMATS.md, or was counted by hand.
//! Begin at `src/records.rt`.
#![tactic(auto)]

#[cfg(test)]
mod authentic;
#[cfg(test)]
mod counted;
#[cfg(test)]
mod kept;
#[cfg(test)]
mod numbers;
#[cfg(test)]
mod outside;
#[cfg(test)]
mod program;
#[cfg(test)]
mod records;
#[cfg(test)]
mod said;
