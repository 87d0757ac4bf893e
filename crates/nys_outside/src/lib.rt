//! What stands outside: bytes that come in, bytes that go out, and frames between hosts.
//!
//! Below: `nys_bytes` (want of memory). Above: whatever reads an input, writes a text or sends frames,
//! the top call among them.
//! Contracts see a `Source`, a `Sink` or `Links` by what it tells, where it tells it, and by a count of
//! faults that never falls: a call answers `Failed` only where that count rose. What stands in memory
//! tells all; what adapts std's reader or writer tells no content.
//! Begin at `Source` and `read_all`, then `Sink` and `write_all`, then `Links`.
#![tactic(auto)]

mod calls;
mod fault;
mod got;
mod links;
mod mem_links;
mod mem_sink;
mod mem_source;
mod reading;
mod sink;
mod source;
mod std_sink;
mod std_source;
mod way;
mod writing;

pub use fault::{Failed, OutFault};
pub use got::Got;
pub use links::Links;
pub use mem_links::MemLinks;
pub use mem_sink::MemSink;
pub use mem_source::MemSource;
pub use reading::{ReadFault, read_all};
pub use sink::Sink;
pub use source::Source;
pub use std_sink::StdSink;
pub use std_source::StdSource;
pub use writing::write_all;
