//! The trace of a world.

ghost use Rattle.std.specs.Prelude.{◌≡◌, ◌++◌, OnOk, true};
ghost use Rattle.nys_report.specs.Spelled.{HasSpelled};
ghost use Rattle.nys_report.specs.Trace.{trace};
ghost use Rattle.nys_rules.specs.World as rules;
ghost use Rattle.nys_world.specs.Shows.{setting_in};
ghost use Rattle.nys_world.specs.Worlds.{IsWorldOf};

use crate::report::report_text;
use nys_bytes::{NoMemory, Out};
use nys_source::Protocol;
use nys_trace_lines::{put_injected, put_packets, put_takes};
use nys_world::World;
use std::alloc::Global;

/// Appends the trace of a world that spells its logs: all its packets, the bytes that events gave, what
/// was given to honest hosts and to the Olympus, and at the end its report. What was given is kept where
/// a trace is wanted.
pub fn trace_text<P: Protocol>(
    alloc: Global,
    world: &World<P>,
    out: &mut Out,
) -> Result<(), NoMemory>
    requires spelled { HasSpelled (P.rules world.now.stage.cx.protocol) world.now }
    requires traced { world.now.stage.traced ≡ true }
    ensures { OnOk result ((w : rules.World) → IsWorldOf (P.rules world.now.stage.cx.protocol) world.now w
        → out.new ≡ out.old ++ trace (setting_in P.rules world.now.stage) w) }
{
    put_packets(world.pool(), out)?;
    put_injected(world.injected(), out)?;
    put_takes(world.takes(), out)?;
    report_text(alloc, world, out)
}
