//! The report of a world.

ghost use Rattle.std.specs.Prelude.{◌≡◌, ◌++◌, ◌≤◌, OnOk, codes};
ghost use Rattle.nys_printed.specs.Lines.{notes_text, run_and_hosts};
ghost use Rattle.nys_printed.specs.Report.{guards_text, report};
ghost use Rattle.nys_report.specs.Spelled.{HasSpelled};
ghost use Rattle.nys_rules.specs.Spelling.{printed_run, SpellsLogs};
ghost use Rattle.nys_rules.specs.World as rules;
ghost use Rattle.nys_world.specs.Shows.{setting_in};
ghost use Rattle.nys_world.specs.Worlds.{IsWorldOf};
ghost use Rattle.nys_hosts.specs.declared.limits.TheConstants.{MAX_HOSTS};

use crate::notes::put_notes;
use crate::section::put_guards;
use crate::stopping::put_stopped_run;
use nys_bytes::{NoMemory, Out};
use nys_source::Protocol;
use nys_world::World;
use std::alloc::Global;

/// Appends the report of a world that spells its logs: its printed run, every host after that run, the
/// replicas of all honest hosts, and what was noted.
pub fn report_text<P: Protocol>(
    alloc: Global,
    world: &World<P>,
    out: &mut Out,
) -> Result<(), NoMemory>
    requires { HasSpelled (P.rules world.now.stage.cx.protocol) world.now }
    ensures { OnOk result ((w : rules.World) → IsWorldOf (P.rules world.now.stage.cx.protocol) world.now w
        → out.new ≡ out.old ++ report (setting_in P.rules world.now.stage) w) }
{
    let hosts = world.config().protocol.graph().hosts();
    put_system(alloc, world, hosts, out)?;
    put_nodes(alloc, world, hosts, out)?;
    put_noted(world, out)
}

/// Appends the sections `run` and `hosts`, where there are so many hosts.
fn put_system<P: Protocol>(
    alloc: Global,
    world: &World<P>,
    hosts: u32,
    out: &mut Out,
) -> Result<(), NoMemory>
    requires spelled { HasSpelled (P.rules world.now.stage.cx.protocol) world.now }
    requires all { hosts ≡ (P.rules world.now.stage.cx.protocol).hosts }
    requires few { hosts ≤ MAX_HOSTS }
    ensures { OnOk result ((w : rules.World) → IsWorldOf (P.rules world.now.stage.cx.protocol) world.now w
        → out.new ≡ out.old ++ run_and_hosts (P.rules world.now.stage.cx.protocol)
        (printed_run (setting_in P.rules world.now.stage).scope w)) }
{
    let protocol = &world.config().protocol;
    let retired = world.olympus().retired();
    put_stopped_run(alloc, protocol, hosts, world.run(), retired, out)
}

/// Appends the section `guards`, where there are so many hosts.
fn put_nodes<P: Protocol>(
    alloc: Global,
    world: &World<P>,
    hosts: u32,
    out: &mut Out,
) -> Result<(), NoMemory>
    requires all { hosts ≡ (P.rules world.now.stage.cx.protocol).hosts }
    requires few { hosts ≤ MAX_HOSTS }
    ensures { OnOk result ((w : rules.World) → IsWorldOf (P.rules world.now.stage.cx.protocol) world.now w
        → SpellsLogs (setting_in P.rules world.now.stage) w → out.new ≡ out.old
        ++ (codes "guards\n" ++ guards_text (setting_in P.rules world.now.stage) w)) }
{
    out.put(b"guards\n")?;
    put_guards(alloc, world, hosts, out)
}

/// Appends the section `notes`, and the end.
fn put_noted<P: Protocol>(world: &World<P>, out: &mut Out) -> Result<(), NoMemory>
    ensures { OnOk result ((w : rules.World) → IsWorldOf (P.rules world.now.stage.cx.protocol) world.now w
        → out.new ≡ out.old ++ (codes "notes\n" ++ (notes_text w.notes ++ codes "end\n"))) }
{
    out.put(b"notes\n")?;
    put_notes(world.notes(), out)?;
    out.put(b"end\n")
}
