//! The lines of the section of guards.

ghost use Rattle.std.specs.Prelude.{◌≡◌, ◌++◌, ◌<◌, ◌≤◌, ◌∷◌, [], OnOk};
ghost use Rattle.std.specs.List.{range_with_len};
ghost use Rattle.nys_printed.specs.Report.{guards_of};
ghost use Rattle.nys_rules.specs.Spelling.{SpellsLogs};
ghost use Rattle.nys_rules.specs.World as rules;
ghost use Rattle.nys_world.specs.Shows.{setting_in};
ghost use Rattle.nys_world.specs.Worlds.{IsWorldOf};
ghost use Rattle.nys_hosts.specs.declared.limits.TheConstants.{MAX_HOSTS};

use crate::guards::put_guard;
use nys_bytes::{NoMemory, Out};
use nys_source::Protocol;
use nys_world::World;
use std::alloc::Global;

/// Appends the lines of all replicas at the nodes of a world that spells its logs, for so many hosts, rising.
/// A liar has no node, and no line.
pub(crate) fn put_guards<P: Protocol>(
    alloc: Global,
    world: &World<P>,
    hosts: u32,
    out: &mut Out,
) -> Result<(), NoMemory>
    requires all { hosts ≡ (P.rules world.now.stage.cx.protocol).hosts }
    requires few { hosts ≤ MAX_HOSTS }
    ensures { OnOk result ((w : rules.World) → IsWorldOf (P.rules world.now.stage.cx.protocol) world.now w
        → SpellsLogs (setting_in P.rules world.now.stage) w
        → out.new ≡ out.old ++ guards_of (setting_in P.rules world.now.stage) w (range_with_len 0 hosts)) }
{
    for g in 0..hosts {
        put_guard_of(alloc, world, g, out)?;
    }
    Ok(())
}

/// Appends the lines of one host, if it has a node.
fn put_guard_of<P: Protocol>(
    alloc: Global,
    world: &World<P>,
    g: u32,
    out: &mut Out,
) -> Result<(), NoMemory>
    requires host { g < (P.rules world.now.stage.cx.protocol).hosts }
    requires few { g < MAX_HOSTS }
    ensures { OnOk result ((w : rules.World) → IsWorldOf (P.rules world.now.stage.cx.protocol) world.now w
        → SpellsLogs (setting_in P.rules world.now.stage) w
        → out.new ≡ out.old ++ guards_of (setting_in P.rules world.now.stage) w (g ∷ [])) }
{
    match world.node(g) {
        Some(node) => put_guard(alloc, world.config(), g, node, out),
        None => Ok(()),
    }
}
