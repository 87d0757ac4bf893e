//! What is told of a world.

ghost use Rattle.std.specs.Prelude.{◌≡◌, ◌++◌, IfOk, OnOk, false, true};
ghost use Rattle.nys_answer.specs.declared.status.Status.TheVariants.{Done};
ghost use Rattle.nys_report.specs.Spelled.{HasSpelled};
ghost use Rattle.nys_rules.specs.World as rules;
ghost use Rattle.nys_world.specs.Shows.{setting_in};
ghost use Rattle.nys_world.specs.Worlds.{IsWorldOf};
ghost use Rattle.nys_world_commands.specs.Telling.{text_of};
ghost use Rattle.nys_world_commands.specs.declared.telling.Telling.TheVariants.{Report, Trace};

use nys_answer::{Answer, Status};
use nys_bytes::{NoMemory, Out};
use nys_report::{report_text, trace_text};
use nys_source::Protocol;
use nys_world::World;
use std::alloc::Global;

/// What is told of the world that events lead to.
#[derive(Clone, Copy, Debug, PartialEq, Eq)]
pub enum Telling {
    /// Its report.
    Report,
    /// Its trace, which ends with its report.
    Trace,
}

impl Telling {
    /// Whether it tells what was given to parties.
    pub(crate) fn is_trace(self) -> bool
        ensures trace { self ≡ Trace → result ≡ true }
        ensures report { self ≡ Report → result ≡ false }
    {
        match self {
            Telling::Report => false,
            Telling::Trace => true,
        }
    }
}

/// The answer that tells this of a world that spells its logs, and that keeps for a trace what was given.
pub(crate) fn told<P: Protocol>(
    alloc: Global,
    world: &World<P>,
    telling: Telling,
) -> Result<Answer, NoMemory>
    requires spelled { HasSpelled (P.rules world.now.stage.cx.protocol) world.now }
    requires traced { telling ≡ Trace → world.now.stage.traced ≡ true }
    ensures { IfOk result (λ answer. (w : rules.World)
        → IsWorldOf (P.rules world.now.stage.cx.protocol) world.now w → answer
        ≡ record { status = Done; text = text_of telling (setting_in P.rules world.now.stage) w }) }
{
    let mut text = Out::new(alloc);
    put_told(alloc, world, telling, &mut text)?;
    Ok(Answer {
        status: Status::Done,
        text,
    })
}

/// Appends what is told of the world.
fn put_told<P: Protocol>(
    alloc: Global,
    world: &World<P>,
    telling: Telling,
    out: &mut Out,
) -> Result<(), NoMemory>
    requires spelled { HasSpelled (P.rules world.now.stage.cx.protocol) world.now }
    requires traced { telling ≡ Trace → world.now.stage.traced ≡ true }
    ensures { OnOk result ((w : rules.World) → IsWorldOf (P.rules world.now.stage.cx.protocol) world.now w
        → out.new ≡ out.old ++ text_of telling (setting_in P.rules world.now.stage) w) }
{
    match telling {
        Telling::Report => report_text(alloc, world, out),
        Telling::Trace => trace_text(alloc, world, out),
    }
}
