//! Events happen, and what they lead to is answered.

ghost use Rattle.std.specs.Prelude.{◌≡◌, ◌≤◌, All, IfOk, length, map, true};
ghost use Rattle.nys_bare.specs.declared.read.TheConstants.{MAX_EVENTS};
ghost use Rattle.nys_follows.specs.Scenario.{IsScenario};
ghost use Rattle.nys_hosts.specs.Sets.{has};
ghost use Rattle.nys_rules.specs.Asked.{IsEvent};
ghost use Rattle.nys_rules.specs.Events.{plain};
ghost use Rattle.nys_rules.specs.World as rules;
ghost use Rattle.nys_world.specs.Shows.{setting_in, IsStage};
ghost use Rattle.nys_world.specs.Worlds.{events_of, IsWorldOf};
ghost use Rattle.nys_world_commands.specs.Replayed.{IsEventsAnswer};
ghost use Rattle.nys_world_commands.specs.declared.telling.Telling.TheVariants.{Trace};

use crate::telling::{Telling, told};
use nys_answer::Answer;
use nys_bytes::NoMemory;
use nys_played::end_answer;
use nys_rules::Event;
use nys_source::Protocol;
use nys_world::World;
use std::alloc::Global;

/// The answer to events that happen in the fresh world of a scenario: what is told of the world after
/// the last, or the line of the first end. A trace wants a world that keeps what was given.
pub(crate) fn play<P: Protocol>(
    alloc: Global,
    world: World<P>,
    events: Vec<Event>,
    telling: Telling,
) -> Result<Answer, NoMemory>
    requires stage { IsStage (P.rules world.stage.cx.protocol) world.stage }
    requires scenario { IsScenario (setting_in P.rules world.stage) }
    requires first { IsWorldOf (P.rules world.stage.cx.protocol) world
        (rules.fresh_world (setting_in P.rules world.stage)) }
    requires none { events_of world ≡ 0 }
    requires traced { telling ≡ Trace → world.stage.traced ≡ true }
    requires few { length events.items ≤ MAX_EVENTS }
    requires events { All (λ event. IsEvent (P.rules world.stage.cx.protocol).hosts (has world.stage.liars)
        (plain event)) events.items }
    ensures { IfOk result (IsEventsAnswer telling (setting_in P.rules world.stage) (map plain events.items)) }
{
    match world.run_all(alloc, events) {
        Ok(next) => told(alloc, &next, telling),
        Err(end) => end_answer(alloc, end),
    }
}
