//! Drawn events happen, one after another.

ghost use Rattle.std.specs.Prelude.{◌≡◌, ◌<◌, ◌≤◌, IfOk, length};
ghost use Rattle.nys_rules.specs.Happening.{Happens};
ghost use Rattle.nys_rules.specs.World as rules;
ghost use Rattle.nys_words.specs.declared.request.TheConstants.{MAX_EVENTS};
ghost use Rattle.nys_workload.specs.Drawn.{event_of, first_dice, next_dice};
ghost use Rattle.nys_workload_command.specs.Answered.{dice_at, WasDrawn};
ghost use Rattle.nys_world.specs.Outcomes.{Happened};
ghost use Rattle.nys_world.specs.Shows.{setting_in, IsStage};
ghost use Rattle.nys_world.specs.Worlds.{events_of, HasWorld, IsWorldOf};

use nys_rules::End;
use nys_source::Protocol;
use nys_workload::Dice;
use nys_world::World;
use std::alloc::Global;

/// A world to which drawn events happen, and the generator of those that are to come.
#[derive(Drop)]
pub(crate) struct Course<P: Protocol> {
    pub world: World<P>,
    pub dice: Dice,
}

/// The course of a fresh world after so many events, which are drawn from a seed for so many hosts. An event
/// may end it.
pub(crate) fn run_drawn<P: Protocol>(
    alloc: Global,
    world: World<P>,
    seed: u64,
    hosts: u32,
    events: u32,
) -> Result<Course<P>, End>
    requires stage { IsStage (P.rules world.stage.cx.protocol) world.stage }
    requires first { IsWorldOf (P.rules world.stage.cx.protocol) world
        (rules.fresh_world (setting_in P.rules world.stage)) }
    requires all { hosts ≡ (P.rules world.stage.cx.protocol).hosts }
    requires some { 0 < hosts }
    requires few { events ≤ MAX_EVENTS }
    ensures stage { IfOk result (λ course. course.world.stage ≡ world.stage) }
    ensures dice { IfOk result (λ course. course.dice ≡ dice_at (first_dice seed) events) }
    ensures drawn { Happened (λ course w. IsWorldOf (P.rules world.stage.cx.protocol) course.world w)
        (WasDrawn (setting_in P.rules world.stage) seed hosts events) result }
{
    let mut course = Course {
        world,
        dice: Dice::new(seed),
    };
    for place in 0..events {
        course = next(alloc, course, hosts, place)?;
    }
    Ok(course)
}

/// The course after the next event, which has this number. It is drawn by how many packets there are.
fn next<P: Protocol>(
    alloc: Global,
    course: Course<P>,
    hosts: u32,
    place: u32,
) -> Result<Course<P>, End>
    requires stage { IsStage (P.rules course.world.stage.cx.protocol) course.world.stage }
    requires shown { HasWorld (P.rules course.world.stage.cx.protocol) course.world }
    requires room { events_of course.world < 4294967295 }
    requires all { hosts ≡ (P.rules course.world.stage.cx.protocol).hosts }
    requires some { 0 < hosts }
    requires place { place < 4294967295 }
    ensures stage { IfOk result (λ after. after.world.stage ≡ course.world.stage) }
    ensures dice { IfOk result (λ after. after.dice ≡ next_dice course.dice) }
    ensures happens { (w : rules.World) → IsWorldOf (P.rules course.world.stage.cx.protocol) course.world w
        → Happened (λ after. IsWorldOf (P.rules course.world.stage.cx.protocol) after.world)
        (Happens (setting_in P.rules course.world.stage) w (event_of hosts course.dice place (length w.pool)))
        result }
{
    let Course { world, dice } = course;
    let packets = world.pool().len() as u32;
    let event = dice.event(alloc, hosts, place, packets)?;
    let world = world.step(alloc, event)?;
    Ok(Course {
        world,
        dice: dice.next(),
    })
}
