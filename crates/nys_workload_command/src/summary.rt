//! The text of a world to which drawn events happened.

ghost use Rattle.std.specs.Prelude.{◌≡◌, ◌++◌, IfOk, OnOk, codes, decimal, length};
ghost use Rattle.nys_answer.specs.declared.status.Status.TheVariants.{Done};
ghost use Rattle.nys_rules.specs.World as rules;
ghost use Rattle.nys_workload_command.specs.Summary.{counted, first_line, number_line, summary};
ghost use Rattle.nys_world.specs.Shows.{setting_in};
ghost use Rattle.nys_world.specs.Worlds.{HasWorld, IsWorldOf};

use crate::course::Course;
use crate::logged::logged;
use itoa::Buffer;
use nys_answer::{Answer, Status};
use nys_bytes::{NoMemory, Out};
use nys_source::Protocol;
use nys_world::World;
use std::alloc::Global;

/// The answer that tells of the world of a course, to which so many events happened that were drawn from a
/// seed for so many hosts.
pub(crate) fn summary<P: Protocol>(
    alloc: Global,
    seed: u64,
    hosts: u32,
    events: u32,
    course: &Course<P>,
) -> Result<Answer, NoMemory>
    requires { HasWorld (P.rules course.now.world.stage.cx.protocol) course.now.world }
    ensures { IfOk result (λ answer. (w : rules.World)
        → IsWorldOf (P.rules course.now.world.stage.cx.protocol) course.now.world w → answer
        ≡ record {
          status = Done;
          text = summary seed hosts events course.now.dice.inputs
              (setting_in P.rules course.now.world.stage) w;
        }) }
{
    let mut text = Out::new(alloc);
    put_first(&mut text, seed, hosts, events)?;
    put_line(&mut text, b"inputs ", u64::from(course.dice.inputs))?;
    put_counts(&course.world, &mut text)?;
    Ok(Answer {
        status: Status::Done,
        text,
    })
}

/// Appends the line of what was asked for.
fn put_first(out: &mut Out, seed: u64, hosts: u32, events: u32) -> Result<(), NoMemory>
    ensures { OnOk result (out.new ≡ out.old ++ first_line seed hosts events) }
{
    put_named(out, b"workload ", seed)?;
    put_named(out, b" ", u64::from(hosts))?;
    put_line(out, b" ", u64::from(events))
}

/// Appends the lines that count what a world has, and the end.
fn put_counts<P: Protocol>(world: &World<P>, out: &mut Out) -> Result<(), NoMemory>
    requires { HasWorld (P.rules world.now.stage.cx.protocol) world.now }
    ensures { OnOk result ((w : rules.World) → IsWorldOf (P.rules world.now.stage.cx.protocol) world.now w
        → out.new ≡ out.old ++ counted (setting_in P.rules world.now.stage) w) }
{
    put_line(out, b"packets ", world.pool().len() as u64)?;
    put_line(out, b"steps ", world.run().len() as u64)?;
    put_line(out, b"logged ", u64::from(logged(world)))?;
    out.put(b"end\n")
}

/// Appends a word, a number and the line's end.
fn put_line(out: &mut Out, word: &[u8], number: u64) -> Result<(), NoMemory>
    ensures { OnOk result (out.new ≡ out.old ++ number_line word.now number) }
{
    put_named(out, word, number)?;
    out.put(b"\n")
}

/// Appends a word and a number.
fn put_named(out: &mut Out, word: &[u8], number: u64) -> Result<(), NoMemory>
    ensures { OnOk result (out.new ≡ out.old ++ (word.now ++ decimal number)) }
{
    let mut buffer = Buffer::new();
    out.put(word)?;
    out.put(buffer.format(number).as_bytes())
}
