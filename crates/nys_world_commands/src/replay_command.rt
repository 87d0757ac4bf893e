//! The commands `replay` and `trace`.

ghost use Rattle.std.specs.Prelude.{◌≡◌, ◌≤◌, All, IfOk, length, map};
ghost use Rattle.nys_answer.specs.declared.limit.TheConstants.{INPUT_LIMIT};
ghost use Rattle.nys_bare.specs.declared.read.TheConstants.{MAX_EVENTS};
ghost use Rattle.nys_hosts.specs.declared.limits.TheConstants.{MAX_HOSTS};
ghost use Rattle.nys_hosts.specs.Sets.{has};
ghost use Rattle.nys_rules.specs.Asked.{IsEvent};
ghost use Rattle.nys_rules.specs.Events.{plain};
ghost use Rattle.nys_schedule.specs.Schedules.{schedule};
ghost use Rattle.nys_schedule.specs.declared.form.Form.TheVariants as form;
ghost use Rattle.nys_world_commands.specs.Playing.{ArePlayable};
ghost use Rattle.nys_world_commands.specs.Promised.{IsSchedulePromised};
ghost use Rattle.nys_world_commands.specs.Replayed.{IsEventsAnswer, IsScheduleAnswer, IsTextAnswer};
ghost use Rattle.nys_played.specs.Settings.{setting_by};

use crate::guards::Guards;
use crate::playing::play;
use crate::telling::Telling;
use nys_answer::Answer;
use nys_bytes::NoMemory;
use nys_config::Config;
use nys_mac::Keys;
use nys_rules::Event;
use nys_schedule::{Form, read_schedule};
use nys_source::Protocol;
use nys_source_commands::schedule_refused;
use nys_world::World;
use std::alloc::Global;

/// What `replay` or `trace` answers where the hosts run this protocol among these guards and the document
/// has this schedule: the report or the trace of the world that its events lead to, or why the schedule is
/// refused or the world ends early. Each world on the way keeps what worlds promise.
pub fn replay<P: Protocol>(
    alloc: Global,
    protocol: P,
    guards: Guards,
    text: &str,
    telling: Telling,
) -> Result<Answer, NoMemory>
    requires playable { ArePlayable (P.rules protocol).hosts (has guards.liars) guards.graphs.items }
    requires short { length text.now ≤ INPUT_LIMIT }
    ensures answered { IfOk result (IsTextAnswer telling
        (setting_by (P.rules protocol) guards.graphs.items guards.master (has guards.liars)) text.now) }
    ensures promised { IsSchedulePromised
        (setting_by (P.rules protocol) guards.graphs.items guards.master (has guards.liars)) text.now }
{
    let hosts = protocol.graph().hosts();
    read_and_play(alloc, protocol, guards, hosts, text, telling)
}

/// The answer to a schedule for so many hosts.
fn read_and_play<P: Protocol>(
    alloc: Global,
    protocol: P,
    guards: Guards,
    hosts: u32,
    text: &str,
    telling: Telling,
) -> Result<Answer, NoMemory>
    requires all { hosts ≡ (P.rules protocol).hosts }
    requires hosts { hosts ≤ MAX_HOSTS }
    requires playable { ArePlayable (P.rules protocol).hosts (has guards.liars) guards.graphs.items }
    requires short { length text.now ≤ INPUT_LIMIT }
    ensures { IfOk result (IsScheduleAnswer telling
        (setting_by (P.rules protocol) guards.graphs.items guards.master (has guards.liars))
        (schedule form.Replay (P.rules protocol).hosts (has guards.liars) text.now)) }
{
    match read_schedule(alloc, text, hosts, guards.liars, Form::Replay) {
        Ok(events) => play_events(alloc, protocol, guards, events, telling),
        Err(fault) => schedule_refused(alloc, fault),
    }
}

/// The answer to the events of a schedule.
fn play_events<P: Protocol>(
    alloc: Global,
    protocol: P,
    guards: Guards,
    events: Vec<Event>,
    telling: Telling,
) -> Result<Answer, NoMemory>
    requires hosts { (P.rules protocol).hosts ≤ MAX_HOSTS }
    requires playable { ArePlayable (P.rules protocol).hosts (has guards.liars) guards.graphs.items }
    requires few { length events.items ≤ MAX_EVENTS }
    requires events { All (λ event. IsEvent (P.rules protocol).hosts (has guards.liars)
        (plain event)) events.items }
    ensures { IfOk result (IsEventsAnswer telling
        (setting_by (P.rules protocol) guards.graphs.items guards.master (has guards.liars))
        (map plain events.items)) }
{
    let Guards {
        graphs,
        master,
        liars,
    } = guards;
    let hosts = protocol.graph().hosts();
    let keys = Keys::from_master(master).ready_for(alloc, hosts)?;
    let cx = Config {
        protocol,
        epochs: graphs,
        keys,
    };
    let world = World::fresh(alloc, cx, liars, telling.is_trace())?;
    play(alloc, world, events, telling)
}
