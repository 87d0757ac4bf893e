//! The command `workload`.

ghost use Rattle.std.specs.Prelude.{◌≤◌, IfOk};
ghost use Rattle.nys_hosts.specs.declared.limits.TheConstants.{MAX_HOSTS};
ghost use Rattle.nys_words.specs.declared.request.TheConstants.{MAX_EVENTS, MIN_HOSTS};
ghost use Rattle.nys_workload_command.specs.Answered.{IsWorkloadAnswer};

use crate::course::run_drawn;
use crate::scenario::fresh;
use crate::summary::summary;
use nys_answer::Answer;
use nys_bytes::NoMemory;
use nys_played::end_answer;
use nys_words::Workload;
use std::alloc::Global;

/// What `workload` answers: what the world has to which so many events happened that were drawn from the seed
/// for a ring of so many hosts, or the line of what ended it. The rule is "Drawn events" in docs/FORMATS.md.
pub fn workload(alloc: Global, drawing: Workload) -> Result<Answer, NoMemory>
    requires some { MIN_HOSTS ≤ drawing.hosts }
    requires few { drawing.hosts ≤ MAX_HOSTS }
    requires short { drawing.events ≤ MAX_EVENTS }
    ensures { IfOk result (IsWorkloadAnswer drawing) }
{
    let Workload {
        seed,
        hosts,
        events,
    } = drawing;
    let world = fresh(alloc, hosts)?;
    match run_drawn(alloc, world, seed, hosts, events) {
        Ok(course) => summary(alloc, seed, hosts, events, &course),
        Err(end) => end_answer(alloc, end),
    }
}
