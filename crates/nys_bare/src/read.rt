//! Bare schedules read from their text.

ghost use Rattle.std.specs.Prelude.{◌≡◌, ◌<◌, ◌⊎◌, Ok, Err, IfErr, IfOk, length};
ghost use Rattle.nys_bare.specs.Schedule.{bare_schedule};

use crate::event::BareEvent;
use crate::fault::{ScheduleFault, schedule_fault};
use crate::line::BareLines;
use nys_text::read_lines;
use std::alloc::Global;

/// The most events of a schedule.
pub const MAX_EVENTS: usize = 100_000;

/// The events of a bare schedule for this many hosts, in order. The first line that is at fault, or that
/// holds one event more than `MAX_EVENTS`, is answered.
pub fn read_bare(alloc: Global, text: &str, hosts: u32) -> Result<Vec<BareEvent>, ScheduleFault>
    requires { length text.now < 4294967295 }
    ensures ok { IfOk result (λ events. bare_schedule hosts text.now ≡ Ok events.items) }
    ensures err { IfErr result (λ fault. (fault ≡ ScheduleFault.NoMemory)
        ⊎ (bare_schedule hosts text.now ≡ Err fault)) }
{
    match read_lines(alloc, &BareLines { hosts }, MAX_EVENTS, text) {
        Ok(events) => Ok(events),
        Err(fault) => Err(schedule_fault(fault)),
    }
}
