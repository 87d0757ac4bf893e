//! Schedules read from their text.

ghost use Rattle.std.specs.Prelude.{◌≡◌, ◌<◌, ◌⊎◌, ◌++◌, ◌∷◌, [], Ok, Err, All, IfErr, IfOk, OnOk, length, map};
ghost use Rattle.nys_hosts.specs.Sets.{has};
ghost use Rattle.nys_rules.specs.Events.{plain};
ghost use Rattle.nys_rules.specs.Asked.{IsEvent};
ghost use Rattle.nys_schedule.specs.Schedules.{line_of, schedule};

use crate::form::Form;
use crate::judging::judged;
use crate::line::shaped;
use crate::said::Said;
use nys_bare::{LineKind, MAX_EVENTS, ScheduleFault, schedule_fault};
use nys_bytes::NoMemory;
use nys_hosts::HostSet;
use nys_rules::Event;
use nys_text::{Grammar, read_lines};
use std::alloc::Global;

/// The grammar of the lines in this form, where there are this many hosts and these liars.
#[derive(Drop)]
struct ScheduleLines {
    form: Form,
    hosts: u32,
    liars: HostSet,
}

impl Grammar for ScheduleLines {
    type Item = Said;

    type Kind = LineKind;

    ghost says = { λ lines. line_of lines.form lines.hosts (has lines.liars) };

    fn read(&self, alloc: Global, words: &[&[u8]]) -> Result<Result<Said, LineKind>, NoMemory> {
        let said = shaped(alloc, self.form, words)?;
        Ok(judged(self.hosts, &self.liars, said))
    }
}

/// The events of a schedule for this many hosts and these liars, in order. The first line that is at
/// fault, or that holds one event more than `MAX_EVENTS`, is answered. A world of these hosts and
/// liars takes each of the events.
pub fn read_schedule(
    alloc: Global,
    text: &str,
    hosts: u32,
    liars: HostSet,
    form: Form,
) -> Result<Vec<Event>, ScheduleFault>
    requires { length text.now < 4294967295 }
    ensures ok { IfOk result (λ events. schedule form hosts (has liars) text.now
        ≡ Ok (map plain events.items)) }
    ensures err { IfErr result (λ fault. (fault ≡ ScheduleFault.NoMemory)
        ⊎ (schedule form hosts (has liars) text.now ≡ Err fault)) }
    ensures taken { IfOk result (λ events. All
        (λ event. IsEvent hosts (has liars) (plain event)) events.items) }
{
    let lines = ScheduleLines { form, hosts, liars };
    match read_lines(alloc, &lines, MAX_EVENTS, text) {
        Err(fault) => Err(schedule_fault(fault)),
        Ok(said) => match events_of(alloc, said) {
            Ok(events) => Ok(events),
            Err(NoMemory) => Err(ScheduleFault::NoMemory),
        },
    }
}

/// What the lines say, without the lines.
fn events_of(alloc: Global, lines: Vec<Said>) -> Result<Vec<Event>, NoMemory>
    ensures { IfOk result (λ events. map plain events.items ≡ lines.items) }
{
    let mut events = Vec::new(alloc);
    for said in lines {
        push(&mut events, said.into_event())?;
    }
    Ok(events)
}

fn push(events: &mut Vec<Event>, event: Event) -> Result<(), NoMemory>
    ensures { OnOk result (events.new.items ≡ events.old.items ++ event ∷ []) }
{
    events.push(event)?;
    Ok(())
}
