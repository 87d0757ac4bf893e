//! The lines of a bare schedule.

ghost use Rattle.std.specs.Prelude.{◌≡◌, IfOk, map};
ghost use Rattle.nys_text.specs.Numbers.{only_num};
ghost use Rattle.nys_bare.specs.Schedule.{deliver_of, event_of, input_of, input_said, stop_of};

use crate::event::BareEvent;
use crate::fault::LineKind;
use nys_bytes::{NoMemory, Payload};
use nys_text::{Grammar, num, only_num, payload_of};
use std::alloc::Global;

/// The grammar of the lines, where there are this many hosts.
#[derive(Drop)]
pub(crate) struct BareLines {
    pub(crate) hosts: u32,
}

impl Grammar for BareLines {
    type Item = BareEvent;

    type Kind = LineKind;

    ghost says = { λ lines. event_of lines.hosts };

    fn read(
        &self,
        alloc: Global,
        words: &[&[u8]],
    ) -> Result<Result<BareEvent, LineKind>, NoMemory> {
        read_line(alloc, self.hosts, words)
    }
}

fn read_line(
    alloc: Global,
    hosts: u32,
    words: &[&[u8]],
) -> Result<Result<BareEvent, LineKind>, NoMemory>
    ensures { IfOk result (λ said. said ≡ event_of hosts (map (λ word. word.now) words.now)) }
{
    match words {
        [] => Ok(Err(LineKind::Grammar)),
        [keyword, rest @ ..] => {
            if *keyword == b"input".as_slice() {
                return read_input(alloc, hosts, rest);
            }
            if *keyword == b"deliver".as_slice() {
                return Ok(read_deliver(rest));
            }
            if *keyword == b"stop".as_slice() {
                return Ok(read_stop(hosts, rest));
            }
            Ok(Err(LineKind::Grammar))
        }
    }
}

/// What these words say behind `input`.
fn read_input(
    alloc: Global,
    hosts: u32,
    words: &[&[u8]],
) -> Result<Result<BareEvent, LineKind>, NoMemory>
    ensures { IfOk result (λ said. said ≡ input_said hosts (map (λ word. word.now) words.now)) }
{
    match words {
        [] => Ok(Err(LineKind::Grammar)),
        [host, numbers @ ..] => {
            let payload = payload_of(alloc, numbers)?;
            Ok(input(hosts, num(host), payload))
        }
    }
}

fn input(hosts: u32, host: Option<u32>, payload: Option<Payload>) -> Result<BareEvent, LineKind>
    ensures { result ≡ input_of hosts host payload }
{
    match (host, payload) {
        (Some(h), Some(payload)) if h < hosts => Ok(BareEvent::Input { h, payload }),
        (Some(_), Some(_)) => Err(LineKind::Host),
        _ => Err(LineKind::Grammar),
    }
}

/// What these words say behind `deliver`.
fn read_deliver(words: &[&[u8]]) -> Result<BareEvent, LineKind>
    ensures { result ≡ deliver_of (only_num (map (λ word. word.now) words.now)) }
{
    match only_num(words) {
        Some(k) => Ok(BareEvent::Deliver { k }),
        None => Err(LineKind::Grammar),
    }
}

/// What these words say behind `stop`.
fn read_stop(hosts: u32, words: &[&[u8]]) -> Result<BareEvent, LineKind>
    ensures { result ≡ stop_of hosts (only_num (map (λ word. word.now) words.now)) }
{
    match only_num(words) {
        Some(h) if h < hosts => Ok(BareEvent::Stop { h }),
        Some(_) => Err(LineKind::Host),
        None => Err(LineKind::Grammar),
    }
}
