//! The lines of a run text.

ghost use Rattle.std.specs.Prelude.{◌≡◌, IfOk, map};
ghost use Rattle.nys_runs.specs.StepLines.{input_of, input_said, receive_of, receive_said, step_of, stop_of, stop_said};

use crate::fault::NotALine;
use nys_bytes::{NoMemory, Payload};
use nys_source::Step;
use nys_text::{Grammar, num, payload_of};
use std::alloc::Global;

/// The grammar of the lines.
#[derive(Drop)]
pub(crate) struct RunLines;

impl Grammar for RunLines {
    type Item = Step;

    type Kind = NotALine;

    ghost says = { λ _. step_of };

    fn read(&self, alloc: Global, words: &[&[u8]]) -> Result<Result<Step, NotALine>, NoMemory> {
        read_line(alloc, words)
    }
}

fn read_line(alloc: Global, words: &[&[u8]]) -> Result<Result<Step, NotALine>, NoMemory>
    ensures { IfOk result (λ said. said ≡ step_of (map (λ word. word.now) words.now)) }
{
    match words {
        [] => Ok(Err(NotALine)),
        [_] => Ok(Err(NotALine)),
        [host, keyword, rest @ ..] => {
            if *keyword == b"input".as_slice() {
                return read_input(alloc, num(host), rest);
            }
            if *keyword == b"receive".as_slice() {
                return Ok(read_receive(num(host), rest));
            }
            if *keyword == b"stop".as_slice() {
                return Ok(read_stop(num(host), rest));
            }
            Ok(Err(NotALine))
        }
    }
}

/// What these words say of the host behind `input`.
fn read_input(
    alloc: Global,
    host: Option<u32>,
    words: &[&[u8]],
) -> Result<Result<Step, NotALine>, NoMemory>
    ensures { IfOk result (λ said. said ≡ input_said host (map (λ word. word.now) words.now)) }
{
    let payload = payload_of(alloc, words)?;
    Ok(input(host, payload))
}

fn input(host: Option<u32>, payload: Option<Payload>) -> Result<Step, NotALine>
    ensures { result ≡ input_of host payload }
{
    match (host, payload) {
        (Some(h), Some(payload)) => Ok(Step::Input { h, payload }),
        _ => Err(NotALine),
    }
}

/// What these words say of the host behind `receive`.
fn read_receive(host: Option<u32>, words: &[&[u8]]) -> Result<Step, NotALine>
    ensures { result ≡ receive_said host (map (λ word. word.now) words.now) }
{
    if words.len() != 2 {
        return Err(NotALine);
    }
    receive(host, num(words[0]), num(words[1]))
}

fn receive(host: Option<u32>, sender: Option<u32>, number: Option<u32>) -> Result<Step, NotALine>
    ensures { result ≡ receive_of host sender number }
{
    match (host, sender, number) {
        (Some(h), Some(p), Some(k)) => Ok(Step::Receive { h, p, k }),
        _ => Err(NotALine),
    }
}

/// What these words say of the host behind `stop`.
fn read_stop(host: Option<u32>, words: &[&[u8]]) -> Result<Step, NotALine>
    ensures { result ≡ stop_said host (map (λ word. word.now) words.now) }
{
    if !words.is_empty() {
        return Err(NotALine);
    }
    match host {
        Some(h) => Ok(Step::Stop { h }),
        None => Err(NotALine),
    }
}
