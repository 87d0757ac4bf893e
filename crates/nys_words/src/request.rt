//! What the program is asked for, and the numbers that say which workload.

ghost use Rattle.std.specs.Prelude.{◌≡◌, ◌≤◌, ◌<◌, ◌^◌, IfSome, map};
ghost use Rattle.nys_words.specs.Words.{answer_to_word, number_in, with_events, with_hosts, with_seed, workload_by};

use crate::command::{Command, named};
use itoa::Buffer;
use nys_hosts::MAX_HOSTS;

/// How many hosts a workload has at least.
pub const MIN_HOSTS: u32 = 4;

/// How many events a workload has at most.
pub const MAX_EVENTS: u32 = 10_000;

/// A workload that is to be drawn.
#[derive(Debug, Clone, Copy, PartialEq, Eq)]
pub struct Workload {
    /// Where the generator begins.
    pub seed: u64,
    /// How many hosts there are.
    pub hosts: u32,
    /// How many events are drawn.
    pub events: u32,
}

/// What the program is asked for.
#[derive(Debug, Clone, Copy, PartialEq, Eq)]
pub enum Request {
    /// A command on the document that is read.
    Document(Command),
    /// A workload; nothing is read.
    Workload(Workload),
}

/// The request that a first word and the words after it are, or the place of the first wrong word.
pub(crate) fn request_of(word: &str, values: &[&str]) -> Result<Request, usize>
    ensures { result ≡ answer_to_word word.now (map (λ value. value.now) values.now) }
{
    if word == "workload" {
        return workload_by(values);
    }
    let Some(command) = named(word) else {
        return Err(0);
    };
    if values.is_empty() {
        Ok(Request::Document(command))
    } else {
        Err(1)
    }
}

/// The workload that the words after `workload` ask for, or the place of the first wrong word.
fn workload_by(values: &[&str]) -> Result<Request, usize>
    ensures { result ≡ workload_by (map (λ value. value.now) values.now) }
{
    match values {
        [] => Err(1),
        [word, rest @ ..] => match number(word, 0, u64::MAX) {
            Some(seed) => with_seed(seed, rest),
            None => Err(1),
        },
    }
}

/// The workload of a seed and the words behind it.
fn with_seed(seed: u64, values: &[&str]) -> Result<Request, usize>
    ensures { result ≡ with_seed seed (map (λ value. value.now) values.now) }
{
    match values {
        [] => Err(2),
        [word, rest @ ..] => match number(word, u64::from(MIN_HOSTS), MAX_HOSTS as u64) {
            Some(hosts) => with_hosts(seed, hosts as u32, rest),
            None => Err(2),
        },
    }
}

/// The workload of a seed, so many hosts and the words behind them.
fn with_hosts(seed: u64, hosts: u32, values: &[&str]) -> Result<Request, usize>
    ensures { result ≡ with_hosts seed hosts (map (λ value. value.now) values.now) }
{
    match values {
        [] => Err(3),
        [word, rest @ ..] => match number(word, 0, u64::from(MAX_EVENTS)) {
            Some(events) => with_events(seed, hosts, events as u32, rest),
            None => Err(3),
        },
    }
}

/// The workload of three numbers, where no word stands behind them.
fn with_events(seed: u64, hosts: u32, events: u32, values: &[&str]) -> Result<Request, usize>
    ensures { result ≡ with_events seed hosts events (map (λ value. value.now) values.now) }
{
    if !values.is_empty() {
        return Err(4);
    }
    Ok(Request::Workload(Workload {
        seed,
        hosts,
        events,
    }))
}

/// The number that a word writes in digits alone, with no zero before them, where it is between these.
fn number(word: &str, low: u64, high: u64) -> Option<u64>
    ensures value { result ≡ number_in low high word.now }
    ensures bound { IfSome result (λ value. value ≤ high) }
{
    let Ok(value) = word.parse::<u64>() else {
        return None;
    };
    let mut buffer = Buffer::new();
    if buffer.format(value) == word && low <= value && value <= high {
        Some(value)
    } else {
        None
    }
}
