//! The program `nysiad`: hands the words after its name, standard input and standard output to
//! `nys_top::run`, and ends with the status that it gives.
//!
//! Below: `nys_top`, which does all the work, `nys_answer` (statuses) and `nys_outside` (sources, sinks
//! and links).
//! Begin at `nys_top::run`.
#![tactic(auto)]

use nys_answer::Status;
use nys_bytes::Text;
use nys_outside::{MemLinks, StdSink, StdSource};
use nys_top::run;
use std::env::{Env, FillError};
use std::io;
use std::process::ExitCode;
use std::str::from_utf8;

/// How many bytes a word is given room for at first.
const FIRST_ROOM: usize = 256;

/// How often that room is doubled at most.
const DOUBLINGS: u32 = 32;

fn main(rt: HostRuntime) -> ExitCode {
    match start(&rt) {
        Ok(status) => ExitCode::from(status),
        Err(_) => ExitCode::from(Status::NoMemory.code()),
    }
}

/// Runs the program, and gives its status.
fn start(rt: &HostRuntime) -> io::Result<u8> {
    let words = words(rt)?;
    let mut input = StdSource::new(rt.stdin());
    let mut out = StdSink::new(rt.stdout());
    let Ok(mut links) = MemLinks::new(rt.alloc(), &[]) else {
        return Ok(Status::NoMemory.code());
    };
    Ok(run(
        rt.alloc(),
        words.as_slice(),
        &mut input,
        &mut out,
        &mut links,
    ))
}

/// The words after the program's name. Where one isn't UTF-8, words of which that place alone is wrong.
fn words(rt: &HostRuntime) -> io::Result<Vec<Text>> {
    let mut words = Vec::new(rt.alloc());
    for number in 1..usize::MAX {
        let Some(bytes) = argument(rt, number)? else {
            break;
        };
        let Ok(word) = from_utf8(bytes.as_slice()) else {
            return wrong_at(rt, words.len());
        };
        words.push(text(rt, word)?)?;
    }
    Ok(words)
}

/// Words that `run` refuses at this place, since a word that begins with a dash is refused at its own.
fn wrong_at(rt: &HostRuntime, place: usize) -> io::Result<Vec<Text>> {
    let mut words = Vec::new(rt.alloc());
    for _ in 0..place {
        words.push(text(rt, "")?)?;
    }
    words.push(text(rt, "-")?)?;
    Ok(words)
}

/// A word with memory of its own.
fn text(rt: &HostRuntime, word: &str) -> io::Result<Text> {
    let Ok(text) = Text::new(rt.alloc(), word) else {
        return Err(io::Error::from(io::ErrorKind::OutOfMemory));
    };
    Ok(text)
}

/// The bytes of an argument by its number, the program's name being 0; none past the last.
fn argument(rt: &HostRuntime, number: usize) -> io::Result<Option<Vec<u8>>> {
    let mut room = FIRST_ROOM;
    for _ in 0..DOUBLINGS {
        let mut bytes = Vec::new(rt.alloc());
        bytes.resize(room, 0)?;
        match rt.arg(number, bytes.as_mut_slice()) {
            Ok(len) => {
                bytes.truncate(len);
                return Ok(Some(bytes));
            }
            Err(FillError::NotPresent) => return Ok(None),
            Err(FillError::TooLong) => room = room.saturating_mul(2),
        }
    }
    Err(io::Error::from(io::ErrorKind::OutOfMemory))
}
