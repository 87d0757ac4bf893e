//! What a line is by its grammar alone.

ghost use Rattle.std.specs.Prelude.{◌≡◌, IfOk, map};
ghost use Rattle.std.specs.Option.{option_map};
ghost use Rattle.nys_text.specs.Numbers.{only_num};
ghost use Rattle.nys_rules.specs.Events.{Plain, plain};
ghost use Rattle.nys_schedule.specs.Lines.{alone, bundle_of, bytes_of, input_of, packets_of, shaped, shaped_by, stated_of};

use crate::form::Form;
use crate::hexes::hexes_of;
use crate::keyword::{Keyword, keyword_in};
use crate::list::list_of;
use crate::numbers::nums_of;
use crate::said::Said;
use crate::stated::stated_of;
use nys_bytes::NoMemory;
use nys_rules::Event;
use nys_text::{num, only_num, payload_of};
use std::alloc::Global;

/// The event that the words of a line say in this form, where they are of its grammar.
#[tactic(auto, unfolding(crate::specs::Lines::shaped))]
pub(crate) fn shaped(alloc: Global, form: Form, words: &[&[u8]]) -> Result<Option<Said>, NoMemory>
    ensures { IfOk result (λ said. said ≡ shaped form (map (λ word. word.now) words.now)) }
{
    match words {
        [] => Ok(None),
        [word, words @ ..] => match keyword_in(form, word) {
            None => Ok(None),
            Some(keyword) => shaped_by(alloc, keyword, words),
        },
    }
}

fn shaped_by(alloc: Global, keyword: Keyword, words: &[&[u8]]) -> Result<Option<Said>, NoMemory>
    ensures { IfOk result (λ said. said ≡ shaped_by keyword (map (λ word. word.now) words.now)) }
{
    match keyword {
        Keyword::Input => input_of(alloc, words),
        Keyword::Deliver => Ok(deliver_of(only_num(words))),
        Keyword::Flush => Ok(alone(Event::Flush, words)),
        Keyword::Exchange => Ok(alone(Event::Exchange, words)),
        Keyword::Ask => Ok(ask_of(only_num(words))),
        Keyword::Bytes => bytes_of(alloc, words),
        Keyword::Say => say_of(alloc, words),
        Keyword::Bundle => bundle_of(alloc, words),
        Keyword::Steal => steal_of(alloc, words),
        Keyword::Wedge => Ok(alone(Event::Wedge, words)),
        Keyword::Decide => Ok(decide_of(only_num(words))),
        Keyword::Retire => Ok(retire_of(only_num(words))),
        Keyword::Open => Ok(alone(Event::Open, words)),
    }
}

fn alone(event: Event, words: &[&[u8]]) -> Option<Said>
    ensures { result ≡ alone (plain event) (map (λ word. word.now) words.now) }
{
    match words {
        [] => Some(Said::new(event)),
        [_, ..] => None,
    }
}

fn deliver_of(number: Option<u32>) -> Option<Said>
    ensures { result ≡ option_map Plain.Deliver number }
{
    let k = number?;
    Some(Said::new(Event::Deliver { k }))
}

fn ask_of(number: Option<u32>) -> Option<Said>
    ensures { result ≡ option_map Plain.Ask number }
{
    let h = number?;
    Some(Said::new(Event::Ask { h }))
}

fn decide_of(number: Option<u32>) -> Option<Said>
    ensures { result ≡ option_map Plain.Decide number }
{
    let h = number?;
    Some(Said::new(Event::Decide { h }))
}

fn retire_of(number: Option<u32>) -> Option<Said>
    ensures { result ≡ option_map Plain.Retire number }
{
    let h = number?;
    Some(Said::new(Event::Retire { h }))
}

/// What the words behind `input` say.
#[tactic(auto, unfolding(crate::specs::Lines::input_of))]
fn input_of(alloc: Global, words: &[&[u8]]) -> Result<Option<Said>, NoMemory>
    ensures { IfOk result (λ said. said ≡ input_of (map (λ word. word.now) words.now)) }
{
    match words {
        [] => Ok(None),
        [h, numbers @ ..] => {
            let Some(h) = num(h) else {
                return Ok(None);
            };
            let Some(payload) = payload_of(alloc, numbers)? else {
                return Ok(None);
            };
            Ok(Some(Said::new(Event::Input { h, payload })))
        }
    }
}

/// What the words behind `bytes` say.
#[tactic(auto, unfolding(crate::specs::Lines::bytes_of))]
fn bytes_of(alloc: Global, words: &[&[u8]]) -> Result<Option<Said>, NoMemory>
    ensures { IfOk result (λ said. said ≡ bytes_of (map (λ word. word.now) words.now)) }
{
    match words {
        [] => Ok(None),
        [_] => Ok(None),
        [to, digits] => {
            let Some(to) = num(to) else {
                return Ok(None);
            };
            let Some(frame) = hexes_of(alloc, digits)? else {
                return Ok(None);
            };
            Ok(Some(Said::new(Event::Bytes { to, frame })))
        }
        [_, _, _, ..] => Ok(None),
    }
}

fn say_of(alloc: Global, words: &[&[u8]]) -> Result<Option<Said>, NoMemory>
    ensures { IfOk result (λ said. said
        ≡ option_map (λ s. Plain.Say s.a s.to s.statement) (stated_of (map (λ word. word.now) words.now))) }
{
    let Some(stated) = stated_of(alloc, words)? else {
        return Ok(None);
    };
    Ok(Some(Said::new(Event::Say {
        a: stated.a,
        to: stated.to,
        statement: stated.statement,
    })))
}

fn steal_of(alloc: Global, words: &[&[u8]]) -> Result<Option<Said>, NoMemory>
    ensures { IfOk result (λ said. said
        ≡ option_map (λ s. Plain.Steal s.a s.to s.statement) (stated_of (map (λ word. word.now) words.now))) }
{
    let Some(stated) = stated_of(alloc, words)? else {
        return Ok(None);
    };
    Ok(Some(Said::new(Event::Steal {
        a: stated.a,
        to: stated.to,
        statement: stated.statement,
    })))
}

/// What the words behind `bundle` say.
#[tactic(auto, unfolding(crate::specs::Lines::bundle_of))]
fn bundle_of(alloc: Global, words: &[&[u8]]) -> Result<Option<Said>, NoMemory>
    ensures { IfOk result (λ said. said ≡ bundle_of (map (λ word. word.now) words.now)) }
{
    match words {
        [] => Ok(None),
        [_] => Ok(None),
        [a, list, words @ ..] => {
            let Some(a) = num(a) else {
                return Ok(None);
            };
            let Some(to) = list_of(alloc, list)? else {
                return Ok(None);
            };
            let Some(packets) = packets_of(alloc, words)? else {
                return Ok(None);
            };
            Ok(Some(Said::new(Event::Bundle { a, to, packets })))
        }
    }
}

/// The packets that words name, one or more.
fn packets_of(alloc: Global, words: &[&[u8]]) -> Result<Option<Vec<u32>>, NoMemory>
    ensures { IfOk result (λ packets. option_map (λ p. p.items) packets
        ≡ packets_of (map (λ word. word.now) words.now)) }
{
    match words {
        [] => Ok(None),
        [_, ..] => nums_of(alloc, words),
    }
}
