//! The frames of one direction of links in memory, and the place of a direction in a table.

ghost use Rattle.std.specs.Prelude.{◌≡◌, ◌≢◌, ◌≤◌, ◌<◌, ◌+◌, ◌*◌, ℕ, List, [], ◌++◌, ◌∷◌, drop, IfOk, OnOk, OnErr, MatchOption, slice_index_or, length};
ghost use Rattle.nys_outside.specs.Counts.{RoseOnce};
ghost use Rattle.nys_outside.specs.Frames.{IsFrame};
ghost use Rattle.nys_outside.specs.Network.{Directed};
ghost use Rattle.nys_outside.specs.Ways.{Way, no_way, place_of, GaveFront};

use crate::got::Got;
use nys_bytes::NoMemory;
use std::alloc::Global;
use std::collections::VecDeque;
use std::marker::Model;

/// The bytes of one frame.
#[derive(Drop)]
pub struct Frame {
    bytes: Vec<u8>,
}

impl Model for Frame {
    ghost use Rattle.std.specs.Prelude.{ℕ, List};
    ghost use Rattle.nys_outside.specs.Frames.{IsFrame};

    ghost Value = { List ℕ };

    ghost view = { λ f. f.bytes.items };

    ghost invariant = { λ f. IsFrame f.bytes.items };
}

impl Frame {
    /// A copy of these bytes.
    pub fn new(alloc: Global, bytes: &[u8]) -> Result<Frame, NoMemory>
        requires { IsFrame bytes.now }
        ensures { IfOk result (λ frame. frame ≡ bytes.now) }
    {
        Ok(Frame {
            bytes: Vec::from_slice(alloc, bytes)?,
        })
    }

    /// The bytes.
    pub fn bytes(&self) -> &[u8]
        ensures value { result.now ≡ self.now }
        ensures whole { IsFrame self.now }
    {
        &self.bytes
    }
}

/// A frame that was given, with its direction.
#[derive(Drop)]
pub struct Delivery {
    from: u32,
    to: u32,
    frame: Frame,
}

impl Model for Delivery {
    ghost use Rattle.nys_outside.specs.Network.{Directed};

    ghost Value = { Directed };

    ghost view = { λ d. record { from = d.from; to = d.to; frame = d.frame } };
}

impl Delivery {
    /// A copy of the frame, from one host to another.
    fn new(alloc: Global, from: u32, to: u32, frame: &Frame) -> Result<Delivery, NoMemory>
        ensures { IfOk result (λ given. given ≡ record { from = from; to = to; frame = frame.now }) }
    {
        Ok(Delivery {
            from,
            to,
            frame: Frame::new(alloc, frame.bytes())?,
        })
    }
}

/// The frames that wait in one direction, oldest first, and how often it was polled.
#[derive(Drop)]
pub struct WayQueue {
    waiting: VecDeque<Frame>,
    polls: u64,
}

impl Model for WayQueue {
    ghost use Rattle.nys_outside.specs.Ways.{Way};

    ghost Value = { Way };

    ghost view = { λ w. record { waiting = w.waiting.items; polls = w.polls } };
}

impl WayQueue {
    /// A direction in which nothing was sent.
    pub fn new(alloc: Global) -> WayQueue
        ensures { result ≡ no_way }
    {
        WayQueue {
            waiting: VecDeque::new(alloc),
            polls: 0,
        }
    }

    /// Lets a frame wait, behind all others.
    pub fn put(&mut self, frame: Frame) -> Result<(), NoMemory>
        ensures ok { OnOk result (self.new.waiting ≡ self.old.waiting ++ frame ∷ []) }
        ensures err { OnErr result (self.new.waiting ≡ self.old.waiting) }
        ensures polls { self.new.polls ≡ self.old.polls }
    {
        self.waiting.push_back(frame)?;
        Ok(())
    }

    /// Counts one poll.
    pub fn count(&mut self)
        ensures counted { RoseOnce self.old.polls self.new.polls }
        ensures waiting { self.new.waiting ≡ self.old.waiting }
    {
        self.polls = self.polls.saturating_add(1);
    }

    /// Gives the oldest frame, if one waits.
    pub fn give(
        &mut self,
        alloc: Global,
        from: u32,
        to: u32,
        buf: &mut Vec<u8>,
        given: &mut Vec<Delivery>,
    ) -> Got
        ensures whole { result ≡ Got.Frame → IsFrame buf.new.items }
        ensures front { GaveFront from to result buf.new.items self.old.waiting self.new.waiting given.old.items given.new.items }
        ensures polls { self.new.polls ≡ self.old.polls }
    {
        let Some(frame) = self.waiting.front() else {
            return Got::NotYet;
        };
        match hand_out(alloc, from, to, frame, buf, given) {
            Ok(()) => {
                let _ = self.waiting.pop_front();
                Got::Frame
            }
            Err(_) => Got::NoMemory,
        }
    }
}

/// Puts a frame into the buffer, and a copy with its direction behind those that were given.
fn hand_out(
    alloc: Global,
    from: u32,
    to: u32,
    frame: &Frame,
    buf: &mut Vec<u8>,
    given: &mut Vec<Delivery>,
) -> Result<(), NoMemory>
    ensures whole { IsFrame frame.now }
    ensures buf { OnOk result (buf.new.items ≡ frame.now) }
    ensures ok { OnOk result (given.new.items ≡ given.old.items
        ++ record { from = from; to = to; frame = frame.now } ∷ []) }
    ensures err { OnErr result (given.new.items ≡ given.old.items) }
{
    buf.clear();
    buf.extend_from_slice(frame.bytes())?;
    given.push(Delivery::new(alloc, from, to, frame)?)?;
    Ok(())
}

/// The place of a direction in a table that grows: those between the first `n` hosts have the first
/// `n` squared places, whatever `n` is.
pub fn place(from: u32, to: u32) -> usize
    ensures { result ≡ place_of from to }
{
    let (f, t) = (from as usize, to as usize);
    if f < t { t * t + f } else { f * f + f + t }
}

/// Adds directions in which nothing was sent until there are so many places.
pub fn grow(alloc: Global, ways: &mut Vec<WayQueue>, count: usize) -> Result<(), NoMemory>
    ensures room { OnOk result (count ≤ length ways.new.items) }
    ensures longer { length ways.old.items ≤ length ways.new.items }
    ensures same { (i : ℕ) → slice_index_or ways.new.items i no_way ≡ slice_index_or ways.old.items i no_way }
{
    for _ in ways.len()..count {
        ways.push(WayQueue::new(alloc))?;
    }
    Ok(())
}
