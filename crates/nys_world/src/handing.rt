//! Hosts are handed inputs, and told to ask.

ghost use Rattle.std.specs.Prelude.{◌≡◌, ◌<◌, ◌&&◌, IsTrue, nat_lt, OnOk, true};
ghost use Rattle.nys_rules.specs.Happening.{IfHonest, NodeAsks, NodeIsHanded, with_full_note};
ghost use Rattle.nys_rules.specs.World.{is_honest};
ghost use Rattle.nys_world.specs.Outcomes.{Goes, Writes};
ghost use Rattle.nys_world.specs.Shows.{setting_in, IsShown, IsStage};
ghost use Rattle.nys_hosts.specs.declared.limits.TheConstants.{MAX_HOSTS};

use crate::books::Books;
use crate::moment::Moment;
use crate::stage::Stage;
use nys_bytes::{NoMemory, Payload};
use nys_config::hosts;
use nys_rules::{DropCause, End, NoteKind};
use nys_source::Protocol;
use std::alloc::Global;

/// Whether it is a host, and doesn't lie.
pub(crate) fn is_honest_host<P: Protocol>(stage: &Stage<P>, g: u32) -> bool
    ensures value { result ≡ (nat_lt g (P.rules stage.now.cx.protocol).hosts
        && is_honest (setting_in P.rules stage.now) g) }
    ensures host { IsTrue result → g < MAX_HOSTS }
{
    g < hosts(&stage.cx) && stage.is_honest(g)
}

/// It is told that an input found no room, where it was dropped.
fn note_full(books: &mut Books, h: u32, dropped: Option<DropCause>) -> Result<(), NoMemory>
    ensures { OnOk result (Writes books.old books.new (with_full_note h dropped)) }
{
    match dropped {
        Some(_) => books.note(NoteKind::QueueFull { h }),
        None => Ok(()),
    }
}

impl<P: Protocol> Moment<P> {
    /// A payload is handed to a host. A liar loses it.
    pub(crate) fn input(
        &mut self,
        alloc: Global,
        stage: &Stage<P>,
        h: u32,
        payload: Payload,
    ) -> Result<(), End>
        requires stage { IsStage (P.rules stage.now.cx.protocol) stage.now }
        requires shown { IsShown (P.rules stage.now.cx.protocol) stage.now self.old }
        requires host { h < (P.rules stage.now.cx.protocol).hosts }
        ensures { Goes (P.rules stage.now.cx.protocol) stage.now self.old self.new
            (λ setting w result. IfHonest (is_honest setting h) w result
            (NodeIsHanded setting w h payload result)) result }
    {
        if !is_honest_host(stage, h) {
            return Ok(());
        }
        self.hand(alloc, stage, h, payload)
    }

    /// A payload is handed to a host that doesn't lie.
    fn hand(&mut self, alloc: Global, stage: &Stage<P>, h: u32, payload: Payload) -> Result<(), End>
        requires stage { IsStage (P.rules stage.now.cx.protocol) stage.now }
        requires shown { IsShown (P.rules stage.now.cx.protocol) stage.now self.old }
        requires host { h < MAX_HOSTS }
        requires honest { is_honest (setting_in P.rules stage.now) h ≡ true }
        ensures { Goes (P.rules stage.now.cx.protocol) stage.now self.old self.new
            (λ setting w. NodeIsHanded setting w h payload) result }
    {
        match &mut self.nodes[h as usize] {
            Some(node) => {
                let handled = node.input(alloc, &stage.cx, payload)?;
                note_full(&mut self.books, h, handled.dropped)?;
                self.books.node_acted(alloc, h, node, handled)
            }
            None => Ok(()),
        }
    }

    /// A host asks. A liar does nothing.
    pub(crate) fn ask(&mut self, alloc: Global, stage: &Stage<P>, h: u32) -> Result<(), End>
        requires stage { IsStage (P.rules stage.now.cx.protocol) stage.now }
        requires shown { IsShown (P.rules stage.now.cx.protocol) stage.now self.old }
        requires host { h < (P.rules stage.now.cx.protocol).hosts }
        ensures { Goes (P.rules stage.now.cx.protocol) stage.now self.old self.new
            (λ setting w result. IfHonest (is_honest setting h) w result
            (NodeAsks setting w h result)) result }
    {
        if !is_honest_host(stage, h) {
            return Ok(());
        }
        self.tell_to_ask(alloc, stage, h)
    }

    /// A host that doesn't lie asks.
    fn tell_to_ask(&mut self, alloc: Global, stage: &Stage<P>, h: u32) -> Result<(), End>
        requires stage { IsStage (P.rules stage.now.cx.protocol) stage.now }
        requires shown { IsShown (P.rules stage.now.cx.protocol) stage.now self.old }
        requires host { h < MAX_HOSTS }
        requires honest { is_honest (setting_in P.rules stage.now) h ≡ true }
        ensures { Goes (P.rules stage.now.cx.protocol) stage.now self.old self.new
            (λ setting w. NodeAsks setting w h) result }
    {
        match &mut self.nodes[h as usize] {
            Some(node) => {
                let handled = node.ask(alloc, &stage.cx)?;
                self.books.node_acted(alloc, h, node, handled)
            }
            None => Ok(()),
        }
    }
}
