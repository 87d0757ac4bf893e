//! The Olympus is told to end an epoch, to decide, to give a host up, and to open the next epoch.

ghost use Rattle.std.specs.Prelude.{◌≡◌, ◌<◌, ◌≤◌};
ghost use Rattle.nys_rules.specs.Happening.{OlympusDecides, OlympusOpens, OlympusRetires, OlympusWedges, wedge_note};
ghost use Rattle.nys_rules.specs.Olympus.{OlympusView};
ghost use Rattle.nys_rules.specs.World.{after_olympus, with_note, World};
ghost use Rattle.nys_world.specs.Outcomes.{Goes, Happened};
ghost use Rattle.nys_world.specs.Shows.{IsKept, IsShown, IsStage, Keeps, setting_of};
ghost use Rattle.nys_hosts.specs.declared.limits.TheConstants.{MAX_HOSTS};

use crate::books::Books;
use crate::moment::Moment;
use crate::stage::Stage;
use nys_config::hosts;
use nys_rules::{End, Handled, NoteKind};
use nys_source::Protocol;
use std::alloc::Global;

/// Tells that hosts are numbers below 32; does nothing.
pub(crate) fn known_hosts<P: Protocol>(stage: &Stage<P>)
    ensures { (P.rules stage.now.cx.protocol).hosts ≤ MAX_HOSTS }
{
    let _hosts = hosts(&stage.cx);
}

/// What is told where the Olympus of an epoch was told to end it, and did or didn't.
fn wedge_note(epoch: u32, did: bool) -> NoteKind
    ensures { (o : OlympusView) → epoch ≡ o.epoch → result ≡ wedge_note o did }
{
    if did {
        NoteKind::Wedged { epoch }
    } else {
        NoteKind::AlreadyWedged
    }
}

impl Books {
    /// The Olympus answered so, of which it is told, and did this.
    fn olympus_answered(&mut self, kind: NoteKind, handled: Handled) -> Result<(), End>
        requires { IsKept self.old }
        ensures { (w : World) (o : OlympusView) → Keeps self.old w
            → Happened (λ _ next. Keeps self.new next) (λ r. r
            ≡ after_olympus o handled (with_note kind w)) result }
    {
        self.note(kind)?;
        self.olympus_acted(handled)
    }
}

impl<P: Protocol> Moment<P> {
    /// The Olympus begins to end the epoch, or is ending it.
    pub(crate) fn wedge(&mut self, alloc: Global, stage: &Stage<P>) -> Result<(), End>
        requires stage { IsStage (P.rules stage.now.cx.protocol) stage.now }
        requires shown { IsShown (P.rules stage.now.cx.protocol) stage.now self.old }
        ensures { Goes (P.rules stage.now.cx.protocol) stage.now self.old self.new
            (λ setting w. OlympusWedges setting w) result }
    {
        let epoch = self.olympus.epoch();
        let (did, handled) = self.olympus.wedge(alloc, &stage.cx)?;
        self.books.olympus_answered(wedge_note(epoch, did), handled)
    }

    /// The Olympus decides the log of a host, if it can.
    pub(crate) fn decide(&mut self, alloc: Global, stage: &Stage<P>, h: u32) -> Result<(), End>
        requires stage { IsStage (P.rules stage.now.cx.protocol) stage.now }
        requires shown { IsShown (P.rules stage.now.cx.protocol) stage.now self.old }
        requires host { h < (P.rules stage.now.cx.protocol).hosts }
        ensures { Goes (P.rules stage.now.cx.protocol) stage.now self.old self.new
            (λ setting w. OlympusDecides setting w h) result }
    {
        known_hosts(stage);
        let answer = self.olympus.decide(alloc, &stage.cx, h)?;
        self.books.decided(alloc, h, self.olympus.decided(h))?;
        self.books.note(NoteKind::Decide { h, answer })?;
        Ok(())
    }

    /// The Olympus gives a host up, if it may.
    pub(crate) fn retire(&mut self, stage: &Stage<P>, h: u32) -> Result<(), End>
        requires shown { IsShown (P.rules stage.now.cx.protocol) stage.now self.old }
        requires host { h < (P.rules stage.now.cx.protocol).hosts }
        ensures { Goes (P.rules stage.now.cx.protocol) stage.now self.old self.new
            (λ setting w. OlympusRetires w h) result }
    {
        known_hosts(stage);
        let answer = self.olympus.retire(h);
        self.books.note(NoteKind::Retire { h, answer })?;
        Ok(())
    }

    /// The Olympus opens the next epoch, if it may.
    pub(crate) fn open(&mut self, alloc: Global, stage: &Stage<P>) -> Result<(), End>
        requires stage { IsStage (P.rules stage.now.cx.protocol) stage.now }
        requires shown { IsShown (P.rules stage.now.cx.protocol) stage.now self.old }
        ensures { Goes (P.rules stage.now.cx.protocol) stage.now self.old self.new
            (λ setting w. OlympusOpens setting w) result }
    {
        let (answer, handled) = self.olympus.open_next(alloc, &stage.cx)?;
        self.books
            .olympus_answered(NoteKind::Open { answer }, handled)
    }
}
