//! Events happen.

ghost use Rattle.std.specs.Prelude.{◌≡◌, ◌<◌, ◌≤◌, ◌+◌, All, find, length, map, nat_lt, not};
ghost use Rattle.nys_hosts.specs.Sets.{has};
ghost use Rattle.nys_rules.specs.Asked.{IsEvent};
ghost use Rattle.nys_rules.specs.Events.{plain};
ghost use Rattle.nys_rules.specs.Happening.{bundle_or_end, Does, HappenAll, Happens, said_record, sent_to_all};
ghost use Rattle.nys_stmt.specs.Ranges.{IsInRange};
ghost use Rattle.nys_world.specs.Outcomes.{Goes};
ghost use Rattle.nys_world.specs.Shows.{IsKept, IsShown, IsStage, setting_of};
ghost use Rattle.nys_mac.specs.declared.keys.TheConstants.{LAST_PARTY};

use crate::commanding::known_hosts;
use crate::moment::Moment;
use crate::stage::Stage;
use nys_rules::{End, Event, Parties, STRANGER};
use nys_source::Protocol;
use nys_stmt::Statement;
use std::alloc::Global;

impl<P: Protocol> Moment<P> {
    /// A statement under the tags of a maker goes to parties, from this sender.
    fn say(
        &mut self,
        alloc: Global,
        stage: &Stage<P>,
        from: u32,
        maker: u32,
        to: Parties,
        statement: Statement,
    ) -> Result<(), End>
        requires kept { IsKept self.old.books }
        requires maker { maker ≤ LAST_PARTY }
        requires range { IsInRange statement }
        ensures { Goes (P.rules stage.now.cx.protocol) stage.now self.old self.new (λ setting w r. r
            ≡ sent_to_all from (said_record setting.scope maker statement to) to w) result }
    {
        self.books.say(alloc, stage, from, maker, &to, statement)
    }

    /// The makers that packets have for one statement go to parties in one record, from this sender.
    fn bundle(
        &mut self,
        alloc: Global,
        _stage: &Stage<P>,
        from: u32,
        to: Parties,
        packets: Vec<u32>,
    ) -> Result<(), End>
        requires kept { IsKept self.old.books }
        requires some { 1 ≤ length packets.items }
        ensures { Goes (P.rules _stage.now.cx.protocol) _stage.now self.old self.new (λ _ w r. r
            ≡ bundle_or_end w from to packets.items
            (find (λ k. not (nat_lt k (length w.pool))) packets.items)) result }
    {
        self.books.bundle(alloc, from, &to, packets.as_slice())
    }

    /// What an event does.
    fn act(&mut self, alloc: Global, stage: &Stage<P>, event: Event) -> Result<(), End>
        requires stage { IsStage (P.rules stage.now.cx.protocol) stage.now }
        requires shown { IsShown (P.rules stage.now.cx.protocol) stage.now self.old }
        requires event { IsEvent (P.rules stage.now.cx.protocol).hosts (has stage.now.liars) (plain event) }
        ensures { Goes (P.rules stage.now.cx.protocol) stage.now self.old self.new
            (λ setting w. Does setting w (plain event)) result }
    {
        known_hosts(stage);
        match event {
            Event::Input { h, payload } => self.input(alloc, stage, h, payload),
            Event::Deliver { k } => self.deliver(alloc, stage, k),
            Event::Flush => self.flush(alloc, stage),
            Event::Exchange => self.exchange(alloc, stage),
            Event::Ask { h } => self.ask(alloc, stage, h),
            Event::Bytes { to, frame } => self.give_bytes(alloc, stage, to, frame),
            Event::Say { a, to, statement } => self.say(alloc, stage, a, a, to, statement),
            Event::Bundle { a, to, packets } => self.bundle(alloc, stage, a, to, packets),
            Event::Steal { a, to, statement } => {
                self.say(alloc, stage, STRANGER, a, to, statement)
            }
            Event::Wedge => self.wedge(alloc, stage),
            Event::Decide { h } => self.decide(alloc, stage, h),
            Event::Retire { h } => self.retire(stage, h),
            Event::Open => self.open(alloc, stage),
        }
    }

    /// The event happens.
    pub(crate) fn step(&mut self, alloc: Global, stage: &Stage<P>, event: Event) -> Result<(), End>
        requires stage { IsStage (P.rules stage.now.cx.protocol) stage.now }
        requires shown { IsShown (P.rules stage.now.cx.protocol) stage.now self.old }
        requires room { self.old.books.events < 4294967295 }
        requires event { IsEvent (P.rules stage.now.cx.protocol).hosts (has stage.now.liars) (plain event) }
        ensures { Goes (P.rules stage.now.cx.protocol) stage.now self.old self.new
            (λ setting w. Happens setting w (plain event)) result }
    {
        self.act(alloc, stage, event)?;
        self.books.count();
        Ok(())
    }

    /// The events happen, one after another.
    pub(crate) fn run_all(
        &mut self,
        alloc: Global,
        stage: &Stage<P>,
        events: Vec<Event>,
    ) -> Result<(), End>
        requires stage { IsStage (P.rules stage.now.cx.protocol) stage.now }
        requires shown { IsShown (P.rules stage.now.cx.protocol) stage.now self.old }
        requires room { self.old.books.events + length events.items ≤ 4294967295 }
        requires events { All (λ event. IsEvent (P.rules stage.now.cx.protocol).hosts (has stage.now.liars)
            (plain event)) events.items }
        ensures { Goes (P.rules stage.now.cx.protocol) stage.now self.old self.new
            (λ setting w. HappenAll setting w (map plain events.items)) result }
    {
        for event in events {
            self.step(alloc, stage, event)?;
        }
        Ok(())
    }
}
