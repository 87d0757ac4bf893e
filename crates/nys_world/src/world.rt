//! Worlds.

ghost use Rattle.std.specs.Prelude.{◌≡◌, ℕ, ◌<◌, ◌≤◌, ◌+◌, All, List, IfNone, IfOk, IfSome, None, Some, false, length, map, slice_get, true};
ghost use Rattle.nys_config.specs.Scopes.{scope_in};
ghost use Rattle.nys_follows.specs.Promises.{IsPromised};
ghost use Rattle.nys_follows.specs.Scenario.{IsScenario};
ghost use Rattle.nys_hosts.specs.Sets.{has};
ghost use Rattle.nys_config.specs.Config.{IsConfig};
ghost use Rattle.nys_node.specs.Means.{IsViewOf};
ghost use Rattle.nys_olympus.specs.Means as olympus;
ghost use Rattle.nys_outcomes.specs.Noise.{after_noise, Drops, NoiseChangesNothing};
ghost use Rattle.nys_rules.specs.Asked.{IsEvent};
ghost use Rattle.nys_rules.specs.declared.cause.DropCause.{DropCause};
ghost use Rattle.nys_rules.specs.Events.{plain};
ghost use Rattle.nys_rules.specs.Events.Plain.{Bytes};
ghost use Rattle.nys_rules.specs.Happening.{HappenAll, Happens};
ghost use Rattle.nys_rules.specs.World as rules;
ghost use Rattle.nys_world.specs.Outcomes.{Happened};
ghost use Rattle.nys_world.specs.Shows.{is_honest_host, setting_in, setting_of, IsStage};
ghost use Rattle.nys_world.specs.Worlds.{events_of, HasWorld, IsReached, IsWorldOf};

use crate::moment::Moment;
use crate::stage::Stage;
use nys_bytes::NoMemory;
use nys_config::Config;
use nys_follows::worlds_law;
use nys_hosts::HostSet;
use nys_node::Node;
use nys_olympus::Olympus;
use nys_outcomes::noise_law;
use nys_rules::{End, Event, Injected, Note, Packet, Take};
use nys_source::{Protocol, Step};
use std::alloc::Global;

/// Honest nodes, the Olympus and all that they did. Contracts see the world of the rules that events make.
#[derive(Drop)]
pub struct World<P: Protocol> {
    pub(crate) stage: Stage<P>,
    pub(crate) moment: Moment<P>,
}

/// Tells what the worlds of a scenario promise; does nothing.
fn known_promises<P: Protocol>(stage: &Stage<P>)
    ensures { IsScenario (setting_in P.rules stage.now) → (w : rules.World)
        → IsReached (setting_in P.rules stage.now) w → IsPromised (setting_in P.rules stage.now) w }
{
    worlds_law(&stage.cx.protocol);
}

/// Tells what bytes leave that a party drops; does nothing.
fn known_noise<P: Protocol>(stage: &Stage<P>)
    ensures { NoiseChangesNothing (setting_in P.rules stage.now) }
{
    noise_law(&stage.cx.protocol);
}

impl<P: Protocol> World<P> {
    /// The world before the first event. What is given to parties is kept where a trace is wanted.
    pub fn fresh(
        alloc: Global,
        cx: Config<P>,
        liars: HostSet,
        traced: bool,
    ) -> Result<World<P>, NoMemory>
        requires config { IsConfig (P.rules cx.protocol).hosts cx }
        ensures stage { IfOk result (λ world. world.stage
            ≡ record { cx = cx; liars = liars; traced = traced }) }
        ensures first { IfOk result (λ world. IsWorldOf (P.rules cx.protocol) world
            (rules.fresh_world (setting_of (P.rules cx.protocol) world.stage))) }
        ensures none { IfOk result (λ world. events_of world ≡ 0) }
    {
        let stage = Stage { cx, liars, traced };
        let moment = Moment::new(alloc, &stage)?;
        Ok(World { stage, moment })
    }

    /// The event happens: the next world, or the end. Want of memory gives the world up.
    pub fn step(self, alloc: Global, event: Event) -> Result<World<P>, End>
        requires config { IsStage (P.rules self.stage.cx.protocol) self.stage }
        requires shown { HasWorld (P.rules self.stage.cx.protocol) self }
        requires room { events_of self < 4294967295 }
        requires event { IsEvent (P.rules self.stage.cx.protocol).hosts (has self.stage.liars) (plain event) }
        ensures stage { IfOk result (λ next. next.stage ≡ self.stage) }
        ensures happens { (w : rules.World) → IsWorldOf (P.rules self.stage.cx.protocol) self w
            → Happened (IsWorldOf (P.rules self.stage.cx.protocol))
            (Happens (setting_in P.rules self.stage) w (plain event)) result }
        ensures promised { IfOk result (λ next. IsScenario (setting_in P.rules self.stage)
            → (w : rules.World) → IsWorldOf (P.rules self.stage.cx.protocol) next w
            → IsPromised (setting_in P.rules self.stage) w) }
        // Where the event gives bytes that an honest host or the Olympus drops, it changes nothing but the
        // count of events, and the lists of injected bytes and of takings by one more at their ends.
        ensures noise { IfOk result (λ next. (w after : rules.World) (to : ℕ) (frame : List ℕ)
            (cause : DropCause)
            → IsWorldOf (P.rules self.stage.cx.protocol) self w → plain event ≡ Bytes to frame
            → Drops (setting_in P.rules self.stage) w to frame cause after
            → IsWorldOf (P.rules self.stage.cx.protocol) next (after_noise to frame cause w)) }
    {
        let World { stage, mut moment } = self;
        known_promises(&stage);
        known_noise(&stage);
        moment.step(alloc, &stage, event)?;
        Ok(World { stage, moment })
    }

    /// The events happen, one after another: the world after the last, or the first end. Want of memory
    /// gives the world up.
    pub fn run_all(self, alloc: Global, events: Vec<Event>) -> Result<World<P>, End>
        requires config { IsStage (P.rules self.stage.cx.protocol) self.stage }
        requires shown { HasWorld (P.rules self.stage.cx.protocol) self }
        requires room { events_of self + length events.items ≤ 4294967295 }
        requires events { All (λ event. IsEvent (P.rules self.stage.cx.protocol).hosts
            (has self.stage.liars) (plain event)) events.items }
        ensures stage { IfOk result (λ next. next.stage ≡ self.stage) }
        ensures happens { (w : rules.World) → IsWorldOf (P.rules self.stage.cx.protocol) self w
            → Happened (IsWorldOf (P.rules self.stage.cx.protocol))
            (HappenAll (setting_in P.rules self.stage) w (map plain events.items)) result }
        ensures promised { IfOk result (λ next. IsScenario (setting_in P.rules self.stage)
            → (w : rules.World) → IsWorldOf (P.rules self.stage.cx.protocol) next w
            → IsPromised (setting_in P.rules self.stage) w) }
    {
        let World { stage, mut moment } = self;
        known_promises(&stage);
        moment.run_all(alloc, &stage, events)?;
        Ok(World { stage, moment })
    }

    /// What nodes know before anything happens.
    pub fn config(&self) -> &Config<P>
        ensures { result.now ≡ self.now.stage.cx }
    {
        &self.stage.cx
    }

    /// How many events there were.
    pub fn events(&self) -> u32
        ensures { result ≡ events_of self.now }
    {
        self.moment.books.events
    }

    /// A step for each entry by which a log passed all logs of its host, in order.
    pub fn run(&self) -> &[Step]
        ensures { (w : rules.World) → IsWorldOf (P.rules self.now.stage.cx.protocol) self.now w
            → result.now ≡ w.run }
    {
        self.moment.books.run.as_slice()
    }

    /// All packets, in order of sending.
    pub fn pool(&self) -> &[Packet]
        ensures { (w : rules.World) → IsWorldOf (P.rules self.now.stage.cx.protocol) self.now w
            → result.now ≡ w.pool }
    {
        self.moment.books.pool.as_slice()
    }

    /// The bytes that events gave, in order.
    pub fn injected(&self) -> &[Injected]
        ensures { (w : rules.World) → IsWorldOf (P.rules self.now.stage.cx.protocol) self.now w
            → result.now ≡ w.injected }
    {
        self.moment.books.injected.as_slice()
    }

    /// What was given to honest hosts and to the Olympus, in order; nothing where no trace was wanted.
    pub fn takes(&self) -> &[Take]
        ensures { self.now.stage.traced ≡ true → (w : rules.World)
            → IsWorldOf (P.rules self.now.stage.cx.protocol) self.now w → result.now ≡ w.takes }
    {
        self.moment.takes.as_slice()
    }

    /// What a reader wants to know, in order.
    pub fn notes(&self) -> &[Note]
        ensures { (w : rules.World) → IsWorldOf (P.rules self.now.stage.cx.protocol) self.now w
            → result.now ≡ w.notes }
    {
        self.moment.books.notes.as_slice()
    }

    /// The node of a host; `None` exactly for a liar and past the last host.
    #[tactic(auto, unfolding(nys_config::specs::Scopes::scope_of))]
    pub fn node(&self, h: u32) -> Option<&Node<P>>
        ensures some { IfSome result (λ node. (w : rules.World)
            → IsWorldOf (P.rules self.now.stage.cx.protocol) self.now w
            → (is_honest_host (setting_in P.rules self.now.stage) h ≡ true)
            × IsViewOf (scope_in P.rules self.now.stage.cx) node.now (w.nodes h)) }
        ensures none { IfNone result ((w : rules.World)
            → IsWorldOf (P.rules self.now.stage.cx.protocol) self.now w
            → is_honest_host (setting_in P.rules self.now.stage) h ≡ false) }
    {
        if self.stage.cx.protocol.graph().hosts() <= h {
            return None;
        }
        node_in(self.moment.nodes.as_slice(), h)
    }

    /// The Olympus.
    pub fn olympus(&self) -> &Olympus<P>
        ensures { (w : rules.World) → IsWorldOf (P.rules self.now.stage.cx.protocol) self.now w
            → olympus.IsViewOf (scope_in P.rules self.now.stage.cx) result.now
            w.olympus }
    {
        &self.moment.olympus
    }
}

/// The node in the place of a host, if one stands there.
fn node_in<P: Protocol>(nodes: &[Option<Node<P>>], h: u32) -> Option<&Node<P>>
    ensures some { IfSome result (λ node. slice_get nodes.now h ≡ Some (Some node.now)) }
    ensures none { IfNone result (h < length nodes.now → slice_get nodes.now h ≡ Some None) }
{
    match nodes.get(h as usize) {
        Some(Some(node)) => Some(node),
        Some(None) => None,
        None => None,
    }
}
