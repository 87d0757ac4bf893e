//! A party took a record: what it did joins the books, unless the record was forged or clashes.

ghost use Rattle.nys_node.specs.Means.{IsViewOf};
ghost use Rattle.nys_rules.specs.Forged.{makers_told};
ghost use Rattle.nys_rules.specs.Happening.{UnlessForged};
ghost use Rattle.nys_rules.specs.Olympus.{OlympusView};
ghost use Rattle.nys_rules.specs.Scope.{olympus};
ghost use Rattle.nys_rules.specs.View.{View};
ghost use Rattle.nys_rules.specs.World.{after_node, after_olympus, World};
ghost use Rattle.nys_world.specs.Grown.{AreAtHand, AreOfHosts};
ghost use Rattle.nys_world.specs.Outcomes.{Happened};
ghost use Rattle.nys_world.specs.Shows.{setting_in, IsKept, Keeps};

use crate::books::Books;
use crate::stage::Stage;
use nys_mac::LAST_PARTY;
use nys_node::Node;
use nys_rules::{End, Handled};
use nys_source::Protocol;
use std::alloc::Global;

impl Books {
    /// The node of `g` took a record, and is left so. The world ends where the node accepted a statement
    /// under a maker that doesn't lie and never made it, as a clash or as a forgery. What it logged is in
    /// logs of hosts, and at hand.
    pub(crate) fn node_took<P: Protocol>(
        &mut self,
        alloc: Global,
        stage: &Stage<P>,
        g: u32,
        node: &Node<P>,
        handled: Handled,
    ) -> Result<(), End>
        requires kept { IsKept self.old }
        requires view { (v : View) × IsViewOf (setting_in P.rules stage.now).scope node.now v
            × AreAtHand v handled.statement handled.acts.grew }
        requires hosts { AreOfHosts handled.acts.grew }
        ensures { (w : World) (v : View) → Keeps self.old w
            → IsViewOf (setting_in P.rules stage.now).scope node.now v
            → AreAtHand v handled.statement handled.acts.grew
            → Happened (λ _ next. Keeps self.new next)
            (UnlessForged (setting_in P.rules stage.now) w g handled.statement (makers_told handled)
            (after_node g v handled w)) result }
    {
        let done = self.unless_forged(alloc, stage, g, handled)?;
        self.node_acted(alloc, g, node, done)
    }

    /// The Olympus took a record. The world ends where it was forged, or clashes.
    pub(crate) fn olympus_took<P: Protocol>(
        &mut self,
        alloc: Global,
        stage: &Stage<P>,
        handled: Handled,
    ) -> Result<(), End>
        requires { IsKept self.old }
        ensures { (w : World) (o : OlympusView) → Keeps self.old w
            → Happened (λ _ next. Keeps self.new next)
            (UnlessForged (setting_in P.rules stage.now) w olympus handled.statement (makers_told handled)
            (after_olympus o handled w)) result }
    {
        let done = self.unless_forged(alloc, stage, LAST_PARTY, handled)?;
        self.olympus_acted(done)
    }
}
