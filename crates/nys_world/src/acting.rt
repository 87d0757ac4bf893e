//! What a party did joins the books.

ghost use Rattle.std.specs.Prelude.{◌≡◌, ◌<◌, slice_get, option_copied, IfSome, OnOk};
ghost use Rattle.nys_node.specs.Means.{HasView, IsViewOf};
ghost use Rattle.nys_rules.specs.Scope.{Scope};
ghost use Rattle.nys_rules.specs.View.{View};
ghost use Rattle.nys_rules.specs.Olympus.{OlympusView};
ghost use Rattle.nys_rules.specs.World.{after_node, after_olympus, with_grown, with_slot, World};
ghost use Rattle.nys_world.specs.Grown.{AreAtHand, AreOfHosts, inherited, inherited_as, inherited_by, IsAtHand};
ghost use Rattle.nys_world.specs.Outcomes.{Happened, Writes};
ghost use Rattle.nys_world.specs.Shows.{IsKept, Keeps};
ghost use Rattle.nys_hosts.specs.declared.limits.TheConstants.{MAX_HOSTS};

use crate::books::Books;
use nys_bytes::{Content, NoMemory};
use nys_mac::LAST_PARTY;
use nys_node::Node;
use nys_rules::{End, Handled};
use nys_source::Protocol;
use nys_stmt::{Body, FilledKind, Statement};
use std::alloc::Global;

/// The content that a statement of this kind hands over, where it is of the slot that is asked for.
fn inherited_as(kind: FilledKind, here: bool, content: &Content) -> Option<&Content>
    ensures { option_copied result ≡ inherited_as kind here content.now }
{
    match kind {
        FilledKind::Offer => None,
        FilledKind::Order => None,
        FilledKind::Deliver => None,
        FilledKind::Report => None,
        FilledKind::Inherit => { if here { Some(content) } else { None } }
    }
}

/// The content that a statement hands over for the slot of a host, if it does.
fn inherited_by(body: &Body, h: u32, slot: u32) -> Option<&Content>
    ensures { option_copied result ≡ inherited_by body.now h slot }
{
    match body {
        Body::Filled {
            kind,
            h: host,
            slot: at,
            content,
        } => inherited_as(*kind, *host == h && *at == slot, content),
        Body::Attest { .. } => None,
        Body::Ask { .. } => None,
        Body::Wedge => None,
        Body::Frozen { .. } => None,
        Body::Open { .. } => None,
    }
}

/// The same of the statement that a call took, if it took one.
fn inherited(told: &Option<Statement>, h: u32, slot: u32) -> Option<&Content>
    ensures { option_copied result ≡ inherited told.now h slot }
{
    match told {
        Some(statement) => inherited_by(&statement.body, h, slot),
        None => None,
    }
}

/// The entry that a node's log of a host has in a slot, if it has one. One that the node has forgotten is read
/// from the statement that it took.
fn entry_of<'a, P: Protocol>(
    node: &'a Node<P>,
    told: &'a Option<Statement>,
    h: u32,
    slot: u32,
) -> Option<&'a Content>
    requires view { (scope : Scope P.State) × HasView scope node.now }
    requires host { h < MAX_HOSTS }
    ensures entry { (scope : Scope P.State) (v : View) → IsViewOf scope node.now v
        → IsAtHand v told.now (h, slot) → option_copied result ≡ slice_get (v.logs h) slot }
    ensures slot { IfSome result (λ _. slot < 4294967295) }
{
    match node.replica(h) {
        Some(replica) => {
            if slot < replica.kept_from() {
                return inherited(told, h, slot);
            }
            if slot < replica.len() {
                Some(replica.entry(slot))
            } else {
                None
            }
        }
        None => None,
    }
}

impl Books {
    /// What the node of `g` did in a call that left it so. What it logged is in logs of hosts, and at hand.
    pub(crate) fn node_acted<P: Protocol>(
        &mut self,
        alloc: Global,
        g: u32,
        node: &Node<P>,
        handled: Handled,
    ) -> Result<(), End>
        requires kept { IsKept self.old }
        requires view { (scope : Scope P.State) × (v : View) × IsViewOf scope node.now v
            × AreAtHand v handled.statement handled.acts.grew }
        requires hosts { AreOfHosts handled.acts.grew }
        ensures { (scope : Scope P.State) (w : World) (v : View) → Keeps self.old w
            → IsViewOf scope node.now v → AreAtHand v handled.statement handled.acts.grew → Happened (λ _ next. Keeps self.new next) (λ r. r
            ≡ after_node g v handled w) result }
    {
        self.made(g, handled.made.as_slice())?;
        self.grew(alloc, node, &handled.statement, handled.grew.as_slice())?;
        self.post(handled.packets)
    }

    /// The entries that a node logged in these slots are run where they pass all logs, in order.
    fn grew<P: Protocol>(
        &mut self,
        alloc: Global,
        node: &Node<P>,
        told: &Option<Statement>,
        slots: &[(u32, u32)],
    ) -> Result<(), NoMemory>
        requires view { (scope : Scope P.State) × HasView scope node.now }
        requires hosts { AreOfHosts slots.now }
        ensures { OnOk result ((scope : Scope P.State) (v : View) → IsViewOf scope node.now v
            → AreAtHand v told.now slots.now → Writes self.old self.new (with_grown v slots.now)) }
    {
        for (h, slot) in slots {
            self.grew_by_one(alloc, node, told, *h, *slot)?;
        }
        Ok(())
    }

    /// The entry that a node logged in the slot of a host is run where it passes all logs.
    fn grew_by_one<P: Protocol>(
        &mut self,
        alloc: Global,
        node: &Node<P>,
        told: &Option<Statement>,
        h: u32,
        slot: u32,
    ) -> Result<(), NoMemory>
        requires view { (scope : Scope P.State) × HasView scope node.now }
        requires host { h < MAX_HOSTS }
        ensures { OnOk result ((scope : Scope P.State) (v : View) → IsViewOf scope node.now v
            → IsAtHand v told.now (h, slot) → Writes self.old self.new (with_slot h slot (slice_get (v.logs h) slot))) }
    {
        match entry_of(node, told, h, slot) {
            Some(content) => self.log(alloc, h, slot, content),
            None => Ok(()),
        }
    }

    /// What the Olympus did in a call that left it so.
    pub(crate) fn olympus_acted(&mut self, handled: Handled) -> Result<(), End>
        requires { IsKept self.old }
        ensures { (w : World) (o : OlympusView) → Keeps self.old w
            → Happened (λ _ next. Keeps self.new next) (λ r. r ≡ after_olympus o handled w) result }
    {
        self.made(LAST_PARTY, handled.made.as_slice())?;
        self.post(handled.packets)
    }
}
