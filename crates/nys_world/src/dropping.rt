//! Packets that parties drop by the heads of their records: nothing of them is read again.

ghost use Rattle.std.specs.Prelude.{◌≡◌, ◌<◌, IfSome, Some, slice_get, true};
ghost use Rattle.nys_rules.specs.Happening.{NodeTakes, OlympusTakes};
ghost use Rattle.nys_rules.specs.World.{is_honest, World};
ghost use Rattle.nys_wire.specs.Heads.{head_in};
ghost use Rattle.nys_world.specs.Given.{bytes_given, HasNode, IsDropped, IsUnheard};
ghost use Rattle.nys_world.specs.Outcomes.{Goes};
ghost use Rattle.nys_world.specs.Shows.{setting_in, IsShown, IsStage, Keeps, ShowsOn};
ghost use Rattle.nys_hosts.specs.declared.limits.TheConstants.{MAX_HOSTS};

use crate::books::Books;
use crate::giving::keep_take;
use crate::moment::Moment;
use crate::stage::Stage;
use nys_mac::LAST_PARTY;
use nys_node::Node;
use nys_rules::{DropCause, End, Take};
use nys_source::Protocol;
use nys_wire::Head;

/// The node of a host.
fn node_of<P: Protocol>(nodes: &[Option<Node<P>>], g: u32) -> &Node<P>
    requires { HasNode nodes.now g }
    ensures { slice_get nodes.now g ≡ Some (Some result.now) }
{
    nodes[g as usize].as_ref().unwrap()
}

/// The head of a packet's record; none where its bytes are no record, or there is no such packet.
fn head_at(heads: &[Option<Head>], k: u32) -> Option<&Head>
    ensures { IfSome result (λ head. slice_get heads.now k ≡ Some (Some head.now)) }
{
    match heads.get(k as usize) {
        Some(Some(head)) => Some(head),
        Some(None) => None,
        None => None,
    }
}

impl Books {
    /// The head of a packet's record; none where its bytes are no record, and for bytes that nobody sent.
    fn head_given(&self, packet: Option<u32>) -> Option<&Head>
        ensures { IfSome result (λ head. (w : World) → Keeps self.now w
            → head_in (bytes_given w packet) ≡ Some head.now) }
    {
        match packet {
            Some(k) => head_at(self.heads.as_slice(), k),
            None => None,
        }
    }
}

impl<P: Protocol> Moment<P> {
    /// Why the node of a host drops a packet, where the head of its record tells that.
    pub(crate) fn known_drop(
        &self,
        stage: &Stage<P>,
        g: u32,
        packet: Option<u32>,
    ) -> Option<DropCause>
        requires stage { IsStage (P.rules stage.now.cx.protocol) stage.now }
        requires shown { IsShown (P.rules stage.now.cx.protocol) stage.now self.now }
        requires host { g < MAX_HOSTS }
        requires honest { is_honest (setting_in P.rules stage.now) g ≡ true }
        ensures { IfSome result (λ cause. (w : World)
            → ShowsOn (P.rules stage.now.cx.protocol) stage.now self.now w
            → IsDropped (setting_in P.rules stage.now) w g (bytes_given w packet) cause) }
    {
        match self.books.head_given(packet) {
            Some(head) => node_of(self.nodes.as_slice(), g).drops(&stage.cx, head),
            None => None,
        }
    }

    /// A host is given what it drops for this cause: nothing changes but what is told of it.
    pub(crate) fn give_dropped(
        &mut self,
        stage: &Stage<P>,
        g: u32,
        packet: Option<u32>,
        cause: DropCause,
    ) -> Result<(), End>
        requires dropped { (w : World) → ShowsOn (P.rules stage.now.cx.protocol) stage.now self.old w
            → IsDropped (setting_in P.rules stage.now) w g (bytes_given w packet) cause }
        ensures { Goes (P.rules stage.now.cx.protocol) stage.now self.old self.new
            (λ setting w. NodeTakes setting w g packet (bytes_given w packet)) result }
    {
        let taken = Take {
            event: self.books.events,
            to: g,
            packet,
            dropped: Some(cause),
        };
        keep_take(&mut self.takes, stage.traced, taken)?;
        Ok(())
    }

    /// Why the Olympus drops a packet, where the head of its record tells that.
    pub(crate) fn known_unheard(&self, stage: &Stage<P>, packet: Option<u32>) -> Option<DropCause>
        ensures { IfSome result (λ cause. (w : World)
            → ShowsOn (P.rules stage.now.cx.protocol) stage.now self.now w
            → IsUnheard (setting_in P.rules stage.now) w (bytes_given w packet) cause) }
    {
        match self.books.head_given(packet) {
            Some(head) => self.olympus.drops(&stage.cx, head),
            None => None,
        }
    }

    /// The Olympus is given what it drops for this cause: nothing changes but what is told of it.
    pub(crate) fn give_unheard(
        &mut self,
        stage: &Stage<P>,
        packet: Option<u32>,
        cause: DropCause,
    ) -> Result<(), End>
        requires unheard { (w : World) → ShowsOn (P.rules stage.now.cx.protocol) stage.now self.old w
            → IsUnheard (setting_in P.rules stage.now) w (bytes_given w packet) cause }
        ensures { Goes (P.rules stage.now.cx.protocol) stage.now self.old self.new
            (λ setting w. OlympusTakes setting w packet (bytes_given w packet)) result }
    {
        let taken = Take {
            event: self.books.events,
            to: LAST_PARTY,
            packet,
            dropped: Some(cause),
        };
        keep_take(&mut self.takes, stage.traced, taken)?;
        Ok(())
    }
}
