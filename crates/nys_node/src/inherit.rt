//! The rule Inherit: a guard logs what the Olympus hands over, up to the base of its epoch.

ghost use Rattle.std.specs.Prelude.{◌≡◌, ◌<◌, ℕ, List, OnOk, ◌&&◌, ◌==◌, true, IfNone, Some, None};
ghost use Rattle.nys_node.specs.Logging.{CanLog};
ghost use Rattle.nys_node.specs.Means.{Known, Means};
ghost use Rattle.nys_config.specs.Scopes.{scope_in};
ghost use Rattle.nys_rules.specs.Handling.{acts_by_body};
ghost use Rattle.nys_rules.specs.Logging.{logged, fits};
ghost use Rattle.nys_rules.specs.Packets.{joined};
ghost use Rattle.nys_rules.specs.Scope.{Scope};
ghost use Rattle.nys_rules.specs.View.{View};
ghost use Rattle.nys_wire.specs.Heads.{message_in};
ghost use Rattle.nys_hosts.specs.declared.limits.TheConstants.{MAX_HOSTS};
ghost use Rattle.nys_rules.specs.Dropping.{if_current, inherit_drop};

use crate::node::Node;
use nys_bytes::{Content, NoMemory};
use nys_config::{Config, hosts, linked};
use nys_rules::DropCause;
use nys_sending::outbox::Outbox;
use nys_source::Protocol;
use nys_stmt::{Body, FilledKind, Tags};
use std::alloc::Global;

impl<P: Protocol> Node<P> {
    /// What the node does at once by what is said of a content: it logs what it inherits.
    pub(crate) fn act_filled(
        &self,
        kind: FilledKind,
        h: u32,
        out: &mut Outbox,
    ) -> Result<(), NoMemory>
        requires host { h < MAX_HOSTS }
        ensures { OnOk result ((scope : Scope P.State)
            → Known scope self.now (λ v. (slot : ℕ) (content : Content) (makers : List Tags)
            → out.new ≡ joined out.old
            (acts_by_body scope v (Body.Filled kind h slot content) makers))) }
    {
        match kind {
            FilledKind::Offer => Ok(()),
            FilledKind::Order => Ok(()),
            FilledKind::Deliver => Ok(()),
            FilledKind::Report => Ok(()),
            FilledKind::Inherit => {
                out.grow(h, self.log_len(h))?;
                Ok(())
            }
        }
    }

    /// An entry that the node inherits.
    pub(crate) fn note_entry(
        &mut self,
        alloc: Global,
        cx: &Config<P>,
        h: u32,
        content: &Content,
    ) -> Result<(), NoMemory>
        requires host { h < MAX_HOSTS }
        requires next { CanLog (scope_in P.rules cx.now) self.old h content.now }
        ensures { OnOk result ((v : View) → Means (scope_in P.rules cx.now) self.old v
            → Means (scope_in P.rules cx.now) self.new (logged (scope_in P.rules cx.now) h content.now v)) }
    {
        let content = content.copy(alloc)?;
        self.log_entry(alloc, cx, h, content)?;
        Ok(())
    }

    /// The first test that an Inherit fails before its content is looked at.
    pub(crate) fn entry_drop(&self, epoch: u32, h: u32, slot: u32) -> Option<DropCause>
        ensures cause { (scope : Scope P.State) → Known scope self.now (λ v.
            result ≡ if_current v epoch (inherit_drop scope v h slot true)) }
        ensures host { IfNone result (h < MAX_HOSTS) }
    {
        if epoch != self.epoch {
            return Some(DropCause::Epoch);
        }
        if self.wedged {
            return Some(DropCause::Wedged);
        }
        if !self.live(h) {
            return Some(DropCause::NotGuard);
        }
        if slot == self.log_len(h) && !self.has_reached(h) {
            None
        } else {
            Some(DropCause::Slot)
        }
    }

    /// Whether a content fits the log of a host, by the sender and the number of the message that it is.
    #[tactic(auto, unfolding(nys_rules::specs::Logging::fits, nys_config::specs::Scopes::scope_of))]
    fn fits_message(&self, cx: &Config<P>, h: u32, message: Option<(u32, u32)>) -> bool
        requires { h < MAX_HOSTS }
        ensures { Known (scope_in P.rules cx.now) self.now (λ v. (content : Content)
            → message_in content ≡ message → result ≡ fits (scope_in P.rules cx.now) v h content) }
    {
        match message {
            None => true,
            Some((p, k)) => p < hosts(cx) && linked(cx, p, h) && k == self.next_number(p, h),
        }
    }

    /// The first test that an Inherit fails before its makers are looked at; `message` is the sender and the
    /// number of the message that its content is.
    pub(crate) fn inherit_drop(
        &self,
        cx: &Config<P>,
        epoch: u32,
        h: u32,
        slot: u32,
        message: Option<(u32, u32)>,
    ) -> Option<DropCause>
        ensures { Known (scope_in P.rules cx.now) self.now (λ v. (content : Content)
            → message_in content ≡ message → result ≡ if_current v epoch
            (inherit_drop (scope_in P.rules cx.now) v h slot
            (fits (scope_in P.rules cx.now) v h content))) }
    {
        match self.entry_drop(epoch, h, slot) {
            Some(cause) => Some(cause),
            None => {
                if self.fits_message(cx, h, message) {
                    None
                } else {
                    Some(DropCause::Slot)
                }
            }
        }
    }
}
