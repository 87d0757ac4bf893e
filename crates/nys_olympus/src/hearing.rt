//! What the Olympus does with bytes that it is given.

ghost use Rattle.std.specs.Prelude.{◌≡◌, ℕ, List, ◌<◌, ◌≤◌, None, Some, All, IfNone, IfSome, IsTrue, IfOk, OnOk, OnErr, fold, length, nat_le, nat_lt, not, ◌&&◌};
ghost use Rattle.nys_olympus.specs.Heard.{AreAccepted, IsHost, IsTestimony, NamesNoDrop};
ghost use Rattle.nys_olympus.specs.Means.{IsMeant, IsViewOf, Known};
ghost use Rattle.nys_config.specs.Config.{IsConfig};
ghost use Rattle.nys_rules.specs.Dropping.{unless};
ghost use Rattle.nys_rules.specs.Handling.{dropped_by};
ghost use Rattle.nys_rules.specs.Olympus.{Hears, HearsOf, is_settled, misplaced_testimony, olympus_verdict, OlympusView, testified_body, testimony_drop, with_report};
ghost use Rattle.nys_rules.specs.Scope.{Scope};
ghost use Rattle.nys_config.specs.Scopes.{scope_in};
ghost use Rattle.nys_source.specs.Tables.{put, put_at};
ghost use Rattle.nys_stmt.specs.Ranges.{IsBodyInRange, IsContentInRange};
ghost use Rattle.nys_stmt.specs.Records.{IsRecord};
ghost use Rattle.nys_votes.specs.Seats.{with_seat};
ghost use Rattle.nys_wire.specs.Heads.{head_in, head_of};
ghost use Rattle.nys_olympus.specs.HeadDrops.{head_drop, kind_drop};
ghost use Rattle.nys_hosts.specs.declared.limits.TheConstants.{MAX_HOSTS};
ghost use Rattle.nys_stmt.specs.declared.limits.TheConstants.{MAX_SLOT};

use crate::olympus::Olympus;
use crate::telling::{dropped, noted};
use nys_bytes::{Content, NoMemory};
use nys_config::{Config, hosts};
use nys_mac::LAST_PARTY;
use nys_rules::{DropCause, Handled};
use nys_seats::Seats;
use nys_sending::accepting::{FirstAccepted, accepted, first_accepted};
use nys_source::Protocol;
use nys_stmt::{Body, FilledKind, Record, Statement, Tags};
use nys_wire::{Head, Kind, RecordRef, RefFault};
use std::alloc::Global;

impl<P: Protocol> Olympus<P> {
    /// Whether something can be said of the host in this epoch.
    #[tactic(auto, unfolding(nys_config::specs::Scopes::scope_of))]
    fn is_heard(&self, cx: &Config<P>, h: u32) -> bool
        ensures value { Known (scope_in P.rules cx.now) self.now (λ o.
            result ≡ (nat_lt h (scope_in P.rules cx.now).rules.hosts
            && not (is_settled o h))) }
        ensures host { IsTrue result → h < MAX_HOSTS }
    {
        h < hosts(cx) && !self.is_settled(h)
    }

    /// The first test that a Report or a Frozen fails before what it says of a slot is looked at.
    fn testimony_drop(&self, cx: &Config<P>, epoch: u32, h: u32) -> Option<DropCause>
        ensures cause { Known (scope_in P.rules cx.now) self.now (λ o.
            result ≡ testimony_drop (scope_in P.rules cx.now) o epoch h None) }
        ensures host { IfNone result (h < MAX_HOSTS) }
    {
        if epoch != self.epoch {
            return Some(DropCause::Epoch);
        }
        if !self.wedged {
            return Some(DropCause::Wedged);
        }
        if !self.is_heard(cx, h) {
            return Some(DropCause::NotGuard);
        }
        None
    }

    /// The first test that a Report fails before its makers are looked at.
    fn report_drop(&self, cx: &Config<P>, epoch: u32, h: u32, slot: u32) -> Option<DropCause>
        ensures { Known (scope_in P.rules cx.now) self.now (λ o.
            result ≡ testimony_drop (scope_in P.rules cx.now) o epoch h
            (unless (nat_le (o.base h) slot) DropCause.Slot None)) }
    {
        match self.testimony_drop(cx, epoch, h) {
            Some(cause) => Some(cause),
            None => {
                if self.base[h as usize] <= slot {
                    None
                } else {
                    Some(DropCause::Slot)
                }
            }
        }
    }

    /// The first test that what is said of a content fails before its makers are looked at.
    fn filled_drop(
        &self,
        cx: &Config<P>,
        epoch: u32,
        kind: FilledKind,
        h: u32,
        slot: u32,
    ) -> Option<DropCause>
        ensures { Known (scope_in P.rules cx.now) self.now (λ o.
            result ≡ kind_drop (scope_in P.rules cx.now) o epoch h slot (Kind.Filled kind)) }
    {
        match kind {
            FilledKind::Offer => Some(DropCause::NotMine),
            FilledKind::Order => Some(DropCause::NotMine),
            FilledKind::Deliver => Some(DropCause::NotMine),
            FilledKind::Report => self.report_drop(cx, epoch, h, slot),
            FilledKind::Inherit => Some(DropCause::NotMine),
        }
    }

    /// The first test that a statement with this head fails before its makers are looked at.
    fn head_drop(&self, cx: &Config<P>, head: &Head) -> Option<DropCause>
        ensures { Known (scope_in P.rules cx.now) self.now (λ o.
            result ≡ head_drop (scope_in P.rules cx.now) o head.now) }
    {
        match head.kind {
            Kind::Filled(kind) => self.filled_drop(cx, head.epoch, kind, head.h, head.at),
            Kind::Frozen => self.testimony_drop(cx, head.epoch, head.h),
            Kind::Attest => Some(DropCause::NotMine),
            Kind::Ask => Some(DropCause::NotMine),
            Kind::Wedge => Some(DropCause::NotMine),
            Kind::Open => Some(DropCause::NotMine),
        }
    }

    /// Why the Olympus drops each record with this head, before it looks at the makers; none where they
    /// are to be looked at. Nothing is changed, and no memory is taken.
    pub fn drops(&self, cx: &Config<P>, head: &Head) -> Option<DropCause>
        ensures some { IfSome result (λ cause. Known (scope_in P.rules cx.now) self.now (λ o. (r : Record)
            → head_of r.statement ≡ head.now
            → olympus_verdict (scope_in P.rules cx.now) o r ≡ Some cause)) }
        ensures none { IfNone result (Known (scope_in P.rules cx.now) self.now (λ o. (s : Statement)
            → head_of s ≡ head.now
            → misplaced_testimony (scope_in P.rules cx.now) o s.epoch s.body ≡ None)) }
        // what `handle` answers to bytes that are such a record
        ensures handled { IfSome result
            (λ cause. Known (scope_in P.rules cx.now) self.now (λ o. (frame : List ℕ)
            → head_in frame ≡ Some head.now
            → Hears (scope_in P.rules cx.now) o frame o (dropped_by cause))) }
    {
        self.head_drop(cx, head)
    }

    /// The reports of these makers for a slot of a host are kept, where they are a maker's first.
    fn note_reports(
        &mut self,
        alloc: Global,
        h: u32,
        slot: u32,
        content: &Content,
        makers: &[Tags],
    ) -> Result<(), NoMemory>
        requires host { h < MAX_HOSTS }
        requires slot { slot ≤ MAX_SLOT }
        requires range { IsContentInRange content.now }
        requires rows { length self.old.reports.items ≡ MAX_HOSTS }
        ensures { OnOk result ((scope : Scope P.State) (o : OlympusView) → IsViewOf scope self.old o
            → IsViewOf scope self.new (record o {
              reports = put_at o.reports h slot
                  (fold (with_report content.now) (o.reports h slot) makers.now);
            })) }
    {
        self.reports[h as usize].note_all(alloc, slot, content, makers)
    }

    /// These makers are frozen at the slot, where they weren't frozen before.
    fn note_frozen(&mut self, h: u32, slot: u32, makers: &[Tags])
        requires host { h < MAX_HOSTS }
        requires hosts { All IsHost makers.now }
        requires rows { length self.old.frozen.items ≡ MAX_HOSTS }
        ensures { (scope : Scope P.State) (o : OlympusView) → IsViewOf scope self.old o
            → IsViewOf scope self.new (record o {
              frozen = put o.frozen h
                  (fold (λ seats m. with_seat m.maker slot seats) (o.frozen h) makers.now);
            }) }
    {
        freeze(&mut self.frozen[h as usize], slot, makers);
    }

    /// What the makers say is noted.
    fn testify(&mut self, alloc: Global, body: &Body, makers: &[Tags]) -> Result<(), NoMemory>
        requires placed { IsTestimony body.now }
        requires range { IsBodyInRange body.now }
        requires hosts { All IsHost makers.now }
        requires reports { length self.old.reports.items ≡ MAX_HOSTS }
        requires frozen { length self.old.frozen.items ≡ MAX_HOSTS }
        ensures { OnOk result ((scope : Scope P.State) (o : OlympusView) → IsViewOf scope self.old o
            → IsViewOf scope self.new (testified_body body.now makers.now o)) }
    {
        match body {
            Body::Filled {
                h,
                slot,
                content,
                ..
            } => self.note_reports(alloc, *h, *slot, content, makers),
            Body::Frozen { h, slot } => {
                self.note_frozen(*h, *slot, makers);
                Ok(())
            }
            _ => Ok(()),
        }
    }

    /// A record of which a maker is accepted: what its accepted makers say is noted.
    fn hear_accepted(
        &mut self,
        alloc: Global,
        cx: &Config<P>,
        given: &RecordRef,
        first: FirstAccepted,
    ) -> Result<Handled, NoMemory>
        requires whole { IsRecord given.now }
        requires placed { IsTestimony given.now.statement.body }
        requires makers { AreAccepted (scope_in P.rules cx.now) given.now first }
        requires reports { length self.old.reports.items ≡ MAX_HOSTS }
        requires frozen { length self.old.frozen.items ≡ MAX_HOSTS }
        ensures { IfOk result (λ done. Known (scope_in P.rules cx.now) self.old
            (λ o. (after : OlympusView) × IsViewOf (scope_in P.rules cx.now) self.new after
            × HearsOf (scope_in P.rules cx.now) o given.now None after done)) }
    {
        let makers = accepted(alloc, cx, LAST_PARTY, given, first)?;
        let statement = given.statement(alloc)?;
        self.testify(alloc, &statement.body, makers.as_slice())?;
        let done = noted(alloc, statement, makers.as_slice());
        Ok(done)
    }

    /// A record that has its place: it is dropped where no maker is accepted. No tag is looked at before,
    /// and no memory taken.
    fn hear_placed(
        &mut self,
        alloc: Global,
        cx: &Config<P>,
        given: &RecordRef,
    ) -> Result<Handled, NoMemory>
        requires whole { IsRecord given.now }
        requires means { IsMeant (scope_in P.rules cx.now) self.old }
        requires placed { Known (scope_in P.rules cx.now) self.old (λ o.
            misplaced_testimony (scope_in P.rules cx.now) o given.now.statement.epoch
            given.now.statement.body ≡ None) }
        ensures hears { IfOk result (λ done. Known (scope_in P.rules cx.now) self.old
            (λ o. (after : OlympusView) × IsViewOf (scope_in P.rules cx.now) self.new after
            × HearsOf (scope_in P.rules cx.now) o given.now
            (olympus_verdict (scope_in P.rules cx.now) o given.now) after done)) }
        ensures named { OnErr result (Known (scope_in P.rules cx.now) self.old (λ o.
            olympus_verdict (scope_in P.rules cx.now) o given.now ≡ None)) }
    {
        match first_accepted(cx, LAST_PARTY, given) {
            Some(first) => {
                let done = self.hear_accepted(alloc, cx, given, first)?;
                Ok(done)
            }
            None => Ok(dropped(alloc, DropCause::NoTag)),
        }
    }

    /// The Olympus is given a record: it is dropped where its head tells that it has no place.
    fn hear(
        &mut self,
        alloc: Global,
        cx: &Config<P>,
        given: &RecordRef,
    ) -> Result<Handled, NoMemory>
        requires whole { IsRecord given.now }
        requires means { IsMeant (scope_in P.rules cx.now) self.old }
        ensures hears { IfOk result (λ done. Known (scope_in P.rules cx.now) self.old
            (λ o. (after : OlympusView) × IsViewOf (scope_in P.rules cx.now) self.new after
            × HearsOf (scope_in P.rules cx.now) o given.now
            (olympus_verdict (scope_in P.rules cx.now) o given.now) after done)) }
        ensures named { OnErr result (Known (scope_in P.rules cx.now) self.old (λ o.
            olympus_verdict (scope_in P.rules cx.now) o given.now ≡ None)) }
    {
        match self.drops(cx, &given.head()) {
            Some(cause) => Ok(dropped(alloc, cause)),
            None => {
                let done = self.hear_placed(alloc, cx, given)?;
                Ok(done)
            }
        }
    }

    /// The Olympus is given bytes. What it drops changes nothing; of a record that it doesn't drop it
    /// keeps the first report and the first freezing of each guard. Bytes are read, and tags tested, where
    /// they lie: what is dropped takes no memory. Want of memory gives it up.
    pub fn handle(
        &mut self,
        alloc: Global,
        cx: &Config<P>,
        frame: &[u8],
    ) -> Result<Handled, NoMemory>
        requires config { IsConfig (P.rules cx.now.protocol).hosts cx.now }
        requires means { IsMeant (scope_in P.rules cx.now) self.old }
        ensures hears { IfOk result (λ done. Known (scope_in P.rules cx.now) self.old
            (λ o. (after : OlympusView) × IsViewOf (scope_in P.rules cx.now) self.new after
            × Hears (scope_in P.rules cx.now) o frame.now after done)) }
        // where the bytes are to be dropped, that is answered, and never want of memory
        ensures named { OnErr result (Known (scope_in P.rules cx.now) self.old (λ o.
            NamesNoDrop (scope_in P.rules cx.now) o frame.now)) }
    {
        match RecordRef::read(frame) {
            Ok(record) => {
                let done = self.hear(alloc, cx, &record)?;
                Ok(done)
            }
            Err(RefFault { place, kind }) => {
                Ok(dropped(alloc, DropCause::Malformed { place, kind }))
            }
        }
    }
}

/// These makers are frozen at the slot, where they weren't frozen before.
fn freeze(seats: &mut Seats<u32>, slot: u32, makers: &[Tags])
    requires hosts { All IsHost makers.now }
    ensures { seats.new ≡ fold (λ seats m. with_seat m.maker slot seats) seats.old makers.now }
{
    for tags in makers {
        seats.keep(tags.maker, slot);
    }
}
