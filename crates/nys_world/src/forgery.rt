//! Whether a statement was forged, or clashes with another.

ghost use Rattle.std.specs.Prelude.{◌≡◌, ◌⊎◌, ◌∷◌, [], true, false, if◌then◌else◌, IfErr, IfNone, IfOk, IfSome};
ghost use Rattle.nys_hosts.specs.Sets.{has, members};
ghost use Rattle.nys_rules.specs.Forged.{makers_told};
ghost use Rattle.nys_rules.specs.Happening.{AreTrue, IsForged, TellsOf};
ghost use Rattle.nys_rules.specs.Scope.{olympus};
ghost use Rattle.nys_rules.specs.declared.notice.End.TheVariants.{Clash, NoMemory};
ghost use Rattle.nys_rules.specs.World.{World};
ghost use Rattle.nys_world.specs.Forgeries.{AreTrueWhere, MadeIfHonest, NeverMade, TellsForged};
ghost use Rattle.nys_world.specs.Shows.{setting_in, Keeps};

use crate::books::Books;
use crate::stage::Stage;
use nys_hosts::{HostSet, MAX_HOSTS};
use nys_mac::LAST_PARTY;
use nys_rules::{End, Handled};
use nys_source::Protocol;
use nys_stmt::Statement;
use std::alloc::Global;

impl Books {
    /// Whether the maker doesn't lie and never made the statement.
    fn never_made<P: Protocol>(&self, stage: &Stage<P>, maker: u32, statement: &Statement) -> bool
        ensures never { result ≡ true → (w : World) → Keeps self.now w
            → NeverMade (setting_in P.rules stage.now) w.ledger statement.now maker }
        ensures made { result ≡ false → (w : World) → Keeps self.now w
            → MadeIfHonest (setting_in P.rules stage.now) w.ledger statement.now maker }
    {
        stage.is_honest(maker) && !self.ledger.owns(maker, statement)
    }

    /// Whether the host is in the set, doesn't lie and never made the statement.
    fn is_forged_for<P: Protocol>(
        &self,
        stage: &Stage<P>,
        hosts: &HostSet,
        h: u32,
        statement: &Statement,
    ) -> bool
        ensures among { result ≡ true → has hosts.now h ≡ true }
        ensures never { result ≡ true → (w : World) → Keeps self.now w
            → NeverMade (setting_in P.rules stage.now) w.ledger statement.now h }
        ensures made { result ≡ false → has hosts.now h ≡ true → (w : World) → Keeps self.now w
            → MadeIfHonest (setting_in P.rules stage.now) w.ledger statement.now h }
    {
        hosts.contains(h) && self.never_made(stage, h, statement)
    }

    /// The first of the hosts that doesn't lie and never made the statement, if one is.
    fn forged_host<P: Protocol>(
        &self,
        stage: &Stage<P>,
        hosts: &HostSet,
        statement: &Statement,
    ) -> Option<u32>
        ensures some { IfSome result (λ maker. (w : World) → Keeps self.now w
            → IsForged (setting_in P.rules stage.now) w.ledger statement.now (members hosts.now) maker) }
        ensures none { IfNone result ((w : World) → Keeps self.now w
            → AreTrue (setting_in P.rules stage.now) w.ledger statement.now (members hosts.now)) }
    {
        for h in 0..MAX_HOSTS as u32 {
            if self.is_forged_for(stage, hosts, h, statement) {
                return Some(h);
            }
        }
        None
    }

    /// The Olympus, where it is told as a maker of the statement and never made it.
    fn forged_olympus<P: Protocol>(
        &self,
        stage: &Stage<P>,
        is_told: bool,
        statement: &Statement,
    ) -> Option<u32>
        ensures some { IfSome result (λ maker. (w : World) → Keeps self.now w
            → IsForged (setting_in P.rules stage.now) w.ledger statement.now (if is_told then olympus
            ∷ [] else []) maker) }
        ensures none { IfNone result ((w : World) → Keeps self.now w
            → AreTrue (setting_in P.rules stage.now) w.ledger statement.now (if is_told then olympus
            ∷ [] else [])) }
    {
        if !is_told {
            return None;
        }
        if self.never_made(stage, LAST_PARTY, statement) {
            return Some(LAST_PARTY);
        }
        None
    }

    /// The first of the makers that a party accepted of a statement that doesn't lie and never made it,
    /// if one is.
    pub(crate) fn forged<P: Protocol>(
        &self,
        stage: &Stage<P>,
        handled: &Handled,
        statement: &Statement,
    ) -> Option<u32>
        ensures some { IfSome result (λ maker. (w : World) → Keeps self.now w
            → IsForged (setting_in P.rules stage.now) w.ledger statement.now
            (makers_told handled.now) maker) }
        ensures none { IfNone result ((w : World) → Keeps self.now w
            → AreTrue (setting_in P.rules stage.now) w.ledger statement.now (makers_told handled.now)) }
    {
        match self.forged_host(stage, &handled.accepted, statement) {
            Some(maker) => Some(maker),
            None => self.forged_olympus(stage, handled.olympus, statement),
        }
    }

    /// The end of this event, in which a party took a statement that this maker hadn't made: a clash with
    /// the first that it made of the same spelling, and else a forgery.
    fn untrue(&self, alloc: Global, maker: u32, taker: u32, taken: Statement) -> End
        ensures { (w : World) → Keeps self.now w → (result ≡ NoMemory)
            ⊎ TellsOf w.ledger w.events maker taker taken result }
    {
        match self.ledger.shares(maker, &taken) {
            Some(first) => self.clash(alloc, maker, taker, first, taken),
            None => End::Forged {
                event: self.events,
                maker,
                taker,
                statement: taken,
            },
        }
    }

    /// The end of this event, where what was taken clashes with what the maker made.
    fn clash(
        &self,
        alloc: Global,
        maker: u32,
        taker: u32,
        first: &Statement,
        taken: Statement,
    ) -> End
        ensures { (result ≡ NoMemory) ⊎ (result ≡ Clash self.now.events maker taker first.now taken) }
    {
        match first.copy(alloc) {
            Ok(made) => End::Clash {
                event: self.events,
                maker,
                taker,
                made,
                taken,
            },
            Err(_) => End::NoMemory,
        }
    }

    /// What a party did in a call, with the statement that it took. The world ends where that was
    /// forged, or clashes with another.
    pub(crate) fn unless_forged<P: Protocol>(
        &self,
        alloc: Global,
        stage: &Stage<P>,
        taker: u32,
        mut handled: Handled,
    ) -> Result<Handled, End>
        ensures same { IfOk result (λ done. (done.acts ≡ handled.acts)
            × (done.statement ≡ handled.statement)) }
        ensures all_true { IfOk result (λ done. (w : World) → Keeps self.now w
            → AreTrueWhere (setting_in P.rules stage.now) w.ledger handled.statement (makers_told handled)) }
        ensures forged { IfErr result (λ end. (w : World) → Keeps self.now w → (end ≡ NoMemory)
            ⊎ TellsForged (setting_in P.rules stage.now) w.ledger w.events taker handled.statement
            (makers_told handled) end) }
    {
        match handled.statement.take() {
            None => Ok(handled),
            Some(statement) => match self.forged(stage, &handled, &statement) {
                None => {
                    handled.statement = Some(statement);
                    Ok(handled)
                }
                Some(maker) => Err(self.untrue(alloc, maker, taker, statement)),
            },
        }
    }
}
