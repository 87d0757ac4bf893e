//! Statements under the tags of one maker, and records that go to parties.

ghost use Rattle.std.specs.Prelude.{◌≡◌, ◌≤◌, IfOk};
ghost use Rattle.nys_rules.specs.Happening.{said_record, sent_to_all};
ghost use Rattle.nys_rules.specs.Parties.{AreParties};
ghost use Rattle.nys_rules.specs.World.{World};
ghost use Rattle.nys_stmt.specs.Ranges.{IsInRange};
ghost use Rattle.nys_stmt.specs.Records.{IsWhole};
ghost use Rattle.nys_world.specs.Outcomes.{Happened};
ghost use Rattle.nys_world.specs.Shows.{setting_in, IsKept, Keeps};

use crate::books::Books;
use crate::lists::party_list;
use crate::stage::Stage;
use nys_bytes::NoMemory;
use nys_mac::LAST_PARTY;
use nys_rules::{End, Parties};
use nys_sending::sending::{record_by, spelled, tag_each, to_each};
use nys_source::Protocol;
use nys_stmt::{Record, Statement};
use std::alloc::Global;

/// The record of a statement with the tags of a maker for parties, also for the maker itself.
#[tactic(auto, unfolding(nys_rules::specs::Happening::said_record, nys_config::specs::Scopes::scope_of))]
fn said<P: Protocol>(
    alloc: Global,
    stage: &Stage<P>,
    maker: u32,
    statement: Statement,
    parties: &[u32],
) -> Result<Record, NoMemory>
    requires maker { maker ≤ LAST_PARTY }
    requires range { IsInRange statement }
    requires parties { AreParties parties.now }
    ensures value { IfOk result (λ r. r
        ≡ said_record (setting_in P.rules stage.now).scope maker statement parties.now) }
    ensures whole { IfOk result IsWhole }
{
    let bytes = spelled(alloc, &statement)?;
    let tags = tag_each(alloc, &stage.cx.keys, maker, bytes.as_slice(), parties)?;
    record_by(alloc, maker, statement, tags)
}

impl Books {
    /// A record goes to parties: a packet to each, from this sender.
    #[tactic(auto, unfolding(nys_rules::specs::Sending::to_each))]
    pub(crate) fn send_all(
        &mut self,
        alloc: Global,
        from: u32,
        sent: &Record,
        parties: &[u32],
    ) -> Result<(), End>
        requires kept { IsKept self.old }
        requires whole { IsWhole sent.now }
        ensures { (w : World) → Keeps self.old w → Happened (λ _ next. Keeps self.new next) (λ r. r
            ≡ sent_to_all from sent.now parties.now w) result }
    {
        let mut packets = Vec::new(alloc);
        to_each(alloc, from, sent, parties, &mut packets)?;
        self.post(packets)
    }

    /// A statement under the tags of a maker goes to parties: a packet to each, from this sender.
    pub(crate) fn say<P: Protocol>(
        &mut self,
        alloc: Global,
        stage: &Stage<P>,
        from: u32,
        maker: u32,
        to: &Parties,
        statement: Statement,
    ) -> Result<(), End>
        requires kept { IsKept self.old }
        requires maker { maker ≤ LAST_PARTY }
        requires parties { AreParties to.now }
        requires range { IsInRange statement }
        ensures { (w : World) → Keeps self.old w → Happened (λ _ next. Keeps self.new next) (λ r. r
            ≡ sent_to_all from (said_record
            (setting_in P.rules stage.now).scope maker statement to.now) to.now w) result }
    {
        let parties = party_list(alloc, to)?;
        let said = said(alloc, stage, maker, statement, parties.as_slice())?;
        self.send_all(alloc, from, &said, parties.as_slice())
    }
}
