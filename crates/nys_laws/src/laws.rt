//! The laws, each an empty function whose clauses state them for its protocol.

ghost use Rattle.nys_laws.specs.Entries.{Forget};
ghost use Rattle.nys_laws.specs.Epochs.{HasHistory, HistoriesGoOn};
ghost use Rattle.nys_laws.specs.Grounds.{TakeOnGrounds, TellOnGrounds};
ghost use Rattle.nys_laws.specs.Heard.{HearTruly};
ghost use Rattle.nys_laws.specs.Once.{SayOnce};
ghost use Rattle.nys_laws.specs.Own.{KeepOwn};
ghost use Rattle.nys_laws.specs.Rests.{AreSound};
ghost use Rattle.nys_laws.specs.SetUp.{AreHosts, IsSetUp};
ghost use Rattle.nys_laws.specs.Since.{LeaveEpochs};
ghost use Rattle.nys_laws.specs.Testimony.{DecidesTruly, IsToldTruly, OpensInOrder};
ghost use Rattle.nys_laws.specs.Worlds.{InEachWorld};
ghost use Rattle.nys_rules.specs.Scope.{Scope};
ghost use Rattle.nys_rules.specs.World.{Setting};

use nys_source::Protocol;

/// What a host keeps of its own Offers, Orders and Delivers, in each world that events make.
pub fn own_law<P: Protocol>(_protocol: &P)
    // What the node of a host keeps of its own is what the ledger has of it, of this epoch and of
    // the open slots, and the ledger has nothing of it past them.
    ensures kept { (setting : Setting P.State) → InEachWorld setting KeepOwn }
    // No host makes two Offers, Orders or Delivers for one epoch, host and slot.
    ensures once { (setting : Setting P.State) → InEachWorld setting SayOnce }
    // From any world on no host makes a statement of an epoch that its node has left.
    ensures epochs { (setting : Setting P.State) → LeaveEpochs setting }
{}

/// What a host keeps of other parties, in each world that events make.
pub fn heard_law<P: Protocol>(_protocol: &P)
    // Each vote, collected order, held offer and attestation that a node keeps of an honest host
    // was made by that host, in the epoch of the node; the first three for the open slot.
    ensures heard { (setting : Setting P.State) → InEachWorld setting (HearTruly setting) }
{}

/// From which slot on nodes keep the entries of logs, in each world that events make.
pub fn entries_law<P: Protocol>(_protocol: &P)
    // A node has forgotten all entries of a host that isn't live at it, and of one that is, once its log has
    // reached the base of the epoch, those below the base.
    ensures forgets { (setting : Setting P.State) → InEachWorld setting (Forget setting) }
{}

/// What the keeping of the nodes of hosts rests on, in each world that events make, and the grounds
/// on which a node acts. All guards are to be hosts of the protocol, of which there are 32 or fewer.
pub fn rests_law<P: Protocol>(_protocol: &P)
    // What each node keeps is its own as the ledger has it, is true of others, and rests on makers
    // that guard, on quorums, on numbers that it attested, and on logs in which each entry fits.
    ensures sound { (setting : Setting P.State) → AreHosts setting.scope
        → InEachWorld setting (AreSound setting) }
    // A node that keeps such things takes each of its rules on grounds that the ledger has.
    ensures grounds { (setting : Setting P.State) → AreHosts setting.scope → TakeOnGrounds setting }
    // Where its epoch ends it tells only entries of its logs, its own Delivers, and a slot behind them.
    ensures tells { (setting : Setting P.State) → TellOnGrounds setting }
{}

/// The Olympus and the epochs, in each world that events make. Asked of the scenario: it has an
/// epoch, at most 32 hosts, and only hosts are guards.
pub fn epochs_law<P: Protocol>(_protocol: &P)
    // Each world follows a history of what its epochs began with: the Olympus goes on from it and
    // made no statement but its own, and each node is in an epoch of it, with its bases and its
    // retired hosts.
    ensures history { (setting : Setting P.State) → IsSetUp setting.scope
        → InEachWorld setting (HasHistory setting) }
    // Whatever events follow a world, a later world follows a history that agrees with its own on
    // all epochs up to the Olympus's.
    ensures later { (setting : Setting P.State) → IsSetUp setting.scope → HistoriesGoOn setting }
    // Each report and each frozen slot that the Olympus keeps of a guard that doesn't lie was said
    // by that guard, in the Olympus's epoch, about a host; no guard has two for a slot.
    ensures told { (setting : Setting P.State) → IsSetUp setting.scope
        → InEachWorld setting (IsToldTruly setting) }
    // What it decides has for each content more guards than may lie, and a quorum that is frozen
    // where the contents end.
    ensures decisions { (setting : Setting P.State) → IsSetUp setting.scope
        → InEachWorld setting (DecidesTruly setting) }
    // It opens an epoch only once its own ends and each host is decided or given up.
    ensures openings { (scope : Scope P.State) → OpensInOrder scope }
{}
