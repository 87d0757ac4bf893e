//! The laws, each an empty function whose clauses state them for its protocol.

ghost use Rattle.std.specs.Prelude.{◌≤◌};
ghost use Rattle.nys_follows.specs.Scenario.{IsScenario};
ghost use Rattle.nys_laws.specs.SetUp.{AreHosts};
ghost use Rattle.nys_laws.specs.Worlds.{InEachWorld};
ghost use Rattle.nys_progress.specs.Carried.{HasTags};
ghost use Rattle.nys_progress.specs.Credits.{AreNeighbours, TakesInCredit};
ghost use Rattle.nys_progress.specs.Decision.{DecidesWhereDue};
ghost use Rattle.nys_progress.specs.FirstInput.{TakesFirstCalm, TakesFirstInput};
ghost use Rattle.nys_progress.specs.FourExchanges.{KeepsOrdersWhole, LogsInFour, LogsUnspoiled};
ghost use Rattle.nys_progress.specs.Ordered.{OrdersInOne};
ghost use Rattle.nys_progress.specs.Relay.{RelaysInTwo};
ghost use Rattle.nys_progress.specs.Scheduled.{InEachScheduled, SpoilsNothing};
ghost use Rattle.nys_progress.specs.Sent.{SaidIsSent};
ghost use Rattle.nys_rules.specs.Premises.{HasGoodGuards};
ghost use Rattle.nys_rules.specs.World.{Setting};

use nys_source::Protocol;

/// What honest hosts said about slots was sent, in each world that events make. All guards are to be
/// hosts of the protocol, of which there are 32 or fewer.
pub fn sent_law<P: Protocol>(_protocol: &P)
    // An Offer and a Deliver stand in a packet to each other guard of the host, an Order in one to the
    // host, each with its maker's tags for all other guards.
    ensures sent { (setting : Setting P.State) → AreHosts setting.scope
        → InEachWorld setting (SaidIsSent setting) }
{}

/// The decision that must come, in each world of a scenario with good guards.
pub fn decision_law<P: Protocol>(_protocol: &P)
    // Where the epoch ends, a host is neither decided nor retired, and the Olympus has heard that each of
    // its honest guards ended the epoch at one slot, `decide` answers that its log is decided at that slot.
    ensures decides { (setting : Setting P.State) → IsScenario setting → HasGoodGuards setting.scope
        → InEachWorld setting (DecidesWhereDue setting) }
{}

/// The relay, in each world of a scenario with good guards, at most 64 epochs, and tags of 32 bytes.
pub fn relay_law<P: Protocol>(_protocol: &P)
    // What one honest guard of a host has logged by votes of an epoch stands in the log of each, after any
    // events without a wedge among which are two exchanges, where all of them were in the epoch with the host
    // live, not wedged, and with as many entries, and no note told that it ends.
    ensures relays { (setting : Setting P.State) → IsScenario setting → HasGoodGuards setting.scope
        → HasTags setting.scope → InEachWorld setting (RelaysInTwo setting) }
{}

/// The first of the exchanges that log a content, in each world of a scenario with good guards, at most 64
/// epochs, and tags of 32 bytes.
pub fn order_law<P: Protocol>(_protocol: &P)
    // Where a slot of an honest host is level, the host offered a content there, and at each honest guard
    // that is an input or attested and numbered next, and the credit rule allows it, each of these has
    // ordered it or has a log past the slot, after any events without a wedge among which is an exchange.
    ensures orders { (setting : Setting P.State) → IsScenario setting → HasGoodGuards setting.scope
        → HasTags setting.scope → InEachWorld setting (OrdersInOne setting) }
{}

/// The four exchanges that log a content, in each world of a scenario with good guards, at most 64 epochs,
/// and tags of 32 bytes.
pub fn four_law<P: Protocol>(_protocol: &P)
    // Where a slot of an honest host is level, the host offered a content there, and at each honest guard
    // that is an input or attested and numbered next, and the credit rule allows it, the content stands in
    // that slot in the log of each, after any events without a wedge among which are four exchanges. Asked
    // is that at the end each record of an Order for the slot, in a packet or in bytes that an event gave, is
    // well formed, and none has an honest maker's entry in which another guard's tag is missing or wrong.
    ensures logs { (setting : Setting P.State) → IsScenario setting → HasGoodGuards setting.scope
        → HasTags setting.scope → InEachWorld setting (LogsInFour setting) }
{}

/// Orders in unspoiled slots, in each world that events of a schedule make, in a scenario with good guards,
/// at most 64 epochs, and tags of 32 bytes.
pub fn whole_law<P: Protocol>(_protocol: &P)
    // Where an honest host offered a content that can be read, and no stranger's packet and no bytes that an
    // event gave are a record of an Order for that slot, each such record in the pool is well formed, and has
    // of each honest maker its right tags for all other guards: so whatever liars said and bundled.
    ensures whole { (setting : Setting P.State) → IsScenario setting → HasGoodGuards setting.scope
        → HasTags setting.scope → InEachScheduled setting (KeepsOrdersWhole setting) }
{}

/// Slots that nothing spoiled, in a scenario.
pub fn clean_law<P: Protocol>(_protocol: &P)
    // Where no event of a schedule gives bytes or steals a party's tags no slot is spoiled.
    ensures clean { (setting : Setting P.State) → IsScenario setting → SpoilsNothing setting }
{}

/// The four exchanges again, where the slot is unspoiled, in each world that events of a schedule make, in a
/// scenario with good guards, at most 64 epochs, and tags of 32 bytes.
pub fn unspoiled_law<P: Protocol>(_protocol: &P)
    // As in the law of four exchanges; but asked is that at the end no stranger's packet and no bytes that an
    // event gave are a record of an Order for the slot.
    ensures logs { (setting : Setting P.State) → IsScenario setting → HasGoodGuards setting.scope
        → HasTags setting.scope → InEachScheduled setting (LogsUnspoiled setting) }
{}

/// The first input, in a scenario with good guards, at most 64 epochs, tags of 32 bytes, and a credit of at
/// least 1 in epoch 0.
pub fn first_law<P: Protocol>(_protocol: &P)
    // What the first event hands to an honest host is the first that the host takes in the printed run, and
    // the first entry in the log of each of its honest guards of epoch 0, where four exchanges come before
    // any wedge, and the orders for its first slot are whole there; whatever follows.
    ensures takes { (setting : Setting P.State) → IsScenario setting → HasGoodGuards setting.scope
        → HasTags setting.scope → 1 ≤ setting.scope.credit 0 → TakesFirstInput setting }
{}

/// The first input of a schedule, in a scenario with good guards, at most 64 epochs, tags of 32 bytes, and a
/// credit of at least 1 in epoch 0.
pub fn calm_law<P: Protocol>(_protocol: &P)
    // What the first event hands to an honest host is the first that the host takes in the printed run, and
    // the first entry in the log of each of its honest guards of epoch 0, where four exchanges come before
    // any `wedge`, `bytes` and `steal`; whatever follows.
    ensures takes { (setting : Setting P.State) → IsScenario setting → HasGoodGuards setting.scope
        → HasTags setting.scope → 1 ≤ setting.scope.credit 0 → TakesFirstCalm setting }
{}

/// The credits, in each world of a scenario with good guards whose neighbours are hosts and so
/// both ways.
pub fn credit_law<P: Protocol>(_protocol: &P)
    // Where so many honest guards of a host hold a message as a head that each quorum has one of them, the
    // message stands in the log of the host among its first slots, as many as the longest honest log had
    // entries and twice the credit, once it is as long by what was logged in the epoch or decided for it;
    // and behind those entries, where no honest log had it.
    ensures credits { (setting : Setting P.State) → IsScenario setting → HasGoodGuards setting.scope
        → AreNeighbours setting.scope.rules → InEachWorld setting (TakesInCredit setting) }
{}
