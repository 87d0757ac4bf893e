//! The laws, each an empty function whose clauses state them for its protocol.

ghost use Rattle.nys_follows.specs.Follows.{FollowsMachine};
ghost use Rattle.nys_follows.specs.Promises.{IsPromised};
ghost use Rattle.nys_follows.specs.Scenario.{IsScenario};
ghost use Rattle.nys_laws.specs.Worlds.{InEachWorld};
ghost use Rattle.nys_rules.specs.World.{Setting};

use nys_source::Protocol;

/// The worlds of a scenario follow the machine of honest statements.
pub fn follows_law<P: Protocol>(_protocol: &P)
    // Whatever events make a world, a list of events that the machine allows makes one of it that has
    // the same logs, statements, decisions and run.
    ensures follows { (setting : Setting P.State) → IsScenario setting
        → InEachWorld setting (FollowsMachine setting) }
{}

/// What the worlds of a scenario promise, whatever events make them.
pub fn worlds_law<P: Protocol>(_protocol: &P)
    // Logs agree, nobody says two things for one slot, the printed run spells the logs, what is
    // received was sent, and what is decided is handed over: `IsPromised` has a field for each.
    ensures promised { (setting : Setting P.State) → IsScenario setting
        → InEachWorld setting (IsPromised setting) }
{}
