//! The law, an empty function whose clause states it for its protocol.

ghost use Rattle.nys_evidence.specs.Shown.{IsEvident};
ghost use Rattle.nys_follows.specs.Scenario.{IsScenario};
ghost use Rattle.nys_laws.specs.Worlds.{InEachWorld};
ghost use Rattle.nys_rules.specs.World.{Setting};

use nys_source::Protocol;

/// The evidence for the run of a world, whatever events made it.
pub fn evidence_law<P: Protocol>(_protocol: &P)
    // Each input and receive of the printed run has its evidence in the packets, the byte strings and the
    // takings of the world.
    ensures evident { (setting : Setting P.State) → IsScenario setting
        → InEachWorld setting (IsEvident setting) }
{}
