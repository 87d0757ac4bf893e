//! The law, an empty function whose clause states it for its protocol.

ghost use Rattle.nys_follows.specs.Scenario.{IsScenario};
ghost use Rattle.nys_laws.specs.Worlds.{InEachWorld};
ghost use Rattle.nys_printed.specs.Report.{report};
ghost use Rattle.nys_printed.specs.Told.{TellsRun};
ghost use Rattle.nys_rules.specs.World.{Setting};

use nys_source::Protocol;

/// What the report of a world tells, in each world that events make in a scenario.
pub fn printed_law<P: Protocol>(_protocol: &P)
    // The text is that of a run of the source system: what each host takes in it and where it stops is told
    // by the lines of replicas and by the notes.
    ensures tells { (setting : Setting P.State) → IsScenario setting
        → InEachWorld setting (λ w. TellsRun setting.scope.rules (report setting w)) }
{}
