//! The laws, each an empty function whose clauses state them for its protocol.

ghost use Rattle.nys_outcomes.specs.Noise.{IsLeftOut, NoiseChangesNothing, StaysWithNoise};
ghost use Rattle.nys_outcomes.specs.Outcomes.{HappenAlways, HasFewEffects, SettleAlways};
ghost use Rattle.nys_outcomes.specs.Runs.{RunsShort};
ghost use Rattle.nys_rules.specs.Scope.{Scope};
ghost use Rattle.nys_rules.specs.World.{Setting};

use nys_source::Protocol;

/// A node comes to an end with its rules, whatever it knows.
pub fn settling_law<P: Protocol>(protocol: &P)
    // A step of a protocol has at most 64 effects.
    ensures few { HasFewEffects (P.rules protocol.now) }
    // Where that is so, each view settles.
    ensures always { (scope : Scope P.State) → HasFewEffects scope.rules → SettleAlways scope }
{}

/// What happens in a world has an outcome.
pub fn outcomes_law<P: Protocol>(_protocol: &P)
    // Where a step of the protocol has at most 64 effects, each list of events leads each world to another,
    // or to an end.
    ensures always { (setting : Setting P.State) → HasFewEffects setting.scope.rules → HappenAlways setting }
{}

/// What the printed runs of worlds have, so that they can be printed and read again.
pub fn runs_law<P: Protocol>(_protocol: &P)
    // Among at most 32 hosts, where events hand payloads, a printed run has at most 1,024 inputs and receives
    // of each host and a stop of each, and its inputs have payloads.
    ensures short { (setting : Setting P.State) → RunsShort setting }
{}

/// Bytes that a party drops.
pub fn noise_law<P: Protocol>(_protocol: &P)
    // They change nothing but the count of events and the lists of injected bytes and of takings.
    ensures nothing { (setting : Setting P.State) → NoiseChangesNothing setting }
    // A list of events with them has the outcome that it has without them, with one event more, the bytes and
    // their taking told in their place, and what is told behind them told of the event one later.
    ensures stays { (setting : Setting P.State) → StaysWithNoise setting }
    // It has no other.
    ensures only { (setting : Setting P.State) → IsLeftOut setting }
{}
