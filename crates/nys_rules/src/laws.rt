//! Laws of the definitions: which rule is due, what certificates show, and that there is one way to
//! settle and one world.

ghost use Rattle.nys_rules.specs.Certificates.{KeepSeats, ReadAsMakers};
ghost use Rattle.nys_rules.specs.Happening.{HappenOnce};
ghost use Rattle.nys_rules.specs.Same.{DecideStatements};
ghost use Rattle.nys_rules.specs.Settling.{DueIsFirst, SettleOnce};
ghost use Rattle.nys_rules.specs.Scope.{Scope};
ghost use Rattle.nys_rules.specs.World.{Setting};

use nys_source::Protocol;

/// Which rule a node takes, and that it settles in one way.
pub fn rules_law<P: Protocol>(_protocol: &P)
    // Where no rule is due none is enabled; one that is due is enabled, and none before it is.
    ensures due { (scope : Scope P.State) → DueIsFirst scope }
    // A view settles by one list of rules, into one view, with the same acts.
    ensures once { (scope : Scope P.State) → SettleOnce scope }
{}

/// What a node's view shows of others, as "at least n different makers".
pub fn certificates_law<P: Protocol>(_protocol: &P)
    // What is ordered, certified, delivered, logged or attested has its makers, and a certificate
    // that is counted shows a quorum.
    ensures counts { (scope : Scope P.State) → ReadAsMakers scope }
    // A view has its 32 seats of each kind at the beginning, and after each call.
    ensures seats { (scope : Scope P.State) → KeepSeats scope }
{}

/// Events make one world.
pub fn world_law<P: Protocol>(_protocol: &P)
    // A list of events ends in one world, or in one end.
    ensures once { (setting : Setting P.State) → HappenOnce setting }
{}

/// The test by which the makers of packets join in one record.
pub fn sameness_law()
    // It passes for statements that are equal, payloads included, and for no others.
    ensures { DecideStatements }
{}
