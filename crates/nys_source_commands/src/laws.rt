//! The law of `verify`, an empty function whose clauses state it for its protocol.

ghost use Rattle.nys_source_commands.specs.Judging.{JudgesRuns, NamesFirst, ReadsBack, VerifiesPrinted};

use nys_source::Protocol;

/// What `verify` finds in steps, whatever they are.
pub fn verify_law<P: Protocol>(protocol: &P)
    // It refuses no step exactly where the steps are a run.
    ensures exact { JudgesRuns (P.rules protocol.now) }
    // It names the first step that is none where it stands, and no other.
    ensures first { NamesFirst (P.rules protocol.now) }
    // The printed text of a run is read as that run.
    ensures read { ReadsBack (P.rules protocol.now) }
    // For the printed text of a run it answers that it is one.
    ensures printed { VerifiesPrinted (P.rules protocol.now) }
{}
