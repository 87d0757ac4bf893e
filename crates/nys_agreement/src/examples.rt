//! What the machine does in three small assemblies, computed.

ghost use Rattle.nys_agreement.specs.Examples.{Abandon, DecidePastLogs, LogBoth};

/// The machine allows these events, and this is what they lead to.
pub fn examples_law()
    // Four honest guards log an input and a message, and the run has both.
    ensures log { LogBoth }
    // A decision passes all logs by one entry, and the run takes it.
    ensures decide { DecidePastLogs }
    // A Deliver of an earlier epoch that was abandoned differs from the run.
    ensures abandon { Abandon }
{}
