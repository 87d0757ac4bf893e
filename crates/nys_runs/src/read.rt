//! Runs read from their text.

ghost use Rattle.std.specs.Prelude.{◌≡◌, ◌<◌, ◌⊎◌, ◌≤◌, List, All, MatchResult, Ok, Err, IfErr, IfOk, length};
ghost use Rattle.nys_source.specs.RunText.{steps_text};
ghost use Rattle.nys_source.specs.declared.step.Step.{Step};
ghost use Rattle.nys_runs.specs.StepLines.{FitsTypes, run_of};

use crate::fault::{RunFault, run_fault};
use crate::line::RunLines;
use nys_source::Step;
use nys_text::read_lines;
use std::alloc::Global;

/// The most steps of a run text.
pub const MAX_STEPS: usize = 100_000;

/// The steps of a run text, in order; whether they are a run is not tested. The first line that is none of
/// the grammar, or that holds one step more than `MAX_STEPS`, is answered.
pub fn read_run(alloc: Global, text: &str) -> Result<Vec<Step>, RunFault>
    requires { length text.now < 4294967295 }
    ensures ok { IfOk result (λ steps. run_of text.now ≡ Ok steps.items) }
    ensures err { IfErr result (λ fault. (fault ≡ RunFault.NoMemory) ⊎ (run_of text.now ≡ Err fault)) }
    // The printed text of steps is read as those steps.
    ensures printed { (steps : List Step) → All FitsTypes steps → length steps ≤ MAX_STEPS →
        text.now ≡ steps_text steps →
        MatchResult result (λ read. read.items ≡ steps) (λ fault. fault ≡ RunFault.NoMemory) }
{
    match read_lines(alloc, &RunLines, MAX_STEPS, text) {
        Ok(steps) => Ok(steps),
        Err(fault) => Err(run_fault(fault)),
    }
}
