//! The whole of a call.

ghost use Rattle.std.specs.Prelude.{◌≡◌, ◌≢◌, ◌≤◌, ◌<◌, ◌+◌, ◌⊎◌, ℕ, List, Option, Ok, IfOk, IsErrOf, OnOk};
ghost use Rattle.std.specs.Io.KnownBytes.{Appends};
ghost use Rattle.nys_answer.specs.Codes.{code_of};
ghost use Rattle.nys_outside.specs.Counts.{Rose};
ghost use Rattle.nys_outside.specs.Input.{Input, TookAtMost};
ghost use Rattle.nys_outside.specs.Output.{AppendsFront};
ghost use Rattle.nys_words.specs.Words.{answer_to};
ghost use Rattle.nys_top.specs.Refusals.{no_memory, read_fault};
ghost use Rattle.nys_top.specs.Printed.{IsPrinted};
ghost use Rattle.nys_top.specs.Promised.{IsPromisedInput};
ghost use Rattle.nys_top.specs.Routes.{IsShownInput};
ghost use Rattle.nys_top.specs.Traced.{IsTraced};
ghost use Rattle.nys_top.specs.Verified.{IsVerified};
ghost use Rattle.nys_top.specs.Once.{AnswersOnce};
ghost use Rattle.nys_top.specs.Coming.{IsComingInput};
ghost use Rattle.nys_top.specs.Complete.{IsDone, PassesFrom};
ghost use Rattle.nys_top.specs.Evident.{IsEvidentInput};
ghost use Rattle.nys_top.specs.GivenBack.{IsGivenBack};
ghost use Rattle.nys_top.specs.Outcomes.{AnswersInput, IsAnswer, IsAnswerBy, IsAnswered, IsBegun, IsTooLong, ReadsNothing};

use crate::commands::answer;
use crate::refusals::words_refused;
use nys_answer::{Answer, INPUT_LIMIT, Limit, Status};
use nys_bytes::{NoMemory, Text};
use nys_outside::{Links, OutFault, ReadFault, Sink, Source, read_all, write_all};
use nys_words::{Command, Request, WordsFault};
use nys_workload_command::workload;
use std::alloc::Global;

/// Why a call has no answer of its own.
#[derive(Clone, Copy, Debug, PartialEq, Eq)]
pub(crate) enum Unanswered {
    /// The input could not be read.
    Read,
    /// The allocator had no room.
    NoMemory,
}

impl From<NoMemory> for Unanswered {
    ghost use Rattle.nys_top.specs.declared.running.Unanswered.TheVariants as unanswered;

    ghost from_gives = { λ _ why. why ≡ unanswered.NoMemory };

    fn from(_error: NoMemory) -> Unanswered {
        Unanswered::NoMemory
    }
}

/// Does all that the program does: reads the words and, where they name a command on a document, the input,
/// answers them, writes the text of the answer, and gives the status with which the program ends. The statuses and their lines stand in
/// the README. The links serve no command yet.
#[tactic(auto, using(crate::proofs::PromisedInputs::input_promised, crate::proofs::AnswerOnce::answers_once, crate::proofs::GivenBackLemmas::given_back))]
pub fn run<S: Source, K: Sink, L: Links>(
    alloc: Global,
    words: &[Text],
    input: &mut S,
    out: &mut K,
    links: &mut L,
) -> u8
    // Up to 10, and at 15, the status and the text written are those of the answer to words and input.
    ensures answered { (result ≤ 10) ⊎ (result ≡ 15)
        → IsAnswered words.now (S.told input.old) (S.told input.new) (K.written out.old)
        (K.written out.new) result }
    // With status 0 `replay` has printed a run of the document's system, and tells what each host takes in it.
    ensures printed { answer_to words.now ≡ Ok (Request.Document Command.Replay) → result ≡ 0
        → IsPrinted (S.told input.old) (S.told input.new) (K.written out.old) (K.written out.new) }
    // With status 0 the text of `trace` ends with the report that `replay` answers to the same input, which
    // tells a run of the document's system.
    ensures traced { answer_to words.now ≡ Ok (Request.Document Command.Trace) → result ≡ 0
        → IsTraced (S.told input.old) (S.told input.new) (K.written out.old) (K.written out.new) }
    // Whatever the input, each world on the way of its schedule keeps what worlds promise.
    ensures promised { (input : List ℕ) → IsPromisedInput input }
    // Whatever the input and whoever lies, each distance that `bare`, `replay` or `trace` shows for the
    // protocol `route` is the length of a walk, and what `tree` multicasts goes down the tree in order.
    ensures routes { (input : List ℕ) → IsShownInput input }
    // With status 0 or 1 `verify` has told whether the steps of the run text are a run of the system.
    ensures verified { answer_to words.now ≡ Ok (Request.Document Command.Verify) → result ≤ 1
        → IsVerified (S.told input.old) (S.told input.new) (K.written out.old) (K.written out.new) result }
    // Whatever the words and the input, what `answered` says of them is one answer, where the source tells.
    ensures once { (words : List (List ℕ)) (before : Input) (after : Option Input)
        → AnswersOnce words before after }
    // Whatever the input, the run that `replay` prints is verified as a run where it is given back.
    ensures given_back { (input : List ℕ) → IsGivenBack input }
    // Whatever the input, what `trace` answers to it with status 0 is the trace of a world in which each
    // input and receive of the run has its evidence.
    ensures evident { (input : List ℕ) → IsEvidentInput input }
    // Whatever the input, in each world that events make among its document's guards: what an honest host has
    // offered is logged in four exchanges, what one honest guard has logged by votes is logged by each in two,
    // a message that enough guards hold as a head is taken within twice the credit slots, a host is decided
    // where its honest guards have told that they ended the epoch at one slot, and what the first event hands
    // to an honest host is the first that it takes.
    ensures comes { (input : List ℕ) → IsComingInput input }
    // Where nothing that the words and the input say has a fault, and neither the source nor the sink fails,
    // the call is done.
    ensures complete { PassesFrom words.now (S.told input.old)
        → (Rose (S.faults input.old) (S.faults input.new) → ⊥)
        → (Rose (K.faults out.old) (K.faults out.new) → ⊥) → IsDone words.now result }
    ensures read { result ≡ 11 → Rose (S.faults input.old) (S.faults input.new) }
    ensures read_line { result ≡ 11 → Appends (K.written out.old) (K.written out.new) read_fault }
    ensures write { result ≡ 12 → Rose (K.faults out.old) (K.faults out.new) }
    ensures write_part { result ≡ 12 → IsBegun words.now (S.told input.old) (S.told input.new)
        (K.written out.old) (K.written out.new) }
    ensures memory_part { result ≡ 14 → IsBegun words.now (S.told input.old) (S.told input.new)
        (K.written out.old) (K.written out.new) }
    ensures never { (result ≤ 15) × (result ≢ 13) }

    // Refused words and `workload` are answered with no read; for another command the input is read to its end
    // or the byte past the limit.
    ensures unread { ReadsNothing (answer_to words.now) → input.new ≡ input.old }
    ensures reads { TookAtMost (INPUT_LIMIT + 1) (S.told input.old) (S.told input.new) }
    ensures links { links.new ≡ links.old }
{
    match obtain(alloc, words, input) {
        Ok(answer) => {
            let status = answer.status.code();
            let text = answer.text.into_bytes();
            finish(out, text.as_slice(), status)
        }
        Err(Unanswered::Read) => finish(out, b"read fault\n", Status::ReadFault.code()),
        Err(Unanswered::NoMemory) => finish(out, b"no memory\n", Status::NoMemory.code()),
    }
}

/// Writes the whole text and gives the status, or the one that says why it is not whole.
fn finish<K: Sink>(out: &mut K, text: &[u8], status: u8) -> u8
    ensures whole { result ≡ status ⊎ ((result ≡ 12) ⊎ (result ≡ 14)) }
    ensures all { result ≢ 12 → result ≢ 14 → Appends (K.written out.old) (K.written out.new) text.now }
    ensures write { result ≡ 12 → status ≢ 12 → Rose (K.faults out.old) (K.faults out.new) }
    ensures part { AppendsFront (K.written out.old) (K.written out.new) text.now }
{
    match write_all(out, text) {
        Ok(()) => status,
        Err(OutFault::Failed) => Status::WriteFault.code(),
        Err(OutFault::NoMemory) => Status::NoMemory.code(),
    }
}

/// The answer to the words and the input; `workload` reads none.
fn obtain<S: Source>(alloc: Global, words: &[Text], input: &mut S) -> Result<Answer, Unanswered>
    ensures answer { IfOk result (IsAnswer words.now (S.told input.old) (S.told input.new)) }
    ensures status { IfOk result (λ answer. (code_of answer.status ≤ 10)
        ⊎ ((code_of answer.status ≡ 14) ⊎ (code_of answer.status ≡ 15))) }
    ensures read { IsErrOf result Unanswered.Read → Rose (S.faults input.old) (S.faults input.new) }
    ensures unread { ReadsNothing (answer_to words.now) → input.new ≡ input.old }
    ensures reads { TookAtMost (INPUT_LIMIT + 1) (S.told input.old) (S.told input.new) }
{
    match nys_words::read(alloc, words) {
        Ok(Request::Document(command)) => answer_input(alloc, command, input),
        Ok(Request::Workload(drawing)) => Ok(workload(alloc, drawing)?),
        Err(WordsFault::At(place)) => Ok(words_refused(alloc, place)?),
        Err(WordsFault::NoMemory) => Err(Unanswered::NoMemory),
    }
}

/// The answer of a command on a document to the input.
fn answer_input<S: Source>(
    alloc: Global,
    command: Command,
    input: &mut S,
) -> Result<Answer, Unanswered>
    ensures answer { IfOk result (λ answer. AnswersInput command (S.told input.old)
        (S.told input.new) answer ⊎ IsTooLong (S.told input.old) answer) }
    ensures status { IfOk result (λ answer. (code_of answer.status ≤ 10)
        ⊎ ((code_of answer.status ≡ 14) ⊎ (code_of answer.status ≡ 15))) }
    ensures read { IsErrOf result Unanswered.Read → Rose (S.faults input.old) (S.faults input.new) }
    ensures reads { TookAtMost (INPUT_LIMIT + 1) (S.told input.old) (S.told input.new) }
{
    match read_all(alloc, input, INPUT_LIMIT) {
        Ok(bytes) => Ok(answer(alloc, command, bytes.as_slice())?),
        Err(ReadFault::TooLarge) => Ok(Answer::too_large(alloc, Limit::Input, INPUT_LIMIT as u32)?),
        Err(ReadFault::Failed) => Err(Unanswered::Read),
        Err(ReadFault::NoMemory) => Err(Unanswered::NoMemory),
    }
}
