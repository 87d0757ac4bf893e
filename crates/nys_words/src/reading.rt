//! Reading the words.

ghost use Rattle.std.specs.Prelude.{◌≡◌, IfOk, IfErr, Ok, None};
ghost use Rattle.nys_words.specs.Words.{IsFaultOf, IsWithin, answer_to, answer_to_plain, first_dashed, words_of};

use crate::command_line::matched;
use crate::fault::WordsFault;
use crate::request::{Request, request_of};
use nys_bytes::Text;
use std::alloc::Global;

/// What these words ask for, the words after the program's name. Of all words the first that begins with
/// `-` is refused first. The rules are "Words of the command" in docs/FORMATS.md.
pub fn read(alloc: Global, words: &[Text]) -> Result<Request, WordsFault>
    ensures request { IfOk result (λ request. answer_to words.now ≡ Ok request) }
    ensures words { IfOk result (λ request. words.now ≡ words_of request) }
    ensures within { IfOk result IsWithin }
    ensures refused { IfErr result (IsFaultOf (answer_to words.now)) }
{
    if let Some(place) = dashed(words) {
        return Err(WordsFault::At(place));
    }
    read_plain(alloc, words)
}

/// The place of the first word that begins with `-`.
fn dashed(words: &[Text]) -> Option<usize>
    ensures { result ≡ first_dashed words.now }
{
    words.iter().position(|word| word.as_str().starts_with('-'))
}

/// What words ask for of which none begins with a dash.
fn read_plain(alloc: Global, words: &[Text]) -> Result<Request, WordsFault>
    requires { first_dashed words.now ≡ None }
    ensures request { IfOk result (λ request. answer_to_plain words.now ≡ Ok request) }
    ensures refused { IfErr result (IsFaultOf (answer_to_plain words.now)) }
{
    let matches = matched(alloc, words)?;
    let Some(word) = matches.get_str("command") else {
        return Err(WordsFault::At(0));
    };
    let values = matches.get_strs("values").unwrap_or(&[]);
    match request_of(word, values) {
        Ok(request) => Ok(request),
        Err(place) => Err(WordsFault::At(place)),
    }
}
