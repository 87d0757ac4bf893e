//! The words that lines begin with.

ghost use Rattle.std.specs.Prelude.{◌≡◌};
ghost use Rattle.nys_schedule.specs.Keywords.{keyword_in, keyword_of, liars_word, network_word, olympus_word};

use crate::form::Form;

/// The word that a line begins with.
#[derive(Clone, Copy, Debug, PartialEq, Eq)]
pub(crate) enum Keyword {
    Input,
    Deliver,
    Flush,
    Exchange,
    Ask,
    Bytes,
    Say,
    Bundle,
    Steal,
    Wedge,
    Decide,
    Retire,
    Open,
}

/// The keyword that a word is in this form.
pub(crate) fn keyword_in(form: Form, word: &[u8]) -> Option<Keyword>
    ensures { result ≡ keyword_in form word.now }
{
    match form {
        Form::Replay => keyword_of(word),
        Form::Ring if word == b"input".as_slice() => Some(Keyword::Input),
        Form::Ring => None,
    }
}

#[tactic(auto, unfolding(crate::specs::Keywords::keyword_of))]
fn keyword_of(word: &[u8]) -> Option<Keyword>
    ensures { result ≡ keyword_of word.now }
{
    if let Some(keyword) = network_word(word) {
        return Some(keyword);
    }
    if let Some(keyword) = liars_word(word) {
        return Some(keyword);
    }
    olympus_word(word)
}

/// The words of the network.
fn network_word(word: &[u8]) -> Option<Keyword>
    ensures { result ≡ network_word word.now }
{
    if word == b"input".as_slice() {
        return Some(Keyword::Input);
    }
    if word == b"deliver".as_slice() {
        return Some(Keyword::Deliver);
    }
    if word == b"flush".as_slice() {
        return Some(Keyword::Flush);
    }
    if word == b"exchange".as_slice() {
        return Some(Keyword::Exchange);
    }
    if word == b"ask".as_slice() {
        return Some(Keyword::Ask);
    }
    None
}

/// The words of liars and strangers.
fn liars_word(word: &[u8]) -> Option<Keyword>
    ensures { result ≡ liars_word word.now }
{
    if word == b"bytes".as_slice() {
        return Some(Keyword::Bytes);
    }
    if word == b"say".as_slice() {
        return Some(Keyword::Say);
    }
    if word == b"bundle".as_slice() {
        return Some(Keyword::Bundle);
    }
    if word == b"steal".as_slice() {
        return Some(Keyword::Steal);
    }
    None
}

/// The words of the Olympus.
fn olympus_word(word: &[u8]) -> Option<Keyword>
    ensures { result ≡ olympus_word word.now }
{
    if word == b"wedge".as_slice() {
        return Some(Keyword::Wedge);
    }
    if word == b"decide".as_slice() {
        return Some(Keyword::Decide);
    }
    if word == b"retire".as_slice() {
        return Some(Keyword::Retire);
    }
    if word == b"open".as_slice() {
        return Some(Keyword::Open);
    }
    None
}
