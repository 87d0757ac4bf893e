//! The words that statements begin with.

ghost use Rattle.std.specs.Prelude.{◌≡◌};
ghost use Rattle.nys_schedule.specs.Statements.{filled_kind, kind_of, other_kind};

use nys_stmt::FilledKind;

/// The kind of a statement, without what it says.
#[derive(Clone, Copy, Debug, PartialEq, Eq)]
pub(crate) enum Kind {
    Filled { kind: FilledKind },
    Attest,
    Ask,
    Wedge,
    Frozen,
    Open,
}

/// The kind that a word names.
#[tactic(auto, unfolding(crate::specs::Statements::kind_of))]
pub(crate) fn kind_of(word: &[u8]) -> Option<Kind>
    ensures { result ≡ kind_of word.now }
{
    match filled_kind(word) {
        Some(kind) => Some(Kind::Filled { kind }),
        None => other_kind(word),
    }
}

/// The kind with a content that a word names.
fn filled_kind(word: &[u8]) -> Option<FilledKind>
    ensures { result ≡ filled_kind word.now }
{
    if word == b"offer".as_slice() {
        return Some(FilledKind::Offer);
    }
    if word == b"order".as_slice() {
        return Some(FilledKind::Order);
    }
    if word == b"deliver".as_slice() {
        return Some(FilledKind::Deliver);
    }
    if word == b"report".as_slice() {
        return Some(FilledKind::Report);
    }
    if word == b"inherit".as_slice() {
        return Some(FilledKind::Inherit);
    }
    None
}

/// The kind without a content that a word names.
fn other_kind(word: &[u8]) -> Option<Kind>
    ensures { result ≡ other_kind word.now }
{
    if word == b"attest".as_slice() {
        return Some(Kind::Attest);
    }
    if word == b"ask".as_slice() {
        return Some(Kind::Ask);
    }
    if word == b"wedge".as_slice() {
        return Some(Kind::Wedge);
    }
    if word == b"frozen".as_slice() {
        return Some(Kind::Frozen);
    }
    if word == b"open".as_slice() {
        return Some(Kind::Open);
    }
    None
}
