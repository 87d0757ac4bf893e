//! Whose tags a party accepts: what each kind permits, and which tags are right.

ghost use Rattle.std.specs.Prelude.{◌≡◌, ◌≤◌, ℕ, [], ◌∷◌, ◌&&◌, ◌==◌, bytes_eq, filter, length, IfNone, IfOk, IfSome};
ghost use Rattle.std.specs.List.{list_any};
ghost use Rattle.nys_mac.specs.Tags.{tag_of};
ghost use Rattle.nys_rules.specs.Dropping.{accepted, accepts};
ghost use Rattle.nys_config.specs.Scopes.{scope_in};
ghost use Rattle.nys_sending.specs.Permits.{permits_head, permits_kind};
ghost use Rattle.nys_stmt.specs.declared.spelling.TheConstants.{MAX_STATEMENT};

use nys_bytes::NoMemory;
use nys_config::{Config, guards_of};
use nys_mac::{Keys, LAST_PARTY, Tag};
use nys_source::Protocol;
use nys_stmt::{FilledKind, Tags};
use nys_wire::{Head, Kind, MakerIter, MakerRef, RecordRef};
use std::alloc::Global;

/// Whether the maker may say this of a content: the host offers it, the Olympus hands it over, and guards
/// say the rest.
fn permits_filled<P: Protocol>(cx: &Config<P>, epoch: u32, kind: FilledKind, h: u32, m: u32) -> bool
    ensures { (p : ℕ) → result ≡ permits_kind (scope_in P.rules cx.now) epoch p h (Kind.Filled kind) m }
{
    match kind {
        FilledKind::Offer => m == h,
        FilledKind::Order => guards_of(cx, epoch, h).contains(m),
        FilledKind::Deliver => guards_of(cx, epoch, h).contains(m),
        FilledKind::Report => guards_of(cx, epoch, h).contains(m),
        FilledKind::Inherit => m == LAST_PARTY,
    }
}

/// Whether a party may make a statement with this head, by its kind.
#[tactic(auto)]
fn permits<P: Protocol>(cx: &Config<P>, head: &Head, m: u32) -> bool
    ensures { result ≡ permits_head (scope_in P.rules cx.now) head.now m }
{
    match head.kind {
        Kind::Filled(kind) => permits_filled(cx, head.epoch, kind, head.h, m),
        Kind::Attest => {
            guards_of(cx, head.epoch, head.p).contains(m)
                && guards_of(cx, head.epoch, head.h).contains(m)
        }
        Kind::Ask => guards_of(cx, head.epoch, head.h).contains(m),
        Kind::Wedge => m == LAST_PARTY,
        Kind::Frozen => guards_of(cx, head.epoch, head.h).contains(m),
        Kind::Open => m == LAST_PARTY,
    }
}

/// Whether a tag is for the taker, and is the maker's on these bytes.
fn is_right(keys: &Keys, maker: u32, taker: u32, bytes: &[u8], receiver: u32, tag: &Tag) -> bool
    requires maker { maker ≤ LAST_PARTY }
    requires taker { taker ≤ LAST_PARTY }
    requires bytes { length bytes.now ≤ MAX_STATEMENT }
    ensures { result ≡ (receiver == taker && bytes_eq tag.now (tag_of keys.now maker taker bytes.now)) }
{
    receiver == taker && keys.verify(maker, taker, bytes, tag)
}

/// Whether the maker has the right tag for the taker on these bytes.
fn has_right_tag(keys: &Keys, maker: &MakerRef, taker: u32, bytes: &[u8]) -> bool
    requires taker { taker ≤ LAST_PARTY }
    requires bytes { length bytes.now ≤ MAX_STATEMENT }
    ensures { result ≡ list_any (λ t. t.0 == taker
        && bytes_eq t.1 (tag_of keys.now maker.now.maker taker bytes.now)) maker.now.tags }
{
    for (receiver, tag) in maker.each_tag() {
        if is_right(keys, maker.maker(), taker, bytes, receiver, tag) {
            return true;
        }
    }
    false
}

/// Whether the taker accepts a maker of the record.
#[tactic(auto, unfolding(nys_rules::specs::Dropping::accepts, nys_config::specs::Scopes::scope_of))]
fn accepts<P: Protocol>(cx: &Config<P>, taker: u32, given: &RecordRef, maker: &MakerRef) -> bool
    requires taker { taker ≤ LAST_PARTY }
    ensures { result ≡ accepts (scope_in P.rules cx.now) given.now.statement.epoch taker
        given.now.statement maker.now }
{
    maker.maker() != taker
        && permits(cx, &given.head(), maker.maker())
        && has_right_tag(&cx.keys, maker, taker, given.statement_bytes())
}

/// The first maker of a record that a party accepts, and the makers behind it.
#[derive(Drop)]
pub struct FirstAccepted<'a> {
    pub maker: MakerRef<'a>,
    pub behind: MakerIter<'a>,
}

/// The first maker of a record that the taker accepts, with those behind it; none where it accepts none.
/// Tags are tested where they lie. Takes no memory.
pub fn first_accepted<'a, P: Protocol>(
    cx: &Config<P>,
    taker: u32,
    given: &RecordRef<'a>,
) -> Option<FirstAccepted<'a>>
    requires taker { taker ≤ LAST_PARTY }
    ensures some { IfSome result (λ first.
        accepted (scope_in P.rules cx.now) given.now.statement.epoch taker given.now
        ≡ first.maker ∷ filter (accepts (scope_in P.rules cx.now) given.now.statement.epoch taker
        given.now.statement) first.behind) }
    ensures none { IfNone result (accepted (scope_in P.rules cx.now) given.now.statement.epoch taker
        given.now ≡ []) }
{
    let mut left = given.makers();
    while let Some(maker) = left.next() {
        if accepts(cx, taker, given, &maker) {
            return Some(FirstAccepted {
                maker,
                behind: left,
            });
        }
    }
    None
}

/// All makers of the record that the taker accepts, with all their tags, from the first on.
pub fn accepted<P: Protocol>(
    alloc: Global,
    cx: &Config<P>,
    taker: u32,
    given: &RecordRef,
    first: FirstAccepted,
) -> Result<Vec<Tags>, NoMemory>
    requires taker { taker ≤ LAST_PARTY }
    ensures { IfOk result (λ kept. kept.items ≡ first.entry.maker ∷ filter (accepts
        (scope_in P.rules cx.now) given.now.statement.epoch taker given.now.statement) first.entry.behind) }
{
    let mut kept = Vec::new(alloc);
    kept.push(first.maker.owned(alloc)?)?;
    for maker in first.behind {
        if accepts(cx, taker, given, &maker) {
            kept.push(maker.owned(alloc)?)?;
        }
    }
    Ok(kept)
}
