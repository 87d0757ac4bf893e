//! Where a statement stands.

ghost use Rattle.std.specs.Prelude.{◌≡◌, ◌<◌, ◌↔◌, IfNone, IfSome, IsTrue, Contains};
ghost use Rattle.nys_ledger.specs.Shelves.{IsAlike, IsFirst, made_by, number_of, shelf_of};
ghost use Rattle.nys_ledger.specs.declared.shelf.Made.{Made};

use nys_stmt::{Body, Statement, do_clash, is_same_statement};

/// How many shelves there are.
pub(crate) const SHELVES: u32 = 4096;

/// A statement with the party that made it.
#[derive(Debug, Drop)]
pub struct Made {
    pub party: u32,
    pub statement: Statement,
}

fn number_of(body: &Body) -> u32
    ensures { result ≡ number_of body.now }
{
    match body {
        Body::Filled { slot, .. } => *slot,
        Body::Attest { k, .. } => *k,
        Body::Ask { slot, .. } => *slot,
        Body::Wedge => 0,
        Body::Frozen { slot, .. } => *slot,
        Body::Open { .. } => 0,
    }
}

/// The shelf of a party's statement.
#[tactic(auto, unfolding(crate::specs::Shelves::shelf_of))]
pub(crate) fn shelf_of(party: u32, body: &Body) -> u32
    ensures shelf { result ≡ shelf_of party body.now }
    ensures some { result < 4096 }
{
    (number_of(body) % 1024 * 33 + party % 33) % SHELVES
}

/// Whether the party's statement stands on this shelf.
pub(crate) fn stands_on(shelf: &[Made], party: u32, statement: &Statement) -> bool
    ensures { IsTrue result ↔ Contains shelf.now (made_by party statement.now) }
{
    for made in shelf {
        if is_made(made, party, statement) {
            return true;
        }
    }
    false
}

/// The first statement of the party on this shelf that clashes with the statement, if one does.
pub(crate) fn first_alike<'a>(
    shelf: &'a [Made],
    party: u32,
    statement: &Statement,
) -> Option<&'a Statement>
    ensures some { IfSome result (λ first. IsFirst (IsAlike party statement.now) shelf.now
        (made_by party first.now)) }
    ensures none { IfNone result ((made : Made) → Contains shelf.now made → IsAlike party statement.now made
        → ⊥) }
{
    for made in shelf {
        if is_alike(made, party, statement) {
            return Some(&made.statement);
        }
    }
    None
}

fn is_alike(made: &Made, party: u32, statement: &Statement) -> bool
    ensures { IsTrue result ↔ IsAlike party statement.now made.now }
{
    made.party == party && do_clash(&made.statement, statement)
}

fn is_made(made: &Made, party: u32, statement: &Statement) -> bool
    ensures { IsTrue result ↔ (made.now ≡ made_by party statement.now) }
{
    made.party == party && is_same_statement(&made.statement, statement)
}
