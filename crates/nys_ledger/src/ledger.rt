//! The ledger.

ghost use Rattle.std.specs.Prelude.{◌≡◌, ◌↔◌, ◌⊎◌, ◌++◌, ◌∷◌, [], ◌<◌, ℕ, length, IfNone, IfOk, IfSome, OnOk, OnErr, IsTrue};
ghost use Rattle.nys_ledger.specs.Shelves.{BeginsToShare, Owns, Shares, made_by, shelf_at, shelf_of, with_made};
ghost use Rattle.nys_ledger.specs.declared.shelf.Made.{Made};
ghost use Rattle.nys_stmt.specs.declared.statement.Statement.{Statement};
ghost use Rattle.nys_stmt.specs.Same.{DoClash};

use crate::shelf::{Made, SHELVES, first_alike, shelf_of, stands_on};
use nys_bytes::NoMemory;
use nys_stmt::{Body, Statement};
use std::alloc::Global;
use std::marker::Model;

/// The statements that parties made, each once.
#[derive(Drop)]
pub struct Ledger {
    alloc: Global,
    shelves: Vec<Shelf>,
}

/// What stands on one shelf.
#[derive(Drop)]
struct Shelf {
    held: Vec<Made>,
}

impl Model for Shelf {
    ghost use Rattle.std.specs.Prelude.{List};
    ghost use Rattle.nys_ledger.specs.declared.shelf.Made.{Made};

    ghost Value = { List Made };

    ghost view = { λ s. s.held.items };
}

impl Shelf {
    fn new(alloc: Global) -> Shelf
        ensures { result ≡ [] }
    {
        Shelf {
            held: Vec::new(alloc),
        }
    }

    fn items(&self) -> &[Made]
        ensures { result.now ≡ self.now }
    {
        self.held.as_slice()
    }

    fn push(&mut self, made: Made) -> Result<(), NoMemory>
        ensures ok { OnOk result (self.new ≡ self.old ++ made ∷ []) }
        ensures err { OnErr result (self.new ≡ self.old) }
    {
        self.held.push(made)?;
        Ok(())
    }
}

impl Model for Ledger {
    ghost use Rattle.std.specs.Prelude.{◌≡◌, List, length};
    ghost use Rattle.nys_ledger.specs.declared.shelf.Made.{Made};

    ghost Value = { List (List Made) };

    ghost view = { λ l. l.shelves.items };

    ghost invariant = { λ l. length l.shelves.items ≡ 4096 };
}

impl Ledger {
    /// No statements yet.
    pub fn new(alloc: Global) -> Result<Ledger, NoMemory>
        ensures owned { IfOk result (λ ledger. (party : ℕ) (statement : Statement)
            → Owns ledger party statement → ⊥) }
        ensures shared { IfOk result (λ ledger. (party : ℕ) (statement first : Statement)
            → Shares ledger party statement first → ⊥) }
    {
        let shelves = empty_shelves(alloc)?;
        Ok(Ledger { alloc, shelves })
    }

    /// Keeps that a party made a statement. Where it is kept already nothing changes; want of memory changes
    /// nothing.
    pub fn made(&mut self, party: u32, statement: &Statement) -> Result<(), NoMemory>
        ensures again { Owns self.old party statement.now → self.new ≡ self.old }
        // Afterwards each party owns what it owned, and this one the statement too.
        ensures kept { OnOk result ((p : ℕ) (s : Statement) → Owns self.new p s
            ↔ (Owns self.old p s ⊎ (made_by p s ≡ made_by party statement.now))) }
        // It is the first that clashes with a statement where there was none, and else that one stays.
        ensures shared { OnOk result ((p : ℕ) (s first : Statement) → Shares self.new p s first
            ↔ (Shares self.old p s first ⊎ BeginsToShare self.old party statement.now p s first)) }
        ensures err { OnErr result (self.new ≡ self.old) }
    {
        if self.owns(party, statement) {
            return Ok(());
        }
        self.put(party, statement)
    }

    /// Whether the party made the statement. Takes no memory.
    #[tactic(auto, unfolding(crate::specs::Shelves::Owns))]
    pub fn owns(&self, party: u32, statement: &Statement) -> bool
        ensures { IsTrue result ↔ Owns self.now party statement.now }
    {
        stands_on(self.shelf(party, &statement.body), party, statement)
    }

    /// The first statement that the party made of those that have the spelling of this one and another
    /// payload. Takes no memory.
    #[tactic(auto, unfolding(crate::specs::Shelves::Shares))]
    pub fn shares(&self, party: u32, statement: &Statement) -> Option<&Statement>
        ensures some { IfSome result (λ first. Shares self.now party statement.now first.now) }
        ensures none { IfNone result ((other : Statement) → Owns self.now party other
            → DoClash other statement.now → ⊥) }
    {
        first_alike(self.shelf(party, &statement.body), party, statement)
    }

    /// What stands on the shelf of a party's statement.
    fn shelf(&self, party: u32, body: &Body) -> &[Made]
        ensures { result.now ≡ shelf_at self.now (shelf_of party body.now) }
    {
        self.shelves[shelf_of(party, body) as usize].items()
    }

    #[tactic(auto, unfolding(crate::specs::Shelves::with_made))]
    fn put(&mut self, party: u32, statement: &Statement) -> Result<(), NoMemory>
        ensures ok { OnOk result (self.new ≡ with_made party statement.now self.old) }
        ensures err { OnErr result (self.new ≡ self.old) }
        ensures size { length self.old ≡ 4096 }
    {
        let statement = statement.copy(self.alloc)?;
        let shelf = shelf_of(party, &statement.body) as usize;
        self.shelves[shelf].push(Made { party, statement })
    }
}

fn empty_shelves(alloc: Global) -> Result<Vec<Shelf>, NoMemory>
    ensures size { IfOk result (λ shelves. length shelves.items ≡ 4096) }
    ensures empty { IfOk result (λ shelves. (party : ℕ) (statement : Statement)
        → Owns shelves.items party statement → ⊥) }
    ensures shared { IfOk result (λ shelves. (party : ℕ) (statement first : Statement)
        → Shares shelves.items party statement first → ⊥) }
{
    let mut shelves = Vec::new(alloc);
    for _ in 0..SHELVES {
        shelves.push(Shelf::new(alloc))?;
    }
    Ok(shelves)
}
