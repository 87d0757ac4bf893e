//! The names that are seen at a place of the text.

ghost use Rattle.std.specs.Prelude.{◌≡◌, ◌∷◌, ◌-◌, ◌+◌, ◌≤◌, [], false, true, length, drop, None, Some, OnOk, IfOk, IfSome, IfNone};
ghost use Rattle.nys_tree.specs.Bindings as spec;
ghost use Rattle.nys_names.specs.Names.{BELOW_LETS, IsNext, with_text};
ghost use Rattle.nys_names.specs.Stmts.{behind};

use indexmap::IndexMap;
use nys_bytes::NoMemory;
use nys_tree::Name;
use std::alloc::Global;
use std::marker::Model;

/// What a name stands for: its numbers in the vector of places, and how it may be used.
#[derive(Drop)]
pub struct Entry {
    pub place: usize,
    pub len: u32,
    pub is_list: bool,
    pub is_fixed: bool,
}

/// A name with what it stands for.
#[derive(Drop)]
pub struct Declared {
    text: Vec<u8>,
    entry: Entry,
}

impl Model for Declared {
    ghost use Rattle.nys_tree.specs.Bindings.{Declared as Seen};
    ghost use Rattle.nys_names.specs.Names.{with_text};

    ghost Value = { Seen };

    ghost view = { λ d. with_text d.text.items d.entry };
}

impl Declared {
    /// The name, as the entry says.
    fn new(alloc: Global, name: &Name, entry: Entry) -> Result<Declared, NoMemory>
        ensures { IfOk result (λ d. d ≡ with_text name.now.text entry) }
    {
        let text = Vec::from_slice(alloc, name.text.as_slice())?;
        Ok(Declared { text, entry })
    }

    /// A scalar that a `let` declares.
    pub fn free(alloc: Global, name: &Name) -> Result<Declared, NoMemory>
        ensures { IfOk result (λ d. d ≡ spec.let_of name.now) }
    {
        Declared::variable(alloc, name, name.len, false)
    }

    /// A loop's name, or a sender.
    pub fn fixed(alloc: Global, name: &Name) -> Result<Declared, NoMemory>
        ensures { IfOk result (λ d. d ≡ spec.fixed_of name.now) }
    {
        let entry = Entry {
            place: name.place,
            len: name.len,
            is_list: false,
            is_fixed: true,
        };
        Declared::new(alloc, name, entry)
    }

    /// A payload.
    pub fn payload(alloc: Global, name: &Name) -> Result<Declared, NoMemory>
        ensures { IfOk result (λ d. d ≡ spec.payload_of name.now) }
    {
        let entry = Entry {
            place: name.place,
            len: name.len,
            is_list: true,
            is_fixed: true,
        };
        Declared::new(alloc, name, entry)
    }

    /// A variable with so many numbers.
    pub fn variable(
        alloc: Global,
        name: &Name,
        len: u32,
        is_list: bool,
    ) -> Result<Declared, NoMemory>
        ensures { IfOk result (λ d. d
            ≡ record { text = name.now.text; place = name.now.place; len = len; is_list = is_list; is_fixed = false }) }
    {
        let entry = Entry {
            place: name.place,
            len,
            is_list,
            is_fixed: false,
        };
        Declared::new(alloc, name, entry)
    }
}

/// The names that are seen, in the order of their declarations. Contracts see the newest first.
#[derive(Drop)]
pub struct Bindings {
    names: IndexMap<Vec<u8>, Entry>,
}

impl Model for Bindings {
    ghost use Rattle.std.specs.Prelude.{List};
    ghost use Rattle.std.specs.List.{IsDistinct};
    ghost use Rattle.std.specs.Str.{bytes_eq};
    ghost use Rattle.std.specs.Map.{keys_of};
    ghost use Rattle.nys_tree.specs.Bindings.{Declared as Seen};
    ghost use Rattle.nys_names.specs.Names.{IsLow, names_of};

    ghost Value = { List Seen };

    ghost view = { λ s. names_of (λ k. k.items) s.names.entries };

    ghost invariant = { λ s. IsDistinct (λ a b. bytes_eq a.items b.items) (keys_of s.names.entries)
        × IsLow (names_of (λ k. k.items) s.names.entries) };
}

impl Bindings {
    /// No name is seen.
    pub fn new(alloc: Global) -> Bindings
        ensures { result ≡ [] }
    {
        Bindings {
            names: IndexMap::new(alloc),
        }
    }

    /// How many names are seen.
    pub fn len(&self) -> usize
        ensures { result ≡ length self.now }
    {
        self.names.len()
    }

    /// What the name of these bytes stands for.
    pub fn find(&self, text: &[u8]) -> Option<&Entry>
        ensures some { IfSome result (λ entry. spec.seen text.now self.now
            ≡ Some (with_text text.now entry.now)) }
        ensures none { IfNone result (spec.seen text.now self.now ≡ None) }
    {
        self.names.get(text)
    }

    /// The first place above all names that are seen.
    pub fn top(&self) -> usize
        ensures place { result ≡ spec.top self.now }
        ensures low { result ≤ BELOW_LETS + length self.now }
    {
        let count = self.names.len();
        if count == 0 {
            return 0;
        }
        let newest = &self.names[count - 1];
        newest.place + newest.len as usize
    }

    /// Sees one more name.
    pub fn push(&mut self, declared: Declared) -> Result<(), NoMemory>
        requires { IsNext declared self.old }
        ensures { OnOk result (self.new ≡ declared ∷ self.old) }
    {
        self.names.insert(declared.text, declared.entry)?;
        Ok(())
    }

    /// Sees what a statement declares.
    pub fn see(&mut self, declared: Option<Declared>) -> Result<(), NoMemory>
        requires { IfSome declared (λ d. IsNext d self.old) }
        ensures { OnOk result (self.new ≡ behind declared self.old) }
    {
        match declared {
            Some(declared) => self.push(declared),
            None => Ok(()),
        }
    }

    /// Sees the oldest names alone, so many.
    pub fn leave(&mut self, len: usize)
        ensures { self.new ≡ drop (length self.old - len) self.old }
    {
        self.names.truncate(len);
    }
}
