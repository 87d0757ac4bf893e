//! Owned text.

ghost use Rattle.std.specs.Prelude.{◌≡◌, ℕ, List, IfOk, string_bytes};

use crate::fault::NoMemory;
use std::alloc::Global;
use std::convert::AsStr;
use std::marker::Model;

/// A text of its own memory, which never changes. Contracts see its bytes, which are UTF-8.
#[derive(Debug, Drop)]
pub struct Text {
    held: String,
}

impl Model for Text {
    ghost Value = { List ℕ };

    ghost view = { λ t. string_bytes t.held };
}

impl Text {
    /// A copy of this text.
    pub fn new(alloc: Global, text: &str) -> Result<Text, NoMemory>
        ensures { IfOk result (λ copy. copy ≡ text.now) }
    {
        let held = String::from_str(alloc, text)?;
        Ok(Text { held })
    }

    /// The text itself.
    pub fn as_str(&self) -> &str
        ensures { result.now ≡ self.now }
    {
        self.held.as_str()
    }
}

impl AsStr for Text {
    ghost text = { λ t. t };

    fn as_str(&self) -> &str {
        self.held.as_str()
    }
}
