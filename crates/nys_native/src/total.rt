//! The state of the built-in protocols.

ghost use Rattle.std.specs.Prelude.{◌≡◌, ◌∷◌, [], IfOk, IfSome, IfNone, ◌≢◌, length};

use nys_bytes::{NoMemory, Payload};
use std::alloc::Global;

/// One number, 0 at the start.
#[derive(Clone, Copy, Debug, PartialEq, Eq)]
pub struct Total {
    pub value: i64,
}

impl Total {
    /// The payload of the number alone.
    pub(crate) fn payload(&self, alloc: Global) -> Result<Payload, NoMemory>
        ensures { IfOk result (λ payload. payload ≡ self.now.value ∷ []) }
    {
        match Payload::new(alloc, &[self.value]) {
            Ok(payload) => Ok(payload),
            Err(_) => Err(NoMemory),
        }
    }

    /// The number as the list that shows the state.
    pub(crate) fn shown(&self, alloc: Global) -> Result<Vec<i64>, NoMemory>
        ensures { IfOk result (λ numbers. numbers.items ≡ self.now.value ∷ []) }
    {
        let numbers = Vec::from_slice(alloc, &[self.value])?;
        Ok(numbers)
    }

    /// The state that the numbers show, if they are one number.
    pub(crate) fn read(numbers: &[i64]) -> Option<Total>
        ensures some { IfSome result (λ total. total.value ∷ [] ≡ numbers.now) }
        ensures none { IfNone result (length numbers.now ≢ 1) }
    {
        match numbers {
            [value] => Some(Total { value: *value }),
            _ => None,
        }
    }
}
