//! Keys as they are printed, and the faults that name them.

ghost use Rattle.std.specs.Prelude.{◌≡◌, IfOk, IfErr, Ok};
ghost use Rattle.nys_scenario.specs.Epochs.{epoch_key};
ghost use Rattle.nys_scenario.specs.Keys.{IsFaultOf, IsRefusal, named as named_by};

use crate::fault::{KeyKind, ScenarioFault};
use nys_bytes::{NoMemory, Text};
use std::alloc::Global;

/// The fault of a key, which is printed as it stands.
pub(crate) fn key_fault(alloc: Global, key: &str, kind: KeyKind) -> ScenarioFault
    ensures { IsRefusal key.now kind result }
{
    match Text::new(alloc, key) {
        Ok(key) => ScenarioFault::Key { key, kind },
        Err(NoMemory) => ScenarioFault::NoMemory,
    }
}

/// What a key gives, with the key named where it is refused.
pub(crate) fn named<T: Drop>(
    alloc: Global,
    key: &str,
    given: Result<T, KeyKind>,
) -> Result<T, ScenarioFault>
    ensures ok { IfOk result (λ value. given ≡ Ok value) }
    ensures err { IfErr result (IsFaultOf (named_by key.now given)) }
{
    match given {
        Ok(value) => Ok(value),
        Err(kind) => Err(key_fault(alloc, key, kind)),
    }
}

/// A key of an epoch as it is printed, after the number of the epoch.
pub(crate) fn in_epoch(alloc: Global, index: usize, key: &str) -> Result<Text, NoMemory>
    ensures { IfOk result (λ text. text ≡ epoch_key index key.now) }
{
    let text = format!(in alloc; "epoch[{index}].{key}")?;
    Text::new(alloc, text.as_str())
}

/// What a key of an epoch gives, with the key named where it is refused.
pub(crate) fn named_in_epoch<T: Drop>(
    alloc: Global,
    index: usize,
    key: &str,
    given: Result<T, KeyKind>,
) -> Result<T, ScenarioFault>
    ensures ok { IfOk result (λ value. given ≡ Ok value) }
    ensures err { IfErr result (IsFaultOf (named_by (epoch_key index key.now) given)) }
{
    match given {
        Ok(value) => Ok(value),
        Err(kind) => {
            let key = in_epoch(alloc, index, key)?;
            Err(ScenarioFault::Key { key, kind })
        }
    }
}
