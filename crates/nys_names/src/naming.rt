//! The rules of one name, in the order of their tests.

ghost use Rattle.std.specs.Prelude.{◌≡◌, IfOk};
ghost use Rattle.nys_names.specs.Names as spec;

use crate::bindings::Bindings;
use nys_bytes::NoMemory;
use nys_lex::{MachineFault, MachineKind};
use nys_tree::Name;
use sqlite_items::Items;
use std::alloc::Global;

/// A fault of this kind at this name.
pub fn fault_at(kind: MachineKind, name: &Name) -> MachineFault
    ensures { result ≡ spec.fault_at kind name.now }
{
    MachineFault::At {
        line: name.line,
        col: name.col,
        kind,
    }
}

/// Drops what was placed in front of a fault, and gives the fault.
pub fn refused<T: Drop>(_placed: T, fault: MachineFault) -> MachineFault
    ensures { result ≡ fault }
{
    fault
}

/// The name at this place, with so many numbers.
pub fn name_at(alloc: Global, name: &Name, place: usize, len: u32) -> Result<Name, NoMemory>
    ensures { IfOk result (λ placed. placed ≡ spec.name_at name.now place len) }
{
    let text = Items::from_slice(alloc, name.text.as_slice())?;
    Ok(Name {
        line: name.line,
        col: name.col,
        place,
        len,
        text,
    })
}

/// A use of a scalar.
#[tactic(auto, unfolding(crate::specs::Names::scalar))]
pub fn scalar(alloc: Global, name: &Name, bindings: &Bindings) -> Result<Name, MachineFault>
    ensures { spec.Answers (spec.scalar name.now bindings.now) result }
{
    let Some(found) = bindings.find(name.text.as_slice()) else {
        return Err(fault_at(MachineKind::Unknown, name));
    };
    if found.is_list {
        return Err(fault_at(MachineKind::List, name));
    }
    Ok(name_at(alloc, name, found.place, found.len)?)
}

/// A use of a list.
#[tactic(auto, unfolding(crate::specs::Names::list))]
pub fn list(alloc: Global, name: &Name, bindings: &Bindings) -> Result<Name, MachineFault>
    ensures { spec.Answers (spec.list name.now bindings.now) result }
{
    let Some(found) = bindings.find(name.text.as_slice()) else {
        return Err(fault_at(MachineKind::Unknown, name));
    };
    if !found.is_list {
        return Err(fault_at(MachineKind::Scalar, name));
    }
    Ok(name_at(alloc, name, found.place, found.len)?)
}

/// An assignment to a scalar.
#[tactic(auto, unfolding(crate::specs::Names::set_scalar))]
pub fn set_scalar(alloc: Global, name: &Name, bindings: &Bindings) -> Result<Name, MachineFault>
    ensures { spec.Answers (spec.set_scalar name.now bindings.now) result }
{
    let Some(found) = bindings.find(name.text.as_slice()) else {
        return Err(fault_at(MachineKind::Unknown, name));
    };
    if found.is_fixed {
        return Err(fault_at(MachineKind::Fixed, name));
    }
    if found.is_list {
        return Err(fault_at(MachineKind::List, name));
    }
    Ok(name_at(alloc, name, found.place, found.len)?)
}

/// An assignment to an item of a list.
#[tactic(auto, unfolding(crate::specs::Names::set_list))]
pub fn set_list(alloc: Global, name: &Name, bindings: &Bindings) -> Result<Name, MachineFault>
    ensures { spec.Answers (spec.set_list name.now bindings.now) result }
{
    let Some(found) = bindings.find(name.text.as_slice()) else {
        return Err(fault_at(MachineKind::Unknown, name));
    };
    if found.is_fixed {
        return Err(fault_at(MachineKind::Fixed, name));
    }
    if !found.is_list {
        return Err(fault_at(MachineKind::Scalar, name));
    }
    Ok(name_at(alloc, name, found.place, found.len)?)
}

/// A declaration of a name with so many numbers.
#[tactic(auto, unfolding(crate::specs::Names::new_name))]
pub fn new_name(
    alloc: Global,
    len: u32,
    name: &Name,
    bindings: &Bindings,
) -> Result<Name, MachineFault>
    ensures placed { spec.Answers (spec.new_name len name.now bindings.now) result }
    ensures new { IfOk result (λ placed. spec.IsPlaced len placed bindings.now) }
{
    if let Some(_earlier) = bindings.find(name.text.as_slice()) {
        return Err(fault_at(MachineKind::Doubled, name));
    }
    let place = bindings.top();
    Ok(name_at(alloc, name, place, len)?)
}
