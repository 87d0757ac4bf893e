//! The numbers with which a machine and its handlers begin.

ghost use Rattle.std.specs.Prelude.{◌≡◌, ℕ, ◌≤◌, ◌++◌, ◌∷◌, [], length, replicate, IfOk, OnOk};
ghost use Rattle.nys_meaning.specs.Machines.{count_of, starts};
ghost use Rattle.nys_places.specs.Steps.{cells_of};

use crate::state::State;
use nys_bytes::NoMemory;
use nys_places::Cells;
use nys_tree::Var;
use sqlite_items::Items;
use std::alloc::Global;

/// The numbers with which the variables begin, in order of declaration.
pub fn starts(alloc: Global, vars: &[Var]) -> Result<Items<i64>, NoMemory>
    ensures { IfOk result (λ numbers. numbers ≡ starts vars.now) }
{
    let mut numbers = Items::new(alloc);
    for var in vars {
        let own = repeated(alloc, var)?;
        numbers.append(own)?;
    }
    Ok(numbers)
}

/// The numbers with which one variable begins.
fn repeated(alloc: Global, var: &Var) -> Result<Items<i64>, NoMemory>
    ensures { IfOk result (λ numbers. numbers ≡ replicate (count_of var.now) var.now.start) }
{
    let numbers = vec![in alloc; var.start; count_of(var)]?;
    Ok(Items::from_vec(numbers))
}

/// How many numbers a variable has.
fn count_of(var: &Var) -> usize
    ensures { result ≡ count_of var.now }
{
    match var.size {
        None => 1,
        Some(size) => usize::try_from(size).unwrap_or(0),
    }
}

/// The cells with which a handler begins.
pub fn cells<'a>(
    alloc: Global,
    state: &State,
    from: Option<u32>,
    payload: &'a [i64],
) -> Result<Cells<'a>, NoMemory>
    ensures { IfOk result (λ cells. cells ≡ cells_of from state.now payload.entry) }
{
    let mut numbers = Items::from_slice(alloc, state.numbers())?;
    if let Some(host) = from {
        numbers.push(i64::from(host))?;
    }
    Ok(Cells { numbers, payload })
}
