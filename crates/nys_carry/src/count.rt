//! The count of what failed.

ghost use Rattle.std.specs.Prelude.{◌≡◌, ◌+◌, IfOk};

use nys_bytes::NoMemory;

/// One send or poll more failed. Answers want of memory where the count has no room for it.
pub(crate) fn one_more(lost: u64) -> Result<u64, NoMemory>
    ensures { IfOk result (λ more. more ≡ lost + 1) }
{
    if lost == u64::MAX {
        return Err(NoMemory);
    }
    Ok(lost + 1)
}
