//! A source read to its end, or to a limit.

ghost use Rattle.std.specs.Prelude.{◌≡◌, ◌≤◌, ◌<◌, ◌+◌, ◌++◌, ℕ, List, length, IfOk, IsErrOf};
ghost use Rattle.nys_outside.specs.Counts.{Rose};
ghost use Rattle.nys_outside.specs.Input.{TookNext, HasEnded, TookAll, TookAtMost, Exceeds};

use crate::fault::Failed;
use crate::source::Source;
use std::alloc::{AllocError, Global};
use thiserror::Error;

/// How many bytes one read asks for at most.
const PIECE: usize = 65_536;

/// Why an input was not read to its end.
#[derive(Clone, Copy, Debug, PartialEq, Eq, Error)]
pub enum ReadFault {
    /// The input has more bytes than the limit.
    #[error("too large")]
    TooLarge,
    /// A read failed, and the source's count of faults rose.
    #[error("failed")]
    Failed,
    /// The allocator had no room.
    #[error("no memory")]
    NoMemory,
}

impl From<Failed> for ReadFault {
    ghost use Rattle.std.specs.Prelude.{◌≡◌};
    ghost use Rattle.nys_outside.specs.declared.reading.ReadFault.TheVariants as read_fault;

    ghost from_gives = { λ _ fault. fault ≡ read_fault.Failed };

    fn from(_fault: Failed) -> ReadFault {
        ReadFault::Failed
    }
}

impl From<AllocError> for ReadFault {
    ghost use Rattle.std.specs.Prelude.{◌≡◌};
    ghost use Rattle.nys_outside.specs.declared.reading.ReadFault.TheVariants as read_fault;

    ghost from_gives = { λ _ fault. fault ≡ read_fault.NoMemory };

    fn from(_error: AllocError) -> ReadFault {
        ReadFault::NoMemory
    }
}

/// One read into the piece, and what it gave at the end of the bytes. Answers how many there were.
fn read_piece<S: Source>(
    source: &mut S,
    piece: &mut [u8],
    bytes: &mut Vec<u8>,
) -> Result<usize, ReadFault>
    requires { 0 < length piece.old }
    ensures next { (next : List ℕ)
        × TookNext (S.told source.old) (S.told source.new) next
        × (length next ≤ length piece.old)
        × IfOk result (λ n. (bytes.new.items ≡ bytes.old.items ++ next) × (n ≡ length next)) }
    ensures end { IfOk result (λ n. n ≡ 0 → HasEnded (S.told source.old)) }
    ensures failed { IsErrOf result ReadFault.Failed → Rose (S.faults source.old) (S.faults source.new) }
    ensures later { S.faults source.old ≤ S.faults source.new }
    ensures kinds { IsErrOf result ReadFault.TooLarge → ⊥ }
{
    let n = source.read(piece)?;
    bytes.extend_from_slice(&piece[..n])?;
    Ok(n)
}

/// `read_all` by way of a piece of memory.
fn read_by_piece<S: Source>(
    alloc: Global,
    source: &mut S,
    piece: &mut [u8],
    limit: usize,
) -> Result<Vec<u8>, ReadFault>
    requires { 0 < length piece.old }
    ensures size { IfOk result (λ bytes. length bytes.items ≤ limit) }
    ensures all { IfOk result (λ bytes. TookAll (S.told source.old) (S.told source.new) bytes.items) }
    ensures too_large { IsErrOf result ReadFault.TooLarge → Exceeds limit (S.told source.old) }
    ensures failed { IsErrOf result ReadFault.Failed → Rose (S.faults source.old) (S.faults source.new) }
    ensures taken { TookAtMost (limit + 1) (S.told source.old) (S.told source.new) }
    ensures later { S.faults source.old ≤ S.faults source.new }
{
    let mut bytes = Vec::new(alloc);
    while bytes.len() <= limit {
        let room = (limit - bytes.len()).min(piece.len() - 1) + 1;
        let n = read_piece(source, &mut piece[..room], &mut bytes)?;
        if n == 0 {
            return Ok(bytes);
        }
    }
    Err(ReadFault::TooLarge)
}

/// All the bytes of the source, of which there may be as many as the limit. It reads the byte past the
/// limit, if there is one, and none after that.
pub fn read_all<S: Source>(
    alloc: Global,
    source: &mut S,
    limit: usize,
) -> Result<Vec<u8>, ReadFault>
    ensures size { IfOk result (λ bytes. length bytes.items ≤ limit) }
    ensures all { IfOk result (λ bytes. TookAll (S.told source.old) (S.told source.new) bytes.items) }
    ensures too_large { IsErrOf result ReadFault.TooLarge → Exceeds limit (S.told source.old) }
    ensures failed { IsErrOf result ReadFault.Failed → Rose (S.faults source.old) (S.faults source.new) }
    ensures taken { TookAtMost (limit + 1) (S.told source.old) (S.told source.new) }
    ensures later { S.faults source.old ≤ S.faults source.new }
{
    let mut piece = vec![in alloc; 0u8; PIECE]?;
    read_by_piece(alloc, source, &mut piece, limit)
}
