//! A frame as bytes.

ghost use Rattle.std.specs.Prelude.{◌≡◌, IfOk};
ghost use Rattle.nys_outside.specs.Frames.{IsFrame};
ghost use Rattle.nys_frame.specs.Framing.{framed};

use nys_bytes::{NoMemory, Out};
use std::alloc::Global;

/// A frame of 1 to `MAX_FRAME` bytes with its length in front.
pub fn with_length(alloc: Global, frame: &[u8]) -> Result<Vec<u8>, NoMemory>
    requires { IsFrame frame.now }
    ensures { IfOk result (λ bytes. bytes.items ≡ framed frame.now) }
{
    let mut out = Out::new(alloc);
    out.put_u32(frame.len() as u32)?;
    out.put(frame)?;
    Ok(out.into_bytes())
}
