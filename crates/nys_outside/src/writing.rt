//! A whole text written to a sink.

ghost use Rattle.std.specs.Prelude.{◌≡◌, ◌≤◌, OnOk, IsErrOf};
ghost use Rattle.std.specs.Io.KnownBytes.{Appends};
ghost use Rattle.nys_outside.specs.Counts.{Rose};
ghost use Rattle.nys_outside.specs.Output.{AppendsFront};

use crate::fault::OutFault;
use crate::sink::Sink;

/// Writes all the bytes, by as many writes as the sink wants. Where it answers an error, a front of
/// them was written.
pub fn write_all<K: Sink>(sink: &mut K, bytes: &[u8]) -> Result<(), OutFault>
    ensures all { OnOk result (Appends (K.written sink.old) (K.written sink.new) bytes.now) }
    ensures part { AppendsFront (K.written sink.old) (K.written sink.new) bytes.now }
    ensures failed { IsErrOf result OutFault.Failed → Rose (K.faults sink.old) (K.faults sink.new) }
    ensures later { K.faults sink.old ≤ K.faults sink.new }
{
    let mut at = 0;
    while at < bytes.len() {
        at += sink.write(&bytes[at..])?;
    }
    Ok(())
}
