//! Numbers and sets of hosts as they are printed. A call that answers `NoMemory` may have appended a
//! part of its text.

ghost use Rattle.std.specs.Prelude.{◌≡◌, ◌++◌, OnOk, codes, decimal, ℕ, ◌<◌};
ghost use Rattle.std.specs.List.{join_by};
ghost use Rattle.nys_hosts.specs.Sets.{members};
ghost use Rattle.nys_guard_commands.specs.Words.{numbered};
ghost use Rattle.nys_guard_commands.specs.Planned.{comma_before};

use itoa::Buffer;
use nys_bytes::{NoMemory, Out};
use nys_hosts::{HostSet, MAX_HOSTS};
use nys_text::put_number;

/// Appends words and a number behind them.
pub(crate) fn put_numbered(out: &mut Out, words: &str, number: u32) -> Result<(), NoMemory>
    ensures { OnOk result (out.new ≡ out.old ++ numbered words.now number) }
{
    out.put(words.as_bytes())?;
    put_number(out, number)
}

/// Appends words and the number of an epoch behind them.
pub(crate) fn put_placed(out: &mut Out, words: &str, place: usize) -> Result<(), NoMemory>
    ensures { OnOk result (out.new ≡ out.old ++ numbered words.now place) }
{
    let mut buffer = Buffer::new();
    out.put(words.as_bytes())?;
    out.put(buffer.format(place).as_bytes())
}

/// Appends the hosts of a set, rising, with a comma between each two.
pub(crate) fn put_hosts(out: &mut Out, hosts: HostSet) -> Result<(), NoMemory>
    ensures { OnOk result (out.new ≡ out.old ++ join_by decimal (codes ",") (members hosts)) }
{
    let mut started = false;
    for h in 0..MAX_HOSTS as u32 {
        if hosts.contains(h) {
            put_host(out, started, h)?;
            started = true;
        }
    }
    Ok(())
}

/// Appends a host, behind a comma where others stand before it.
fn put_host(out: &mut Out, started: bool, h: u32) -> Result<(), NoMemory>
    ensures { OnOk result (out.new ≡ out.old ++ (comma_before started ++ decimal h)) }
{
    if started {
        out.put(b",")?;
    }
    put_number(out, h)
}
