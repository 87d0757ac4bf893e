//! The text of the hosts as a run leaves them.

ghost use Rattle.std.specs.Prelude.{◌≡◌, ◌<◌, ◌++◌, ◌-◌, OnOk, codes, decimal};
ghost use Rattle.nys_source.specs.Held.{shown};
ghost use Rattle.nys_runs.specs.HostLines.{host_line, hosts_text, running_word};

use nys_bytes::{NoMemory, Out};
use nys_source::{Protocol, System};
use nys_text::{put_number, put_outs, put_state};

/// Appends a line for each of this many hosts, which are all of the protocol.
pub fn put_hosts<P: Protocol>(system: &System<P>, hosts: u32, out: &mut Out) -> Result<(), NoMemory>
    requires { hosts ≡ (P.rules system.now.0).hosts }
    ensures { OnOk result (out.new ≡ out.old
        ++ hosts_text (P.rules system.now.0) (shown (P.rules system.now.0) system.now.1) 0 hosts) }
{
    for h in 0..hosts {
        put_host(system, h, out)?;
    }
    Ok(())
}

/// Appends the line of host `h`.
#[tactic(auto, unfolding(crate::specs::HostLines::host_line))]
fn put_host<P: Protocol>(system: &System<P>, h: u32, out: &mut Out) -> Result<(), NoMemory>
    requires { h < (P.rules system.now.0).hosts }
    ensures { OnOk result (out.new ≡ out.old
        ++ host_line (P.rules system.now.0) (shown (P.rules system.now.0) system.now.1) h) }
{
    put_head(out, h, system.running(h))?;
    out.put(b" state ")?;
    let numbers = system.view(h)?;
    put_state(out, numbers.as_slice())?;
    out.put(b" out ")?;
    put_outs(out, system.outs(h))?;
    out.put(b"\n")?;
    Ok(())
}

/// Appends which host it is, and whether it runs.
fn put_head(out: &mut Out, h: u32, running: bool) -> Result<(), NoMemory>
    ensures { OnOk result (out.new ≡ out.old ++ (codes "host " ++ (decimal h ++ running_word running))) }
{
    let word = if running { " running" } else { " stopped" };
    out.put(b"host ")?;
    put_number(out, h)?;
    out.put(word.as_bytes())?;
    Ok(())
}
