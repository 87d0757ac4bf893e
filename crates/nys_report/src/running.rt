//! The run of a world, and every host after it.

ghost use Rattle.std.specs.Prelude.{◌≡◌, ◌++◌, IfOk, None, OnOk};
ghost use Rattle.nys_report.specs.Countable.{IsCountable};
ghost use Rattle.nys_printed.specs.Lines.{run_and_hosts};
ghost use Rattle.nys_source.specs.Held.{HasRoom, shown};
ghost use Rattle.nys_source.specs.Runs.{after_run, IsRun};
ghost use Rattle.nys_source.specs.Steps.{after_step, refusal};

use crate::lent::Lent;
use nys_bytes::{NoMemory, Out};
use nys_runs::put_hosts;
use nys_source::{Protocol, Step, System, run_text};
use std::alloc::Global;

/// Appends the sections `run` and `hosts` of a run: its steps, and every host as they leave it.
pub(crate) fn put_run<P: Protocol>(
    alloc: Global,
    protocol: &P,
    run: &[Step],
    out: &mut Out,
) -> Result<(), NoMemory>
    requires run { IsRun (P.rules protocol.now) run.now }
    requires few { IsCountable (P.rules protocol.now) run.now }
    ensures { OnOk result (out.new ≡ out.old ++ run_and_hosts (P.rules protocol.now) run.now) }
{
    let system = system_after(alloc, Lent { protocol }, run)?;
    put_left(&system, run, out)
}

/// Appends the steps of the run that leaves this system, and every host after it.
fn put_left<P: Protocol>(system: &System<P>, run: &[Step], out: &mut Out) -> Result<(), NoMemory>
    requires { shown (P.rules system.now.0) system.now.1 ≡ after_run (P.rules system.now.0) run.now }
    ensures { OnOk result (out.new ≡ out.old ++ run_and_hosts (P.rules system.now.0) run.now) }
{
    out.put(b"run\n")?;
    run_text(run, out)?;
    out.put(b"hosts\n")?;
    put_hosts(system, system.hosts(), out)
}

/// The system that the run leaves.
fn system_after<P: Protocol>(
    alloc: Global,
    protocol: P,
    run: &[Step],
) -> Result<System<P>, NoMemory>
    requires run { IsRun (P.rules protocol) run.now }
    requires few { IsCountable (P.rules protocol) run.now }
    ensures protocol { IfOk result (λ after. after.0 ≡ protocol) }
    ensures after { IfOk result (λ after. shown (P.rules protocol) after.1
        ≡ after_run (P.rules protocol) run.now) }
{
    let mut system = System::new(alloc, protocol)?;
    for step in run {
        system = take(system, step)?;
    }
    Ok(system)
}

/// The system after a step that may be taken.
fn take<P: Protocol>(system: System<P>, step: &Step) -> Result<System<P>, NoMemory>
    requires lawful { refusal (P.rules system.0) (shown (P.rules system.0) system.1) step.now ≡ None }
    requires room { HasRoom (shown (P.rules system.0) system.1) step.now }
    ensures protocol { IfOk result (λ after. after.0 ≡ system.0) }
    ensures after { IfOk result (λ after. shown (P.rules system.0) after.1
        ≡ after_step (P.rules system.0) (shown (P.rules system.0) system.1) step.now) }
{
    match system.take(step) {
        Ok(after) => Ok(after),
        Err(_) => Err(NoMemory),
    }
}
