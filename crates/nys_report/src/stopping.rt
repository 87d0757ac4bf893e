//! The printed run: the run of a world, then a stop for each host that is given up.

ghost use Rattle.std.specs.Prelude.{◌≡◌, ◌++◌, ◌∷◌, ◌≤◌, [], false, IfOk, OnOk, filter, map};
ghost use Rattle.std.specs.List.{range_with_len};
ghost use Rattle.nys_hosts.specs.Sets.{has};
ghost use Rattle.nys_report.specs.Countable.{IsCountable};
ghost use Rattle.nys_printed.specs.Lines.{run_and_hosts};
ghost use Rattle.nys_report.specs.Parts.{stopped_run, stops_of};
ghost use Rattle.nys_source.specs.Runs.{IsRun};

use crate::running::put_run;
use nys_bytes::{NoMemory, Out};
use nys_hosts::HostSet;
use nys_source::{Protocol, Step};
use std::alloc::Global;

/// Appends the sections `run` and `hosts` of the run with these steps and then a stop for each of so many
/// hosts that is given up, rising.
pub(crate) fn put_stopped_run<P: Protocol>(
    alloc: Global,
    protocol: &P,
    hosts: u32,
    steps: &[Step],
    retired: HostSet,
    out: &mut Out,
) -> Result<(), NoMemory>
    requires run { IsRun (P.rules protocol.now) (stopped_run hosts (has retired) steps.now) }
    requires few { IsCountable (P.rules protocol.now) (stopped_run hosts (has retired) steps.now) }
    ensures { OnOk result (out.new ≡ out.old
        ++ run_and_hosts (P.rules protocol.now) (stopped_run hosts (has retired) steps.now)) }
{
    let mut run = copied(alloc, steps)?;
    put_stops(&mut run, hosts, retired)?;
    put_run(alloc, protocol, run.as_slice(), out)
}

/// The steps, with memory of their own.
fn copied(alloc: Global, steps: &[Step]) -> Result<Vec<Step>, NoMemory>
    ensures { IfOk result (λ run. run.items ≡ steps.now) }
{
    let mut run = Vec::new(alloc);
    for step in steps {
        push(&mut run, copy_of(alloc, step)?)?;
    }
    Ok(run)
}

/// An equal step with memory of its own.
fn copy_of(alloc: Global, step: &Step) -> Result<Step, NoMemory>
    ensures { IfOk result (λ copy. copy ≡ step.now) }
{
    match step {
        Step::Input { h, payload } => {
            let payload = payload.copy(alloc)?;
            Ok(Step::Input { h: *h, payload })
        }
        Step::Receive { h, p, k } => Ok(Step::Receive {
            h: *h,
            p: *p,
            k: *k,
        }),
        Step::Stop { h } => Ok(Step::Stop { h: *h }),
    }
}

/// A stop for each host of the set that is below this number, rising, joins the steps.
fn put_stops(run: &mut Vec<Step>, hosts: u32, retired: HostSet) -> Result<(), NoMemory>
    ensures { OnOk result (run.new.items ≡ run.old.items ++ stops_of (has retired) (range_with_len 0 hosts)) }
{
    for h in 0..hosts {
        put_stop(run, h, retired)?;
    }
    Ok(())
}

/// A stop of the host joins the steps, if the set has the host.
fn put_stop(run: &mut Vec<Step>, h: u32, retired: HostSet) -> Result<(), NoMemory>
    ensures { OnOk result (run.new.items ≡ run.old.items ++ stops_of (has retired) (h ∷ [])) }
{
    if retired.contains(h) {
        return push(run, Step::Stop { h });
    }
    Ok(())
}

/// The step joins the steps.
fn push(run: &mut Vec<Step>, step: Step) -> Result<(), NoMemory>
    ensures { OnOk result (run.new.items ≡ run.old.items ++ step ∷ []) }
{
    run.push(step)?;
    Ok(())
}
