//! The text of a run.

ghost use Rattle.std.specs.Prelude.{◌≡◌, ◌++◌, OnOk, decimal, codes};
ghost use Rattle.nys_text.specs.Printed.{spaced};
ghost use Rattle.nys_source.specs.RunText.{step_line, steps_text};

use crate::step::Step;
use nys_bytes::{NoMemory, Out, Payload};
use nys_text::{put_number, put_spaced};

/// Appends the lines of the steps, in order. The form is "Run text" in docs/FORMATS.md.
pub fn run_text(steps: &[Step], out: &mut Out) -> Result<(), NoMemory>
    ensures { OnOk result (out.new ≡ out.old ++ steps_text steps.now) }
{
    for step in steps {
        put_step(step, out)?;
    }
    Ok(())
}

fn put_step(step: &Step, out: &mut Out) -> Result<(), NoMemory>
    ensures { OnOk result (out.new ≡ out.old ++ step_line step.now) }
{
    match step {
        Step::Input { h, payload } => put_input(*h, payload, out),
        Step::Receive { h, p, k } => put_receive(*h, *p, *k, out),
        Step::Stop { h } => put_stop(*h, out),
    }
}

fn put_input(h: u32, payload: &Payload, out: &mut Out) -> Result<(), NoMemory>
    ensures { OnOk result (out.new ≡ out.old ++ step_line (Step.Input h payload.now)) }
{
    put_number(out, h)?;
    out.put(b" input")?;
    put_spaced(out, payload.numbers())?;
    out.put(b"\n")
}

fn put_receive(h: u32, p: u32, k: u32, out: &mut Out) -> Result<(), NoMemory>
    ensures { OnOk result (out.new ≡ out.old ++ step_line (Step.Receive h p k)) }
{
    put_number(out, h)?;
    out.put(b" receive ")?;
    put_number(out, p)?;
    out.put(b" ")?;
    put_number(out, k)?;
    out.put(b"\n")
}

fn put_stop(h: u32, out: &mut Out) -> Result<(), NoMemory>
    ensures { OnOk result (out.new ≡ out.old ++ step_line (Step.Stop h)) }
{
    put_number(out, h)?;
    out.put(b" stop\n")
}
