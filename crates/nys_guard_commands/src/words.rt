//! The words of faults of guards.

ghost use Rattle.std.specs.Prelude.{◌≡◌, ◌++◌, OnOk, IfOk, decimal};
ghost use Rattle.nys_guard_commands.specs.Words.{numbered, too_few_words, credit_words, share_words, guard_words, plan_words, fault_words, guards_answer, liars_answer};

use crate::fault::EpochFault;
use crate::print::{put_numbered, put_placed};
use nys_answer::{Answer, Status};
use nys_bytes::{NoMemory, Out};
use nys_guards::{GuardFault, TooMany};
use nys_plan::PlanFault;
use nys_text::put_number;
use std::alloc::Global;

/// A host has fewer guards than it needs.
fn put_too_few(out: &mut Out, h: u32, have: u32, need: u32) -> Result<(), NoMemory>
    ensures { OnOk result (out.new ≡ out.old ++ too_few_words h have need) }
{
    put_numbered(out, "host ", h)?;
    put_numbered(out, " has ", have)?;
    put_numbered(out, " guards and needs ", need)
}

/// A host has more neighbours than credit.
fn put_credit(out: &mut Out, h: u32, credit: u32, degree: u32) -> Result<(), NoMemory>
    ensures { OnOk result (out.new ≡ out.old ++ credit_words h credit degree) }
{
    put_numbered(out, "host ", h)?;
    put_numbered(out, " has credit ", credit)?;
    put_numbered(out, " and needs ", degree)
}

/// Two linked hosts share fewer guards than they need.
fn put_share(out: &mut Out, p: u32, h: u32, have: u32, need: u32) -> Result<(), NoMemory>
    ensures { OnOk result (out.new ≡ out.old ++ share_words p h have need) }
{
    put_numbered(out, "hosts ", p)?;
    put_numbered(out, " and ", h)?;
    put_numbered(out, " share ", have)?;
    put_numbered(out, " guards and need ", need)
}

fn put_not_own(out: &mut Out, h: u32) -> Result<(), NoMemory>
    ensures { OnOk result (out.new ≡ out.old ++ guard_words (GuardFault.NotOwn h)) }
{
    put_numbered(out, "host ", h)?;
    out.put(b" is not its own guard")
}

fn put_too_few_hosts(out: &mut Out, hosts: u32, need: u32) -> Result<(), NoMemory>
    ensures { OnOk result (out.new ≡ out.old ++ plan_words (PlanFault.TooFewHosts hosts need)) }
{
    put_number(out, hosts)?;
    put_numbered(out, " hosts and ", need)?;
    out.put(b" are needed")
}

fn put_guard_fault(out: &mut Out, fault: GuardFault) -> Result<(), NoMemory>
    ensures { OnOk result (out.new ≡ out.old ++ guard_words fault) }
{
    match fault {
        GuardFault::NotOwn(h) => put_not_own(out, h),
        GuardFault::TooFew(h, have, need) => put_too_few(out, h, have, need),
        GuardFault::CreditTooSmall(h, credit, degree) => put_credit(out, h, credit, degree),
        GuardFault::ShareTooFew(p, h, have, need) => put_share(out, p, h, have, need),
    }
}

fn put_plan_fault(out: &mut Out, fault: PlanFault) -> Result<(), NoMemory>
    ensures { OnOk result (out.new ≡ out.old ++ plan_words fault) }
{
    match fault {
        PlanFault::TooFewHosts(hosts, need) => put_too_few_hosts(out, hosts, need),
        PlanFault::CreditTooSmall(h, credit, degree) => put_credit(out, h, credit, degree),
    }
}

fn put_fault(out: &mut Out, fault: EpochFault) -> Result<(), NoMemory>
    ensures { OnOk result (out.new ≡ out.old ++ fault_words fault) }
{
    match fault {
        EpochFault::Unplanned(fault) => put_plan_fault(out, fault),
        EpochFault::NotGood(fault) => put_guard_fault(out, fault),
    }
}

/// The answer that names what is wrong with the guards of an epoch.
pub(crate) fn guards_answer(alloc: Global, e: usize, fault: EpochFault) -> Result<Answer, NoMemory>
    ensures { IfOk result (λ answer. answer ≡ guards_answer e fault) }
{
    let mut line = Out::new(alloc);
    put_placed(&mut line, "guards: epoch ", e)?;
    line.put(b": ")?;
    put_fault(&mut line, fault)?;
    Answer::line(Status::Guards, line)
}

/// The answer that names a host with too many liars among its guards.
pub(crate) fn liars_answer(alloc: Global, e: usize, fault: TooMany) -> Result<Answer, NoMemory>
    ensures { IfOk result (λ answer. answer ≡ liars_answer e fault) }
{
    let TooMany(h, have) = fault;
    let mut line = Out::new(alloc);
    put_placed(&mut line, "liars: epoch ", e)?;
    put_numbered(&mut line, ": host ", h)?;
    put_numbered(&mut line, " has ", have)?;
    Answer::line(Status::Liars, line)
}
