//! The protocol that the hosts run.

ghost use Rattle.std.specs.Prelude.{◌≡◌, ◌≢◌, IfOk, IfErr, Ok, Err};
ghost use Rattle.nys_scenario.specs.Keys.{IsFaultOf};
ghost use Rattle.nys_scenario.specs.Machine.{machine_of};
ghost use Rattle.nys_scenario.specs.Protocol.{protocol_by, protocol_of};

use crate::fault::ScenarioFault;
use crate::protocol::ProtocolName;
use nys_lex::{MachineFault, tokens};
use nys_names::{Named, check_names};
use nys_parse::parse;
use std::alloc::Global;

/// Which protocol the hosts run.
#[derive(Drop)]
pub enum Choice {
    /// Each host adds up the numbers that it gets, and sends its inputs on.
    Sum,
    /// Each host sends on what is greater than all before it.
    Flood,
    /// Each host finds the nearest way to each host that had an input.
    Route,
    /// What the root is given goes down a tree of shortest walks.
    Tree { root: u32 },
    /// Each host runs the handlers of a machine, whose names have passed the rules.
    Machine { named: Named },
}

/// The machine that a text writes, or the first fault of the text.
#[tactic(auto, unfolding(crate::specs::Machine::machine_of))]
fn machine(alloc: Global, text: &str) -> Result<Named, MachineFault>
    ensures ok { IfOk result (λ named. machine_of text.now ≡ Ok named.tree) }
    ensures err { IfErr result (λ fault. fault ≢ MachineFault.NoMemory → machine_of text.now ≡ Err fault) }
{
    let tokens = tokens(alloc, text)?;
    let tree = parse(alloc, tokens.as_slice())?;
    check_names(alloc, tree)
}

/// The protocol of this name, with this root where it is a tree. The text is read for a machine alone.
pub(crate) fn chosen(
    alloc: Global,
    name: ProtocolName,
    root: u32,
    text: &str,
) -> Result<Choice, ScenarioFault>
    ensures ok { IfOk result (λ choice. protocol_of name root text.now ≡ Ok (protocol_by choice)) }
    ensures err { IfErr result (IsFaultOf (protocol_of name root text.now)) }
{
    match name {
        ProtocolName::Sum => Ok(Choice::Sum),
        ProtocolName::Flood => Ok(Choice::Flood),
        ProtocolName::Route => Ok(Choice::Route),
        ProtocolName::Tree => Ok(Choice::Tree { root }),
        ProtocolName::Machine => Ok(Choice::Machine {
            named: machine(alloc, text)?,
        }),
    }
}
