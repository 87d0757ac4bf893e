//! The laws, each an empty function whose clauses state them for its protocol.

ghost use Rattle.nys_agreement.specs.Claims.{Agree, Always, DecideNear, DeliverOne, HandOver, HaveHomes, ReceiveWhatWasSent, SayOnce, Spell, TakeInputs};

use nys_source::Protocol;

/// What the honest parties agree on, after every list of events that the machine allows where few guards
/// lie.
pub fn agreement_law<P: Protocol>(protocol: &P)
    // Of two logs of one host one is a prefix of the other.
    ensures agree { Always (P.rules protocol.now) Agree }
    // No honest party makes two Offers, Orders or Delivers for one epoch, host and slot.
    ensures once { Always (P.rules protocol.now) SayOnce }
    // Delivers of honest parties for one epoch, host and slot are of one content.
    ensures one_content { Always (P.rules protocol.now) DeliverOne }
    // A decided log has as prefixes all logs of nodes in that epoch or an earlier one, for ever.
    ensures hand_over { HandOver (P.rules protocol.now) }
    // A decided log is at most one entry longer than some honest node's log.
    ensures near { Always (P.rules protocol.now) DecideNear }
{}

/// What the logs have to do with a run of the protocol's source system, after every list of events that
/// the machine allows where few guards lie.
pub fn run_law<P: Protocol>(protocol: &P)
    // Each message in a log is the sender's k-th in the run before it, and k is the next number.
    ensures sent { Always (P.rules protocol.now) (ReceiveWhatWasSent (P.rules protocol.now)) }
    // The logs spell the run.
    ensures spell { Always (P.rules protocol.now) (Spell (P.rules protocol.now)) }
    // An honest host's inputs are those handed to it, and no log of it is two entries longer than its own.
    ensures inputs { Always (P.rules protocol.now) (TakeInputs (P.rules protocol.now)) }
    // Each entry of the run has the epoch that put it there; these never fall along a log.
    ensures homes { Always (P.rules protocol.now) (HaveHomes (P.rules protocol.now)) }
{}
