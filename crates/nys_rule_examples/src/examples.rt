//! What the rules say in small worlds, computed.

ghost use Rattle.nys_rule_examples.specs.Agreed.{alone, caught_up, left_behind, logged, not_received, received, too_few};
ghost use Rattle.nys_rule_examples.specs.Credited.{CanCredit, one_is_too_few, OneHolds, taken_at_the_last};
ghost use Rattle.nys_rule_examples.specs.Decided.{IsMet, unheard};
ghost use Rattle.nys_rule_examples.specs.Drops.{NodeDrops, NodeTakings, OlympusDrops};
ghost use Rattle.nys_rule_examples.specs.Epochs.{given_up, taken_over};
ghost use Rattle.nys_rule_examples.specs.Liars.{head_is_taken, IsFound, none_is_logged, one_is_logged};
ghost use Rattle.nys_rule_examples.specs.Logged.{CanLog, spoiled};
ghost use Rattle.nys_rule_examples.specs.Reached.{Leads};
ghost use Rattle.nys_rule_examples.specs.Relayed.{CanRelay, one_exchange, two_exchanges};
ghost use Rattle.nys_rule_examples.specs.Steps.{Candidates, Decisions, Settlings};

/// What records, single steps and whole replays lead to.
pub fn examples_law()
    // A record for each line of the table of drops, and records that are taken.
    ensures node_drops { NodeDrops }
    ensures node_takings { NodeTakings }
    ensures olympus_drops { OlympusDrops }
    // How a node settles, what a host offers, and what the Olympus decides.
    ensures settlings { Settlings }
    ensures candidates { Candidates }
    ensures decisions { Decisions }
    // Four exchanges log an input, and nine the message that it makes its host send.
    ensures too_few { Leads too_few }
    ensures logged { Leads logged }
    ensures not_received { Leads not_received }
    ensures received { Leads received }
    ensures alone { Leads alone }
    // A guard that was sent nothing asks, and one answer is enough.
    ensures left_behind { Leads left_behind }
    ensures caught_up { Leads caught_up }
    // Two offers for one slot, a stolen statement, and a head that its host passes over.
    ensures one_is_logged { Leads one_is_logged }
    ensures none_is_logged { Leads none_is_logged }
    ensures is_found { IsFound }
    ensures head_is_taken { Leads head_is_taken }
    // A host that can't be decided is given up, and new guards take over a log.
    ensures given_up { Leads given_up }
    ensures taken_over { Leads taken_over }
    // A log that must be decided, and one of which the Olympus hasn't heard.
    ensures is_met { IsMet }
    ensures unheard { Leads unheard }
    // A content that may be relayed: after one exchange a guard lacks it still, and after two none does.
    ensures can_relay { CanRelay }
    ensures one_exchange { Leads one_exchange }
    ensures two_exchanges { Leads two_exchanges }
    // An input that four exchanges must log, and one that none logs, since orders without their other tags
    // were taken first.
    ensures can_log { CanLog }
    ensures spoiled { Leads spoiled }
    // A message that enough guards hold as a head, and that is taken in the last slot that the credits tell.
    ensures can_credit { CanCredit }
    ensures taken_at_the_last { Leads taken_at_the_last }
    // One guard alone that holds it is too few.
    ensures one_holds { OneHolds }
    ensures one_is_too_few { Leads one_is_too_few }
{}
