//! The law, an empty function whose clause states it for its protocol.

ghost use Rattle.nys_laws.specs.Worlds.{InEachWorld};
ghost use Rattle.nys_rules.specs.World.{Setting};
ghost use Rattle.nys_told.specs.Told.{StopsNobody, TellsOlympus};

use nys_source::Protocol;

/// What the notes of a world tell of the Olympus, in each world that events make.
pub fn told_law<P: Protocol>(_protocol: &P)
    // The decided log of a host is as long as the greatest length that a note `decided` tells of it, and
    // a host is given up where a note `retired` tells so.
    ensures told { (setting : Setting P.State) → InEachWorld setting TellsOlympus }
    // The run itself stops no host: the stops of the printed run are those of hosts that are given up.
    ensures stops { (setting : Setting P.State) → InEachWorld setting StopsNobody }
{}
