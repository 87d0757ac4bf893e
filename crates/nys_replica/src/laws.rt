//! Laws of replicas, each an empty function whose clauses state it.

ghost use Rattle.std.specs.Prelude.{◌≡◌, ℕ, List, drop, length};
ghost use Rattle.nys_bytes.specs.declared.content.Content.{Content};
ghost use Rattle.nys_source.specs.Rules.{Rules};
ghost use Rattle.nys_replica.specs.Stands.{kept_from, StandsFor};

use crate::replica::Replica;
use nys_source::Protocol;

/// A replica stands for logs of one host alone: of one length, with the same entries where these are kept.
pub fn logs_law<P: Protocol>(replica: &Replica<P>)
    ensures host { (rules : Rules P.State) (h g : ℕ) (log other : List Content)
        → StandsFor rules h replica.now log → StandsFor rules g replica.now other → h ≡ g }
    ensures entries { (rules : Rules P.State) (h g : ℕ) (log other : List Content)
        → StandsFor rules h replica.now log → StandsFor rules g replica.now other
        → (length log ≡ length other)
        × (drop (kept_from replica.now) log ≡ drop (kept_from replica.now) other) }
{}
