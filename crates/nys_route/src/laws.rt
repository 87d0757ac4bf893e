//! What holds of every run of the two protocols: empty functions whose clauses state it.

ghost use Rattle.nys_route.specs.Multicast.{MulticastsRuns};
ghost use Rattle.nys_route.specs.Routed.{RoutesRuns};

/// What hosts know of routes, after any run of `Route`.
pub fn route_law()
    // A known distance is the length of a walk to a host that had an input, the hop is a nearer
    // neighbour, and in a quiet run what is known is the distance in the graph.
    ensures runs { RoutesRuns }
{}

/// What hosts have put out, after any run of `Tree`.
pub fn tree_law()
    // The root puts out its inputs, each other host a front of what its parent does, and in a quiet run each
    // host with a walk to the root all of them.
    ensures runs { MulticastsRuns }
{}
