//! How many entries are logged.

ghost use Rattle.std.specs.Prelude.{◌≡◌, ◌<◌, ◌≤◌, ◌*◌, ◌∷◌, []};
ghost use Rattle.std.specs.List.{range_with_len};
ghost use Rattle.nys_hosts.specs.declared.limits.TheConstants.{MAX_HOSTS, MAX_SLOTS};
ghost use Rattle.nys_node.specs.Means.{Means};
ghost use Rattle.nys_rules.specs.Scope.{Scope};
ghost use Rattle.nys_rules.specs.View.{View};
ghost use Rattle.nys_rules.specs.World as rules;
ghost use Rattle.nys_workload_command.specs.Logged.{entries_in, IsMeant, logged, logged_in};
ghost use Rattle.nys_world.specs.Shows.{setting_in};
ghost use Rattle.nys_world.specs.Worlds.{HasWorld, IsWorldOf};

use nys_node::Node;
use nys_source::Protocol;
use nys_world::World;

/// How many entries the logs have of all replicas that honest hosts have.
pub(crate) fn logged<P: Protocol>(world: &World<P>) -> u32
    requires { HasWorld (P.rules world.now.stage.cx.protocol) world.now }
    ensures { (w : rules.World) → IsWorldOf (P.rules world.now.stage.cx.protocol) world.now w
        → result ≡ logged (setting_in P.rules world.now.stage) w }
{
    logged_below(world, world.config().protocol.graph().hosts())
}

/// The same of so many hosts, which are all.
fn logged_below<P: Protocol>(world: &World<P>, hosts: u32) -> u32
    requires shown { HasWorld (P.rules world.now.stage.cx.protocol) world.now }
    requires all { hosts ≡ (P.rules world.now.stage.cx.protocol).hosts }
    requires few { hosts ≤ MAX_HOSTS }
    ensures { (w : rules.World) → IsWorldOf (P.rules world.now.stage.cx.protocol) world.now w
        → result ≡ logged_in (setting_in P.rules world.now.stage) w (range_with_len 0 hosts) }
{
    let mut sum = 0;
    for g in 0..hosts {
        sum += logged_at(world, hosts, g);
    }
    sum
}

/// The same of one of so many hosts; a liar has no replicas.
fn logged_at<P: Protocol>(world: &World<P>, hosts: u32, g: u32) -> u32
    requires shown { HasWorld (P.rules world.now.stage.cx.protocol) world.now }
    requires all { hosts ≡ (P.rules world.now.stage.cx.protocol).hosts }
    requires few { hosts ≤ MAX_HOSTS }
    requires host { g < hosts }
    ensures sum { (w : rules.World) → IsWorldOf (P.rules world.now.stage.cx.protocol) world.now w
        → result ≡ logged_in (setting_in P.rules world.now.stage) w (g ∷ []) }
    ensures bound { result ≤ MAX_HOSTS * MAX_SLOTS }
{
    match world.node(g) {
        Some(node) => entries(node, hosts),
        None => 0,
    }
}

/// How many entries a node has in the logs of so many hosts.
fn entries<P: Protocol>(node: &Node<P>, hosts: u32) -> u32
    requires meant { IsMeant node.now }
    requires few { hosts ≤ MAX_HOSTS }
    ensures sum { (scope : Scope P.State) (v : View) → Means scope node.now v
        → result ≡ entries_in v (range_with_len 0 hosts) }
    ensures bound { result ≤ MAX_HOSTS * MAX_SLOTS }
{
    let mut sum = 0;
    for h in 0..hosts {
        sum += entries_of(node, h);
    }
    sum
}

/// How many entries a node has in the log of one host; none where it has no replica of the host.
fn entries_of<P: Protocol>(node: &Node<P>, h: u32) -> u32
    requires meant { IsMeant node.now }
    requires host { h < MAX_HOSTS }
    ensures sum { (scope : Scope P.State) (v : View) → Means scope node.now v → result ≡ entries_in v (h ∷ []) }
    ensures bound { result ≤ MAX_SLOTS }
{
    match node.replica(h) {
        Some(replica) => replica.len(),
        None => 0,
    }
}
