//! The lines of replicas.

ghost use Rattle.std.specs.Prelude.{◌≡◌, ◌++◌, ◌<◌, ◌≤◌, ◌∷◌, [], List, length, OnOk, codes, decimal};
ghost use Rattle.std.specs.List.{range_with_len};
ghost use Rattle.nys_agreement.specs.Alone.{alone};
ghost use Rattle.nys_bytes.specs.declared.content.Content.{Content};
ghost use Rattle.nys_node.specs.Means.{Known};
ghost use Rattle.nys_config.specs.Scopes.{scope_in};
ghost use Rattle.nys_replica.specs.Stands.{StandsFor};
ghost use Rattle.nys_report.specs.Nodes.{IsGuardOf};
ghost use Rattle.nys_printed.specs.Lines.{guard_line, live_word, place_words};
ghost use Rattle.nys_printed.specs.Report.{guard_text, replicas_of, replicas_text};
ghost use Rattle.nys_report.specs.Parts.{log_gives};
ghost use Rattle.nys_rules.specs.World.{Setting, World};
ghost use Rattle.nys_hosts.specs.declared.limits.TheConstants.{MAX_HOSTS};

use nys_bytes::{NoMemory, Out, Payload};
use nys_config::Config;
use nys_node::Node;
use nys_replica::Replica;
use nys_source::Protocol;
use nys_text::{put_number, put_outs, put_state};
use std::alloc::Global;

/// Appends the lines of all replicas at the node of the honest host `g` in a world that spells its logs,
/// rising by host. Each line has the state and the outputs of the replica's host in the printed run, after
/// as many inputs and receives as the replica has entries.
pub(crate) fn put_guard<P: Protocol>(
    alloc: Global,
    cx: &Config<P>,
    g: u32,
    node: &Node<P>,
    out: &mut Out,
) -> Result<(), NoMemory>
    ensures { OnOk result ((setting : Setting P.State) (w : World)
        → IsGuardOf (scope_in P.rules cx.now) setting w g node.now
        → out.new ≡ out.old ++ guard_text setting w g) }
{
    put_replicas(alloc, cx, g, node, out)
}

/// Appends the lines of all replicas at the node of host `g`, rising by host: how many entries each has,
/// with the state and the outputs that these give.
fn put_replicas<P: Protocol>(
    alloc: Global,
    cx: &Config<P>,
    g: u32,
    node: &Node<P>,
    out: &mut Out,
) -> Result<(), NoMemory>
    ensures { OnOk result (Known (scope_in P.rules cx.now) node.now (λ v. out.new ≡ out.old
        ++ replicas_text (scope_in P.rules cx.now) (log_gives (scope_in P.rules cx.now) v) g v)) }
{
    put_replicas_below(alloc, cx, g, node, cx.protocol.graph().hosts(), out)
}

/// Appends the lines of the replicas of so many hosts, which are all.
fn put_replicas_below<P: Protocol>(
    alloc: Global,
    cx: &Config<P>,
    g: u32,
    node: &Node<P>,
    hosts: u32,
    out: &mut Out,
) -> Result<(), NoMemory>
    requires few { hosts ≤ MAX_HOSTS }
    ensures { OnOk result (Known (scope_in P.rules cx.now) node.now (λ v. out.new ≡ out.old
        ++ replicas_of (scope_in P.rules cx.now) (log_gives (scope_in P.rules cx.now) v) g v
        (range_with_len 0 hosts))) }
{
    for h in 0..hosts {
        put_replica_of(alloc, cx, g, node, h, out)?;
    }
    Ok(())
}

/// Appends the line of the replica of host `h`, if the node has one.
fn put_replica_of<P: Protocol>(
    alloc: Global,
    cx: &Config<P>,
    g: u32,
    node: &Node<P>,
    h: u32,
    out: &mut Out,
) -> Result<(), NoMemory>
    requires { h < MAX_HOSTS }
    ensures { OnOk result (Known (scope_in P.rules cx.now) node.now (λ v. out.new ≡ out.old
        ++ replicas_of (scope_in P.rules cx.now) (log_gives (scope_in P.rules cx.now) v) g v (h ∷ []))) }
{
    match node.replica(h) {
        Some(replica) => put_replica(alloc, cx, g, h, node.live(h), replica, out),
        None => Ok(()),
    }
}

/// Appends the line of a replica of host `h` at the node of host `g`.
fn put_replica<P: Protocol>(
    alloc: Global,
    cx: &Config<P>,
    g: u32,
    h: u32,
    live: bool,
    replica: &Replica<P>,
    out: &mut Out,
) -> Result<(), NoMemory>
    ensures { OnOk result ((log : List Content) → StandsFor (P.rules cx.now.protocol) h replica.now log
        → out.new ≡ out.old ++ guard_line g h live (length log)
        ((P.rules cx.now.protocol).view ((alone (P.rules cx.now.protocol) h log).state h))
        ((alone (P.rules cx.now.protocol) h log).outs h)) }
{
    let numbers = replica.view(alloc, &cx.protocol)?;
    put_line(
        g,
        h,
        live,
        replica.len(),
        numbers.as_slice(),
        replica.outs(),
        out,
    )
}

/// Appends the line of a replica that has so many entries.
#[tactic(auto, unfolding(nys_printed::specs::Lines::guard_line))]
fn put_line(
    g: u32,
    h: u32,
    live: bool,
    len: u32,
    numbers: &[i64],
    outs: &[Payload],
    out: &mut Out,
) -> Result<(), NoMemory>
    ensures { OnOk result (out.new ≡ out.old ++ guard_line g h live len numbers.now outs.now) }
{
    put_place(g, h, live, len, out)?;
    out.put(b" state ")?;
    put_state(out, numbers)?;
    out.put(b" out ")?;
    put_outs(out, outs)?;
    out.put(b"\n")
}

/// Appends which replica it is, whether its guard guards the host still, and how many entries it has.
#[tactic(auto, unfolding(nys_printed::specs::Lines::place_words))]
fn put_place(g: u32, h: u32, live: bool, len: u32, out: &mut Out) -> Result<(), NoMemory>
    ensures { OnOk result (out.new ≡ out.old ++ place_words g h live len) }
{
    out.put(b"guard ")?;
    put_number(out, g)?;
    out.put(b" of ")?;
    put_number(out, h)?;
    out.put(if live { b" live" } else { b" closed" })?;
    out.put(b" at ")?;
    put_number(out, len)
}
