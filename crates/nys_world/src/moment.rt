//! A world between two events.

ghost use Rattle.std.specs.Prelude.{◌<◌, IfOk};
ghost use Rattle.nys_rules.specs.World.{fresh_world};
ghost use Rattle.nys_world.specs.Shows.{setting_in, AreNodes, IsNodeOf, IsStage, ShowsOn};

use crate::books::Books;
use crate::stage::Stage;
use nys_bytes::NoMemory;
use nys_hosts::MAX_HOSTS;
use nys_node::Node;
use nys_olympus::Olympus;
use nys_rules::Take;
use nys_source::Protocol;
use std::alloc::Global;

/// The parties, and what happened by now.
#[derive(Drop)]
pub(crate) struct Moment<P: Protocol> {
    /// By host: its node; none for a liar.
    pub nodes: Vec<Option<Node<P>>>,
    pub olympus: Olympus<P>,
    pub books: Books,
    /// What was given to honest hosts and to the Olympus, in order, where a trace is wanted.
    pub takes: Vec<Take>,
}

/// The node of a host; none for a liar, and past the last host.
fn first_node<P: Protocol>(
    alloc: Global,
    stage: &Stage<P>,
    g: u32,
) -> Result<Option<Node<P>>, NoMemory>
    requires stage { IsStage (P.rules stage.now.cx.protocol) stage.now }
    requires host { g < MAX_HOSTS }
    ensures { IfOk result (λ node. IsNodeOf (setting_in P.rules stage.now)
        (fresh_world (setting_in P.rules stage.now)) g node) }
{
    if !stage.is_honest(g) {
        return Ok(None);
    }
    let node = Node::new(alloc, &stage.cx, g)?;
    Ok(Some(node))
}

/// The nodes by host.
fn first_nodes<P: Protocol>(
    alloc: Global,
    stage: &Stage<P>,
) -> Result<Vec<Option<Node<P>>>, NoMemory>
    requires stage { IsStage (P.rules stage.now.cx.protocol) stage.now }
    ensures { IfOk result (λ nodes. AreNodes (setting_in P.rules stage.now) nodes.items
        (fresh_world (setting_in P.rules stage.now))) }
{
    let mut nodes = Vec::new(alloc);
    for g in 0..MAX_HOSTS as u32 {
        let node = first_node(alloc, stage, g)?;
        nodes.push(node)?;
    }
    Ok(nodes)
}

impl<P: Protocol> Moment<P> {
    /// The moment before the first event.
    pub(crate) fn new(alloc: Global, stage: &Stage<P>) -> Result<Moment<P>, NoMemory>
        requires stage { IsStage (P.rules stage.now.cx.protocol) stage.now }
        ensures { IfOk result (λ moment. ShowsOn (P.rules stage.now.cx.protocol) stage.now moment
            (fresh_world (setting_in P.rules stage.now))) }
    {
        Ok(Moment {
            nodes: first_nodes(alloc, stage)?,
            olympus: Olympus::new(alloc, &stage.cx)?,
            books: Books::new(alloc)?,
            takes: Vec::new(alloc),
        })
    }
}
