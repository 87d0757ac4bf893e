//! The three parts of a document.

ghost use Rattle.std.specs.Prelude.{◌≡◌, ◌≤◌, IfOk, IfErr, Ok, map};
ghost use Rattle.nys_hosts.specs.declared.limits.TheConstants.{MAX_HOSTS};
ghost use Rattle.toml.specs.View.{table_view};
ghost use Rattle.nys_graph.specs.Links.{linked_in};
ghost use Rattle.nys_hosts.specs.Sets.{has};
ghost use Rattle.nys_scenario.specs.Document.{guarded_of, system_of, texts_of};
ghost use Rattle.nys_scenario.specs.Epochs.{epoch_seen};
ghost use Rattle.nys_scenario.specs.Keys.{IsFaultOf};

use crate::epoch::EpochText;
use crate::fault::ScenarioFault;
use crate::hosts::liars_key;
use crate::keys::named;
use crate::limits::MASTER_BYTES;
use crate::links::links_key;
use crate::lookup::{number_key, text_key};
use crate::master::master_key;
use crate::needs::Needs;
use crate::protocol::{ProtocolName, machine_key, protocol_key, root_key};
use crate::tables::epochs_key;
use nys_bytes::Text;
use nys_graph::Graph;
use nys_hosts::{HostSet, MAX_HOSTS};
use std::alloc::Global;
use toml::Table;

/// The hosts, their links and what they run, a machine by its text; 0 stands for a root that is left out.
#[derive(Drop)]
pub(crate) struct System<'a> {
    pub graph: Graph,
    pub name: ProtocolName,
    pub machine: &'a str,
    pub root: u32,
}

/// The schedule and the run.
#[derive(Drop)]
pub(crate) struct Texts {
    pub schedule: Text,
    pub run: Text,
}

/// What only guarded hosts have.
#[derive(Drop)]
pub(crate) struct Guarded {
    pub master: [u8; MASTER_BYTES],
    pub liars: HostSet,
    pub epochs: Vec<EpochText>,
}

/// The keys `hosts`, `links`, `protocol`, `machine` and `root`.
#[tactic(auto, unfolding(crate::specs::Document::system_of))]
pub(crate) fn read_system<'a>(alloc: Global, table: &'a Table) -> Result<System<'a>, ScenarioFault>
    ensures ok { IfOk result (λ system. system_of (table_view table.now) ≡ Ok (record {
      hosts = system.graph.hosts;
      linked = linked_in system.graph.rows;
      name = system.name;
      machine = system.machine.now;
      root = system.root;
    })) }
    ensures few { IfOk result (λ system. system.graph.hosts ≤ MAX_HOSTS) }
    ensures err { IfErr result (IsFaultOf (system_of (table_view table.now))) }
{
    let hosts = named(
        alloc,
        "hosts",
        number_key(table, "hosts", 1, MAX_HOSTS as u32),
    )?;
    let graph = links_key(alloc, table, hosts)?;
    let name = named(alloc, "protocol", protocol_key(table))?;
    let machine = named(alloc, "machine", machine_key(table, name))?;
    let root = named(alloc, "root", root_key(table, name, hosts))?;
    Ok(System {
        graph,
        name,
        machine,
        root,
    })
}

/// The keys `schedule` and `run`.
#[tactic(auto, unfolding(crate::specs::Document::texts_of))]
pub(crate) fn read_texts(alloc: Global, table: &Table) -> Result<Texts, ScenarioFault>
    ensures ok { IfOk result (λ texts. texts_of (table_view table.now) ≡ Ok (record {
      schedule = texts.schedule;
      run = texts.run;
    })) }
    ensures err { IfErr result (IsFaultOf (texts_of (table_view table.now))) }
{
    let schedule = text_key(alloc, table, "schedule")?;
    let run = text_key(alloc, table, "run")?;
    Ok(Texts { schedule, run })
}

/// The keys `master`, `liars` and `epoch`, with the keys of each epoch.
#[tactic(auto, unfolding(crate::specs::Document::guarded_of))]
pub(crate) fn read_guarded(
    alloc: Global,
    table: &Table,
    hosts: u32,
    needs: Needs,
) -> Result<Guarded, ScenarioFault>
    requires { hosts ≤ MAX_HOSTS }
    ensures ok { IfOk result (λ part. guarded_of needs hosts (table_view table.now) ≡ Ok (record {
      master = part.master;
      liars = has part.liars;
      epochs = map epoch_seen part.epochs.items;
    })) }
    ensures err { IfErr result (IsFaultOf (guarded_of needs hosts (table_view table.now))) }
{
    let master = named(alloc, "master", master_key(table, needs.master))?;
    let liars = named(alloc, "liars", liars_key(table, hosts))?;
    let epochs = epochs_key(alloc, table, hosts, needs.epochs)?;
    Ok(Guarded {
        master,
        liars,
        epochs,
    })
}
