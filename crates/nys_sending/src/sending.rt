//! What a party tags, and to whom it sends its records.

ghost use Rattle.std.specs.Prelude.{◌≡◌, ◌≤◌, ◌<◌, ◌++◌, [], ◌∷◌, map, length, IfOk, OnOk, filter};
ghost use Rattle.nys_hosts.specs.Sets.{has, members};
ghost use Rattle.nys_sending.specs.Receivers.{AreReceivers, framed, record_with, tagged};
ghost use Rattle.nys_config.specs.Scopes.{scope_in};
ghost use Rattle.nys_rules.specs.Scope.{guards_of};
ghost use Rattle.nys_rules.specs.Sending.{others, tags_for, to_each};
ghost use Rattle.nys_stmt.specs.Ranges.{IsInRange};
ghost use Rattle.nys_stmt.specs.Records.{IsWhole};
ghost use Rattle.nys_stmt.specs.Spelling.{spelling};
ghost use Rattle.nys_stmt.specs.declared.spelling.TheConstants.{MAX_STATEMENT};

use nys_bytes::{NoMemory, Out};
use nys_config::{Config, guards_of};
use nys_hosts::{HostSet, MAX_HOSTS};
use nys_mac::{Keys, LAST_PARTY};
use nys_rules::Packet;
use nys_source::Protocol;
use nys_stmt::{MakerList, Record, Statement, TagList, Tags, bytes_of};
use nys_wire::encode;
use std::alloc::Global;

/// The bytes of a statement, which are what is tagged.
pub fn spelled(alloc: Global, statement: &Statement) -> Result<Vec<u8>, NoMemory>
    requires { IsInRange statement.now }
    ensures value { IfOk result (λ bytes. bytes.items ≡ spelling statement.now) }
    ensures size { IfOk result (λ bytes. length bytes.items ≤ MAX_STATEMENT) }
{
    let mut out = Out::new(alloc);
    bytes_of(statement, &mut out)?;
    Ok(out.into_bytes())
}

/// The host joins the list where the set has it.
fn keep_member(kept: &mut Vec<u32>, set: &HostSet, h: u32) -> Result<(), NoMemory>
    ensures { OnOk result (kept.new.items ≡ kept.old.items ++ filter (has set.now) (h ∷ [])) }
{
    if set.contains(h) {
        kept.push(h)?;
    }
    Ok(())
}

/// The hosts of a set, rising.
#[tactic(auto, unfolding(nys_hosts::specs::Makers::passing))]
fn members(alloc: Global, set: &HostSet) -> Result<Vec<u32>, NoMemory>
    ensures { IfOk result (λ hosts. hosts.items ≡ members set.now) }
{
    let mut kept = Vec::new(alloc);
    for h in 0..MAX_HOSTS as u32 {
        keep_member(&mut kept, set, h)?;
    }
    Ok(kept)
}

/// The guards of a host in an epoch, rising.
#[tactic(auto, unfolding(nys_rules::specs::Scope::guards_of))]
pub fn guard_list<P: Protocol>(
    alloc: Global,
    cx: &Config<P>,
    epoch: u32,
    h: u32,
) -> Result<Vec<u32>, NoMemory>
    ensures value { IfOk result (λ guards. guards.items
        ≡ guards_of (scope_in P.rules cx.now) epoch h) }
    ensures rule { IfOk result (λ guards. AreReceivers guards.items) }
{
    members(alloc, &guards_of(cx, epoch, h))
}

/// The receiver joins the list unless it is the party itself.
fn keep_other(kept: &mut Vec<u32>, me: u32, receiver: u32) -> Result<(), NoMemory>
    ensures { OnOk result (kept.new.items ≡ kept.old.items ++ others me (receiver ∷ [])) }
{
    if receiver != me {
        kept.push(receiver)?;
    }
    Ok(())
}

/// The receivers but the party itself, in their order.
pub fn others(alloc: Global, me: u32, receivers: &[u32]) -> Result<Vec<u32>, NoMemory>
    ensures { IfOk result (λ kept. kept.items ≡ others me receivers.now) }
{
    let mut kept = Vec::new(alloc);
    for receiver in receivers {
        keep_other(&mut kept, me, *receiver)?;
    }
    Ok(kept)
}

/// The tags of a party for these receivers on what is spelled so, also for the party itself.
pub fn tag_each(
    alloc: Global,
    keys: &Keys,
    maker: u32,
    bytes: &[u8],
    receivers: &[u32],
) -> Result<TagList, NoMemory>
    requires maker { maker ≤ LAST_PARTY }
    requires bytes { length bytes.now ≤ MAX_STATEMENT }
    requires rule { AreReceivers receivers.now }
    ensures { IfOk result (λ tags. tags ≡ map (tagged keys.now maker bytes.now) receivers.now) }
{
    let mut tags = TagList::new(alloc);
    for receiver in receivers {
        let tag = keys.tag(maker, *receiver, bytes);
        tags.push((*receiver, tag))?;
    }
    Ok(tags)
}

/// The tags of a party on its statement, one for each receiver but itself.
#[tactic(auto, unfolding(nys_rules::specs::Sending::tags_for, nys_config::specs::Scopes::scope_of))]
pub fn tags_for<P: Protocol>(
    alloc: Global,
    cx: &Config<P>,
    maker: u32,
    statement: &Statement,
    receivers: &[u32],
) -> Result<TagList, NoMemory>
    requires maker { maker ≤ LAST_PARTY }
    requires range { IsInRange statement.now }
    requires rule { AreReceivers receivers.now }
    ensures { IfOk result (λ tags. tags
        ≡ tags_for (scope_in P.rules cx.now) maker statement.now receivers.now) }
{
    let bytes = spelled(alloc, statement)?;
    let others = others(alloc, maker, receivers)?;
    tag_each(alloc, &cx.keys, maker, bytes.as_slice(), others.as_slice())
}

/// The record of a statement with one maker.
pub fn record_by(
    alloc: Global,
    maker: u32,
    statement: Statement,
    tags: TagList,
) -> Result<Record, NoMemory>
    requires maker { maker ≤ LAST_PARTY }
    ensures { IfOk result (λ r. r ≡ record_with maker statement tags) }
{
    let mut makers = MakerList::new(alloc);
    makers.push(Tags { maker, tags })?;
    Ok(Record { statement, makers })
}

/// A packet with the bytes for each receiver, in this order.
fn send_each(
    alloc: Global,
    from: u32,
    frame: &[u8],
    receivers: &[u32],
    packets: &mut Vec<Packet>,
) -> Result<(), NoMemory>
    ensures { OnOk result (packets.new.items ≡ packets.old.items
        ++ map (framed from frame.now) receivers.now) }
{
    for to in receivers {
        let frame = Vec::from_slice(alloc, frame)?;
        packets.push(Packet {
            from,
            to: *to,
            frame,
        })?;
    }
    Ok(())
}

/// A packet with the record for each receiver, in this order. The record is spelled once, and not at
/// all where there is no receiver.
#[tactic(auto, unfolding(nys_rules::specs::Sending::to_each))]
pub fn to_each(
    alloc: Global,
    from: u32,
    sent: &Record,
    receivers: &[u32],
    packets: &mut Vec<Packet>,
) -> Result<(), NoMemory>
    requires { 1 ≤ length receivers.now → IsWhole sent.now }
    ensures { OnOk result (packets.new.items ≡ packets.old.items ++ to_each from sent.now receivers.now) }
{
    if receivers.len() < 1 {
        return Ok(());
    }
    let frame = encode(alloc, sent)?;
    send_each(alloc, from, frame.as_slice(), receivers, packets)
}
