//! What nodes keep: attestations, and the state that a log gives.

ghost use Rattle.std.specs.Prelude.{◌<◌, IfOk};
ghost use Rattle.nys_replica.specs.Stands.{IsReplica};

use nys_attest::{AttestTable, Recorded};
use nys_bytes::{Content, Payload};
use nys_graph::Graph;
use nys_hosts::MAX_SLOTS;
use nys_native::Sum;
use nys_replica::Replica;
use nys_source::Protocol;
use std::alloc::Global;
use std::test::Fail;

fn is(found: Option<&Payload>, number: i64) -> bool {
    match found {
        Some(payload) => payload.numbers() == [number].as_slice(),
        None => false,
    }
}

#[test]
fn the_first_payload_that_a_maker_attests_is_kept(rt: HostRuntime) -> Result<(), Fail> {
    let mut table = AttestTable::new(rt.alloc())?;
    // (number, maker, payload, how it is recorded)
    let cases = [
        (0, 9, 7, Recorded::New),
        (0, 9, 7, Recorded::Same),
        (0, 9, 8, Recorded::Other),
        (0, 4, 8, Recorded::New),
        (63, 4, 8, Recorded::New),
        (64, 4, 8, Recorded::OutOfWindow),
    ];
    for (k, maker, number, answer) in cases {
        let payload = Payload::new(rt.alloc(), &[number])?;
        assert_eq!(rt;
            table.note(2, k, maker, &payload)?,
            answer,
            "{k} {maker} {number}"
        );
    }
    // Of what one maker or more attest, that of the lowest maker; two makers agree on nothing.
    assert!(rt; is(table.attested(2, 0, 0), 8));
    assert!(rt; table.attested(2, 0, 1).is_none());
    Ok(())
}

/// The replica after an input of this number, where there is room for it.
fn taken(
    alloc: Global,
    protocol: &Sum,
    replica: Replica<Sum>,
    number: i64,
) -> Result<Replica<Sum>, Fail>
    requires { IsReplica (⟦<Sum as Protocol>⟧.rules protocol.now) replica }
    ensures { IfOk result (λ r. IsReplica (⟦<Sum as Protocol>⟧.rules protocol.now) r) }
{
    let payload = Payload::new(alloc, &[number])?;
    let content = Content::External { payload };
    if replica.len() as usize >= MAX_SLOTS {
        return Ok(replica);
    }
    if !replica.fits(protocol, &content) {
        return Ok(replica);
    }
    Ok(replica.apply(alloc, protocol, content)?)
}

#[test]
fn a_log_of_two_inputs_gives_their_sum(rt: HostRuntime) -> Result<(), Fail> {
    let graph = Graph::new(3, &[(0, 1), (1, 2)]).ok().ok_or("a graph")?;
    let protocol = Sum { graph };
    let replica = Replica::new(rt.alloc(), &protocol, 1)?;
    let replica = taken(rt.alloc(), &protocol, replica, 5)?;
    let replica = taken(rt.alloc(), &protocol, replica, -2)?;
    assert_eq!(rt; replica.len(), 2);
    assert_eq!(rt;
        replica.view(rt.alloc(), &protocol)?.as_slice(),
        [3].as_slice()
    );
    assert_eq!(rt;
        (
            replica.sent(0).len(),
            replica.sent(1).len(),
            replica.outs().len()
        ),
        (2, 0, 0)
    );
    Ok(())
}

/// The replica after it forgot the entries below the slot, where it keeps one of these.
fn forgotten(protocol: &Sum, mut replica: Replica<Sum>, slot: u32) -> Replica<Sum>
    requires { IsReplica (⟦<Sum as Protocol>⟧.rules protocol.now) replica }
    ensures { IsReplica (⟦<Sum as Protocol>⟧.rules protocol.now) result }
{
    if replica.kept_from() <= slot && slot <= replica.len() {
        replica.forget(slot);
    }
    replica
}

#[test]
fn a_state_outlives_the_entries_that_gave_it(rt: HostRuntime) -> Result<(), Fail> {
    let graph = Graph::new(3, &[(0, 1), (1, 2)]).ok().ok_or("a graph")?;
    let protocol = Sum { graph };
    let replica = Replica::new(rt.alloc(), &protocol, 1)?;
    let replica = taken(rt.alloc(), &protocol, replica, 5)?;
    assert_eq!(rt; (replica.kept_from(), replica.len()), (0, 1));
    assert_eq!(rt; replica.packed(), [0, 0, 0, 0, 0, 0, 0, 5].as_slice());
    let replica = forgotten(&protocol, replica, 1);
    let replica = taken(rt.alloc(), &protocol, replica, -7)?;
    assert_eq!(rt; (replica.kept_from(), replica.len()), (1, 2));
    // A number below 0 in two's complement.
    assert_eq!(rt;
        replica.packed(),
        [255, 255, 255, 255, 255, 255, 255, 254].as_slice()
    );
    Ok(())
}
