//! Statements: their bytes as docs/FORMATS.md shows them, and who made which.

use nys_bytes::{Out, Payload};
use nys_ledger::Ledger;
use nys_stmt::{Body, Content, FilledKind, Statement, bytes_of};
use std::test::Fail;

/// The worked example `offer 0 1 2 msg 0 0 5`, whose digest is of the ten bytes 0001 0000000000000005.
const OFFER: &[u8; 42] = b"\x01\x00\x00\x01\x00\x02\x01\x00\x00\x00\
      \x86\x8f\x33\x29\x0d\x92\xc4\x04\xc1\x32\xe8\x46\x05\x83\x07\x86\
      \xb1\xb8\x47\x84\x71\x15\x01\x54\x37\xa8\xa4\x8f\x78\xd3\x58\x71";

/// The worked example `offer 0 0 0 in 5`.
const INPUT: &[u8; 39] = b"\x01\x00\x00\x00\x00\x00\x00\
      \x86\x8f\x33\x29\x0d\x92\xc4\x04\xc1\x32\xe8\x46\x05\x83\x07\x86\
      \xb1\xb8\x47\x84\x71\x15\x01\x54\x37\xa8\xa4\x8f\x78\xd3\x58\x71";

#[test]
fn an_offer_of_an_input_has_39_bytes(rt: HostRuntime) -> Result<(), Fail> {
    let payload = Payload::new(rt.alloc(), &[5])?;
    let content = Content::External { payload };
    let body = Body::Filled {
        kind: FilledKind::Offer,
        h: 0,
        slot: 0,
        content,
    };
    let mut out = Out::new(rt.alloc());
    bytes_of(&Statement { epoch: 0, body }, &mut out)?;
    assert_eq!(rt; out.into_bytes().as_slice(), INPUT.as_slice());
    Ok(())
}

#[test]
fn a_copy_of_an_offer_has_its_bytes(rt: HostRuntime) -> Result<(), Fail> {
    let payload = Payload::new(rt.alloc(), &[5])?;
    let content = Content::Message {
        p: 0,
        k: 0,
        payload,
    };
    let body = Body::Filled {
        kind: FilledKind::Offer,
        h: 1,
        slot: 2,
        content,
    };
    let copy = Statement { epoch: 0, body }.copy(rt.alloc())?;
    let mut out = Out::new(rt.alloc());
    bytes_of(&copy, &mut out)?;
    assert_eq!(rt; out.into_bytes().as_slice(), OFFER.as_slice());
    Ok(())
}

fn ask(epoch: u32, h: u32, slot: u32) -> Statement {
    Statement {
        epoch,
        body: Body::Ask { h, slot },
    }
}

#[test]
fn a_party_owns_what_it_made(rt: HostRuntime) -> Result<(), Fail> {
    let mut ledger = Ledger::new(rt.alloc())?;
    ledger.made(3, &ask(0, 1, 5))?;
    // (party, epoch, host, slot, whether the party made it)
    let cases = [
        (3, 0, 1, 5, true),
        (4, 0, 1, 5, false),
        (3, 1, 1, 5, false),
        (3, 0, 2, 5, false),
        (3, 0, 1, 6, false),
    ];
    for (party, epoch, h, slot, owned) in cases {
        assert_eq!(rt;
            ledger.owns(party, &ask(epoch, h, slot)),
            owned,
            "{party}: {epoch} {h} {slot}"
        );
    }
    Ok(())
}
