//! Records as bytes: the worked example of docs/FORMATS.md, what is wrong with it once a byte is changed,
//! and records that are read and spelled again.

use nys_bytes::Out;
use nys_wire::{WireFault, WireKind, decode, encode};
use std::alloc::Global;
use std::test::Fail;

/// The version of records.
const VERSION: u8 = 2;

/// The record of `ask 0 0 0` with maker 1 and one tag of zeros for 0.
const ASK: [u8; 45] = [
    0x4e, 0x59, VERSION, 5, 0, 0, 0, 0, 0, 1, 1, 1, 0, 0, 0, 0, 0, 0, 0, 0, 0, 0, 0, 0, 0, 0, 0, 0,
    0, 0, 0, 0, 0, 0, 0, 0, 0, 0, 0, 0, 0, 0, 0, 0, 0,
];

/// The fault of the bytes, if there is one.
fn fault_of(alloc: Global, bytes: &[u8]) -> Option<WireFault> {
    decode(alloc, bytes).err()
}

#[test]
fn each_cut_is_short_at_its_end(rt: HostRuntime) {
    assert_eq!(rt; fault_of(rt.alloc(), &ASK), None);
    for place in 0..45usize {
        let kind = WireKind::Short;
        assert_eq!(rt;
            fault_of(rt.alloc(), &ASK[..place]),
            Some(WireFault::At { place, kind })
        );
    }
}

/// A byte of `ASK`, what it is changed to, the place of the fault that it makes, and its kind.
const FAULTS: [(usize, u8, usize, WireKind); 16] = [
    (0, 0, 0, WireKind::Magic),
    (1, 90, 0, WireKind::Magic),
    (2, VERSION + 1, 2, WireKind::Version),
    (3, 0, 3, WireKind::Kind),
    (3, 11, 3, WireKind::Kind),
    (4, 1, 4, WireKind::Range),
    (5, 64, 4, WireKind::Range),
    (6, 32, 6, WireKind::Range),
    (7, 4, 7, WireKind::Range),
    (9, 0, 9, WireKind::Count),
    (9, 2, 45, WireKind::Short),
    (9, 34, 9, WireKind::Count),
    (10, 33, 10, WireKind::Range),
    (11, 0, 11, WireKind::Count),
    (11, 34, 11, WireKind::Count),
    (12, 33, 12, WireKind::Range),
];

#[test]
fn a_changed_byte_has_its_place_and_its_kind(rt: HostRuntime) {
    for (at, value, place, kind) in FAULTS {
        let mut bytes = ASK;
        bytes[at % 45] = value;
        assert_eq!(rt;
            fault_of(rt.alloc(), &bytes),
            Some(WireFault::At { place, kind })
        );
    }
}

/// So many makers, `ASK` behind its count of makers, and what comes behind it.
fn with_more(alloc: Global, makers: u8, more: &[u8]) -> Result<Vec<u8>, Fail> {
    let mut bytes = ASK;
    bytes[9] = makers;
    let mut out = Out::new(alloc);
    out.put(&bytes)?;
    out.put(more)?;
    Ok(out.into_bytes())
}

#[test]
fn one_byte_more_is_trailing_and_an_equal_maker_out_of_order(rt: HostRuntime) -> Result<(), Fail> {
    // (makers, what comes behind, the kind of the fault)
    let cases: [(u8, &[u8], WireKind); 2] = [
        (1, b"\x00", WireKind::Trailing),
        (2, &ASK[10..], WireKind::Order),
    ];
    for (makers, more, kind) in cases {
        let bytes = with_more(rt.alloc(), makers, more)?;
        assert_eq!(rt;
            fault_of(rt.alloc(), &bytes),
            Some(WireFault::At { place: 45, kind })
        );
    }
    Ok(())
}

/// The spelling of the record that the bytes are.
#[tactic(auto, using(nys_wire::proofs::Wholes::is_whole))]
fn spelled_again(alloc: Global, bytes: &[u8]) -> Result<Vec<u8>, WireFault> {
    let record = decode(alloc, bytes)?;
    let again = encode(alloc, &record)?;
    Ok(again)
}

/// Statements without a payload, each with the widest values.
const STATEMENTS: [&[u8]; 4] = [
    // ask
    b"\x05\x00\x3f\x1f\x03\xff",
    // wedge
    b"\x06\x00\x3f",
    // frozen
    b"\x08\x00\x3f\x1f\x04\x00",
    // open
    b"\x09\x00\x3f\x20\xff\xff\x04\x00\x00\x00\x00\x00\x00\x00\x00\x00\x00\x00\x00\x00\
      \x00\x00\x00\x00\x00\x00\x00\x00\x00\x00\x00\x00\x00\x00\x00\x00\x00\x00\x00\x00\
      \x00\x00\x00\x00\x00\x00\x00\x00\x00\x00\x00\x00\x00\x00\x00\x00\x00\x00\x00\x00\
      \x00\x00\x00\x00\x00\x00\xff\xff",
];

/// The record with this statement, maker 32 and its tag for 32.
fn record_of(alloc: Global, statement: &[u8]) -> Result<Vec<u8>, Fail> {
    let mut out = Out::new(alloc);
    out.put(&[0x4e, 0x59, VERSION])?;
    out.put(statement)?;
    out.put(b"\x01\x20\x01\x20")?;
    out.put(&[0xff; 32])?;
    Ok(out.into_bytes())
}

#[test]
fn a_record_is_read_and_spelled_again(rt: HostRuntime) -> Result<(), Fail> {
    for statement in STATEMENTS {
        let bytes = record_of(rt.alloc(), statement)?;
        let again = spelled_again(rt.alloc(), bytes.as_slice())?;
        assert_eq!(rt; again.as_slice(), bytes.as_slice());
    }
    Ok(())
}

/// The record of `offer 0 0 0 in 5` up to the end of its payload: its digest begins at 10, its payload at 42.
const OFFER: [u8; 52] = *b"\x4e\x59\x02\x01\x00\x00\x00\x00\x00\x00\
      \x86\x8f\x33\x29\x0d\x92\xc4\x04\xc1\x32\xe8\x46\x05\x83\x07\x86\
      \xb1\xb8\x47\x84\x71\x15\x01\x54\x37\xa8\xa4\x8f\x78\xd3\x58\x71\
      \x00\x01\x00\x00\x00\x00\x00\x00\x00\x05";

/// A byte of `OFFER`, what it is changed to, the place of the fault that it makes, and its kind.
const PAYLOAD_FAULTS: [(usize, u8, usize, WireKind); 7] = [
    // as it is, no count of makers stands behind the payload
    (51, 5, 52, WireKind::Short),
    (51, 6, 10, WireKind::Digest),
    (10, 0, 10, WireKind::Digest),
    (41, 0, 10, WireKind::Digest),
    (43, 0, 42, WireKind::Count),
    (42, 2, 42, WireKind::Count),
    (43, 2, 52, WireKind::Short),
];

#[test]
fn a_payload_is_the_one_of_its_digest(rt: HostRuntime) {
    for (at, value, place, kind) in PAYLOAD_FAULTS {
        let mut bytes = OFFER;
        bytes[at % 52] = value;
        assert_eq!(rt;
            fault_of(rt.alloc(), &bytes),
            Some(WireFault::At { place, kind })
        );
    }
}

/// The digest of the payload of 512 times the number 5.
const OF_512: [u8; 32] = [
    0x61, 0xbb, 0xb1, 0xfb, 0xbe, 0xac, 0x29, 0x1f, 0xd5, 0x4a, 0x42, 0x1e, 0x06, 0xd8, 0xc2, 0xf5,
    0xa3, 0xa0, 0x83, 0x18, 0x90, 0xcf, 0xed, 0x93, 0x61, 0xab, 0xa8, 0x0e, 0xb3, 0x41, 0xa4, 0xd6,
];

/// The digest of the bytes that 513 times the number 5 would have as a payload.
const OF_513: [u8; 32] = [
    0x27, 0x3d, 0xe5, 0x99, 0x8c, 0x97, 0xd9, 0x9f, 0xff, 0x97, 0x6e, 0x36, 0x5c, 0xbc, 0x36, 0x93,
    0x12, 0x2d, 0x4f, 0x89, 0x69, 0x0c, 0xa9, 0x12, 0xd3, 0x6b, 0xe1, 0x82, 0x79, 0xec, 0x0b, 0x88,
];

/// The statement `offer 0 0 0 in 5 5 ..`, of so many numbers, with this digest, and the payload.
fn offer_of(alloc: Global, digest: &[u8; 32], count: u16) -> Result<Vec<u8>, Fail> {
    let mut out = Out::new(alloc);
    out.put(b"\x01\x00\x00\x00\x00\x00\x00")?;
    out.put(digest)?;
    out.put_u16(count)?;
    for _ in 0..count {
        out.put_u64(5)?;
    }
    Ok(out.into_bytes())
}

#[test]
fn a_record_of_512_numbers_is_read_and_spelled_again(rt: HostRuntime) -> Result<(), Fail> {
    let offer = offer_of(rt.alloc(), &OF_512, 512)?;
    let bytes = record_of(rt.alloc(), offer.as_slice())?;
    let again = spelled_again(rt.alloc(), bytes.as_slice())?;
    assert_eq!(rt; again.as_slice(), bytes.as_slice());
    Ok(())
}

#[test]
fn a_record_of_513_numbers_is_at_fault_in_their_count(rt: HostRuntime) -> Result<(), Fail> {
    let offer = offer_of(rt.alloc(), &OF_513, 513)?;
    let bytes = record_of(rt.alloc(), offer.as_slice())?;
    let (place, kind) = (42, WireKind::Count);
    assert_eq!(rt;
        fault_of(rt.alloc(), bytes.as_slice()),
        Some(WireFault::At { place, kind })
    );
    Ok(())
}

/// Whether the bytes end in the middle of a field.
fn is_short(alloc: Global, bytes: &[u8]) -> bool {
    match fault_of(alloc, bytes) {
        Some(WireFault::At { place: _, kind }) => kind == WireKind::Short,
        Some(WireFault::NoMemory) => false,
        None => false,
    }
}

/// Whether the record is short wherever it is cut.
fn has_short_cuts(alloc: Global, record: &[u8]) -> bool {
    for size in 0..record.len() {
        if !is_short(alloc, &record[..size]) {
            return false;
        }
    }
    true
}

#[test]
fn each_cut_of_a_record_is_short(rt: HostRuntime) -> Result<(), Fail> {
    for statement in STATEMENTS {
        let bytes = record_of(rt.alloc(), statement)?;
        assert_eq!(rt; has_short_cuts(rt.alloc(), bytes.as_slice()), true);
    }
    let offer = offer_of(rt.alloc(), &OF_512, 512)?;
    let bytes = record_of(rt.alloc(), offer.as_slice())?;
    assert_eq!(rt; has_short_cuts(rt.alloc(), bytes.as_slice()), true);
    Ok(())
}
