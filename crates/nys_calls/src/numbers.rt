//! Bytes put and read again, the printed words of faults, and quorums counted by hand.

use nys_bytes::{Cursor, NoMemory, Out, Payload, PayloadFault, Short};
use nys_hosts::quorum;
use std::test::Fail;

#[test]
fn faults_print_their_words(rt: HostRuntime) -> Result<(), Fail> {
    let faults = [
        (format!(in rt.alloc(); "{NoMemory}")?, "no memory"),
        (
            format!(in rt.alloc(); "{}", PayloadFault::NoMemory)?,
            "no memory",
        ),
        (
            format!(in rt.alloc(); "{}", PayloadFault::Length)?,
            "length",
        ),
        (format!(in rt.alloc(); "{Short}")?, "short"),
    ];
    for (text, words) in &faults {
        assert_eq!(rt; text.as_str(), *words);
    }
    Ok(())
}

#[test]
fn numbers_are_put_the_greatest_byte_first(rt: HostRuntime) -> Result<(), Fail> {
    let mut out = Out::new(rt.alloc());
    out.put_u8(0x4e)?;
    out.put_u16(0x0102)?;
    out.put_u32(0x0304_0506)?;
    out.put_u64(0x0708_090a_0b0c_0d0e)?;
    out.put(b"ab")?;
    assert_eq!(rt;
        out.into_bytes().as_slice(),
        b"\x4e\x01\x02\x03\x04\x05\x06\x07\x08\x09\x0a\x0b\x0c\x0d\x0eab".as_slice()
    );
    Ok(())
}

#[test]
fn a_read_past_the_end_is_short_and_passes_nothing(rt: HostRuntime) {
    let mut cursor = Cursor::new(b"\x4e\x01\x02\x03\x04\x05\x06abc");
    assert_eq!(rt; cursor.u8(), Ok(0x4e));
    assert_eq!(rt; cursor.u16(), Ok(0x0102));
    assert_eq!(rt; cursor.u32(), Ok(0x0304_0506));
    assert_eq!(rt; cursor.u64(), Err(Short));
    assert_eq!(rt; cursor.place(), 7);
    assert_eq!(rt; cursor.take(3), Ok(b"abc".as_slice()));
    assert_eq!(rt; cursor.take(1), Err(Short));
    assert_eq!(rt; cursor.place(), 10);
}

#[test]
fn quorums_of_guards(rt: HostRuntime) {
    // (guards, liars, quorum): 3t + 1 guards need 2t + 1, and one guard more may need one maker more.
    let cases = [
        (1, 0, 1),
        (4, 1, 3),
        (5, 1, 4),
        (7, 2, 5),
        (16, 5, 11),
        (32, 5, 19),
    ];
    for (guards, liars, makers) in cases {
        assert_eq!(rt;
            quorum(guards, liars),
            makers,
            "{guards} guards, {liars} liars"
        );
    }
}

#[test]
fn a_payload_has_1_to_512_numbers(rt: HostRuntime) {
    // (how many numbers of 600, whether they are a payload)
    let numbers = [-1i64; 600];
    let cases = [
        (0, false),
        (1, true),
        (9, true),
        (512, true),
        (513, false),
        (600, false),
    ];
    for (count, fine) in cases {
        assert_eq!(rt;
            Payload::new(rt.alloc(), &numbers[..count % 601]).is_ok(),
            fine,
            "{count} numbers"
        );
    }
}
