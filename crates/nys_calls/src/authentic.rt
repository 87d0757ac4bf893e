//! Tags: those of the standard, and whose a tag is.

use nys_bytes::NoMemory;
use nys_mac::{Keys, LAST_PARTY, Tag, hmac};
use std::alloc::Global;
use std::test::Fail;

/// The tags of cases 1 and 2 of RFC 4231: key, a front of the text, the rest of it, tag.
const CASES: [(&[u8], &[u8], &[u8], Tag); 2] = [
    (
        &[0x0b; 20],
        b"",
        b"Hi There",
        [
            0xb0, 0x34, 0x4c, 0x61, 0xd8, 0xdb, 0x38, 0x53, 0x5c, 0xa8, 0xaf, 0xce, 0xaf, 0x0b,
            0xf1, 0x2b, 0x88, 0x1d, 0xc2, 0x00, 0xc9, 0x83, 0x3d, 0xa7, 0x26, 0xe9, 0x37, 0x6c,
            0x2e, 0x32, 0xcf, 0xf7,
        ],
    ),
    (
        b"Jefe",
        b"what do ya want ",
        b"for nothing?",
        [
            0x5b, 0xdc, 0xc1, 0x46, 0xbf, 0x60, 0x75, 0x4e, 0x6a, 0x04, 0x24, 0x26, 0x08, 0x95,
            0x75, 0xc7, 0x5a, 0x00, 0x3f, 0x08, 0x9d, 0x27, 0x39, 0x83, 0x9d, 0xec, 0x58, 0xb9,
            0x64, 0xec, 0x38, 0x43,
        ],
    ),
];

#[test]
fn the_tags_of_the_standard(rt: HostRuntime) {
    for (key, front, rest, tag) in CASES {
        assert_eq!(rt; hmac(key, front, rest), tag);
    }
}

/// The tag of what 32 says to 3 under a master key of 32 zeros, the three bytes `say`, by another
/// implementation.
const SAID: Tag = [
    0x6b, 0x5a, 0xf6, 0x26, 0xa6, 0x60, 0x29, 0x0a, 0x27, 0xfd, 0x6b, 0xf7, 0x09, 0x24, 0x68, 0xd9,
    0x66, 0x3a, 0x54, 0x9c, 0x74, 0x9f, 0xc0, 0xdb, 0x48, 0x6e, 0xdc, 0xa2, 0x84, 0x65, 0x99, 0xd1,
];

/// Keys under a master key of 32 zeros, with the states kept for the pairs of so many hosts, or for none.
fn keys_for(alloc: Global, hosts: Option<u32>) -> Result<Keys, NoMemory> {
    let keys = Keys::from_master([0; 32]);
    match hosts {
        Some(hosts) => keys.ready_for(alloc, hosts.min(LAST_PARTY)),
        None => Ok(keys),
    }
}

#[test]
fn a_tag_is_of_its_maker_its_receiver_and_all_bytes(rt: HostRuntime) -> Result<(), Fail> {
    // (maker, receiver, bytes, whether it is their tag)
    let cases: [(u32, u32, &[u8], bool); 5] = [
        (32, 3, b"say", true),
        (3, 32, b"say", false),
        (31, 3, b"say", false),
        (32, 4, b"say", false),
        (32, 3, b"say!", false),
    ];
    // nothing kept; the pairs without host 3, with it and not with 4, of all hosts
    for hosts in [None, Some(3), Some(4), Some(32)] {
        let keys = keys_for(rt.alloc(), hosts)?;
        assert_eq!(rt; keys.tag(32, 3, b"say"), SAID);
        for (maker, receiver, bytes, theirs) in cases {
            assert_eq!(rt;
                keys.verify(maker, receiver, bytes, &SAID),
                theirs,
                "{maker} {receiver}"
            );
        }
    }
    Ok(())
}
