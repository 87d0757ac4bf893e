//! Frames from pieces that are cut anywhere, and a frame between two hosts over sockets.

use crate::fault::FrameFault;
use crate::reader::FrameReader;
use crate::tcp::TcpLinks;
use nys_outside::{Got, Links};
use std::test::Fail;

#[test]
fn pieces_that_are_cut_anywhere_give_the_frame(rt: HostRuntime) -> Result<(), Fail> {
    let pieces: [&[u8]; 3] = [&[0, 0], &[0, 2, 1], &[2]];
    let mut reader = FrameReader::new(rt.alloc());
    let mut frame = Vec::new(rt.alloc());
    for piece in pieces {
        assert_eq!(rt; reader.next(&mut frame), Ok(false));
        reader.feed(piece)?;
    }
    assert_eq!(rt; reader.next(&mut frame), Ok(true));
    assert_eq!(rt; frame.as_slice(), [1, 2].as_slice());
    assert_eq!(rt; reader.next(&mut frame), Ok(false));
    Ok(())
}

#[test]
fn a_length_that_no_frame_has_is_answered_from_then_on(rt: HostRuntime) -> Result<(), Fail> {
    let cases: [(&[u8], u32); 3] = [
        (&[0, 0, 0, 0], 0),
        (&[0, 1, 0, 1, 7], 65_537),
        (&[255, 255, 255, 255], u32::MAX),
    ];
    let mut frame = Vec::new(rt.alloc());
    for (bytes, length) in cases {
        let mut reader = FrameReader::new(rt.alloc());
        reader.feed(bytes)?;
        let fault = FrameFault::BadLength(length);
        assert_eq!(rt; reader.next(&mut frame), Err(fault));
        assert_eq!(rt; reader.feed(&[1]), Err(fault));
        assert_eq!(rt; reader.next(&mut frame), Err(fault));
    }
    Ok(())
}

#[test]
fn a_frame_goes_from_one_host_to_another(rt: HostRuntime) -> Result<(), Fail> {
    let mut links = TcpLinks::new(rt.alloc(), rt);
    links.connect(2)?;
    links.send(0, 1, b"over a socket")?;
    let mut frame = Vec::new(rt.alloc());
    // The system may take a moment to carry it.
    for _ in 0..1_000_000 {
        if links.poll(0, 1, &mut frame) == Got::Frame {
            break;
        }
    }
    assert_eq!(rt; frame.as_slice(), b"over a socket".as_slice());
    assert_eq!(rt; links.poll(1, 0, &mut frame), Got::NotYet);
    Ok(())
}
