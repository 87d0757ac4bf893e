//! The whole program where the outside fails: a source and a sink, at each call of one run.

use nys_bytes::Text;
use nys_outside::{MemLinks, MemSink, MemSource, StdSink};
use nys_top::run;
use std::alloc::Global;
use std::io::Cursor;
use std::test::Fail;

/// A document in which a message of an input is agreed on in nine exchanges.
const DOCUMENT: &[u8] = b"\
      hosts = 4\n\
      links = [[0, 1]]\n\
      protocol = 'sum'\n\
      master = '0000000000000000000000000000000000000000000000000000000000000000'\n\
      epoch = [{ t = 1, credit = 4 }]\n\
      schedule = '''\n\
      input 0 5\n\
      exchange\n\
      exchange\n\
      exchange\n\
      exchange\n\
      exchange\n\
      exchange\n\
      exchange\n\
      exchange\n\
      exchange\n\
      '''\n\
      ";

/// What `replay` prints of it.
const RECEIVED: &[u8] = b"\
      run\n\
      0 input 5\n\
      1 receive 0 0\n\
      hosts\n\
      host 0 running state 5 out -\n\
      host 1 running state 5 out 5\n\
      host 2 running state 0 out -\n\
      host 3 running state 0 out -\n\
      guards\n\
      guard 0 of 0 live at 1 state 5 out -\n\
      guard 0 of 1 live at 1 state 5 out 5\n\
      guard 0 of 2 live at 0 state 0 out -\n\
      guard 0 of 3 live at 0 state 0 out -\n\
      guard 1 of 0 live at 1 state 5 out -\n\
      guard 1 of 1 live at 1 state 5 out 5\n\
      guard 1 of 2 live at 0 state 0 out -\n\
      guard 1 of 3 live at 0 state 0 out -\n\
      guard 2 of 0 live at 1 state 5 out -\n\
      guard 2 of 1 live at 1 state 5 out 5\n\
      guard 2 of 2 live at 0 state 0 out -\n\
      guard 2 of 3 live at 0 state 0 out -\n\
      guard 3 of 0 live at 1 state 5 out -\n\
      guard 3 of 1 live at 1 state 5 out 5\n\
      guard 3 of 2 live at 0 state 0 out -\n\
      guard 3 of 3 live at 0 state 0 out -\n\
      notes\n\
      end\n\
      ";

/// The word `replay`.
fn replay(alloc: Global) -> Result<Vec<Text>, Fail> {
    let mut words = Vec::new(alloc);
    words.push(Text::new(alloc, "replay")?)?;
    Ok(words)
}

/// The status and the text, where the reads and the writes of these numbers fail.
fn call(alloc: Global, unread: &[u32], unwritten: &[u32]) -> Result<(u8, Vec<u8>), Fail> {
    let words = replay(alloc)?;
    let mut input = MemSource::new(alloc, DOCUMENT, unread)?;
    let mut out = MemSink::new(alloc, unwritten)?;
    let mut links = MemLinks::new(alloc, &[])?;
    let status = run(alloc, words.as_slice(), &mut input, &mut out, &mut links);
    Ok((status, Vec::from_slice(alloc, out.written())?))
}

#[test]
fn a_fault_of_the_outside_has_its_status(rt: HostRuntime) -> Result<(), Fail> {
    // (the reads that fail, the writes that fail, the status, what is written)
    let cases: [(&[u32], &[u32], u8, &[u8]); 5] = [
        (&[], &[], 0, RECEIVED),
        (&[0], &[], 11, b"read fault\n"),
        (&[1], &[], 11, b"read fault\n"),
        (&[], &[0], 12, b""),
        (&[0], &[0], 12, b""),
    ];
    for (unread, unwritten, status, text) in cases {
        let (ended, written) = call(rt.alloc(), unread, unwritten)?;
        assert_eq!(rt; ended, status, "{unread:?} {unwritten:?}");
        assert_eq!(rt; written.as_slice(), text, "{unread:?} {unwritten:?}");
    }
    Ok(())
}

#[test]
fn a_sink_that_fails_at_its_second_write_has_a_front(rt: HostRuntime) -> Result<(), Fail> {
    let words = replay(rt.alloc())?;
    let mut room = [0u8; 7];
    let mut input = MemSource::new(rt.alloc(), DOCUMENT, &[])?;
    let mut out = StdSink::new(Cursor::new(room.as_mut_slice()));
    let mut links = MemLinks::new(rt.alloc(), &[])?;
    assert_eq!(rt;
        run(
            rt.alloc(),
            words.as_slice(),
            &mut input,
            &mut out,
            &mut links
        ),
        12
    );
    assert_eq!(rt; room.as_slice(), b"run\n0 i".as_slice());
    Ok(())
}
