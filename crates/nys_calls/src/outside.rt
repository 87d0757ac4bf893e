//! Sources, sinks and links: in memory, where listed calls fail, and over std's readers and writers.

ghost use Rattle.std.specs.Prelude.{◌≡◌};
ghost use Rattle.nys_outside.specs.Frames.{AreLinked};

use nys_outside::{
    Failed, Got, Links, MemLinks, MemSink, MemSource, OutFault, ReadFault, Sink, Source, StdSink,
    StdSource, read_all, write_all,
};
use std::io::Cursor;
use std::process::Abort;
use std::test::Fail;

#[test]
fn an_input_is_read_to_its_end_or_its_limit(rt: HostRuntime) -> Result<(), Fail> {
    // (input, the reads that fail, the limit, what is read)
    let cases: [(&[u8], &[u32], usize, Result<&[u8], ReadFault>); 6] = [
        (b"", &[], 0, Ok(b"")),
        (b"abc", &[], 3, Ok(b"abc")),
        (b"abcd", &[], 3, Err(ReadFault::TooLarge)),
        (b"abc", &[0], 3, Err(ReadFault::Failed)),
        (b"abc", &[1], 3, Err(ReadFault::Failed)),
        (b"abc", &[2], 3, Ok(b"abc")),
    ];
    for (bytes, fails, limit, want) in cases {
        let mut source = MemSource::new(rt.alloc(), bytes, fails)?;
        let got = read_all(rt.alloc(), &mut source, limit);
        match want {
            Ok(text) => assert_eq!(rt; got?.as_slice(), text),
            Err(fault) => assert_eq!(rt; got.err(), Some(fault)),
        }
    }
    Ok(())
}

#[test]
fn a_read_that_fails_in_mid_stream_takes_nothing(rt: HostRuntime) -> Result<(), Fail> {
    let mut source = MemSource::new(rt.alloc(), b"abc", &[1])?;
    let mut buf = [0u8; 2];
    assert_eq!(rt; source.read(&mut buf), Ok(2));
    assert_eq!(rt; source.read(&mut buf), Err(Failed));
    assert_eq!(rt; buf.as_slice(), b"ab".as_slice());
    assert_eq!(rt; source.read(&mut buf), Ok(1));
    assert_eq!(rt; buf.as_slice(), b"cb".as_slice());
    assert_eq!(rt; source.read(&mut buf), Ok(0));
    Ok(())
}

#[test]
fn a_sink_takes_a_text_until_a_write_fails(rt: HostRuntime) -> Result<(), Fail> {
    let failed = Err(OutFault::Failed);
    // (the writes that fail, what the two answer, what was written)
    let cases: [(&[u32], Result<(), OutFault>, Result<(), OutFault>, &[u8]); 4] = [
        (&[], Ok(()), Ok(()), b"onetwo"),
        (&[0], failed, Ok(()), b"two"),
        (&[1], Ok(()), failed, b"one"),
        (&[0, 1], failed, failed, b""),
    ];
    for (fails, first, second, written) in cases {
        let mut sink = MemSink::new(rt.alloc(), fails)?;
        assert_eq!(rt; write_all(&mut sink, b"one"), first);
        assert_eq!(rt; write_all(&mut sink, b"two"), second);
        assert_eq!(rt; sink.written(), written);
    }
    Ok(())
}

#[test]
fn a_reader_of_std_is_a_source(rt: HostRuntime) -> Result<(), Fail> {
    let mut source = StdSource::new(Cursor::new(b"some bytes".as_slice()));
    let read = read_all(rt.alloc(), &mut source, 64)?;
    assert_eq!(rt; read.as_slice(), b"some bytes".as_slice());
    Ok(())
}

#[test]
fn a_writer_of_std_is_a_sink_until_it_is_full(rt: HostRuntime) {
    let mut sink = StdSink::new(Cursor::new([0u8; 4]));
    assert_eq!(rt; sink.write(b""), Ok(0));
    assert_eq!(rt; write_all(&mut sink, b"two"), Ok(()));
    assert_eq!(rt; write_all(&mut sink, b"more"), Err(OutFault::Failed));
}

// Polls one direction; the buffer has this frame then.
fn polls(
    rt: &impl Abort,
    links: &mut MemLinks,
    way: (u32, u32),
    buf: &mut Vec<u8>,
    want: (Got, &[u8]),
)
    requires { AreLinked links.old.hosts way.0 way.1 }
    ensures { links.new.hosts ≡ links.old.hosts }
{
    assert_eq!(rt; links.poll(way.0, way.1, buf), want.0);
    assert_eq!(rt; buf.as_slice(), want.1);
}

#[test]
fn frames_come_in_order_each_in_its_direction(rt: HostRuntime) -> Result<(), Fail> {
    let mut links = MemLinks::new(rt.alloc(), &[])?;
    let mut buf = Vec::new(rt.alloc());
    links.connect(2)?;
    links.send(0, 1, b"first")?;
    links.send(1, 0, b"back")?;
    links.send(0, 1, b"second")?;
    polls(&rt, &mut links, (0, 1), &mut buf, (Got::Frame, b"first"));
    polls(&rt, &mut links, (0, 1), &mut buf, (Got::Frame, b"second"));
    polls(&rt, &mut links, (0, 1), &mut buf, (Got::NotYet, b"second"));
    polls(&rt, &mut links, (1, 0), &mut buf, (Got::Frame, b"back"));
    Ok(())
}

#[test]
fn a_call_of_the_links_that_is_listed_fails(rt: HostRuntime) -> Result<(), Fail> {
    let mut links = MemLinks::new(rt.alloc(), &[0, 2, 4])?;
    let mut buf = Vec::new(rt.alloc());
    assert_eq!(rt; links.connect(2), Err(OutFault::Failed));
    links.connect(2)?;
    assert_eq!(rt; links.send(0, 1, b"lost"), Err(OutFault::Failed));
    links.send(0, 1, b"kept")?;
    polls(&rt, &mut links, (0, 1), &mut buf, (Got::Failed, b""));
    polls(&rt, &mut links, (0, 1), &mut buf, (Got::Frame, b"kept"));
    Ok(())
}
