//! What no clause says: that calls succeed with ample memory, and how short reads and writes go on.

use crate::{
    IoErr, MemSink, MemSource, ReadAllErr, ReadSource, Sink, Source, WriteSink, put_all, read_all,
};
use std::io::{self, ErrorKind, Read, Write};
use std::test::Fail;

// Moves one byte at a time.
#[derive(Drop)]
struct Trickle<T>(T);

impl<R: Read> Read for Trickle<R> {
    fn read(&mut self, buf: &mut [u8]) -> io::Result<usize> {
        let count = buf.len().min(1);
        self.0.read(&mut buf[..count])
    }
}

impl<W: Write> Write for Trickle<W> {
    fn write(&mut self, buf: &[u8]) -> io::Result<usize> {
        let count = buf.len().min(1);
        self.0.write(&buf[..count])
    }

    fn flush(&mut self) -> io::Result<()> {
        self.0.flush()
    }
}

// Fails each call with this kind, or takes nothing.
#[derive(Drop)]
struct Broken(Option<ErrorKind>);

impl Read for Broken {
    fn read(&mut self, _: &mut [u8]) -> io::Result<usize> {
        match self.0 {
            Some(kind) => Err(io::Error::new(kind, "broken")),
            None => Ok(0),
        }
    }
}

impl Write for Broken {
    fn write(&mut self, _: &[u8]) -> io::Result<usize> {
        match self.0 {
            Some(kind) => Err(io::Error::new(kind, "broken")),
            None => Ok(0),
        }
    }

    fn flush(&mut self) -> io::Result<()> {
        Ok(())
    }
}

#[test]
fn a_source_in_memory_is_read_in_pieces_and_fails_where_listed(
    rt: HostRuntime,
) -> Result<(), Fail> {
    let bytes = b"abcde".to_vec(rt.alloc())?;
    let fail_at = [2u64, 9].to_vec(rt.alloc())?;
    let mut source = MemSource::new(bytes, fail_at);
    let mut buf = [b'.'; 3];
    for (want, held, faults) in [
        (Ok(3), b"abc", 0),
        (Err(IoErr::Failed), b"abc", 1),
        (Ok(2), b"dec", 1),
        (Ok(0), b"dec", 1),
    ] {
        assert_eq!(rt; source.take(&mut buf), want);
        assert_eq!(rt; buf, *held, "at {want:?}");
        assert_eq!(rt; source.faults(), faults, "at {want:?}");
    }
    Ok(())
}

#[test]
fn a_sink_in_memory_takes_what_fits(rt: HostRuntime) -> Result<(), Fail> {
    let mut sink = MemSink::new(rt.alloc(), 100);
    assert_eq!(rt; put_all(&mut sink, &[1; 70]), Ok(()));
    assert_eq!(rt; put_all(&mut sink, &[2; 70]), Err(IoErr::Failed));
    assert_eq!(rt; sink.put(&[]), Ok(0));
    let held = sink.contents();
    assert_eq!(rt; held.len(), 100);
    assert!(rt; held[..70] == [1; 70]);
    assert!(rt; held[70..] == [2; 30]);
    assert_eq!(rt; sink.faults(), 1);
    Ok(())
}

#[test]
fn short_reads_and_writes_go_on(rt: HostRuntime) -> Result<(), Fail> {
    let text: &[u8] = b"one byte at a time";
    let mut source = ReadSource::new(Trickle(text));
    let bytes = read_all(rt.alloc(), &mut source, 100)?;
    assert_eq!(rt; bytes.as_slice(), text);
    assert_eq!(rt; source.faults(), 0);
    let mut written = Vec::new(rt.alloc());
    let mut sink = WriteSink::new(Trickle(&mut written));
    put_all(&mut sink, &bytes)?;
    assert_eq!(rt; sink.faults(), 0);
    assert_eq!(rt; written.as_slice(), text);
    Ok(())
}

#[test]
fn a_whole_read_ends_at_its_limit(rt: HostRuntime) -> Result<(), Fail> {
    for (len, limit, want) in [
        (0, 0, None),
        (1, 0, Some(ReadAllErr::TooLong)),
        (5, 5, None),
        (6, 5, Some(ReadAllErr::TooLong)),
        (200_000, 200_000, None),
        (200_000, 199_999, Some(ReadAllErr::TooLong)),
    ] {
        let bytes = vec![in rt.alloc(); b'\n'; len]?;
        let mut source = MemSource::new(bytes, Vec::new(rt.alloc()));
        match read_all(rt.alloc(), &mut source, limit) {
            Ok(read) => assert!(rt; want.is_none() && read.len() == len, "{len} at {limit}"),
            Err(e) => assert_eq!(rt; Some(e), want, "{len} at {limit}"),
        }
    }
    Ok(())
}

#[test]
fn failures_are_counted_and_want_of_memory_is_told(rt: HostRuntime) -> Result<(), Fail> {
    for (kind, want, faults) in [
        (ErrorKind::Other, IoErr::Failed, 1),
        (ErrorKind::Interrupted, IoErr::Failed, 1),
        (ErrorKind::OutOfMemory, IoErr::Memory, 0),
    ] {
        let mut source = ReadSource::new(Broken(Some(kind)));
        assert_eq!(rt; source.take(&mut [0]), Err(want));
        assert_eq!(rt; source.faults(), faults);
        let mut sink = WriteSink::new(Broken(Some(kind)));
        assert_eq!(rt; sink.put(b"a"), Err(want));
        assert_eq!(rt; sink.faults(), faults);
    }
    let mut full = WriteSink::new(Broken(None));
    assert_eq!(rt; full.put(b"a"), Err(IoErr::Failed));
    assert_eq!(rt; full.put(b""), Ok(0));
    assert_eq!(rt; full.faults(), 1);
    Ok(())
}
