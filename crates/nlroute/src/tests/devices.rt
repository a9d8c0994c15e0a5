//! Tests with readers and writers that count calls, transfer few bytes at a time, or fail.

use crate::running::run;
use std::alloc::Global;
use std::io;
use std::io::{BufWriter, Read, Write};
use std::process::Abort;
use std::test::Fail;

const TEXT: &[u8] = b"08 00 01 00 2a 00 00 00\n";

/// 72 bytes.
const LONG_TEXT: &[u8] =
    b"08 00 01 00 2a 00 00 00 08 00 01 00 2a 00 00 00 08 00 01 00 2a 00 00 00\n";

const LINES: &[u8] = b"attr 1 len 4\nout 080001002a000000\nsame\n";

/// Returns at most `most` bytes per read. After the last byte, it fails if `is_broken`.
#[derive(Drop)]
struct Trickle<'a> {
    rest: &'a [u8],
    most: usize,
    is_broken: bool,
    reads: usize,
}

impl Read for Trickle<'_> {
    fn read(&mut self, buf: &mut [u8]) -> io::Result<usize> {
        self.reads = self.reads.saturating_add(1);
        if self.rest.is_empty() && self.is_broken {
            return Err(io::Error::from(io::ErrorKind::Interrupted));
        }
        let room = buf.len().min(self.most);
        self.rest.read(&mut buf[..room])
    }
}

/// Returns spaces without end, one per read.
#[derive(Drop)]
struct Spaces {
    reads: usize,
}

impl Read for Spaces {
    fn read(&mut self, buf: &mut [u8]) -> io::Result<usize> {
        self.reads = self.reads.saturating_add(1);
        if buf.is_empty() {
            return Ok(0);
        }
        buf[0] = b' ';
        Ok(1)
    }
}

/// Accepts at most `most` bytes per call, and `room` bytes in total. After that it fails, or accepts no bytes if
/// `is_mute`.
#[derive(Drop)]
struct Narrow {
    taken: Vec<u8>,
    most: usize,
    room: usize,
    is_mute: bool,
    failures: usize,
}

impl Write for Narrow {
    fn write(&mut self, buf: &[u8]) -> io::Result<usize> {
        let room = self.room.saturating_sub(self.taken.len());
        let count = buf.len().min(self.most).min(room);
        if count == 0 {
            self.failures = self.failures.saturating_add(1);
            if self.is_mute {
                return Ok(0);
            }
            return Err(io::Error::from(io::ErrorKind::BrokenPipe));
        }
        match self.taken.extend_from_slice(&buf[..count]) {
            Ok(()) => Ok(count),
            Err(_) => Err(io::Error::from(io::ErrorKind::OutOfMemory)),
        }
    }

    fn flush(&mut self) -> io::Result<()> {
        Ok(())
    }
}

const USAGE: &[u8] = b"usage: nlroute FAMILY\n";

/// Accepts every byte, and fails at each flush.
#[derive(Drop)]
struct Stuck {
    taken: Vec<u8>,
}

impl Write for Stuck {
    fn write(&mut self, buf: &[u8]) -> io::Result<usize> {
        self.taken.write(buf)
    }

    fn flush(&mut self) -> io::Result<()> {
        Err(io::Error::from(io::ErrorKind::BrokenPipe))
    }
}

/// Puts a buffer before `writer`.
pub(crate) fn buffered<W: Write + Drop>(rt: &impl Abort, alloc: Global, writer: W) -> BufWriter<W> {
    BufWriter::new(alloc, writer).expect(rt, "a buffer")
}

#[test]
fn slices_and_trickles(rt: HostRuntime) -> Result<(), Fail> {
    let mut written = buffered(&rt, rt.alloc(), Vec::new(rt.alloc()));
    let status = run(rt.alloc(), Some("dsa"), &mut &TEXT[..], &mut written);
    assert_eq!(rt; status, 0);
    assert_eq!(rt; written.get_ref().as_slice(), LINES);

    let mut reader = Trickle {
        rest: TEXT,
        most: 1,
        is_broken: false,
        reads: 0,
    };
    let mut written = buffered(&rt, rt.alloc(), Vec::new(rt.alloc()));
    let status = run(rt.alloc(), Some("dsa"), &mut reader, &mut written);
    assert_eq!(rt; status, 0);
    assert_eq!(rt; written.get_ref().as_slice(), LINES);
    assert_eq!(rt; reader.reads, TEXT.len() + 1);
    Ok(())
}

#[test]
fn names_that_are_no_family(rt: HostRuntime) -> Result<(), Fail> {
    for name in [
        None,
        Some("tap"),
        Some("DSA"),
        Some(""),
        Some("--help"),
        Some("--version"),
        Some("dsa "),
    ] {
        let mut reader = Trickle {
            rest: TEXT,
            most: 1,
            is_broken: true,
            reads: 0,
        };
        let mut written = Vec::new(rt.alloc());
        let status = run(rt.alloc(), name, &mut reader, &mut written);
        assert!(rt; status == 2 && reader.reads == 0);
        assert_eq!(rt; written.as_slice(), USAGE);
    }
    Ok(())
}

#[test]
fn readers_that_fail(rt: HostRuntime) -> Result<(), Fail> {
    for given in 0..65 {
        let (front, _) = LONG_TEXT.split_at(LONG_TEXT.len().min(given));
        let mut reader = Trickle {
            rest: front,
            most: 1,
            is_broken: true,
            reads: 0,
        };
        let mut written = buffered(&rt, rt.alloc(), Vec::new(rt.alloc()));
        let status = run(rt.alloc(), Some("dsa"), &mut reader, &mut written);
        assert_eq!(rt; status, 5);
        assert_eq!(rt; written.get_ref().as_slice(), b"read fault\n".as_slice());
        assert_eq!(rt; reader.reads, given + 1);
    }
    Ok(())
}

/// Reads 700 attributes, 16,800 bytes of input, a few bytes at a time.
#[test]
fn readers_that_give_little(rt: HostRuntime) -> Result<(), Fail> {
    let mut text = Vec::new(rt.alloc());
    let mut wanted = Vec::new(rt.alloc());
    for _ in 0..700 {
        text.extend_from_slice(TEXT)?;
        wanted.extend_from_slice(b"attr 1 len 4\n")?;
    }
    wanted.extend_from_slice(b"out ")?;
    for _ in 0..700 {
        wanted.extend_from_slice(b"080001002a000000")?;
    }
    wanted.extend_from_slice(b"\nsame\n")?;
    for (most, reads) in [(1, 16_801), (2, 8401), (3, 5601), (7, 2401), (4096, 6)] {
        let mut reader = Trickle {
            rest: &text,
            most,
            is_broken: false,
            reads: 0,
        };
        let mut written = buffered(&rt, rt.alloc(), Vec::new(rt.alloc()));
        let status = run(rt.alloc(), Some("dsa"), &mut reader, &mut written);
        assert!(rt; status == 0 && *written.get_ref() == wanted && reader.reads == reads);
    }
    Ok(())
}

#[test]
fn a_reader_without_end(rt: HostRuntime) -> Result<(), Fail> {
    let mut reader = Spaces { reads: 0 };
    let mut written = buffered(&rt, rt.alloc(), Vec::new(rt.alloc()));
    let status = run(rt.alloc(), Some("dsa"), &mut reader, &mut written);
    assert_eq!(rt; status, 2);
    assert_eq!(rt;
        written.get_ref().as_slice(),
        b"input too long\n".as_slice()
    );
    assert_eq!(rt; reader.reads, 262_145);
    Ok(())
}

/// Asserts what a writer receives that accepts `most` bytes per call and `space` bytes in total, for every `space` up to
/// the length of the output: all of the output, with this status, if there is space, and otherwise the first `space` bytes,
/// with status 5. No write follows a failure.
fn is_taken(rt: &impl Abort, alloc: Global, name: &str, most: usize, lines: &[u8], status: u8) {
    for space in 0..lines.len() + 1 {
        let mut writer = narrow_writer(alloc, most, space);
        let answer = run(alloc, Some(name), &mut &TEXT[..], &mut writer);
        assert_eq!(rt; answer, if space < lines.len() { 5 } else { status });
        receives(rt, &writer, space, lines);
    }
}

/// A writer that accepts `most` bytes per call and `space` bytes in total.
fn narrow_writer(alloc: Global, most: usize, space: usize) -> Narrow {
    Narrow {
        taken: Vec::new(alloc),
        most,
        room: space,
        is_mute: most == 7,
        failures: 0,
    }
}

/// Asserts that a writer with this space has received as much of the lines, and that no write followed a failure.
fn receives(rt: &impl Abort, narrow: &Narrow, space: usize, lines: &[u8]) {
    let failures = if space < lines.len() { 1 } else { 0 };
    assert!(rt; narrow.failures == failures);
    assert!(rt; narrow.taken.len() == space && lines.starts_with(&narrow.taken));
}

#[test]
fn writers_that_fail(rt: HostRuntime) {
    let alloc = rt.alloc();
    for most in [1, 7, 4096] {
        is_taken(&rt, alloc, "dsa", most, LINES, 0);
        is_taken(&rt, alloc, "tap", most, USAGE, 2);
    }
}

#[test]
fn a_writer_that_cannot_flush(rt: HostRuntime) {
    for (name, lines) in [("dsa", LINES), ("tap", USAGE)] {
        let mut writer = Stuck {
            taken: Vec::new(rt.alloc()),
        };
        let status = run(rt.alloc(), Some(name), &mut &TEXT[..], &mut writer);
        assert_eq!(&rt; status, 5);
        assert_eq!(&rt; writer.taken.as_slice(), lines);
    }
}
