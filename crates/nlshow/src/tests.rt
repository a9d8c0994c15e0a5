//! Tests of what no contract covers: that allocations succeed, and readers and writers that fail or transfer few bytes
//! at a time. Also tests of `show_lines`, `link_messages` and `uses`, which have none of their own, since a crate with tests
//! is proved twice.

mod callers;
mod captures;
mod documents;
mod printable;
mod replies;
mod walks;

use crate::run_on;
use link_show::{LineOptions, write_hex};
use program::{UntilEnd, Watched};
use show_lines::{Format, Options, Output};
use std::alloc::Global;
use std::io;
use std::io::{BufWriter, Read, Write};
use std::process::Abort;

const SHOWN: &str = "dsa 0800 0100 2a00 0000\n  Conduit(42)\n";

const PLAIN: Output = Output::Text(Options {
    format: Format::Plain,
    lines: LineOptions {
        check: false,
        brief: false,
    },
});

const CHECKED: Output = Output::Text(Options {
    format: Format::Plain,
    lines: LineOptions {
        check: true,
        brief: false,
    },
});

const DEBUG: Output = Output::Text(Options {
    format: Format::Debug,
    lines: LineOptions {
        check: false,
        brief: false,
    },
});

/// Returns at most `most` bytes per read. After the last byte, it fails if `is_broken`; and after its end, if it is read
/// again.
#[derive(Drop)]
struct Trickle<'a> {
    rest: &'a [u8],
    most: usize,
    is_broken: bool,
}

impl Read for Trickle<'_> {
    fn read(&mut self, buf: &mut [u8]) -> io::Result<usize> {
        if self.rest.is_empty() && self.is_broken {
            return Err(io::Error::from(io::ErrorKind::Interrupted));
        }
        self.is_broken |= self.rest.is_empty();
        let room = buf.len().min(self.most);
        self.rest.read(&mut buf[..room])
    }
}

/// Accepts at most `most` bytes per call, and `room` bytes in total; after that it fails.
#[derive(Drop)]
struct Narrow {
    taken: Vec<u8>,
    most: usize,
    room: usize,
    failures: usize,
}

impl Write for Narrow {
    fn write(&mut self, buf: &[u8]) -> io::Result<usize> {
        let room = self.room.saturating_sub(self.taken.len());
        let count = buf.len().min(self.most).min(room);
        if count == 0 {
            self.failures = self.failures.saturating_add(1);
            return Err(io::Error::from(io::ErrorKind::BrokenPipe));
        }
        match self.taken.extend_from_slice(&buf[..count]) {
            Ok(()) => Ok(count),
            Err(_) => Err(io::Error::from(io::ErrorKind::OutOfMemory)),
        }
    }

    fn flush(&mut self) -> io::Result<()> {
        Ok(())
    }
}

/// Fails at each write, or accepts every byte and fails at each flush.
#[derive(Drop)]
struct Broken {
    takes: bool,
}

impl Write for Broken {
    fn write(&mut self, buf: &[u8]) -> io::Result<usize> {
        if self.takes {
            Ok(buf.len())
        } else {
            Err(io::Error::from(io::ErrorKind::BrokenPipe))
        }
    }

    fn flush(&mut self) -> io::Result<()> {
        Err(io::Error::from(io::ErrorKind::BrokenPipe))
    }
}

/// Puts a buffer before `writer`, which is watched.
fn buffered<W: Write + Drop>(rt: &impl Abort, alloc: Global, writer: W) -> BufWriter<Watched<W>> {
    BufWriter::new(alloc, Watched::new(writer)).expect(rt, "a buffer")
}

/// Returns a reader of `rest`, as [`Trickle`] has it.
fn reader_of(rest: &[u8], most: usize, is_broken: bool) -> UntilEnd<Trickle<'_>> {
    UntilEnd::new(Trickle {
        rest,
        most,
        is_broken,
    })
}

/// Asserts the output and the exit status for `text` in the debug form, read in one piece and byte by byte.
fn shows(rt: &impl Abort, alloc: Global, text: &[u8], shown: &[u8], status: u8) {
    for most in [1, text.len() + 1] {
        let mut reader = reader_of(text, most, false);
        let mut written = buffered(rt, alloc, Vec::new(alloc));
        let answer = run_on(alloc, DEBUG, false, None, &mut reader, &mut written);
        assert!(rt; answer == status && written.get_ref().get_ref().as_slice() == shown);
    }
}

#[test]
fn last_lines(rt: HostRuntime) {
    for (text, shown, status) in [
        ("", "", 0),
        ("\n", "", 0),
        ("# dsa 0", "", 0),
        ("dsa 0800 0100 2a00 0000", SHOWN, 0),
        ("dsa 0800 0100 2a00 0000\n", SHOWN, 0),
        ("dsa 0\ndsa", "dsa 0\nbad hex at column 5\ndsa\n", 1),
        ("dsa\ndsa 0", "dsa\ndsa 0\nbad hex at column 5\n", 1),
    ] {
        shows(&rt, rt.alloc(), text.as_bytes(), shown.as_bytes(), status);
    }
}

#[test]
fn long_lines(rt: HostRuntime) {
    for (length, shown, status) in [
        (262_143, "dsa\n", 0),
        (262_144, "dsa\n", 0),
        (262_145, "input too long\ndsa\n", 1),
        (300_000, "input too long\ndsa\n", 1),
    ] {
        let mut text = Vec::new(rt.alloc());
        let _ = text.resize(length, b' ');
        let _ = text.extend_from_slice(b"\ndsa");
        shows(&rt, rt.alloc(), &text, shown.as_bytes(), status);
    }
}

#[test]
fn readers_and_writers_that_fail(rt: HostRuntime) {
    for (text, shown) in [
        ("", "read fault\n"),
        ("dsa 0800 0100 2a00 0000", "read fault\n"),
        ("dsa\nds", "dsa\nread fault\n"),
    ] {
        let mut reader = reader_of(text.as_bytes(), 1, true);
        let mut written = buffered(&rt, rt.alloc(), Vec::new(rt.alloc()));
        let status = run_on(rt.alloc(), PLAIN, false, None, &mut reader, &mut written);
        assert!(&rt; status == 5 && written.get_ref().get_ref().as_slice() == shown.as_bytes());
    }
    for text in ["", "# dsa", "dsa", "dsa\n"] {
        for takes in [false, true] {
            let mut writer = buffered(&rt, rt.alloc(), Broken { takes });
            let mut reader = reader_of(text.as_bytes(), 4096, false);
            let status = run_on(rt.alloc(), PLAIN, false, None, &mut reader, &mut writer);
            assert_eq!(&rt; status, 5);
        }
    }
    let failed = write_hex(&mut Broken { takes: false }, b"*");
    assert!(&rt; failed == Err(io::ErrorKind::BrokenPipe));
}

/// Input lines, each with its output in the debug form. The first has fewer than four bytes, and the first two of a magic
/// number.
const ROWS: [(&[u8], &str); 7] = [
    (b"M<\n", "M<\nno such family\n"),
    (b"dsa\n", "dsa\n"),
    (b"# dsa 0\n", ""),
    (b"dsa 0800 0100 2a00 0000\n", SHOWN),
    (b"tap\n", "tap\nno such family\n"),
    (b"\n", ""),
    (b"hsr 03\n", "hsr 03\nfault at 0: short frame 1\n"),
];

/// Input lines, each with its output in the plain form with `--check`. The first has two bytes.
const CHECKED_ROWS: [(&[u8], &str); 7] = [
    (b"ab\n", "ab\nno such family\n"),
    (b"dsa\n", "dsa\n  canonical\n"),
    (
        b"dsa 0800 0100 2a00 0000 03\n",
        "dsa 0800 0100 2a00 0000 03\n  IFLA_DSA_CONDUIT ifindex 42\n  error at 8: 1 byte left, too few for an attribute header\n  not canonical at 8\n",
    ),
    (b"tap\n", "tap\nno such family\n"),
    (b"dsa 0\n", "dsa 0\nbad hex at column 5\n"),
    (b"check hsr\n", "check hsr\ncanonical\n"),
    (
        b"message 20000000 10000500 01000000 00000000 00000000 03000000 01000000 01000000 20000000 01\n",
        "message 20000000 10000500 01000000 00000000 00000000 03000000 01000000 01000000 20000000 01\nRTM_NEWLINK len 32 flags REQUEST|ACK seq 1 pid 0\n  ifindex 3 flags UP change UP\nerror at 32: 5 bytes left, too few for a message header\n",
    ),
];

/// Asserts that `run`, reading `text` 1, 2, 3, 7 and 4096 bytes at a time, writes `lines` and returns the status
/// `end.1`. If `end.0` is true, the reader fails after `text`. `how` has what the run writes, and whether it is raw.
fn is_read(
    rt: &impl Abort,
    alloc: Global,
    how: (Output, bool),
    text: &[u8],
    lines: &[u8],
    end: (bool, u8),
) {
    let (output, raw) = how;
    let (is_broken, status) = end;
    for most in [1, 2, 3, 7, 4096] {
        let mut reader = reader_of(text, most, is_broken);
        let mut written = buffered(rt, alloc, Vec::new(alloc));
        let answer = run_on(alloc, output, raw, None, &mut reader, &mut written);
        assert!(rt; answer == status && written.get_ref().get_ref().as_slice() == lines);
    }
}

/// What is written if the reader fails.
fn read_fault(output: Output) -> &'static str {
    match output {
        Output::Text(_) => "read fault\n",
        Output::Json => "{\"error\":{\"at\":null,\"text\":\"read fault\"},\"ok\":false}\n",
    }
}

/// Makes the reader fail after each byte of several lines, or other units of an input. The output before the failure is
/// that of whole units.
fn fails_anywhere(rt: &impl Abort, alloc: Global, how: (Output, bool), rows: &[(&[u8], &str)]) {
    let mut text = Vec::new(alloc);
    let mut lines = Vec::new(alloc);
    for (unit, shown) in rows {
        for byte in unit.iter() {
            let mut wanted = lines.clone().expect(rt, shown);
            wanted
                .extend_from_slice(read_fault(how.0).as_bytes())
                .expect(rt, shown);
            is_read(rt, alloc, how, &text, &wanted, (true, 5));
            text.push(*byte).expect(rt, shown);
        }
        lines.extend_from_slice(shown.as_bytes()).expect(rt, shown);
    }
    is_read(rt, alloc, how, &text, &lines, (false, 1));
}

#[test]
fn readers_that_fail_anywhere(rt: HostRuntime) {
    fails_anywhere(&rt, rt.alloc(), (DEBUG, false), &ROWS);
    fails_anywhere(&rt, rt.alloc(), (CHECKED, false), &CHECKED_ROWS);
}

/// Makes the writer fail at each offset of the output. Everything before is written, and no write follows the failure.
fn stops_anywhere(rt: &impl Abort, alloc: Global, how: (Output, bool), rows: &[(&[u8], &str)]) {
    let (output, raw) = how;
    let mut text = Vec::new(alloc);
    let mut lines = Vec::new(alloc);
    for (unit, shown) in rows {
        text.extend_from_slice(unit).expect(rt, shown);
        lines.extend_from_slice(shown.as_bytes()).expect(rt, shown);
    }
    for most in [1, 4096] {
        for room in 0..lines.len() + 1 {
            let narrow = Narrow {
                taken: Vec::new(alloc),
                most,
                room,
                failures: 0,
            };
            let mut writer = buffered(rt, alloc, narrow);
            let mut reader = reader_of(&text, 4096, false);
            let answer = run_on(alloc, output, raw, None, &mut reader, &mut writer);
            let narrow = writer.get_ref().get_ref();
            let (wanted, failures) = if room < lines.len() { (5, 1) } else { (1, 0) };
            assert!(rt; answer == wanted && narrow.failures == failures);
            assert!(rt; narrow.taken.len() == room && lines.starts_with(&narrow.taken));
        }
    }
}

#[test]
fn writers_that_fail_anywhere(rt: HostRuntime) {
    stops_anywhere(&rt, rt.alloc(), (DEBUG, false), &ROWS);
    stops_anywhere(&rt, rt.alloc(), (CHECKED, false), &CHECKED_ROWS);
}
