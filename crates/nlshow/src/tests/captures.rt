//! Tests captures with readers and writers that fail or transfer few bytes at a time, and files with writers that fail.

use super::{Narrow, PLAIN, buffered, fails_anywhere, stops_anywhere};
use crate::run_task;
use program::Watched;
use show_lines::Task;

/// Parts of a pcap file, each with the output for it.
const PCAP: [(&[u8], &str); 3] = [
    (
        // The magic, version 2.4, the snap length, link type 253.
        &[
            0xD4, 0xC3, 0xB2, 0xA1, 2, 0, 4, 0, 0, 0, 0, 0, 0, 0, 0, 0, 0, 0, 4, 0, 0xFD, 0, 0, 0,
        ],
        "",
    ),
    (
        // A record: the time, 32 bytes of 32; a cooked header; an NLMSG_NOOP.
        &[
            0xBB, 0xD4, 0x09, 0x6B, 0, 0, 0, 0, 32, 0, 0, 0, 32, 0, 0, 0, 0, 4, 3, 0x38, 0, 0, 0,
            0, 0, 0, 0, 0, 0, 0, 0, 0, 16, 0, 0, 0, 1, 0, 0, 0, 1, 0, 0, 0, 0, 0, 0, 0,
        ],
        "packet 1 time 2026-11-27T19:06:35.000000Z len 32\nNLMSG_NOOP len 16 flags 0 seq 1 pid 0\n",
    ),
    (
        // A record: the time, 15 bytes of 15; a part of a cooked header.
        &[
            0xBB, 0xD4, 0x09, 0x6B, 0, 0, 0, 0, 15, 0, 0, 0, 15, 0, 0, 0, 0, 0, 0, 0, 0, 0, 0, 0,
            0, 0, 0, 0, 0, 0, 0,
        ],
        "packet 2 time 2026-11-27T19:06:35.000000Z len 15\n  error at 0: 15 bytes, too few for a cooked header\n",
    ),
];

/// Parts of a pcapng file, each with the output for it.
const PCAPNG: [(&[u8], &str); 4] = [
    (
        // A section: the length of its block, the order, version 1.0, no length of the section.
        &[
            0x0A, 0x0D, 0x0D, 0x0A, 28, 0, 0, 0, 0x4D, 0x3C, 0x2B, 0x1A, 1, 0, 0, 0, 0xFF, 0xFF,
            0xFF, 0xFF, 0xFF, 0xFF, 0xFF, 0xFF, 28, 0, 0, 0,
        ],
        "",
    ),
    (
        // An interface of link type 253.
        &[
            1, 0, 0, 0, 20, 0, 0, 0, 0xFD, 0, 0, 0, 0, 0, 4, 0, 20, 0, 0, 0,
        ],
        "",
    ),
    (
        // A packet: interface 0, the time, 32 bytes of 32; a cooked header; an NLMSG_NOOP; the length of the block.
        &[
            6, 0, 0, 0, 64, 0, 0, 0, 0, 0, 0, 0, 0x46, 0x61, 0x06, 0, 0xC0, 0x64, 0x42, 0xC2, 32,
            0, 0, 0, 32, 0, 0, 0, 0, 4, 3, 0x38, 0, 0, 0, 0, 0, 0, 0, 0, 0, 0, 0, 0, 16, 0, 0, 0,
            1, 0, 0, 0, 1, 0, 0, 0, 0, 0, 0, 0, 64, 0, 0, 0,
        ],
        "packet 1 time 2026-11-27T19:06:35.000000Z len 32\nNLMSG_NOOP len 16 flags 0 seq 1 pid 0\n",
    ),
    (
        // A packet: interface 0, the time, 15 bytes of 15; a part of a cooked header, padded; the length of the block.
        &[
            6, 0, 0, 0, 48, 0, 0, 0, 0, 0, 0, 0, 0x46, 0x61, 0x06, 0, 0xC0, 0x64, 0x42, 0xC2, 15,
            0, 0, 0, 15, 0, 0, 0, 0, 0, 0, 0, 0, 0, 0, 0, 0, 0, 0, 0, 0, 0, 0, 0, 48, 0, 0, 0,
        ],
        "packet 2 time 2026-11-27T19:06:35.000000Z len 15\n  error at 0: 15 bytes, too few for a cooked header\n",
    ),
];

/// Messages, each with the output for it.
const RAW: [(&[u8], &str); 3] = [
    (
        // An NLMSG_NOOP.
        &[16, 0, 0, 0, 1, 0, 0, 0, 1, 0, 0, 0, 0, 0, 0, 0],
        "NLMSG_NOOP len 16 flags 0 seq 1 pid 0\n",
    ),
    (
        // An RTM_NEWLINK of 20 bytes.
        &[20, 0, 0, 0, 16, 0, 0, 0, 2, 0, 0, 0, 0, 0, 0, 0, 0, 0, 0, 0],
        "RTM_NEWLINK len 20 flags 0 seq 2 pid 0\n  error at 0: 20 bytes, too few for a link message\n",
    ),
    (
        // An NLMSG_NOOP of 17 bytes, with its padding.
        &[
            17, 0, 0, 0, 1, 0, 0, 0, 3, 0, 0, 0, 0, 0, 0, 0, 0xFF, 0, 0, 0,
        ],
        "NLMSG_NOOP len 17 flags 0 seq 3 pid 0\n",
    ),
];

#[test]
fn captures_whose_reader_fails_anywhere(rt: HostRuntime) {
    fails_anywhere(&rt, rt.alloc(), (PLAIN, false), &PCAP);
    fails_anywhere(&rt, rt.alloc(), (PLAIN, false), &PCAPNG);
    fails_anywhere(&rt, rt.alloc(), (PLAIN, true), &RAW);
}

#[test]
fn captures_whose_writer_fails_anywhere(rt: HostRuntime) {
    stops_anywhere(&rt, rt.alloc(), (PLAIN, false), &PCAP);
    stops_anywhere(&rt, rt.alloc(), (PLAIN, false), &PCAPNG);
    stops_anywhere(&rt, rt.alloc(), (PLAIN, true), &RAW);
}

/// The output for two files that do not exist.
const MISSING: &str = "file \"\"\ncannot open\nfile \"\"\ncannot open\n";

/// What standard error is told of them.
const TOLD: &str =
    "nlshow: \"\": No such file or directory\nnlshow: \"\": No such file or directory\n";

/// Makes the writer fail at each offset of the output for two files. No write follows the failure.
#[test]
fn files_whose_writer_fails_anywhere(rt: HostRuntime) {
    let alloc = rt.alloc();
    let mut task = Task {
        output: PLAIN,
        raw: false,
        files: Vec::new(alloc),
    };
    for _ in 0..2 {
        task.files.push(String::new(alloc)).expect(&rt, MISSING);
    }
    for room in 0..MISSING.len() + 1 {
        let narrow = Narrow {
            taken: Vec::new(alloc),
            most: 4096,
            room,
            failures: 0,
        };
        let mut writer = buffered(&rt, alloc, narrow);
        let mut errors = Watched::new(Vec::new(alloc));
        let status = run_task(&rt, &task, &mut writer, &mut errors);
        let told = errors.get_ref().as_slice();
        let watched = writer.get_ref();
        let narrow = watched.get_ref();
        let failures = if room < MISSING.len() { 1 } else { 0 };
        assert!(&rt; status == 5 && narrow.failures == failures);
        assert!(&rt; watched.has_failed() == (failures == 1));
        assert!(&rt; narrow.taken.len() == room && MISSING.as_bytes().starts_with(&narrow.taken));
        // The second file is not opened, if the writer failed for the first.
        let count = if room < MISSING.len() / 2 { 1 } else { 2 };
        assert!(&rt; told == &TOLD.as_bytes()[..count * TOLD.len() / 2]);
    }
}
