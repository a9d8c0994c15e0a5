//! Tests JSON with readers and writers that fail or transfer few bytes at a time. Every line that is written is whole,
//! unless the writer fails.

use super::{fails_anywhere, stops_anywhere};
use show_lines::Output;

/// Input lines, each with its documents.
const LINES: [(&[u8], &str); 7] = [
    (
        b"M<\n",
        r#"{"line":1,"error":{"at":null,"text":"no such family"},"ok":false}
"#,
    ),
    (b"# dsa 0\n", ""),
    (
        b"dsa 0800 0100 2a00 0000 03\n",
        r#"{"line":3,"list":{"family":"dsa","attrs":[{"name":"conduit","value":42},{"error":{"at":8,"text":"1 byte left, too few for an attribute header"}}]},"ok":false}
"#,
    ),
    (
        b"dsa 0\n",
        r#"{"line":4,"error":{"at":null,"text":"bad hex at column 5"},"ok":false}
"#,
    ),
    (
        b"check hsr\n",
        r#"{"line":5,"check":{"family":"hsr","canonical":true,"at":null},"ok":true}
"#,
    ),
    (
        b"message\n",
        r#"{"line":6,"ok":true}
"#,
    ),
    (
        b"message 10000000 01000000 01000000 00000000 01\n",
        r#"{"line":7,"len":16,"type":{"number":1,"name":"NLMSG_NOOP"},"flags":{"number":0,"names":[]},"seq":1,"pid":0,"ok":true}
{"line":7,"error":{"at":16,"text":"1 byte left, too few for a message header"},"ok":false}
"#,
    ),
];

/// Parts of a pcap file, each with its documents.
const PCAP: [(&[u8], &str); 3] = [
    (
        // The magic, version 2.4, the snap length, link type 253.
        &[
            0xD4, 0xC3, 0xB2, 0xA1, 2, 0, 4, 0, 0, 0, 0, 0, 0, 0, 0, 0, 0, 0, 4, 0, 0xFD, 0, 0, 0,
        ],
        "",
    ),
    (
        // A record: the time, 32 bytes of 32; a cooked header; an NLMSG_NOOP.
        &[
            0xBB, 0xD4, 0x09, 0x6B, 0, 0, 0, 0, 32, 0, 0, 0, 32, 0, 0, 0, 0, 4, 3, 0x38, 0, 0, 0,
            0, 0, 0, 0, 0, 0, 0, 0, 0, 16, 0, 0, 0, 1, 0, 0, 0, 1, 0, 0, 0, 0, 0, 0, 0,
        ],
        r#"{"packet":{"number":1,"time":{"utc":"2026-11-27T19:06:35.000000Z","sec":1795806395,"nsec":0},"len":32,"original_len":32,"link_type":253,"protocol":{"number":0,"name":"NETLINK_ROUTE"}},"len":16,"type":{"number":1,"name":"NLMSG_NOOP"},"flags":{"number":0,"names":[]},"seq":1,"pid":0,"ok":true}
"#,
    ),
    (
        // A record: the time, 15 bytes of 15; a part of a cooked header.
        &[
            0xBB, 0xD4, 0x09, 0x6B, 0, 0, 0, 0, 15, 0, 0, 0, 15, 0, 0, 0, 0, 0, 0, 0, 0, 0, 0, 0,
            0, 0, 0, 0, 0, 0, 0,
        ],
        r#"{"packet":{"number":2,"time":{"utc":"2026-11-27T19:06:35.000000Z","sec":1795806395,"nsec":0},"len":15,"original_len":15,"link_type":253,"protocol":null},"error":{"at":0,"text":"15 bytes, too few for a cooked header"},"ok":false}
"#,
    ),
];

#[test]
fn documents_whose_reader_fails_anywhere(rt: HostRuntime) {
    fails_anywhere(&rt, rt.alloc(), (Output::Json, false), &LINES);
    fails_anywhere(&rt, rt.alloc(), (Output::Json, false), &PCAP);
}

#[test]
fn documents_whose_writer_fails_anywhere(rt: HostRuntime) {
    stops_anywhere(&rt, rt.alloc(), (Output::Json, false), &LINES);
    stops_anywhere(&rt, rt.alloc(), (Output::Json, false), &PCAP);
}
