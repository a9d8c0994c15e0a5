//! Tests that the output is printable ASCII, tabs and LFs, whatever bytes the input has.

use super::{DEBUG, PLAIN, buffered, reader_of};
use crate::run_on;
use show_lines::Output;
use std::alloc::{AllocError, Global};
use std::process::Abort;

/// The first bytes of inputs: none, each magic number of a format that is not read, requests, and a pcap header.
const FRONTS: [&[u8]; 13] = [
    b"",
    &[0x1F, 0x8B],
    &[0xFD, 0x37, 0x7A, 0x58, 0x5A, 0],
    &[0x28, 0xB5, 0x2F, 0xFD],
    b"BZh9",
    &[0x04, 0x22, 0x4D, 0x18],
    &[0x34, 0xCD, 0xB2, 0xA1],
    &[0xA1, 0xB2, 0xCD, 0x34],
    b"snoop\0\0\0",
    b"dsa\r08000100\r2a000000\r\n",
    b"message \x1b[2J\n",
    b"check dsa \xff\n",
    &[
        0xD4, 0xC3, 0xB2, 0xA1, 2, 0, 4, 0, 0, 0, 0, 0, 0, 0, 0, 0, 0, 0, 4, 0, 0xFD, 0, 0, 0,
    ],
];

/// Returns `front`, and 3,000 pseudo-random bytes, of which only the bits of `mask` may be set.
fn noise(alloc: Global, front: &[u8], seed: u64, mask: u8) -> Result<Vec<u8>, AllocError> {
    let mut bytes = Vec::new(alloc);
    bytes.extend_from_slice(front)?;
    let mut state = seed;
    for _ in 0..3_000 {
        state = state
            .wrapping_mul(6_364_136_223_846_793_005)
            .wrapping_add(1_442_695_040_888_963_407);
        bytes.push(state.to_be_bytes()[0] & mask)?;
    }
    Ok(bytes)
}

/// Asserts that the output for an input is printable ASCII, tabs and LFs.
fn is_printed(rt: &impl Abort, alloc: Global, output: Output, text: &[u8]) {
    let mut reader = reader_of(text, 4096, false);
    let mut written = buffered(rt, alloc, Vec::new(alloc));
    let _ = run_on(alloc, output, false, None, &mut reader, &mut written);
    let shown = written.get_ref().get_ref().as_slice();
    assert!(rt;
        shown
            .iter()
            .all(|b| matches!(*b, b' '..=b'~' | b'\t' | b'\n'))
    );
}

#[test]
fn output_of_any_bytes(rt: HostRuntime) {
    let alloc = rt.alloc();
    for front in FRONTS {
        for mask in [0xFF, 0x7F, 0x3F] {
            let text = noise(alloc, front, 1, mask).expect(&rt, "an input");
            for output in [PLAIN, DEBUG, Output::Json] {
                is_printed(&rt, alloc, output, &text);
            }
        }
    }
}
