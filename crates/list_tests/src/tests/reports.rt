//! Tests the whole output of `nlroute` and its status, for inputs whose output was computed by hand, and that `read_list`
//! and `rewrite` return the same values, bytes and errors.

use crate::tests::{bytes, filled, holds, list_of};
use netlink_packet_route::link::{Attribute, read_list};
use netlink_packet_route::{Family, MOST_TEXT, by_family, report, rewrite};
use std::alloc::{AllocError, Global};
use std::process::Abort;

/// Asserts the output and the status for an input.
fn is_answered(rt: &impl Abort, alloc: Global, text: &[u8], wanted: &str, status: u8) {
    let (out, answer) = report(alloc, Family::Dsa, text).expect(rt, wanted);
    holds(rt, out.as_str() == wanted && answer == status, wanted);
}

/// Returns a line for each value of a list, or a line with its first decode error.
fn lines_of<F: Attribute>(alloc: Global, list: &[u8]) -> Result<String, AllocError> {
    let values: Vec<F> = match read_list(alloc, list) {
        Ok(values) => values,
        Err(error) => return format!(in alloc; "{error}\n"),
    };
    let mut lines = String::new(alloc);
    for value in &values {
        let (kind, length) = (value.kind(), value.value_len());
        let line = format!(in alloc; "attr {kind} len {length}\n")?;
        lines.push_str(&line)?;
    }
    Ok(lines)
}

/// Checks that a list is re-encoded as the digits after `out`, or has this error.
fn is_rewritten(rt: &impl Abort, alloc: Global, family: Family, list: &[u8], wanted: &str) -> bool {
    match rewrite(alloc, family, list) {
        Ok(out) => {
            let (digits, _) = wanted.split_once('\n').unwrap_or((wanted, ""));
            out == bytes(rt, alloc, digits)
        }
        Err(error) => format!(in alloc; "{error}\n").expect(rt, wanted).as_str() == wanted,
    }
}

/// Asserts the output for each list, which follows `>`, and the status.
fn are_reported(rt: &impl Abort, alloc: Global, status: u8, rows: &[&str]) {
    for row in rows {
        let (line, wanted) = row.split_once(" > ").unwrap_or((row, ""));
        let (family, list) = list_of(rt, alloc, line);
        let (_, digits) = line.split_once(' ').unwrap_or((line, ""));
        let (out, answer) = report(alloc, family, digits.as_bytes()).expect(rt, row);
        holds(rt, out.as_str() == wanted && answer == status, row);
        let (lines, rest) = wanted.split_once("out").unwrap_or((wanted, wanted));
        let found = by_family!(family, lines_of(alloc, &list)).expect(rt, row);
        let is_same = is_rewritten(rt, alloc, family, &list, rest);
        holds(rt, found.as_str() == lines && is_same, row);
    }
}

#[test]
fn values(rt: HostRuntime) {
    are_reported(
        &rt,
        rt.alloc(),
        0,
        &[
            "dsa > out\nsame\n",
            "dsa 08000140 2a000000 > attr 1 len 4\nout 080001002a000000\nchanged\n",
            "dsa 060063c0 dead > attr 49251 len 2\nout 060063c0dead0000\nchanged\n",
            "dsa 04000000 0400ff3f > attr 0 len 0\nattr 16383 len 0\nout 040000000400ff3f\nsame\n",
            "dsa 08000100 2a000000 > attr 1 len 4\nout 080001002a000000\nsame\n",
            "dsa 08000100 2a000000 08000100 2a000000 > attr 1 len 4\nattr 1 len 4\nout 080001002a000000080001002a000000\nsame\n",
            "dsa 04000000 > attr 0 len 0\nout 04000000\nsame\n",
            "dsa 08000180 2a000000 > attr 1 len 4\nout 080001002a000000\nchanged\n",
            "hsr 0a000400 01154e00 01000000 > attr 4 len 6\nout 0a00040001154e0001000000\nsame\n",
            "hsr 05000700 01000000 > attr 7 len 1\nout 0500070001000000\nsame\n",
            "vlan 06000500 91000000 > attr 5 len 2\nout 0600050081000000\nchanged\n",
            "vlan 0a000300 060009c0 dead > attr 3 len 8\nout 0c000300060009c0dead0000\nchanged\n",
            "vlan 04000300 04000400 > attr 3 len 0\nattr 4 len 0\nout 0400030004000400\nsame\n",
            "vlan 06006300 dead0000 > attr 99 len 2\nout 06006300dead0000\nsame\n",
            "vlan 060063c0 dead > attr 49251 len 2\nout 060063c0dead0000\nchanged\n",
            "vlan 10000300 0c000100 01000000 02000000 > attr 3 len 12\nout 100003000c0001000100000002000000\nsame\n",
            "vlan 0c000200 01000000 1f000000 > attr 2 len 8\nout 0c000200010000001f000000\nsame\n",
            "vlan 06000500 88a80000 > attr 5 len 2\nout 0600050088a80000\nsame\n",
            "vlan 060063c0 dead0000 > attr 49251 len 2\nout 060063c0dead0000\nsame\n",
            "vlan 06006300 dead0000 10000300 0c000100 01000000 02000000 > attr 99 len 2\nattr 3 len 12\nout 06006300dead0000100003000c0001000100000002000000\nsame\n",
            "vlan 06006300 dead > attr 99 len 2\nout 06006300dead0000\nchanged\n",
            "vlan 06006300 dead00 > attr 99 len 2\nout 06006300dead0000\nchanged\n",
            "bond 0c000800 08000580 0a000001 > attr 8 len 8\nout 0c000800080000000a000001\nchanged\n",
            "bond 0c000800 06000000 0a000000 > attr 8 len 0\nout 04000800\nchanged\n",
            "bond 14000800 08000000 0a000001 08000100 0a000002 > attr 8 len 16\nout 14000800080000000a000001080001000a000002\nsame\n",
            "bond 050001c0 090000ff > attr 1 len 1\nout 0500010009000000\nchanged\n",
            "bond 18001f00 14000000 00000000 00000000 00000000 00000001 > attr 31 len 20\nout 18001f001400000000000000000000000000000000000001\nsame\n",
            "bond 0a001700 06000100 07000000 > attr 23 len 8\nout 0c0017000600010007000000\nchanged\n",
            "bond 08000900 04000000 > attr 9 len 4\nout 0800090004000000\nsame\n",
            "bond 04000800 > attr 8 len 0\nout 04000800\nsame\n",
            "bond_port 08000900 ffffffff > attr 9 len 4\nout 08000900ffffffff\nsame\n",
            "bond_port 06000800 3f010000 > attr 8 len 2\nout 060008003f000000\nchanged\n",
            "bond_port 0a000400 02000000 00010000 > attr 4 len 6\nout 0a0004000200000000010000\nsame\n",
            "bond_port 05000700 3d000000 > attr 7 len 1\nout 050007003d000000\nsame\n",
            "bond_port 06000800 3f000000 > attr 8 len 2\nout 060008003f000000\nsame\n",
            "can 0a000800 01000200 ffff0000 > attr 8 len 4\nout 0800080001000200\nchanged\n",
            "can 040011c0 04001080 > attr 32785 len 0\nattr 32784 len 0\nout 0400118004001080\nchanged\n",
            "can 0c001080 08000700 03000000 > attr 32784 len 8\nout 0c0010800800070003000000\nsame\n",
            "can 08000300 00127a00 > attr 3 len 4\nout 0800030000127a00\nsame\n",
            "can 0c001000 08000700 03000000 > attr 32784 len 8\nout 0c0010800800070003000000\nchanged\n",
            "can 0c001180 08000100 20000000 > attr 32785 len 8\nout 0c0011800800010020000000\nsame\n",
            "can 08000c00 78000000 > attr 12 len 4\nout 08000c0078000000\nsame\n",
            "can 0c000d00 48e80100 a0860100 > attr 13 len 8\nout 0c000d0048e80100a0860100\nsame\n",
            "can 04000d00 > attr 13 len 0\nout 04000d00\nsame\n",
            "bridge 07001500 01020300 > attr 21 len 0\nout 04001500\nchanged\n",
            "bridge 04002f00 > attr 32815 len 0\nout 04002f80\nchanged\n",
            "bridge 04002f80 > attr 32815 len 0\nout 04002f80\nsame\n",
            "bridge 06000800 12340000 > attr 8 len 2\nout 0600080081000000\nchanged\n",
            "bridge 0e000b00 80000200 00000001 ffff0000 > attr 11 len 8\nout 0c000b008000020000000001\nchanged\n",
            "bridge 0c002f80 08000100 c0a80001 > attr 32815 len 8\nout 0c002f8008000100c0a80001\nsame\n",
            "bridge 0c002e00 01000000 03000000 > attr 46 len 8\nout 0c002e000100000003000000\nsame\n",
            "bridge 04002800 > attr 40 len 0\nout 04002800\nsame\n",
            "bridge 04001500 > attr 21 len 0\nout 04001500\nsame\n",
            "bridge 06000800 81000000 > attr 8 len 2\nout 0600080081000000\nsame\n",
            "bridge 0c000b00 80000200 00000001 > attr 11 len 8\nout 0c000b008000020000000001\nsame\n",
            "bridge_port 05000b80 01000000 > attr 11 len 1\nout 05000b0001000000\nchanged\n",
            "bridge_port 05000400 07000000 > attr 4 len 1\nout 0500040001000000\nchanged\n",
            "bridge_port 06001800 01020000 > attr 24 len 0\nout 04001800\nchanged\n",
            "bridge_port 05000400 01000000 > attr 4 len 1\nout 0500040001000000\nsame\n",
            "bridge_port 05000b00 01000000 > attr 11 len 1\nout 05000b0001000000\nsame\n",
            "bridge_port 05000b00 07000000 > attr 11 len 1\nout 05000b0001000000\nchanged\n",
            "af_spec_bridge 060000c0 03000000 > attr 0 len 2\nout 0600000003000000\nchanged\n",
            "af_spec_bridge 08000200 06000100 > attr 2 len 4\nout 0800020006000100\nsame\n",
            "af_spec_bridge 06000000 02000000 > attr 0 len 2\nout 0600000002000000\nsame\n",
            "af_spec_bridge 1c000300 08000100 64000000 06000200 0a000000 06000300 00000000 > attr 3 len 24\nout 1c0003000800010064000000060002000a0000000600030000000000\nsame\n",
            "proto_bridge 05002d80 ff000000 > attr 45 len 1\nout 05002d0001000000\nchanged\n",
            "proto_bridge 05002d00 01000000 > attr 45 len 1\nout 05002d0001000000\nsame\n",
        ],
    );
}

/// An error of each kind, for numbers, structs, arrays and lists.
#[test]
fn faults(rt: HostRuntime) {
    are_reported(
        &rt,
        rt.alloc(),
        1,
        &[
            "dsa 08000100 2a000000 00 > fault at 8: short frame 1\n",
            "dsa 04000900 03000100 > fault at 4: small length 3\n",
            "dsa 08000100 2a0000 > fault at 0: overrun 8 7\n",
            "dsa 050001c0 2a000000 > fault at 0: kind 1: wrong length 4 1\n",
            "dsa 05000100 2a000000 0300 > fault at 0: kind 1: wrong length 4 1\n",
            "dsa 00000100 > fault at 0: small length 0\n",
            "dsa 09000100 2a000000 > fault at 0: overrun 9 8\n",
            "hsr 04000900 09000400 01020304 05000000 03000100 > fault at 4: kind 4: wrong length 6 5\n",
            "vlan 0a000300 04000900 ffff0000 > fault at 0: kind 3: list: short frame 2\n",
            "vlan 06000100 0a000000 08000300 03000100 > fault at 8: kind 3: list: small length 3\n",
            "vlan 04006300 0c000480 080001c0 01000000 > fault at 4: kind 4: list: kind 1: wrong length 8 4\n",
            // the framing of the outer attribute is malformed
            "vlan 04006300 0c000400 0c000100 > fault at 4: overrun 12 8\n",
            "vlan 0f000300 0b000100 01000000 02000000 > fault at 0: kind 3: list: kind 1: wrong length 8 7\n",
            "vlan 05000100 0a000000 > fault at 0: kind 1: wrong length 2 1\n",
            "vlan 08000300 03000100 > fault at 0: kind 3: list: small length 3\n",
            "vlan 06006300 > fault at 0: overrun 6 4\n",
            "vlan 06006300 de > fault at 0: overrun 6 5\n",
            "bond 0a000800 09000000 0a000000 > fault at 0: kind 8: list: overrun 9 6\n",
            "can 07000300 01020300 > fault at 0: kind 3: too short 4 3\n",
            "can 09000300 00127a00 ff000000 > fault at 0: kind 3: wrong length 4 5\n",
            "can 07000c00 01020300 > fault at 0: kind 12: wrong length 2 3\n",
            "can 0a000e00 01000000 02000000 > fault at 0: kind 14: wrong length 4 6\n",
            "bridge 05000700 01000000 0b000b00 80000200 00000000 > fault at 8: kind 11: too short 8 7\n",
            "bridge 0d002e00 00000000 00000000 00000000 > fault at 0: kind 46: wrong length 8 9\n",
            "bridge 0b002e00 00000000 00000000 > fault at 0: kind 46: too short 8 7\n",
            "bridge 09002f80 05000100 c0000000 > fault at 0: kind 47: list: kind 1: wrong length 4 1\n",
            "bridge_port 06000b00 01000000 > fault at 0: kind 11: wrong length 1 2\n",
            "af_spec_bridge 07000200 06000100 > fault at 0: kind 2: wrong length 4 3\n",
        ],
    );
}

#[test]
fn forms_of_digits(rt: HostRuntime) {
    let wanted = "attr 1 len 4\nout 080001002a000000\nsame\n";
    for text in [
        "08 00 01 00 2a 00 00 00",
        "080001002A000000",
        " 0\t8\r0\n00100 2 a000000\r\n",
    ] {
        is_answered(&rt, rt.alloc(), text.as_bytes(), wanted, 0);
    }
    for text in [
        "0", "zz", "0g", "08 0", "\u{b}", "\u{c}", "00\u{b}", "0x08", "é",
    ] {
        is_answered(&rt, rt.alloc(), text.as_bytes(), "bad hex\n", 2);
    }
}

#[test]
fn texts_that_are_too_long(rt: HostRuntime) {
    let alloc = rt.alloc();
    let mut text = vec![in alloc; b' '; MOST_TEXT].expect(&rt, "spaces");
    is_answered(&rt, alloc, &text, "out\nsame\n", 0);
    // the length is checked before the digits
    text.push(b'z').expect(&rt, "a letter");
    is_answered(&rt, alloc, &text, "input too long\n", 2);
}

/// 16,384 attributes, whose digits have the maximum input length.
#[test]
fn the_longest_text(rt: HostRuntime) {
    let alloc = rt.alloc();
    let mut text = String::new(alloc);
    let mut wanted = String::new(alloc);
    for _ in 0..16_384 {
        text.push_str("080001002a000000").expect(&rt, "digits");
        wanted.push_str("attr 1 len 4\n").expect(&rt, "a line");
    }
    wanted.push_str("out ").expect(&rt, "the bytes");
    wanted.push_str(&text).expect(&rt, "the bytes");
    wanted.push_str("\nsame\n").expect(&rt, "the verdict");
    is_answered(&rt, alloc, text.as_bytes(), &wanted, 0);
    text.push_str(" ").expect(&rt, "a space");
    is_answered(&rt, alloc, text.as_bytes(), "input too long\n", 2);
}
