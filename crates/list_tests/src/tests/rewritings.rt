//! Tests re-encoding lists, and re-encoding the results.

ghost use Rattle.std.specs.Prelude.{◌≡◌, ◌+◌, length};
ghost use Rattle.link_base.specs.Frame.{pad};

use crate::tests::{CANONICAL, bytes, filled, holds, list_of};
use netlink_packet_route::link::{Cause, DecodeFault};
use netlink_packet_route::{
    Family, RewriteError, is_canonical, rewrite, rewrite_streaming, rewrite_to_slice,
};
use std::alloc::Global;
use std::process::Abort;

/// Asserts that each list is re-encoded as the digits after `>`, or, if there are none, as itself; that the result is
/// canonical; and that the list is canonical if and only if it does not change.
fn are_rewritten(rt: &impl Abort, alloc: Global, rows: &[&str]) {
    for row in rows {
        let (line, wanted) = row.split_once(" > ").unwrap_or((row, ""));
        let (family, before) = list_of(rt, alloc, line);
        let mut once = rewrite(alloc, family, &before).expect(rt, row);
        let is_same = wanted.is_empty();
        let is_wanted = if is_same {
            once == before
        } else {
            once == bytes(rt, alloc, wanted)
        };
        holds(
            rt,
            is_wanted && is_canonical(family, &before) == is_same,
            row,
        );
        let twice = rewrite(alloc, family, &once).expect(rt, row);
        holds(rt, twice == once && is_canonical(family, &once), row);
        // what follows the result in the buffer is unchanged
        let mut buffer = lent(rt, alloc, &before);
        let len = rewrite_streaming(alloc, family, &before, &mut buffer).expect(rt, row);
        let is_length = len == once.len();
        once.resize(buffer.len(), 0xFF).expect(rt, row);
        holds(rt, is_length && buffer == once, row);
    }
}

/// Returns a buffer with enough space for the re-encoded list, and four bytes more.
fn lent(rt: &impl Abort, alloc: Global, list: &[u8]) -> Vec<u8>
    ensures { length result.items ≡ pad (length list.now) + 4 }
{
    vec![in alloc; 0xFFu8; (list.len() + 3) / 4 * 4 + 4].expect(rt, "a buffer")
}

#[test]
fn lists_that_stay(rt: HostRuntime) {
    are_rewritten(&rt, rt.alloc(), &CANONICAL);
}

#[test]
fn lists_that_change(rt: HostRuntime) {
    are_rewritten(
        &rt,
        rt.alloc(),
        &[
            // flags are not written, except those of types without a variant; padding is
            "dsa 080001c0 2a000000 > 08000100 2a000000",
            "dsa 07006340 01020304 > 07006340 01020300",
            "hsr 0a0004c0 01154e00 0100 > 0a000400 01154e00 01000000",
            "vlan 060063c0 dead > 060063c0 dead0000",
            "proto_bridge 05002d80 ff000000 060004c0 dead > 05002d00 01000000 060004c0 dead0000",
            // likewise in nested lists
            "vlan 10000480 0c000140 01000000 02000000 > 10000400 0c000100 01000000 02000000",
            "vlan 0a000380 060009c0 dead > 0c000300 060009c0 dead0000",
            "af_spec_bridge 0a000380 06000240 0a000000 > 0c000300 06000200 0a000000",
            "bond 0a001700 06000100 07000000 > 0c001700 06000100 07000000",
            // lists that are written with the nested flag
            "bridge 04002f00 > 04002f80",
            "can 0c001000 08000700 03000000 > 0c001080 08000700 03000000",
            "can 040011c0 04001080 > 04001180 04001080",
            // addresses are renumbered, and elements of another length dropped
            "bond 0c000800 08000580 0a000001 > 0c000800 08000000 0a000001",
            "bond 0c000800 06000000 0a000000 > 04000800",
            // booleans, flags in the low byte, protocols, payloads without a value
            "bond 05000600 02000000 > 05000600 01000000",
            "bridge_port 05000b80 07000000 > 05000b00 01000000",
            "bond_port 06000800 3f010000 > 06000800 3f000000",
            "vlan 06000500 91000000 > 06000500 81000000",
            "bridge 06000800 12340000 > 06000800 81000000",
            "bridge 07001500 01020300 > 04001500",
            "bridge_port 06001800 01020000 > 04001800",
            // what follows a struct is not written
            "bridge 0e000b00 80000200 00000001 ffff0000 > 0c000b00 80000200 00000001",
            "can 0a000800 01000200 ffff0000 > 08000800 01000200",
        ],
    );
}

/// Asserts that re-encoding fails with this error, and that the four extra bytes of the buffer are unchanged. To a
/// slice, it fails even if the buffer is too small, which is then unchanged.
fn is_refused(rt: &impl Abort, alloc: Global, family: Family, list: &[u8], why: &RewriteError) {
    let mut buffer = lent(rt, alloc, list);
    let streamed = rewrite_streaming(alloc, family, list, &mut buffer).err();
    assert!(rt; streamed.as_ref() == Some(why) && buffer.ends_with(&[0xFF; 4]));
    let refused = rewrite(alloc, family, list).err();
    let mut buffer = [0xFF; 4];
    let written = rewrite_to_slice(alloc, family, list, &mut buffer).err();
    assert!(rt; refused.as_ref() == Some(why) && written == refused && buffer == [0xFF; 4]);
}

#[test]
fn errors(rt: HostRuntime) {
    let alloc = rt.alloc();
    let fault = DecodeFault::Frame(Cause::ShortFrame { left: 1 });
    let list = bytes(&rt, alloc, "08000100 2a000000 00");
    let why = RewriteError::Fault { at: 8, fault };
    is_refused(&rt, alloc, Family::Dsa, &list, &why);
    // mappings of 65529 bytes, the last of which is encoded in three bytes more
    let digits = "06000100 0a000000 fdff0300 f9ff6300";
    let list = filled(&rt, alloc, digits, 65_541);
    let why = RewriteError::TooLong { index: 1 };
    is_refused(&rt, alloc, Family::Vlan, &list, &why);
    // a decode error after it is reported first: behind three bytes of padding, there are two more
    let fault = DecodeFault::Frame(Cause::ShortFrame { left: 2 });
    let list = filled(&rt, alloc, digits, 65_546);
    let why = RewriteError::Fault { at: 65_544, fault };
    is_refused(&rt, alloc, Family::Vlan, &list, &why);
}

#[test]
fn buffers_that_may_be_too_small(rt: HostRuntime) {
    let alloc = rt.alloc();
    for (line, size, wanted) in [
        ("dsa", 0, Some(0)),
        ("dsa", 3, Some(0)),
        ("dsa 08000100 2a000000", 8, Some(8)),
        ("dsa 08000100 2a000000", 9, Some(8)),
        ("dsa 08000100 2a000000", 7, None),
        ("dsa 08000100 2a000000", 0, None),
        // with the padding that the last attribute lacks
        ("vlan 06000100 0a00", 8, Some(8)),
        ("vlan 06000100 0a00", 7, None),
        // fewer bytes than the input: elements that are not addresses are dropped
        ("bond 0c000800 05000000 07000000", 4, Some(4)),
    ] {
        let (family, list) = list_of(&rt, alloc, line);
        let mut buffer = vec![in alloc; 0xFFu8; size].expect(&rt, line);
        let written = rewrite_to_slice(alloc, family, &list, &mut buffer);
        holds(&rt, written == Ok(wanted), line);
        let mut after = rewrite(alloc, family, &list).expect(&rt, line);
        after.truncate(wanted.unwrap_or(0));
        after.resize(size, 0xFF).expect(&rt, line);
        holds(&rt, buffer == after, line);
    }
}
