//! Tests how `link_messages` reads the kernel's replies. The first three are as Linux 6.18 sent them.

use link_messages::{Acknowledgement, MessageError, Payload, any_message, read_acknowledgement};
use netlink_packet_route::hex_text;
use std::alloc::Global;
use std::process::Abort;

/// The reply to an RTM_GETLINK of 37 bytes, whose `IFLA_EXT_MASK` has one byte in place of four. It has the request,
/// with its padding, and then attributes.
const REJECTED: &str = "\
    90000000 02000002 01000000 e6430000 deffffff 25000000 12000500 01000000 00000000 00000000 00000000 00000000 \
    00000000 05001d00 01000000 27000100 41747472 69627574 65206661 696c6564 20706f6c 69637920 76616c69 64617469 \
    6f6e0000 08000200 20000000 24000480 0c000400 00000000 00000000 0c000500 ffffffff 00000000 08000100 04000000";

/// The reply to a request of generic netlink that lacks its attribute type 1, to a socket with `NETLINK_CAP_ACK`: it has
/// only the header of the request.
const LACKING: &str = "\
    2c000000 02000003 01000000 e6430000 eaffffff 14000000 14000500 01000000 00000000 08000500 01000000";

/// The reply to an RTM_GETLINK for the name of no link, to a socket without `NETLINK_EXT_ACK`: it has the request, and no
/// attributes.
const PLAIN: &str = "\
    3c000000 02000000 01000000 3e430000 edffffff 28000000 12000500 01000000 00000000 00000000 00000000 00000000 \
    00000000 08000300 6e6f7065";

/// The reply LACKING, but its attribute states 12 bytes in place of 8.
const BROKEN: &str = "\
    2c000000 02000003 01000000 e6430000 eaffffff 14000000 14000500 01000000 00000000 0c000500 01000000";

/// An NLMSG_ERROR of 35 bytes.
const SHORT: &str = "\
    23000000 02000000 01000000 3e430000 edffffff 28000000 12000500 01000000 000000";

/// The end of a dump.
const DONE: &str = "\
    14000000 03000200 01000000 00000000 00000000";

/// The end of a dump that failed, with a text, the offset of a nested list, and a cookie.
const FAILED: &str = "\
    2c000000 03000202 01000000 00000000 f4ffffff 07000100 61620000 08000600 28000000 06000300 beef0000";

/// The end of a dump, whose attribute states 12 bytes in place of 8.
const BROKEN_END: &str = "\
    1c000000 03000202 01000000 00000000 00000000 0c000100 61626300";

/// An NLMSG_DONE with three bytes, and an attribute nowhere.
const SHORT_END: &str = "\
    13000000 03000202 01000000 00000000 f4ffff";

/// An RTM_NEWLINK.
const LINK: &str = "\
    20000000 10000000 01000000 00000000 00000000 01000000 00000000 00000000";

/// Reads the message with these digits, and returns what `read_acknowledgement` says.
fn reply_in<'a>(
    rt: &impl Abort,
    buffer: &'a [u8],
    digits: &str,
) -> Result<Acknowledgement<'a>, MessageError> {
    let found = any_message(buffer, 0).expect(rt, digits);
    read_acknowledgement(&found.expect(rt, digits))
}

/// Asserts that the message with these digits is a reply with this error, and that its attributes are from offset `at` to
/// its end.
fn says(rt: &impl Abort, alloc: Global, digits: &str, is_done: bool, error: i32, at: usize) {
    let buffer = hex_text::decode(alloc, digits.as_bytes()).expect(rt, digits);
    let start = at.min(buffer.len());
    let (_, bytes) = buffer.split_at(start);
    let reply = Acknowledgement {
        is_done,
        error,
        list: Payload { at: start, bytes },
    };
    assert!(rt; start == at && reply_in(rt, &buffer, digits) == Ok(reply));
}

/// Asserts that the message with these digits is refused with this error.
fn refused(rt: &impl Abort, alloc: Global, digits: &str, error: MessageError) {
    let buffer = hex_text::decode(alloc, digits.as_bytes()).expect(rt, digits);
    assert!(rt; reply_in(rt, &buffer, digits) == Err(error));
}

#[test]
fn replies(rt: HostRuntime) {
    let alloc = rt.alloc();
    says(&rt, alloc, REJECTED, false, -34, 60);
    says(&rt, alloc, LACKING, false, -22, 36);
    says(&rt, alloc, PLAIN, false, -19, 60);
    says(&rt, alloc, BROKEN, false, -22, 36);
}

#[test]
fn ends_of_dumps(rt: HostRuntime) {
    let alloc = rt.alloc();
    says(&rt, alloc, DONE, true, 0, 20);
    says(&rt, alloc, FAILED, true, -12, 20);
    says(&rt, alloc, BROKEN_END, true, 0, 20);
    says(&rt, alloc, SHORT_END, true, 0, 19);
}

#[test]
fn no_replies(rt: HostRuntime) {
    let alloc = rt.alloc();
    refused(
        &rt,
        alloc,
        SHORT,
        MessageError::ShortError { at: 0, length: 35 },
    );
    refused(
        &rt,
        alloc,
        LINK,
        MessageError::OtherType { at: 0, kind: 16 },
    );
}
