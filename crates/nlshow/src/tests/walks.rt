//! Tests how `link_messages` finds the lists in a buffer. The program's expected-output test covers messages line by
//! line; these tests cover what it does not print.

use link_messages::{
    ListsError, MessageError, Part, Payload, any_message, last_before_fault, link_header, lists_of,
    next_message, read_lists,
};
use netlink_packet_route::Family;

/// Two DSA ports, the second without a name, and NLMSG_DONE.
const TWO: &str = "\
    40000000 10000000 01000000 02000000 00000100 08000000 43100000 00000000 06000300 64000000 18001200 \
    08000100 64736100 0c000200 08000100 2a000000 38000000 11000200 03000000 04000000 00000100 09000000 \
    43100000 00000000 18001200 08000100 64736100 0c000200 05000100 01000000 14000000 03000200 01000000 \
    00000000 00000000";

/// The index and nothing else of two links, between them an RTM_NEWADDR (20) of interface 7 and an NLMSG_NOOP (1), and
/// NLMSG_DONE.
const AMONG_OTHERS: &str = "\
    20000000 10000200 01000000 00000000 00000100 07000000 00000000 00000000 18000000 14000200 01000000 \
    00000000 02080000 07000000 10000000 01000000 01000000 00000000 20000000 11000200 01000000 00000000 \
    00000100 09000000 00000000 00000000 14000000 03000200 01000000 00000000 00000000";

/// The data of the second port: an `IFLA_DSA_CONDUIT` of one byte, with its padding.
const PAYLOAD: [u8; 8] = [5, 0, 1, 0, 1, 0, 0, 0];

/// An RTM_NEWLINK of AF_UNSPEC, whose `IFLA_AF_SPEC` has an `AF_INET` with an `IFLA_INET_CONF`.
const LEVELS: &str = "\
    2c000000 10000000 01000000 00000000 00000000 07000000 00000000 00000000 0c001a00 08000200 04000100";

/// The attributes of LEVELS: those of the message, of its `IFLA_AF_SPEC`, and of the `AF_INET` in that.
const LEVEL: [u8; 12] = [12, 0, 26, 0, 8, 0, 2, 0, 4, 0, 1, 0];

/// Checks whether a part is this list of a set, at this offset.
fn is_part(part: &Part<'_>, family: Family, at: usize, bytes: &[u8]) -> bool {
    part.family == family && part.payload.at == at && part.payload.bytes == bytes
}

#[test]
fn messages(rt: HostRuntime) {
    let alloc = rt.alloc();
    let buffer = netlink_packet_route::hex_text::decode(alloc, TWO.as_bytes()).expect(&rt, "bytes");
    let found = next_message(&buffer, 64).expect(&rt, "a header");
    let message = found.expect(&rt, "a message");
    assert!(rt; message.at == 64 && message.kind == 17 && message.flags == 2);
    assert!(rt; message.sequence == 3 && message.port == 4 && message.next == 120);
    assert!(rt; next_message(&buffer, 120) == Ok(None));
    assert!(rt; next_message(&buffer, usize::MAX) == Ok(None));
    let (header, list) = link_header(&message).expect(&rt, "a header of a link");
    assert!(rt; header.index == 9 && list.at == 96 && list.bytes.len() == 24);
    let lists = read_lists(alloc, &message).expect(&rt, "lists");
    assert!(rt;
        lists.len() == 2
            && is_part(&lists[0], Family::Link, 96, list.bytes)
            && is_part(&lists[1], Family::Dsa, 112, PAYLOAD.as_slice())
    );
    let data = Payload {
        at: 112,
        bytes: PAYLOAD.as_slice(),
    };
    let conduit = last_before_fault(data, 1);
    assert!(rt; conduit.is_some_and(|it| it.at == 116 && it.bytes == [1].as_slice()));
    assert!(rt; last_before_fault(data, 2).is_none());
}

#[test]
fn lists_in_lists(rt: HostRuntime) {
    let alloc = rt.alloc();
    let buffer = netlink_packet_route::hex_text::decode(alloc, LEVELS.as_bytes()).expect(
        &rt, "bytes",
    );
    let found = next_message(&buffer, 0).expect(&rt, "a header");
    let message = found.expect(&rt, "a message");
    let lists = read_lists(alloc, &message).expect(&rt, "lists");
    let (_, spec) = LEVEL.split_at(4);
    let (_, inet) = LEVEL.split_at(8);
    assert!(rt;
        lists.len() == 3
            && is_part(&lists[0], Family::Link, 32, LEVEL.as_slice())
            && is_part(&lists[1], Family::AfSpec, 36, spec)
            && is_part(&lists[2], Family::Inet, 40, inet)
    );
    let list = Payload {
        at: 36,
        bytes: spec,
    };
    let below = lists_of(alloc, Family::AfSpec, list).expect(&rt, "lists");
    assert!(rt;
        below.len() == 2
            && is_part(&below[0], Family::AfSpec, 36, spec)
            && is_part(&below[1], Family::Inet, 40, inet)
    );
}

#[test]
fn messages_of_others(rt: HostRuntime) {
    let alloc = rt.alloc();
    let decoded = netlink_packet_route::hex_text::decode(alloc, AMONG_OTHERS.as_bytes());
    let buffer = decoded.expect(&rt, "bytes");
    let found = next_message(&buffer, 32).expect(&rt, "a header");
    let message = found.expect(&rt, "a message");
    let error = MessageError::OtherType { at: 32, kind: 20 };
    assert!(rt;
        message.next == 56 && read_lists(alloc, &message) == Err(ListsError::Message(error))
    );
    assert!(rt; next_message(&buffer, 104) == Ok(None));
    let found = any_message(&buffer, 104).expect(&rt, "a header");
    assert!(rt; found.is_some_and(|done| done.kind == 3 && done.next == 124));
    assert!(rt; any_message(&buffer, 124) == Ok(None));
}
