//! Tests of messages, and of the lists in them.

use crate::held::ByteRange;
use crate::message::FoundMessage;
use crate::tests::{BLANK, NO_ERROR, holds, numbers_of};
use crate::{
    nlroute_held, nlroute_message_fault, nlroute_opens, nlroute_read_message, nlroute_values,
};
use link_entries::Entry;

/// An RTM_NEWLINK of the link 9, with an `IFLA_MTU` of two bytes, which is malformed, and the `IFLA_LINKINFO` of a bond; then an
/// NLMSG_DONE of 18 bytes, without padding.
const DUMP: [u8; 82] = [
    64, 0, 0, 0, 16, 0, 2, 0, 5, 0, 0, 0, 7, 0, 0, 0, 0, 0, 1, 0, 9, 0, 0, 0, 1, 0, 0, 0, 1, 0, 0,
    0, 6, 0, 4, 0, 1, 2, 0, 0, 24, 0, 18, 0, 8, 0, 1, 0, 98, 111, 110, 100, 12, 0, 2, 0, 5, 0, 1,
    0, 4, 0, 0, 0, 18, 0, 0, 0, 3, 0, 0, 0, 5, 0, 0, 0, 7, 0, 0, 0, 0, 0,
];

/// A message before a call.
const NO_MESSAGE: FoundMessage = FoundMessage {
    list: 9,
    length: 9,
    next: 9,
    len: 9,
    sequence: 9,
    port: 9,
    kind: 9,
    flags: 9,
    index: 9,
    link_flags: 9,
    change: 9,
    link_type: 9,
    address_family: 9,
    is_link: 9,
};

#[test]
fn messages(rt: HostRuntime) {
    let mut link = NO_MESSAGE;
    assert!(rt; nlroute_read_message(&DUMP, 0, &mut link) == 0);
    assert!(rt; link.list == 32 && link.length == 32 && link.next == 64 && link.len == 64);
    assert!(rt; link.kind == 16 && link.flags == 2 && link.sequence == 5 && link.port == 7);
    assert!(rt; link.is_link == 1 && link.index == 9 && link.link_type == 1);
    assert!(rt; link.address_family == 0 && link.link_flags == 1 && link.change == 1);
    let mut done = NO_MESSAGE;
    assert!(rt; nlroute_read_message(&DUMP, 64, &mut done) == 0);
    assert!(rt; done.list == 80 && done.length == 2 && done.next == 82 && done.kind == 3);
    assert!(rt; done.is_link == 0 && done.index == 0 && done.change == 0);
    for (at, wanted) in [(82, -6), (usize::MAX, -6), (70, -1)] {
        let mut none = NO_MESSAGE;
        let answer = nlroute_read_message(&DUMP, at, &mut none);
        assert!(rt; answer == wanted && none.next == 9 && none.is_link == 9);
    }
}

#[test]
fn malformed_messages(rt: HostRuntime) {
    // the bytes, and the numbers of the error
    let rows: [(&[u8], [u64; 7]); 4] = [
        (&DUMP[..15], [0, 6, 0, 0, 1, 15, 0]),
        (
            &[15, 0, 0, 0, 2, 0, 0, 0, 0, 0, 0, 0, 0, 0, 0, 0],
            [0, 6, 0, 0, 2, 15, 0],
        ),
        (&DUMP[..63], [0, 6, 0, 0, 3, 64, 63]),
        (
            &[20, 0, 0, 0, 16, 0, 0, 0, 0, 0, 0, 0, 0, 0, 0, 0, 0, 0, 1, 0],
            [0, 7, 0, 0, 5, 32, 20],
        ),
    ];
    for (bytes, wanted) in rows {
        let mut error = NO_ERROR;
        assert!(rt; nlroute_message_fault(bytes, 0, &mut error) == 0);
        assert!(rt; numbers_of(&error) == wanted);
    }
    for at in [0, 64, 82] {
        let mut error = NO_ERROR;
        let answer = nlroute_message_fault(&DUMP, at, &mut error);
        assert!(rt; answer == -6 && error.at == u64::MAX);
    }
}

#[test]
fn held_lists(rt: HostRuntime) {
    // the set, the answer, and the range
    let rows: [(u32, isize, u64, u64); 4] = [
        (1, 0, 24, 8),
        (5, -6, 9, 9),
        (11, -6, 9, 9),
        (99, -5, 9, 9),
    ];
    for (family, wanted, offset, length) in rows {
        let mut held = ByteRange {
            offset: 9,
            length: 9,
        };
        let answer = nlroute_held(&DUMP[32..64], 0, family, &mut held);
        let is_so = answer == wanted && held.offset == offset && held.length == length;
        holds(&rt, is_so, family, wanted);
    }
}

#[test]
fn values_that_open(rt: HostRuntime) {
    let list = &DUMP[40..64];
    let mut values = [BLANK; 3];
    assert!(rt; nlroute_values(11, list, &mut values) == 3);
    let [info, kind, data] = values;
    let spec = Entry {
        kind: 26,
        form: 21,
        ..BLANK
    };
    let port = Entry {
        kind: 12,
        form: 19,
        flags: 0x8000,
        ..BLANK
    };
    // the address family, the value, and the set that reads it
    let rows: [(u8, Entry, isize); 9] = [
        (0, data, 1),
        (0, kind, -6),
        (0, info, -6),
        (0, spec, 12),
        (7, spec, 0),
        (7, port, 4),
        (7, Entry { flags: 0, ..port }, -6),
        (10, port, 14),
        (10, Entry { form: 17, ..port }, -6),
    ];
    for (address_family, value, wanted) in rows {
        let answer = nlroute_opens(11, address_family, &value, list);
        holds(&rt, answer == wanted, 11, wanted);
    }
    assert!(rt; nlroute_opens(11, 0, &data, &list[..12]) == -6);
    assert!(rt; nlroute_opens(99, 0, &data, list) == -5);
}
