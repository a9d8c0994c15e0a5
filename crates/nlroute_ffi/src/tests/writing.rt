//! Tests of what no contract covers: that values are written back, and each error code, for inputs that were made by hand.

use crate::tests::{BLANK, MAPPED, TWO, holds};
use crate::{nlroute_measure, nlroute_rewrite, nlroute_values, nlroute_write};
use link_entries::Entry;

/// Limits of a CAN controller (`IFLA_CAN_BITTIMING_CONST`) with a name that is no UTF-8, and an array of two `u16`s and one of
/// one `u32` (`IFLA_CAN_TERMINATION_CONST`, `IFLA_CAN_BITRATE_CONST`).
const LIMITED: [u8; 68] = [
    52, 0, 2, 0, 99, 0xFF, 97, 110, 0, 7, 7, 7, 7, 7, 7, 7, 7, 7, 7, 7, 1, 0, 0, 0, 2, 0, 0, 0, 3,
    0, 0, 0, 4, 0, 0, 0, 5, 0, 0, 0, 6, 0, 0, 0, 7, 0, 0, 0, 8, 0, 0, 0, 8, 0, 12, 0, 120, 0, 0, 1,
    8, 0, 13, 0, 9, 8, 7, 6,
];

#[test]
fn values_written_back(rt: HostRuntime) {
    let rows: [(u32, &[u8]); 8] = [
        (5, &MAPPED),
        // flags with a mask, and a VLAN protocol
        (
            5,
            &[
                12, 0, 2, 0, 1, 0, 0, 0, 3, 0, 0, 0, 6, 0, 5, 0, 0x88, 0xA8, 0, 0,
            ],
        ),
        // ARP targets, and `IFLA_BOND_AD_INFO` with an aggregator and a MAC address
        (
            1,
            &[
                20, 0, 8, 0, 8, 0, 9, 0, 10, 0, 0, 1, 8, 0, 7, 0, 10, 0, 0, 2, 24, 0, 23, 0, 6, 0,
                1, 0, 3, 0, 0, 0, 10, 0, 5, 0, 2, 0, 0, 0, 0, 1, 0, 0,
            ],
        ),
        // a bridge ID, options, and a querier's address
        (
            3,
            &[
                12, 0, 10, 0, 0x80, 1, 2, 0, 0, 0, 0, 1, 12, 0, 46, 0, 1, 0, 0, 0, 3, 0, 0, 0, 12,
                0, 47, 0x80, 8, 0, 1, 0, 10, 0, 0, 1,
            ],
        ),
        (6, &LIMITED),
        // a clock, modes, and error counters
        (
            6,
            &[
                8, 0, 3, 0, 4, 3, 2, 1, 12, 0, 5, 0, 1, 0, 0, 0, 2, 0, 0, 0, 8, 0, 8, 0, 1, 0, 2, 0,
            ],
        ),
        // a VLAN
        (0, &[8, 0, 2, 0, 1, 2, 3, 4, 6, 0, 1, 0, 2, 0]),
        (7, &TWO),
    ];
    for (family, bytes) in rows {
        let mut places = [BLANK; 8];
        let count = usize::try_from(nlroute_values(family, bytes, &mut places)).unwrap_or(0);
        assert!(rt; 0 < count && count <= 8);
        let (mut rewritten, mut written) = ([0xFF; 72], [0xFF; 72]);
        let length = nlroute_rewrite(rt.alloc(), family, bytes, &mut rewritten);
        let values = &places[..count];
        let is_so = nlroute_write(family, values, bytes, &mut written) == length;
        holds(&rt, is_so && written == rewritten, family, length);
        let mut at = 9;
        let is_measured = nlroute_measure(family, values, bytes, &mut at) == length;
        holds(&rt, is_measured && at == 9, family, length);
    }
}

#[test]
fn values_that_cannot_be_written(rt: HostRuntime) {
    let list = Entry {
        kind: 3,
        form: 18,
        ..BLANK
    };
    let mapping = Entry {
        kind: 3,
        inner: 1,
        depth: 1,
        number: 5,
        second: 6,
        ..BLANK
    };
    let id = Entry {
        kind: 1,
        number: 7,
        ..BLANK
    };
    let unknown = Entry {
        kind: 99,
        form: 19,
        ..BLANK
    };
    let rows: [(isize, usize, [Entry; 3]); 9] = [
        (24, 9, [list, mapping, id]),
        (-7, 2, [list, mapping, Entry { form: 5, ..id }]),
        (
            -8,
            2,
            [
                list,
                mapping,
                Entry {
                    number: 65536,
                    ..id
                },
            ],
        ),
        (
            -8,
            1,
            [
                list,
                Entry {
                    inner: 0x4001,
                    form: 19,
                    ..mapping
                },
                id,
            ],
        ),
        (-9, 0, [mapping, list, id]),
        (
            -9,
            2,
            [
                list,
                mapping,
                Entry {
                    depth: 2,
                    ..mapping
                },
            ],
        ),
        (-9, 2, [list, id, mapping]),
        (-7, 1, [list, Entry { form: 0, ..unknown }, id]),
        (
            -10,
            0,
            [
                Entry {
                    length: 1,
                    ..unknown
                },
                list,
                id,
            ],
        ),
    ];
    for (answer, index, values) in rows {
        let (mut out, mut at) = ([0xFF; 24], 9);
        let is_measured = nlroute_measure(5, &values, &[], &mut at) == answer && at == index;
        let is_written = nlroute_write(5, &values, &[], &mut out) == answer;
        let is_kept = out == MAPPED || answer < 0 && out == [0xFF; 24];
        holds(&rt, is_measured && is_written && is_kept, 5, answer);
    }
    // of several errors of a value, the first in their order
    let bridge_id = Entry {
        kind: 10,
        form: 11,
        length: 7,
        number: 65536,
        ..BLANK
    };
    let rows: [(isize, Entry); 4] = [
        (-8, bridge_id),
        (
            -10,
            Entry {
                number: 1,
                ..bridge_id
            },
        ),
        (
            -7,
            Entry {
                form: 12,
                ..bridge_id
            },
        ),
        (
            -9,
            Entry {
                depth: 1,
                ..bridge_id
            },
        ),
    ];
    for (answer, value) in rows {
        let mut at = 9;
        let is_so = nlroute_measure(3, &[value], &[], &mut at) == answer && at == 0;
        holds(&rt, is_so, 3, answer);
    }
    let mut out = [0xFF; 8];
    assert!(rt; nlroute_write(5, &[id], &[], &mut out[..7]) == -4 && out == [0xFF; 8]);
    assert!(rt; nlroute_write(99, &[id], &[], &mut out) == -5 && out == [0xFF; 8]);
}
