//! Tests of what no contract covers: a request, byte for byte, and each error code, for inputs that were made by hand.

use crate::nlroute_request;
use crate::tests::{BLANK, holds};
use link_entries::{Entry, forms};
use link_requests::{Head, INLINE, OF_MESSAGE};

/// The request that makes a bond `bond0` with `IFLA_BOND_MODE` 4 and `IFLA_BOND_MIIMON` 100.
const BOND: [u8; 76] = [
    76, 0, 0, 0, 16, 0, 5, 6, 1, 0, 0, 0, 0, 0, 0, 0, 0, 0, 0, 0, 0, 0, 0, 0, 0, 0, 0, 0, 0, 0, 0,
    0, 10, 0, 3, 0, 98, 111, 110, 100, 48, 0, 0, 0, 32, 0, 18, 0, 8, 0, 1, 0, 98, 111, 110, 100,
    20, 0, 2, 0, 5, 0, 1, 0, 4, 0, 0, 0, 8, 0, 3, 0, 100, 0, 0, 0,
];

/// A text of a value.
const NAME: [u8; 16] = [98, 111, 110, 100, 48, 0, 0, 0, 0, 0, 0, 0, 0, 0, 0, 0];

/// The values of `BOND`.
const VALUES: [Entry; 6] = [
    Entry {
        kind: 3,
        form: forms::TEXT,
        length: 6,
        offset: INLINE,
        octets: NAME,
        ..BLANK
    },
    Entry {
        kind: 18,
        inner: OF_MESSAGE,
        ..BLANK
    },
    Entry {
        kind: 18,
        inner: 1,
        form: forms::TEXT,
        depth: 1,
        length: 4,
        offset: INLINE,
        octets: NAME,
        ..BLANK
    },
    Entry {
        kind: 18,
        inner: 2,
        form: forms::HELD,
        depth: 1,
        offset: INLINE,
        ..BLANK
    },
    Entry {
        kind: 1,
        depth: 2,
        number: 4,
        ..BLANK
    },
    Entry {
        kind: 3,
        depth: 2,
        number: 100,
        ..BLANK
    },
];

/// The head of `BOND`.
fn head() -> Head {
    Head {
        sequence: 1,
        ..Head::create()
    }
}

#[test]
fn bond_is_written(rt: HostRuntime) {
    let (mut out, mut at) = ([0xFF; 80], 9);
    let is_small = nlroute_request(&head(), &VALUES, &[], &mut out[..75], &mut at) == -4;
    assert!(rt; is_small && at == 76 && out == [0xFF; 80]);
    let is_written = nlroute_request(&head(), &VALUES, &[], &mut out, &mut at) == 76;
    let mut wanted = [0xFF; 80];
    wanted[..76].copy_from_slice(&BOND);
    assert!(rt; is_written && at == 76 && out == wanted);
}

#[test]
fn requests_that_cannot_be_written(rt: HostRuntime) {
    let [name, info, kind, _, mode, _] = VALUES;
    // the error code, the index of the value that has the error, and that of the one which is replaced
    let rows: [(isize, usize, usize, Entry); 14] = [
        (-13, 0, 0, Entry { length: 0, ..name }),
        (
            -13,
            0,
            0,
            Entry {
                octets: [32; 16],
                ..name
            },
        ),
        (-13, 2, 2, Entry { length: 0, ..kind }),
        (-14, 3, 2, Entry { length: 3, ..kind }),
        (-10, 0, 0, Entry { length: 17, ..name }),
        (-7, 0, 0, Entry { form: 0, ..name }),
        (
            -8,
            4,
            4,
            Entry {
                number: 256,
                ..mode
            },
        ),
        (-9, 3, 3, Entry { depth: 1, ..mode }),
        (-15, 4, 4, Entry { depth: 3, ..mode }),
        (-15, 3, 4, Entry { depth: 0, ..mode }),
        (-15, 0, 0, Entry { depth: 1, ..name }),
        // a list that is not marked, and a mark in the data of the bond
        (-15, 1, 1, Entry { inner: 0, ..info }),
        (
            -15,
            4,
            4,
            Entry {
                inner: OF_MESSAGE,
                ..mode
            },
        ),
        // a second list of kinds
        (-16, 5, 5, info),
    ];
    for (answer, index, place, value) in rows {
        let (mut values, mut out, mut at) = (VALUES, [0xFF; 80], 9);
        assert!(rt; place < values.len());
        values[place] = value;
        let is_so = nlroute_request(&head(), &values, &[], &mut out, &mut at) == answer;
        holds(&rt, is_so && at == index && out == [0xFF; 80], 11, answer);
    }
    let rows = [
        (-11, Head::new(20, 4, 1)),
        (-12, Head::change(0)),
        (-12, Head::delete(-1)),
    ];
    for (answer, head) in rows {
        let (mut out, mut at) = ([0xFF; 80], 9);
        let is_so = nlroute_request(&head, &VALUES, &[], &mut out, &mut at) == answer;
        holds(&rt, is_so && at == 6 && out == [0xFF; 80], 11, answer);
    }
}
