//! Tests of the fields of structs.

use crate::nlroute_read_field;
use crate::struct_fields::StructField;
use crate::tests::{BLANK, TIMING_VALUE, TIMINGS};
use link_entries::Entry;
use std::process::Abort;

/// A field before a call.
const NO_FIELD: StructField = StructField {
    name: [0xFF; 32],
    number: 9,
    offset: 9,
    length: 9,
    form: 9,
    octets: [9; 16],
};

/// The ID of a bridge.
const BRIDGE: Entry = Entry {
    kind: 10,
    length: 8,
    number: 0x8001,
    octets: [2, 0, 0, 0, 0, 1, 7, 7, 7, 7, 7, 7, 7, 7, 7, 7],
    ..BLANK
};

/// A VLAN of a bridge, with flags.
const VLAN: Entry = Entry {
    kind: 2,
    form: 12,
    number: 5,
    second: 0x102,
    ..BLANK
};

/// Checks whether a field has this name, and a NUL after it.
fn is_named(field: &StructField, name: &str) -> bool {
    let is_ended = name.len() < 32 && field.name[name.len()] == 0;
    is_ended && field.name.starts_with(name.as_bytes())
}

/// Asserts that a call succeeds and stores this field.
fn holds_field(
    rt: &impl Abort,
    family: u32,
    value: &Entry,
    index: usize,
    name: &str,
    numbers: [u64; 4],
) {
    let mut field = NO_FIELD;
    let answer = nlroute_read_field(family, value, index, &TIMINGS, &mut field);
    let stored = [
        field.number,
        field.offset,
        field.length.into(),
        field.form.into(),
    ];
    assert!(rt; answer == 0 && is_named(&field, name) && stored == numbers);
    assert!(rt; field.form == 8 || field.octets == [0; 16]);
}

#[test]
fn fields_of_structs(rt: HostRuntime) {
    // the attribute set, the value, the index, the name; the number, the offset, the length and the form
    let rows: [(u32, Entry, usize, &str, [u64; 4]); 7] = [
        (3, BRIDGE, 0, "prio", [0x8001, 0, 2, 3]),
        (3, BRIDGE, 1, "addr", [0, 2, 6, 8]),
        (0, VLAN, 0, "vid", [5, 2, 2, 3]),
        (0, VLAN, 1, "flags", [0x102, 0, 2, 6]),
        (6, TIMING_VALUE, 0, "bitrate", [257, 0, 4, 3]),
        (6, TIMING_VALUE, 1, "sample_point", [258, 4, 4, 3]),
        (6, TIMING_VALUE, 7, "brp", [264, 28, 4, 3]),
    ];
    for (family, value, index, name, numbers) in rows {
        holds_field(&rt, family, &value, index, name, numbers);
    }
    let mut field = NO_FIELD;
    assert!(rt; nlroute_read_field(3, &BRIDGE, 1, &[], &mut field) == 0);
    assert!(rt; field.octets == [2, 0, 0, 0, 0, 1, 0, 0, 0, 0, 0, 0, 0, 0, 0, 0]);
}

#[test]
fn no_fields(rt: HostRuntime) {
    // the attribute set, the value, the index, the number of bytes, and the code
    let mapping = Entry {
        kind: 3,
        inner: 1,
        depth: 1,
        ..BLANK
    };
    let rows: [(u32, Entry, usize, usize, isize); 9] = [
        (6, TIMING_VALUE, 8, 53, -6),
        (6, TIMING_VALUE, usize::MAX, 53, -6),
        (3, Entry { kind: 1, ..BLANK }, 0, 53, -6),
        (5, mapping, 0, 53, -6),
        // the error of the value is the first
        (6, TIMING_VALUE, 8, 52, -10),
        (3, Entry { form: 3, ..BRIDGE }, 0, 53, -7),
        (
            3,
            Entry {
                number: 65536,
                ..BRIDGE
            },
            1,
            53,
            -8,
        ),
        (3, Entry { depth: 1, ..BRIDGE }, 0, 53, -9),
        (99, BRIDGE, 0, 53, -5),
    ];
    for (family, value, index, room, wanted) in rows {
        let mut field = NO_FIELD;
        assert!(rt; room <= 53);
        let answer = nlroute_read_field(family, &value, index, &TIMINGS[..room], &mut field);
        let is_left = field.number == 9 && field.form == 9 && field.name == [0xFF; 32];
        assert!(rt; answer == wanted && is_left);
    }
}
