//! Tests of what no contract covers: that allocations succeed, and each result for inputs that were computed by hand.

mod asking;
mod fields;
mod messages;
mod requests;
mod writing;

use crate::fault::FirstError;
use crate::timing::{BitTiming, TimingLimits};
use crate::{
    nlroute_can_bittiming, nlroute_can_bittiming_const, nlroute_count, nlroute_fault_text,
    nlroute_find, nlroute_find_in, nlroute_first_fault, nlroute_flag_name, nlroute_is_canonical,
    nlroute_kind_name, nlroute_number_name, nlroute_places, nlroute_report, nlroute_rewrite,
    nlroute_rewrite_streaming, nlroute_text, nlroute_values, nlroute_version,
};
use link_entries::Entry;
use std::process::Abort;

/// `IFLA_DSA_CONDUIT` 42, and an attribute of type 2, which DSA does not have. Of the two nested flags, only that of
/// the second attribute is kept.
const TWO: [u8; 12] = [8, 0, 1, 0x80, 42, 0, 0, 0, 4, 0, 2, 0x80];

/// An error before a call.
const NO_ERROR: FirstError = FirstError {
    at: u64::MAX,
    first: u64::MAX,
    second: u64::MAX,
    place: u32::MAX,
    kind: u32::MAX,
    inner: u32::MAX,
    cause: u32::MAX,
};

/// The numbers of an error: offset, place, two types, cause, and the numbers of the cause.
fn numbers_of(error: &FirstError) -> [u64; 7] {
    [
        error.at,
        error.place.into(),
        error.kind.into(),
        error.inner.into(),
        error.cause.into(),
        error.first,
        error.second,
    ]
}

/// Asserts `is_so`. A failure names the attribute set and what is expected of the call.
fn holds(rt: &impl Abort, is_so: bool, family: u32, wanted: isize) {
    assert!(rt; is_so, "for {wanted} of family {family}");
}

/// Asserts `is_so`. A failure names the expected text.
fn holds_of(rt: &impl Abort, is_so: bool, wanted: &str) {
    assert!(rt; is_so, "for {wanted}");
}

/// An output buffer before a call.
const LENT: [u8; 12] = [0xFF; 12];

#[test]
fn families_by_number(rt: HostRuntime) {
    // for each attribute set an input, and its re-encoding
    let rows: [(u32, &[u8], &[u8]); 10] = [
        (0, &[6, 0, 0, 0x80, 2, 0], &[6, 0, 0, 0, 2, 0, 0, 0]),
        (1, &[5, 0, 34, 0, 2, 0, 0, 0], &[5, 0, 34, 0, 1, 0, 0, 0]),
        (2, &[6, 0, 8, 0, 63, 1, 0, 0], &[6, 0, 8, 0, 63, 0, 0, 0]),
        (3, &[7, 0, 21, 0, 1, 2, 3, 0], &[4, 0, 21, 0]),
        (4, &[6, 0, 24, 0, 1, 2, 0, 0], &[4, 0, 24, 0]),
        (5, &[6, 0, 5, 0, 145, 0, 0, 0], &[6, 0, 5, 0, 129, 0, 0, 0]),
        (
            6,
            &[10, 0, 8, 0, 1, 0, 2, 0, 9, 9],
            &[8, 0, 8, 0, 1, 0, 2, 0],
        ),
        (7, &TWO, &[8, 0, 1, 0, 42, 0, 0, 0, 4, 0, 2, 0x80]),
        (8, &[5, 0, 3, 0x40, 9, 0, 0, 0], &[5, 0, 3, 0, 9, 0, 0, 0]),
        (
            9,
            &[5, 0, 45, 0, 2, 0, 0, 0, 4, 0, 24, 0x80],
            &[5, 0, 45, 0, 1, 0, 0, 0, 4, 0, 24, 0x80],
        ),
    ];
    for (family, bytes, wanted) in rows {
        let mut out = LENT;
        let answer = nlroute_rewrite(rt.alloc(), family, bytes, &mut out);
        assert!(rt; usize::try_from(answer) == Ok(wanted.len()) && wanted.len() <= 12);
        let (front, rest) = out.split_at(wanted.len());
        let is_so = front == wanted && rest == &LENT[wanted.len()..];
        holds(&rt, is_so, family, answer);
        let mut lent = LENT;
        let answer = nlroute_rewrite_streaming(rt.alloc(), family, bytes, &mut lent);
        let is_equal = usize::try_from(answer) == Ok(wanted.len()) && lent == out;
        holds(&rt, is_equal, family, answer);
        let is_judged = !nlroute_is_canonical(family, bytes);
        holds(
            &rt,
            is_judged && nlroute_is_canonical(family, wanted),
            family,
            answer,
        );
    }
    assert!(rt; nlroute_is_canonical(7, &[]) && !nlroute_is_canonical(99, &[]));
}

#[test]
fn refusals(rt: HostRuntime) {
    let mut long = vec![in rt.alloc(); 0u8; 65533].expect(&rt, "a long list");
    // mappings in an attribute of 65533 bytes, whose encoding does not fit in an attribute
    long[..8].copy_from_slice(&[0xFD, 0xFF, 3, 0, 0xF9, 0xFF, 99, 0]);
    let rows: [(u32, &[u8], usize, isize); 9] = [
        (7, &TWO, 12, 12),
        (7, &TWO, 11, -4),
        (7, &TWO, 0, -4),
        (7, &[], 0, 0),
        (7, &TWO[..7], 0, -1),
        (5, &long, 0, -2),
        (99, &TWO, 12, -5),
        (256, &TWO, 12, -5),
        (u32::MAX, &[], 0, -5),
    ];
    for (family, bytes, room, answer) in rows {
        let mut out = LENT;
        assert!(rt; room <= 12);
        let is_so = nlroute_rewrite(rt.alloc(), family, bytes, &mut out[..room]) == answer;
        holds(&rt, is_so && (answer > 0 || out == LENT), family, answer);
    }
}

#[test]
fn value_by_value(rt: HostRuntime) {
    let rows: [(u32, &[u8], usize, isize); 8] = [
        (7, &TWO, 12, 12),
        (7, &TWO[..8], 11, 8),
        (7, &TWO, 11, -4),
        // -4 takes precedence: the buffer must be large enough even if the input is malformed
        (7, &TWO[..7], 7, -4),
        (7, &TWO[..7], 8, -1),
        (7, &[], 0, 0),
        (99, &TWO, 12, -5),
        (99, &TWO, 0, -5),
    ];
    for (family, bytes, room, answer) in rows {
        let mut out = LENT;
        assert!(rt; room <= 12);
        let is_so = nlroute_rewrite_streaming(rt.alloc(), family, bytes, &mut out[..room])
            == answer;
        let is_kept = answer > 0 || out == LENT;
        holds(&rt, is_so && is_kept, family, answer);
    }
}

#[test]
fn counts(rt: HostRuntime) {
    let rows: [(u32, &[u8], isize); 5] = [
        (7, &[], 0),
        (7, &TWO, 2),
        (7, &[5, 0, 1, 0, 42, 0, 0, 0], -1),
        (
            8,
            &[
                5, 0, 6, 0, 1, 0, 0, 0, 5, 0, 6, 0, 2, 0, 0, 0, 5, 0, 6, 0, 3,
            ],
            3,
        ),
        (99, &[], -5),
    ];
    for (family, bytes, answer) in rows {
        let is_so = nlroute_count(family, bytes) == answer;
        holds(&rt, is_so, family, answer);
    }
}

#[test]
fn faults(rt: HostRuntime) {
    let rows: [(u32, &[u8], [u64; 7]); 10] = [
        // seven numbers that differ: `IFLA_BOND_AD_INFO_PARTNER_MAC` has seven bytes
        (
            1,
            &[
                5, 0, 1, 0, 4, 0, 0, 0, 15, 0, 23, 0, 11, 0, 5, 0, 1, 2, 3, 4, 5, 6, 7,
            ],
            [8, 3, 23, 5, 4, 6, 7],
        ),
        (7, &[8, 0, 1, 0, 42, 0, 0, 0, 0], [8, 0, 0, 0, 1, 1, 0]),
        (7, &[4, 0, 9, 0, 3, 0, 1, 0], [4, 0, 0, 0, 2, 3, 0]),
        (7, &[9, 0, 1, 0, 42, 0, 0, 0], [0, 0, 0, 0, 3, 9, 8]),
        (7, &[5, 0, 1, 0, 42, 0, 0, 0], [0, 1, 1, 0, 4, 4, 1]),
        (6, &[7, 0, 3, 0, 1, 2, 3, 0], [0, 1, 3, 0, 5, 4, 3]),
        (
            1,
            &[10, 0, 8, 0, 9, 0, 0, 0, 10, 0, 0, 0],
            [0, 2, 8, 0, 3, 9, 6],
        ),
        (5, &[4, 0, 99, 0, 6, 0, 3, 0, 8, 0], [4, 2, 3, 0, 1, 2, 0]),
        (6, &[8, 0, 16, 0x80, 4, 0, 7, 0], [0, 3, 16, 7, 4, 4, 0]),
        (0, &[9, 0, 3, 0, 5, 0, 2, 0, 1], [0, 3, 3, 2, 4, 2, 1]),
    ];
    for (family, bytes, wanted) in rows {
        let mut error = NO_ERROR;
        let is_stored = nlroute_first_fault(family, bytes, &mut error) == 0;
        holds(&rt, is_stored && numbers_of(&error) == wanted, family, 0);
    }
    let mut error = NO_ERROR;
    let is_absent = nlroute_first_fault(7, &TWO, &mut error) == -6;
    assert!(rt; nlroute_first_fault(99, &[], &mut error) == -5);
    let is_left = error.at == u64::MAX && error.cause == u32::MAX;
    assert!(rt; is_absent && is_left);
}

#[test]
fn reports(rt: HostRuntime) {
    let rows: [(u32, &str, &str, u8); 4] = [
        (
            7,
            "08 00 01 80\n2A 00 00 00",
            "attr 1 len 4\nout 080001002a000000\nchanged\n",
            0,
        ),
        (8, "", "out\nsame\n", 0),
        (
            1,
            "08000100 2a000000",
            "fault at 0: kind 1: wrong length 1 4\n",
            1,
        ),
        (9, "0", "bad hex\n", 2),
    ];
    for (family, text, wanted, status) in rows {
        assert!(rt; 0 < wanted.len() && wanted.len() <= 64);
        let text = text.as_bytes();
        let (mut out, mut code) = ([0xFF; 64], 9);
        let short = &mut out[..wanted.len() - 1];
        let is_refused = nlroute_report(rt.alloc(), family, text, short, &mut code) == -4;
        holds_of(&rt, is_refused && out == [0xFF; 64] && code == 9, wanted);
        let answer = nlroute_report(rt.alloc(), family, text, &mut out, &mut code);
        let is_said = out.starts_with(wanted.as_bytes()) && code == status;
        holds_of(
            &rt,
            is_said && usize::try_from(answer) == Ok(wanted.len()),
            wanted,
        );
    }
}

#[test]
fn a_report_of_no_family(rt: HostRuntime) {
    let (mut out, mut code) = (LENT, 9);
    let answer = nlroute_report(rt.alloc(), 99, b"zz", &mut out, &mut code);
    assert!(rt; answer == -5 && out == LENT && code == 9);
}

/// An entry before a call.
const BLANK: Entry = Entry {
    kind: 0,
    inner: 0,
    flags: 0,
    form: 0,
    depth: 0,
    second: 0,
    length: 0,
    number: 0,
    offset: 0,
    octets: [0; 16],
};

/// `IFLA_VLAN_EGRESS_QOS` with a mapping from 5 to 6, and `IFLA_VLAN_ID` 7.
const MAPPED: [u8; 24] = [
    16, 0, 3, 0, 12, 0, 1, 0, 5, 0, 0, 0, 6, 0, 0, 0, 6, 0, 1, 0, 7, 0, 0, 0,
];

#[test]
fn stored_values(rt: HostRuntime) {
    let mut places = [BLANK; 4];
    let is_counted = nlroute_places(5, &MAPPED) == 3;
    assert!(rt; is_counted && nlroute_values(5, &MAPPED, &mut places) == 3);
    let [list, mapping, id, rest] = places;
    let is_list = list.kind == 3 && list.form == 18 && list.depth == 0 && list.number == 1;
    assert!(rt; is_list && list.offset == 4 && list.length == 12);
    let is_mapping = mapping.kind == 3 && mapping.inner == 1 && mapping.depth == 1;
    assert!(rt; is_mapping && mapping.number == 5 && mapping.second == 6 && mapping.offset == 8);
    assert!(rt;
        id.kind == 1 && id.form == 3 && id.number == 7 && id.offset == 20 && rest.form == 0
    );
    assert!(rt; nlroute_values(5, &MAPPED, &mut places[..2]) == -4);
    assert!(rt;
        nlroute_values(5, &MAPPED[..5], &mut places) == -1 && nlroute_places(99, &[]) == -5
    );
    let mut value = BLANK;
    assert!(rt; nlroute_find(5, &MAPPED, 1, &mut value) == 0 && value.number == 7);
    assert!(rt; nlroute_find(5, &MAPPED, 2, &mut value) == -6 && value.number == 7);
    assert!(rt; nlroute_find_in(5, &MAPPED, 3, 1, &mut value) == 0 && value.second == 6);
    assert!(rt; nlroute_find_in(5, &MAPPED, 3, 2, &mut value) == -6 && value.second == 6);
}

#[test]
fn values_looked_up_beside_an_error(rt: HostRuntime) {
    // in each list one attribute decodes, and another has an error
    let rows: [(u32, &[u8]); 4] = [
        // `IFLA_VLAN_ID` 7, then one of three bytes
        (5, &[6, 0, 1, 0, 7, 0, 0, 0, 7, 0, 1, 0, 8, 0, 9]),
        // `IFLA_VLAN_ID` 7, then `IFLA_VLAN_EGRESS_QOS` with a mapping of four bytes
        (
            5,
            &[6, 0, 1, 0, 7, 0, 0, 0, 12, 0, 3, 0, 8, 0, 1, 0, 5, 0, 0, 0],
        ),
        // `IFLA_VLAN_FLAGS` of four bytes, then `IFLA_VLAN_ID` 7
        (5, &[8, 0, 2, 0, 1, 0, 0, 0, 6, 0, 1, 0, 7, 0]),
        // `IFLA_VLAN_ID` 7, then three bytes
        (5, &[6, 0, 1, 0, 7, 0, 0, 0, 6, 0, 3]),
    ];
    for (family, bytes) in rows {
        for kind in 0..4u16 {
            let mut value = Entry { number: 9, ..BLANK };
            let is_so = nlroute_find(family, bytes, kind, &mut value) == -1 && value.number == 9;
            holds(&rt, is_so, family, -1);
            let answer = nlroute_find_in(family, bytes, kind, 1, &mut value);
            holds(&rt, answer == -1 && value.number == 9, family, -1);
        }
    }
}

/// Five bytes, then the limits of a bit timing: the name `m`, and the `u32`s 257 to 264. These are also a bit timing.
const TIMINGS: [u8; 53] = [
    0, 0, 0, 0, 0, 109, 0, 0, 0, 0, 0, 0, 0, 0, 0, 0, 0, 0, 0, 0, 0, 1, 1, 0, 0, 2, 1, 0, 0, 3, 1,
    0, 0, 4, 1, 0, 0, 5, 1, 0, 0, 6, 1, 0, 0, 7, 1, 0, 0, 8, 1, 0, 0,
];

/// `IFLA_CAN_BITTIMING`, whose payload is the last 32 bytes of `TIMINGS`.
const TIMING_VALUE: Entry = Entry {
    kind: 1,
    form: 15,
    length: 32,
    offset: 21,
    ..BLANK
};

/// `IFLA_CAN_BITTIMING_CONST`, whose payload is the last 48 bytes of `TIMINGS`.
const LIMITS_VALUE: Entry = Entry {
    kind: 2,
    form: 16,
    length: 48,
    offset: 5,
    ..BLANK
};

#[test]
fn a_bit_timing(rt: HostRuntime) {
    let mut timing = BitTiming {
        bitrate: 0,
        sample_point: 0,
        tq: 0,
        prop_seg: 0,
        phase_seg1: 0,
        phase_seg2: 0,
        sjw: 0,
        brp: 0,
    };
    assert!(rt; nlroute_can_bittiming(&TIMING_VALUE, &TIMINGS, &mut timing) == 0);
    assert!(rt; timing.bitrate == 257 && timing.sample_point == 258 && timing.tq == 259);
    assert!(rt; timing.prop_seg == 260 && timing.phase_seg1 == 261 && timing.phase_seg2 == 262);
    assert!(rt; timing.sjw == 263 && timing.brp == 264);
    assert!(rt; nlroute_can_bittiming(&BLANK, &TIMINGS, &mut timing) == -7);
    assert!(rt; nlroute_can_bittiming(&TIMING_VALUE, &TIMINGS[..52], &mut timing) == -10);
    assert!(rt; timing.bitrate == 257 && timing.brp == 264);
    let mut out = [0xFF; 128];
    let answer = nlroute_text(6, &TIMING_VALUE, &TIMINGS, &mut out);
    let wanted =
        "bitrate 257 bit/s sample_point 258 tq 259 ns prop_seg 260 phase_seg1 261 phase_seg2 262 sjw 263 brp 264";
    assert!(rt; holds_text(answer, &out, wanted));
}

#[test]
fn limits_of_a_bit_timing(rt: HostRuntime) {
    let mut limits = TimingLimits {
        name: [1; 16],
        tseg1_min: 0,
        tseg1_max: 0,
        tseg2_min: 0,
        tseg2_max: 0,
        sjw_max: 0,
        brp_min: 0,
        brp_max: 0,
        brp_inc: 0,
    };
    assert!(rt; nlroute_can_bittiming_const(&LIMITS_VALUE, &TIMINGS, &mut limits) == 0);
    assert!(rt; limits.name == [109, 0, 0, 0, 0, 0, 0, 0, 0, 0, 0, 0, 0, 0, 0, 0]);
    assert!(rt; limits.tseg1_min == 257 && limits.tseg1_max == 258 && limits.tseg2_min == 259);
    assert!(rt; limits.tseg2_max == 260 && limits.sjw_max == 261 && limits.brp_min == 262);
    assert!(rt; limits.brp_max == 263 && limits.brp_inc == 264);
    assert!(rt; nlroute_can_bittiming_const(&TIMING_VALUE, &TIMINGS, &mut limits) == -7);
    assert!(rt; limits.tseg1_min == 257 && limits.brp_inc == 264);
    let mut out = [0xFF; 128];
    let answer = nlroute_text(6, &LIMITS_VALUE, &TIMINGS, &mut out);
    let wanted =
        "name \"m\" tseg1_min 257 tseg1_max 258 tseg2_min 259 tseg2_max 260 sjw_max 261 brp_min 262 brp_max 263 brp_inc 264";
    assert!(rt; holds_text(answer, &out, wanted));
}

/// Checks whether a call that returned `answer` stored this text in `out`, and a NUL.
fn holds_text(answer: isize, out: &[u8], wanted: &str) -> bool {
    let is_there = wanted.len() < out.len() && out[wanted.len()] == 0;
    usize::try_from(answer) == Ok(wanted.len()) && is_there && out.starts_with(wanted.as_bytes())
}

#[test]
fn names(rt: HostRuntime) {
    let rows: [(u32, u16, u16, u8, &str); 6] = [
        (3, 1, 0, 0, "IFLA_BR_FORWARD_DELAY"),
        (3, 99, 0, 0, "type 99"),
        (3, 47, 1, 1, "BRIDGE_QUERIER_IP_ADDRESS"),
        (3, 1, 65535, 1, "type 65535"),
        (1, 8, 3, 1, "[3]"),
        (6, 12, 65535, 1, "[65535]"),
    ];
    for (family, kind, inner, depth, wanted) in rows {
        let value = Entry {
            kind,
            inner,
            depth,
            ..BLANK
        };
        let mut out = [0xFF; 32];
        let answer = nlroute_kind_name(family, &value, &mut out);
        let is_so = holds_text(answer, &out, wanted);
        holds_of(&rt, is_so, wanted);
    }
    assert!(rt; nlroute_version() == 0x300);
    let mode = Entry {
        kind: 1,
        number: 4,
        ..BLANK
    };
    let state = Entry { kind: 7, ..BLANK };
    let mut out = [0xFF; 32];
    let answer = nlroute_number_name(1, &mode, &mut out);
    assert!(rt; holds_text(answer, &out, "802.3ad"));
    let answer = nlroute_flag_name(2, &state, 0, &mut out);
    assert!(rt; holds_text(answer, &out, "LACP_ACTIVITY"));
    let is_absent = nlroute_number_name(2, &state, &mut out) == -6 && out[0] == 0;
    assert!(rt; is_absent && nlroute_flag_name(2, &state, 8, &mut out) == -6);
    assert!(rt; nlroute_kind_name(99, &mode, &mut out) == -5 && out[0] == 0);
}

#[test]
fn texts(rt: HostRuntime) {
    let rows: [(u32, u16, u8, u64, &str); 5] = [
        (3, 1, 3, 1500, "1500 (15.00 s)"),
        (1, 1, 5, 4, "802.3ad (4)"),
        (5, 2, 7, 2, "flags GVRP mask 0"),
        (3, 7, 2, 1, "on"),
        (3, 99, 19, 0, "hex dead"),
    ];
    let octets = [0, 0xDE, 0xAD];
    for (family, kind, form, number, wanted) in rows {
        let value = Entry {
            kind,
            form,
            number,
            offset: 1,
            length: 2,
            ..BLANK
        };
        let mut out = [0xFF; 32];
        let answer = nlroute_text(family, &value, &octets, &mut out);
        let is_so = holds_text(answer, &out, wanted);
        holds_of(&rt, is_so, wanted);
    }
    // a list of another set, and a peer: no attribute, and no field of the header
    for (family, kind, form) in [(11, 26, 21), (24, 1, 22)] {
        let value = Entry {
            kind,
            form,
            length: 20,
            ..BLANK
        };
        let mut out = [0xFF; 32];
        let answer = nlroute_text(family, &value, &[0; 20], &mut out);
        assert!(rt; holds_text(answer, &out, "(20 bytes, not decoded)"));
    }
    // longer than what is written without an allocation
    let many = [0xAB; 300];
    let long = Entry {
        form: 19,
        length: 300,
        ..BLANK
    };
    let mut out = [0xFF; 8];
    assert!(rt; nlroute_text(3, &long, &many, &mut out) == 604);
    assert!(rt; out == *b"hex aba\0");
    assert!(rt; nlroute_text(3, &long, &octets, &mut out) == -10 && out[0] == 0);
    assert!(rt; nlroute_text(3, &BLANK, &octets, &mut out) == -7 && out[0] == 0);
}

/// An element of an attribute of type `kind`, and a set of flags.
const FLAGS: Entry = Entry {
    form: 6,
    depth: 1,
    ..BLANK
};

#[test]
fn texts_of_flags(rt: HostRuntime) {
    // the width of the type counts, and not the length of the struct
    let rows: [(u32, Entry, &str); 4] = [
        // `IFLA_BRIDGE_VLAN_TUNNEL_FLAGS`, two bytes
        (
            0,
            Entry {
                kind: 3,
                inner: 3,
                number: 0xFFFF,
                ..FLAGS
            },
            "all",
        ),
        (
            0,
            Entry {
                kind: 3,
                inner: 3,
                number: 0x80,
                length: 1,
                ..FLAGS
            },
            "0x80",
        ),
        // `IFLA_CAN_CTRLMODE_SUPPORTED`, four bytes
        (
            6,
            Entry {
                kind: 17,
                inner: 1,
                number: 0xFFFF_FFFF,
                length: 8,
                ..FLAGS
            },
            "all",
        ),
        // `IFLA_BOND_SLAVE_AD_PARTNER_OPER_PORT_STATE`, one byte of two
        (
            2,
            Entry {
                kind: 8,
                depth: 0,
                number: 1,
                ..FLAGS
            },
            "LACP_ACTIVITY",
        ),
    ];
    for (family, value, wanted) in rows {
        let mut out = [0xFF; 32];
        let answer = nlroute_text(family, &value, &[], &mut out);
        let is_so = holds_text(answer, &out, wanted);
        holds_of(&rt, is_so, wanted);
    }
}

#[test]
fn values_without_a_text(rt: HostRuntime) {
    // the attribute set, type and form, the two numbers, the length, and the code
    let rows: [(u32, u16, u8, u64, u32, u32, isize); 17] = [
        // a number in place of an enum, and an enum of one byte
        (1, 1, 3, 4, 0, 1, -7),
        (1, 1, 5, 256, 0, 1, -8),
        // a signed number of more than four bytes
        (2, 9, 4, 0x8000_0000, 0, 4, -8),
        // flags of one byte, in two
        (2, 8, 6, 256, 0, 2, -8),
        // a boolean
        (3, 7, 2, 2, 0, 1, -8),
        // a frequency
        (6, 3, 3, 0x1_0000_0000, 0, 4, -8),
        // a VLAN protocol
        (5, 5, 5, 0x1234, 0, 2, -8),
        (5, 5, 5, 0x1_88A8, 0, 2, -8),
        // flags with a mask
        (5, 2, 7, 0x1_0000_0000, 0, 8, -8),
        // a bridge ID
        (3, 10, 11, 65536, 0, 8, -8),
        // a VLAN, and its flags
        (0, 2, 12, 65536, 0, 4, -8),
        (0, 2, 12, 1, 65536, 4, -8),
        // a mapping in place of their list
        (5, 3, 13, 1, 0, 8, -7),
        // error counters
        (6, 8, 14, 65536, 0, 4, -8),
        (6, 8, 14, 0, 65536, 4, -8),
        // a bit timing, and limits
        (6, 1, 15, 0, 0, 31, -10),
        (6, 2, 16, 0, 0, 49, -10),
    ];
    let octets = [0; 64];
    for (family, kind, form, number, second, length, wanted) in rows {
        let value = Entry {
            kind,
            form,
            number,
            second,
            length,
            ..BLANK
        };
        let mut out = [0xFF; 8];
        let answer = nlroute_text(family, &value, &octets, &mut out);
        holds(&rt, answer == wanted && out[0] == 0, family, wanted);
    }
    // a mapping
    let mapping = Entry {
        kind: 3,
        inner: 1,
        form: 13,
        depth: 1,
        number: 0x1_0000_0000,
        ..BLANK
    };
    let mut out = [0xFF; 8];
    assert!(rt; nlroute_text(5, &mapping, &octets, &mut out) == -8 && out[0] == 0);
    // an element of a type that has none, and one of an element
    let element = Entry { kind: 1, ..FLAGS };
    assert!(rt; nlroute_text(1, &element, &octets, &mut out) == -9 && out[0] == 0);
    let deeper = Entry {
        kind: 17,
        inner: 1,
        depth: 2,
        ..FLAGS
    };
    assert!(rt; nlroute_text(6, &deeper, &octets, &mut out) == -9);
}

#[test]
fn texts_of_errors(rt: HostRuntime) {
    let mut error = NO_ERROR;
    let mut out = [0xFF; 96];
    assert!(rt; nlroute_fault_text(5, &error, &mut out) == -7 && out[0] == 0);
    assert!(rt; nlroute_first_fault(5, &[11, 0, 3, 0, 7, 0, 1, 0, 1, 2, 3], &mut error) == 0);
    let answer = nlroute_fault_text(5, &error, &mut out);
    let wanted = "error at 0: IFLA_VLAN_EGRESS_QOS: IFLA_VLAN_QOS_MAPPING has 3 bytes, expected 8";
    assert!(rt; holds_text(answer, &out, wanted));
}
