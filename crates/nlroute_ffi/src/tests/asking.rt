//! Tests of what is asked of attribute sets and attribute types.

use crate::tests::{BLANK, holds_text};
use crate::{
    nlroute_code_text, nlroute_family_name, nlroute_family_of, nlroute_flag_name,
    nlroute_from_info_kind, nlroute_from_port_kind, nlroute_kind_name, nlroute_kind_of,
    nlroute_kind_of_in, nlroute_number_name, nlroute_number_of, nlroute_read_row, nlroute_text,
};
use link_entries::{Entry, Row};

/// A row before a call.
const NO_ROW: Row = Row {
    width: 9,
    flags: 9,
    form: 9,
    is_list: 9,
    unit: 9,
};

#[test]
fn rows(rt: HostRuntime) {
    // the set, the type, the element and the depth; the width, the flags, the form, whether it is a list, and the unit
    let rows: [(u32, u16, u16, u8, u32, u16, u8, u8, u32); 13] = [
        (3, 1, 0, 0, 4, 0, 3, 0, 1),
        (3, 99, 0, 0, 0, 0, 19, 0, 0),
        (3, 47, 0, 0, 0, 0x8000, 18, 1, 0),
        (3, 47, 1, 1, 4, 0, 9, 0, 0),
        (3, 47, 3, 1, 8, 0, 3, 0, 1),
        (1, 1, 0, 0, 1, 0, 5, 0, 0),
        (1, 2, 0, 0, 4, 0, 3, 0, 8),
        (1, 8, 0, 0, 0, 0, 18, 1, 0),
        (1, 8, 3, 1, 4, 0, 9, 0, 0),
        (5, 3, 1, 1, 4, 0, 13, 0, 0),
        (6, 1, 0, 0, 32, 0, 15, 0, 0),
        (6, 12, 0, 0, 0, 0, 18, 1, 5),
        (6, 12, 7, 1, 2, 0, 3, 0, 5),
    ];
    for (family, kind, inner, depth, width, flags, form, is_list, unit) in rows {
        let mut row = NO_ROW;
        let answer = nlroute_read_row(family, kind, inner, depth, &mut row);
        let is_so = row.width == width && row.form == form && row.is_list == is_list;
        assert!(rt; answer == 0 && is_so && row.flags == flags && row.unit == unit);
    }
    for (kind, depth) in [(1, 1), (47, 2)] {
        let mut row = NO_ROW;
        let answer = nlroute_read_row(3, kind, 1, depth, &mut row);
        assert!(rt; answer == -9 && row.width == 9 && row.form == 9 && row.unit == 9);
    }
    assert!(rt; nlroute_read_row(99, 1, 0, 0, &mut NO_ROW) == -5);
}

#[test]
fn types_by_their_names(rt: HostRuntime) {
    assert!(rt; nlroute_kind_of(3, b"IFLA_BR_FORWARD_DELAY") == 1);
    assert!(rt; nlroute_kind_of(3, b"IFLA_BR_FORWARD") == -6);
    assert!(rt; nlroute_kind_of(99, b"IFLA_BR_FORWARD_DELAY") == -5);
    assert!(rt; nlroute_kind_of_in(3, 47, b"BRIDGE_QUERIER_IP_PORT") == 2,);
    assert!(rt; nlroute_kind_of_in(3, 1, b"BRIDGE_QUERIER_IP_PORT") == -6,);
    assert!(rt; nlroute_kind_of_in(99, 47, b"BRIDGE_QUERIER_IP_PORT") == -5,);
}

#[test]
fn sets_by_their_names(rt: HostRuntime) {
    let mut out = [0xFF; 8];
    assert!(rt; nlroute_family_name(3, &mut out) == 6 && out == *b"bridge\0\xFF",);
    assert!(rt; nlroute_family_name(99, &mut out) == -5 && out[0] == 0);
    assert!(rt; nlroute_family_of(b"bridge") == 3);
    assert!(rt; nlroute_from_info_kind(b"bond") == 1 && nlroute_from_port_kind(b"bond") == 2);
    assert!(rt;
        nlroute_from_info_kind(b"bond_port") == -5 && nlroute_from_port_kind(b"vlan") == -5
    );
    assert!(rt; nlroute_family_of(b"bridge\0") == -5 && nlroute_family_of(b"\xFF") == -5,);
}

#[test]
fn numbers_by_their_names(rt: HostRuntime) {
    let mode = Entry { kind: 1, ..BLANK };
    let mut number = 9;
    assert!(rt; nlroute_number_of(1, &mode, b"802.3ad", &mut number) == 0 && number == 4,);
    assert!(rt; nlroute_number_of(1, &mode, b"802.3", &mut number) == -6 && number == 4,);
    assert!(rt; nlroute_number_of(99, &mode, b"802.3ad", &mut number) == -5 && number == 4,);
    let mut out = [0xFF; 16];
    let answer = nlroute_text(1, &Entry { number: 4, ..mode }, &[], &mut out);
    assert!(rt; holds_text(answer, &out, "802.3ad (4)"));
}

#[test]
fn names_at_depths(rt: HostRuntime) {
    // a flag of a tunnel in IFLA_BRIDGE_VLAN_TUNNEL_INFO, as an attribute, an element and at depths that there are not
    for (depth, found) in [(0, -6), (1, 0), (2, -6), (255, -6)] {
        let flags = Entry {
            kind: 3,
            inner: 3,
            depth,
            ..BLANK
        };
        let mut number = 9;
        let answer = nlroute_number_of(0, &flags, b"PVID", &mut number);
        assert!(rt; answer == found && number == if found == 0 { 2 } else { 9 });
    }
    // the numbers of IFLA_STATS64, and below a type without elements
    for (family, kind, depth, name, found) in [
        (11, 23, 0, b"rx_packets", 0),
        (11, 23, 1, b"rx_packets", 0),
        (11, 23, 2, b"rx_packets", -6),
        (1, 1, 1, b"balance-rr", -6),
    ] {
        let value = Entry {
            kind,
            depth,
            ..BLANK
        };
        assert!(rt; nlroute_number_of(family, &value, name, &mut 9) == found);
    }
    let deep = Entry {
        kind: 1,
        inner: 1,
        depth: 2,
        number: 4,
        ..BLANK
    };
    let mut out = [0xFF; 16];
    assert!(rt; nlroute_number_name(1, &deep, &mut out) == -6 && out[0] == 0);
    assert!(rt; nlroute_flag_name(1, &deep, 0, &mut out) == -6);
    assert!(rt; holds_text(nlroute_kind_name(1, &deep, &mut out), &out, "type 1"));
}

#[test]
fn texts_of_codes(rt: HostRuntime) {
    let rows = [
        (-17, "unknown error"),
        (-16, "the message has a second list of this type"),
        (
            -15,
            "the value has a wrong depth, or is not marked as one of the message",
        ),
        (-13, "Linux does not take the name or kind"),
        (-4, "the buffer is too small"),
        (-1, "the list is malformed"),
        (0, "no error"),
    ];
    for (code, wanted) in rows {
        let mut out = [0xFF; 80];
        assert!(rt; holds_text(nlroute_code_text(code, &mut out), &out, wanted),);
    }
}
