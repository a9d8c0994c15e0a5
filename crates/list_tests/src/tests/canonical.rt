//! Tests which lists are canonical, and the offset of the first attribute that is not.

use crate::is_judged;
use crate::tests::{bytes, filled, holds, list_of};
use netlink_packet_route::link::{
    BridgeQuerierState, CanTdc, DefaultNla, InfoDsa, list_is_canonical,
};
use netlink_packet_route::{Family, first_not_canonical, is_canonical};
use std::alloc::Global;
use std::process::Abort;

/// Asserts the offset of the first attribute that is not canonical. `None` means that the list is canonical.
fn are_judged(rt: &impl Abort, alloc: Global, rows: &[(&str, Option<usize>)]) {
    for (line, wanted) in rows {
        let (family, list) = list_of(rt, alloc, line);
        holds(rt, is_judged(family, &list, *wanted), line);
    }
}

/// A row for each class of payloads that has a canonical form.
#[test]
fn attributes(rt: HostRuntime) {
    are_judged(
        &rt,
        rt.alloc(),
        &[
            ("af_spec_bridge", None),
            ("bond", None),
            ("bond_port", None),
            ("bridge", None),
            ("bridge_port", None),
            ("vlan", None),
            ("can", None),
            ("dsa", None),
            ("hsr", None),
            ("proto_bridge", None),
            ("vxlan", None),
            ("link", None),
            ("af_spec", None),
            ("inet", None),
            ("inet6", None),
            ("mctp", None),
            ("reply", None),
            ("dsa 08000100 2a000000", None),
            // a flag too many, padding that is not zero, and none
            ("dsa 08000140 2a000000", Some(0)),
            ("vlan 060063c0 dead0000", None),
            ("vlan 060063c0 dead0001", Some(0)),
            ("vlan 060063c0 dead", Some(0)),
            // a protocol, the nested flag, a boolean, no value, a struct
            ("vlan 06000500 91000000", Some(0)),
            ("bridge 04002f00", Some(0)),
            ("bridge 04002f80", None),
            ("bridge 05000700 02000000", Some(0)),
            ("bridge 05001500 00000000", Some(0)),
            ("bridge 0d000b00 80000200 00000001 00000000", Some(0)),
            // another length, flags in the low byte, arrays
            ("bridge_port 06000b00 01000000", Some(0)),
            ("bond_port 06000800 3f010000", Some(0)),
            ("can 06000c00 78000000 04000d00", None),
            ("can 06000c00 78000000 04000d40", Some(8)),
            ("can 07000c00 01020300", Some(0)),
            // each by its own element types: type 2 is known in the first list, and unknown in the second
            ("can 0c001080 08000100 03000000", None),
            ("can 0c001080 06000200 03000000", Some(0)),
            ("can 0c001180 06000100 03000000", Some(0)),
            ("can 0c001180 06000200 03000000", None),
        ],
    );
}

#[test]
fn lists(rt: HostRuntime) {
    are_judged(
        &rt,
        rt.alloc(),
        &[
            // addresses, numbered from 0 and from 1, and one that is too short
            ("bond 14000800 08000000 0a000001 08000100 0a000002", None),
            ("bond 14000800 08000100 0a000001 08000200 0a000002", Some(0)),
            ("bond 0c000800 06000000 0a000000", Some(0)),
            // an element without its padding
            ("bond 0a001700 06000100 07000000", Some(0)),
            ("bond 0c001700 06000100 07000000", None),
            // a truncated header, a value of another length
            ("dsa 05000100 2a000000 0300", Some(0)),
            ("dsa 08000100 2a000000 0000", Some(8)),
            ("vlan 07000100 01000000 0000", Some(0)),
            // an element of another length, after another attribute
            ("vlan 04006300 10000300 0c000100 01000000 02000000", None),
            ("vlan 04006300 0f000300 0b000100 01000000 02000000", Some(4)),
            // after two other attributes
            ("hsr 05000300 09000000 04006600 06000540 01000000", Some(12)),
            (
                "proto_bridge 05002d00 01000000 04000400 05002d00 07000000",
                Some(12),
            ),
        ],
    );
}

/// A nested list whose only element does not fit once it is padded.
#[test]
fn overfull_list(rt: HostRuntime) {
    for (digits, at) in [("", 0), ("06000100 0a000000", 8)] {
        let mut list = bytes(&rt, rt.alloc(), digits);
        let nested = filled(&rt, rt.alloc(), "fdff0300 f9ff6300", 65_533);
        list.extend_from_slice(&nested).expect(&rt, digits);
        let is_so = first_not_canonical(Family::Vlan, &list) == Some(at);
        holds(&rt, is_so && !is_canonical(Family::Vlan, &list), digits);
    }
}

/// A list by its type: of attributes, and of elements with and without flags.
#[test]
fn by_type(rt: HostRuntime) {
    let alloc = rt.alloc();
    let number = bytes(&rt, alloc, "08000100 2a000000");
    assert!(rt; list_is_canonical::<InfoDsa>(&number) && list_is_canonical::<CanTdc>(&number));
    let flagged = bytes(&rt, alloc, "08000180 2a000000");
    assert!(rt; !list_is_canonical::<BridgeQuerierState>(&flagged));
    assert!(rt; list_is_canonical::<DefaultNla>(&flagged));
}
