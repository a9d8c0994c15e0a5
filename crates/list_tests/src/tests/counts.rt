//! Tests that `count_values` returns the number of values of a list, or its first error.

use crate::tests::{holds, list_of};
use netlink_packet_route::count_values;
use netlink_packet_route::link::{Cause, DecodeFault, ListFault};

#[test]
fn values(rt: HostRuntime) {
    for (line, wanted) in [
        ("dsa", 0),
        // attribute types without a variant are values too
        ("dsa 08000100 2a000000 04000280", 2),
        // a nested list is one value
        ("vlan 04006300 10000300 0c000100 01000000 02000000", 2),
    ] {
        let (family, list) = list_of(&rt, rt.alloc(), line);
        holds(&rt, count_values(family, &list) == Ok(wanted), line);
    }
}

#[test]
fn faults(rt: HostRuntime) {
    let short = DecodeFault::Frame(Cause::ShortFrame { left: 1 });
    let cause = Cause::WrongLength { want: 4, got: 1 };
    let length = DecodeFault::Value { kind: 1, cause };
    for (line, at, fault) in [
        ("dsa 08000100 2a000000 00", 8, short),
        ("dsa 00", 0, short),
        ("dsa 08000100 2a000000 05000100 07000000", 8, length),
        // an error in a payload precedes one in the header of a later attribute
        ("dsa 05000100 07000000 00", 0, length),
    ] {
        let (family, list) = list_of(&rt, rt.alloc(), line);
        let wanted = Err(ListFault { at, fault });
        holds(&rt, count_values(family, &list) == wanted, line);
    }
}
