//! Tests views: the attributes of a list, with their names, quantities and contents, and the errors among them.

use crate::tests::{bytes, holds, list_of};
use netlink_packet_route::link::{
    BridgeId, CanBitTiming, CanClock, Cause, DecodeFault, InfoBond, InfoCan, InfoVlan, ListFault,
};
use netlink_packet_route::views::{self, AttributeSet, CanBitTimingLimits, Content, Set, Value};
use netlink_packet_route::{Family, FamilySet, view_all, view_elements, view_list};
use std::alloc::Global;
use std::process::Abort;

/// Returns the only attribute of a list.
fn only<'a>(rt: &impl Abort, family: Family, list: &'a [u8], row: &str) -> Value<'a, FamilySet> {
    let mut view = view_list(family, list).expect(rt, row);
    let value = view.next().expect(rt, row);
    holds(rt, view.next().is_none(), row);
    value
}

/// Asserts what a view returns of an attribute: the kernel's name, what its number counts, and its content; or only the
/// content, if the set does not have the type.
fn is_shown<S: AttributeSet>(rt: &impl Abort, alloc: Global, value: &Value<'_, S>, wanted: &str) {
    let content = value.content();
    let shown = match value.label() {
        Some(label) => {
            holds(rt, content.form() == Some(label.form), wanted);
            let (name, quantity) = (label.name, label.quantity);
            format!(in alloc; "{name} {quantity:?} {content:?}")
        }
        None => format!(in alloc; "{content:?}"),
    };
    holds(rt, shown.expect(rt, wanted).as_str() == wanted, wanted);
}

/// A row for each variant of `Content` and of `Quantity` that attributes have. After `>` is what a view returns of the
/// only attribute.
#[test]
fn attributes(rt: HostRuntime) {
    for row in [
        "bond 05000100 04000000 > IFLA_BOND_MODE Number Number { number: 4, width: One, order: Little, role: Enum }",
        "bond 08000200 03000000 > IFLA_BOND_ACTIVE_SLAVE InterfaceIndex Number { number: 3, width: Four, order: Little, role: Plain }",
        "bond 08000300 64000000 > IFLA_BOND_MIIMON Milliseconds Number { number: 100, width: Four, order: Little, role: Plain }",
        "bond 05000600 02000000 > IFLA_BOND_USE_CARRIER Number Bool(true)",
        "bond 0c000800 08000000 0a000001 > IFLA_BOND_ARP_IP_TARGET Number Addresses { list: [8, 0, 0, 0, 10, 0, 0, 1], size: 4 }",
        "bond 08001300 01000000 > IFLA_BOND_LP_INTERVAL Seconds Number { number: 1, width: Four, order: Little, role: Plain }",
        "bond_port 06000400 02010000 > IFLA_BOND_SLAVE_PERM_HWADDR Number Bytes { look: Address, bytes: [2, 1] }",
        "bond_port 05000700 3d000000 > IFLA_BOND_SLAVE_AD_ACTOR_OPER_PORT_STATE Number Number { number: 61, width: One, order: Little, role: Flags }",
        "bond_port 06000800 3f010000 > IFLA_BOND_SLAVE_AD_PARTNER_OPER_PORT_STATE Number LowFlags(63)",
        "bond_port 08000900 ffffffff > IFLA_BOND_SLAVE_PRIO Number Signed(-1)",
        "bridge 06000900 08000000 > IFLA_BR_GROUP_FWD_MASK Mask Number { number: 8, width: Two, order: Little, role: Plain }",
        // without the ninth byte of the payload
        "bridge 0d000b00 80000200 00000001 00000000 > IFLA_BR_BRIDGE_ID Number Struct { layout: BridgeId, bytes: [128, 0, 2, 0, 0, 0, 0, 1] }",
        "bridge 0c001000 64000000 00000000 > IFLA_BR_HELLO_TIMER ClockTicks Number { number: 100, width: Eight, order: Little, role: Plain }",
        "bridge 0a001400 0180c200 00000000 > IFLA_BR_GROUP_ADDR Number Mac([1, 128, 194, 0, 0, 0])",
        "bridge 04001500 > IFLA_BR_FDB_FLUSH Number Nothing",
        "bridge_port 05000100 03000000 > IFLA_BRPORT_STATE Number Number { number: 3, width: One, order: Little, role: Enum }",
        "af_spec_bridge 06000000 02000000 > IFLA_BRIDGE_FLAGS Number Number { number: 2, width: Two, order: Little, role: Enum }",
        "af_spec_bridge 0c000300 08000100 64000000 > IFLA_BRIDGE_VLAN_TUNNEL_INFO Number List { list: [8, 0, 1, 0, 100, 0, 0, 0], flagged: false }",
        "vlan 0c000200 01000000 1f000000 > IFLA_VLAN_FLAGS Number MaskedFlags { flags: 1, mask: 31 }",
        "vlan 06000500 88a80000 > IFLA_VLAN_PROTOCOL Number Protocol(Ieee8021Ad)",
        "can 08000400 03000000 > IFLA_CAN_STATE Number Number { number: 3, width: Four, order: Little, role: Coded }",
        "can 06000b00 78000000 > IFLA_CAN_TERMINATION Ohms Number { number: 120, width: Two, order: Little, role: Plain }",
        "can 06000c00 78000000 > IFLA_CAN_TERMINATION_CONST Ohms Numbers { of: U16, bytes: [120, 0] }",
        "can 08000d00 48e80100 > IFLA_CAN_BITRATE_CONST BitsPerSecond Numbers { of: U32, bytes: [72, 232, 1, 0] }",
        "dsa 08000180 2a000000 > IFLA_DSA_CONDUIT InterfaceIndex Number { number: 42, width: Four, order: Little, role: Plain }",
        "dsa 06006340 dead0000 > Other([222, 173])",
        "hsr 05000700 01000000 > IFLA_HSR_PROTOCOL Number Number { number: 1, width: One, order: Little, role: Enum }",
        "proto_bridge 05000100 03000000 > Other([3])",
        "proto_bridge 05002d00 01000000 > IFLA_BRPORT_NEIGH_FORWARD_GRAT Number Bool(true)",
        "vxlan 04001c00 > IFLA_VXLAN_TTL_INHERIT Number FlagOrBool(None)",
    ] {
        let (line, wanted) = row.split_once(" > ").unwrap_or((row, ""));
        let (family, list) = list_of(&rt, rt.alloc(), line);
        is_shown(&rt, rt.alloc(), &only(&rt, family, &list, row), wanted);
    }
}

/// Elements of nested lists. After `>` is what a view returns of the only element.
#[test]
fn elements(rt: HostRuntime) {
    let alloc = rt.alloc();
    for row in [
        "bridge 0c002f80 08000100 c0a80001 > BRIDGE_QUERIER_IP_ADDRESS Number Ipv4(192.168.0.1)",
        "bridge 0c002f80 08000200 03000000 > BRIDGE_QUERIER_IP_PORT InterfaceIndex Number { number: 3, width: Four, order: Little, role: Plain }",
        "bridge 18002f80 14000500 00000000 00000000 00000000 00000001 > BRIDGE_QUERIER_IPV6_ADDRESS Number Ipv6(::1)",
        "vlan 10000300 0c000100 01000000 02000000 > IFLA_VLAN_QOS_MAPPING Number Pair(1, 2)",
        "vlan 0c000300 06000240 dead0000 > Other([222, 173])",
    ] {
        let (line, wanted) = row.split_once(" > ").unwrap_or((row, ""));
        let (family, list) = list_of(&rt, alloc, line);
        let value = only(&rt, family, &list, row);
        let mut elements = view_elements(&value).expect(&rt, row);
        let element = elements.next().expect(&rt, row);
        is_shown(&rt, alloc, &element, wanted);
        holds(&rt, elements.next().is_none(), row);
    }
    // an address list is not a nested list
    let list = bytes(&rt, alloc, "0c000800 08000000 0a000001");
    let value = only(&rt, Family::Bond, &list, "addresses");
    holds(&rt, view_elements(&value).is_none(), "addresses");
}

/// Elements by the type of the attribute set.
#[test]
fn typed_elements(rt: HostRuntime) {
    let digits = "1c000300 0c000100 01000000 02000000 0c000100 03000000 04000000";
    let list = bytes(&rt, rt.alloc(), digits);
    let mut view = views::view_list::<InfoVlan>(&list).expect(&rt, digits);
    let value = view.next().expect(&rt, digits);
    let elements = value.elements().expect(&rt, digits);
    holds(&rt, elements.len() == 2, digits);
    let last = elements.find(1).expect(&rt, digits);
    let wanted = "IFLA_VLAN_QOS_MAPPING Number Pair(3, 4)";
    is_shown(&rt, rt.alloc(), &last, wanted);
}

/// The interval 100, a mode, and the interval 200 with the flag for nested lists.
#[test]
fn first_and_last(rt: HostRuntime) {
    let digits = "08000300 64000000 05000100 01000000 08000380 c8000000";
    let list = bytes(&rt, rt.alloc(), digits);
    let view = views::view_list::<InfoBond>(&list).expect(&rt, digits);
    assert_eq!(rt; view.len(), 3usize);
    for (kind, first, last) in [(3, 100, 200), (1, 0, 0), (4, 7, 7)] {
        holds(&rt, number(view.first(kind)) == first, digits);
        holds(&rt, number(view.find(kind)) == last, digits);
    }
}

/// Returns the number of an attribute: 0 if it is no `u32`, and 7 if there is no attribute.
fn number(found: Option<Value<'_, Set<InfoBond>>>) -> u32 {
    match found {
        Some(value) => value.as_u32().unwrap_or(0),
        None => 7,
    }
}

/// A clone has the same attributes left. The bounds of `size_hint` follow from the number of bytes.
#[test]
fn clones(rt: HostRuntime) {
    let digits = "08000200 03000000 08000300 64000000";
    let list = bytes(&rt, rt.alloc(), digits);
    let mut view = views::view_list::<InfoBond>(&list).expect(&rt, digits);
    holds(&rt, view.size_hint() == (1, Some(4)), digits);
    let first = view.next().expect(&rt, digits);
    let same = first.clone().expect(&rt, digits);
    holds(&rt, same.as_u32() == Some(3), digits);
    let rest = view.clone().expect(&rt, digits);
    holds(&rt, rest.size_hint() == (1, Some(2)), digits);
    holds(&rt, rest.len() == 1 && rest.bytes() == view.bytes(), digits);
    let mut all = view_all(Family::Bond, &list);
    holds(&rt, all.next().is_some(), digits);
    holds(&rt, all.size_hint() == (1, Some(2)), digits);
}

/// Asserts the items of `view_all`: types, and errors with their offsets.
fn yields(rt: &impl Abort, alloc: Global, line: &str, wanted: &[Result<u16, ListFault>]) {
    let (family, list) = list_of(rt, alloc, line);
    let mut all = view_all(family, &list);
    for one in wanted {
        let found = match all.next() {
            Some(Ok(value)) => Ok(value.kind()),
            Some(Err(fault)) => Err(fault),
            None => Ok(u16::MAX),
        };
        holds(rt, found == *one, line);
    }
    let is_end = all.next().is_none() && all.next().is_none();
    holds(rt, is_end, line);
}

#[test]
fn malformed(rt: HostRuntime) {
    let alloc = rt.alloc();
    yields(&rt, alloc, "dsa", &[]);
    // a payload in the middle, and a truncated header
    let cause = Cause::WrongLength { want: 4, got: 1 };
    let fault = DecodeFault::Value { kind: 1, cause };
    let length = ListFault { at: 8, fault };
    let fault = DecodeFault::Frame(Cause::ShortFrame { left: 2 });
    let short = ListFault { at: 20, fault };
    let line = "dsa 08000100 2a000000 05000100 07000000 04000280 0300";
    yields(&rt, alloc, line, &[Ok(1), Err(length), Ok(2), Err(short)]);
    // an address, and a header before an attribute that is not returned
    let cause = Cause::Overrun { length: 9, left: 6 };
    let fault = DecodeFault::NestedFrame { kind: 8, cause };
    let address = ListFault { at: 0, fault };
    let fault = DecodeFault::Frame(Cause::SmallLength { length: 3 });
    let small = ListFault { at: 20, fault };
    let line = "bond 0a000800 09000000 0a000000 08000300 64000000 03000100 08000300 64000000";
    yields(&rt, alloc, line, &[Err(address), Ok(3), Err(small)]);
}

/// The names are those of the kernel's headers: `Display` output for enums, the constants without their prefix for bits.
#[test]
fn names(rt: HostRuntime) {
    for (line, number, name) in [
        ("bond 05000100 04000000", 4, "802.3ad"),
        ("bond 05000100 04000000", 200, ""),
        ("hsr 05000700 01000000", 1, "prp"),
        ("bond_port 05000700 3d000000", 128, "EXPIRED"),
        ("bond_port 05000700 3d000000", 3, ""),
        ("bond_port 06000800 3f010000", 8, "SYNCHRONIZATION"),
        ("bond_port 06000800 3f010000", 256, ""),
        ("vlan 0c000200 01000000 1f000000", 4, "LOOSE_BINDING"),
        ("vlan 0c000200 01000000 1f000000", 32, ""),
        ("bridge 0a001400 0180c200 00000000", 1, ""),
    ] {
        let (family, list) = list_of(&rt, rt.alloc(), line);
        let label = only(&rt, family, &list, line).label().expect(&rt, line);
        holds(&rt, label.name_of(number).unwrap_or("") == name, name);
    }
}

/// Numbers by their width. A boolean is no number.
#[test]
fn numbers(rt: HostRuntime) {
    for (line, byte, word, double, quad) in [
        ("bridge 05002b00 03000000", Some(3), None, None, None),
        ("bridge 06000900 08000000", None, Some(8), None, None),
        ("bridge 08000100 dc050000", None, None, Some(1500), None),
        (
            "bridge 0c001000 64000000 00000000",
            None,
            None,
            None,
            Some(100),
        ),
        ("bridge 05002500 01000000", None, None, None, None),
    ] {
        let (family, list) = list_of(&rt, rt.alloc(), line);
        let value = only(&rt, family, &list, line);
        holds(&rt, value.as_u8() == byte && value.as_u16() == word, line);
        holds(
            &rt,
            value.as_u32() == double && value.as_u64() == quad,
            line,
        );
    }
}

/// Structs by their type.
#[test]
fn structs(rt: HostRuntime) {
    let alloc = rt.alloc();
    // a bridge identifier, with a ninth byte
    let digits = "0d000b00 80000200 00000001 00000000";
    let list = bytes(&rt, alloc, digits);
    let (priority, address) = (0x8000, [2, 0, 0, 0, 0, 1]);
    let id: Option<BridgeId> = only(&rt, Family::Bridge, &list, digits).as_struct();
    holds(&rt, id == Some(BridgeId { priority, address }), digits);
    // a bit timing of 1 to 8, and a clock
    let digits =
        "24000100 01000000 02000000 03000000 04000000 05000000 06000000 07000000 08000000 08000300 00127a00";
    let list = bytes(&rt, alloc, digits);
    let view = views::view_list::<InfoCan>(&list).expect(&rt, digits);
    let timing = view.find(1).expect(&rt, digits);
    let wanted = CanBitTiming {
        bitrate: 1,
        sample_point: 2,
        tq: 3,
        prop_seg: 4,
        phase_seg1: 5,
        phase_seg2: 6,
        sjw: 7,
        brp: 8,
    };
    holds(&rt, timing.as_struct() == Some(wanted), digits);
    // 32 bytes are no clock, and a clock is no bit timing
    let none: Option<CanClock> = timing.as_struct();
    holds(&rt, none.is_none(), digits);
    let clock = view.find(3).expect(&rt, digits);
    holds(
        &rt,
        clock.as_struct() == Some(CanClock { freq: 8_000_000 }),
        digits,
    );
    let none: Option<CanBitTiming> = clock.as_struct();
    holds(&rt, none.is_none(), digits);
}

/// The limits of a bit timing, whose name is not UTF-8.
#[test]
fn limits(rt: HostRuntime) {
    let digits =
        "34000200 6dff7800 61000000 00000000 00000000 03000000 10000000 02000000 08000000 04000000 01000000 40000000 05000000";
    let list = bytes(&rt, rt.alloc(), digits);
    let value = only(&rt, Family::Can, &list, digits);
    let limits = CanBitTimingLimits::from_payload(value.buffer().value()).expect(&rt, digits);
    let are_limits = limits.name == [0x6d, 0xff, 0x78].as_slice()
        && (limits.tseg1_min, limits.tseg1_max) == (3, 16)
        && (limits.tseg2_min, limits.tseg2_max) == (2, 8)
        && (
            limits.sjw_max,
            limits.brp_min,
            limits.brp_max,
            limits.brp_inc,
        ) == (4, 1, 64, 5);
    holds(&rt, are_limits, digits);
    let name = match value.content() {
        Content::Limits { name, .. } => name,
        _ => &[],
    };
    holds(&rt, name == limits.name, digits);
    let short = CanBitTimingLimits::from_payload(&[0; 47]).is_none();
    holds(&rt, short, "47 bytes");
}
