//! Tests the functions of `uses` on what `ip link add` of iproute2 6.1 sends for a bond and for a VLAN, and on other
//! input.

use netlink_packet_route::Family;
use netlink_packet_route::link::{
    BondMode, Cause, DecodeFault, InfoBond, InfoBridge, InfoVlan, ListFault, VlanProtocol,
    read_list, rewrite_as, rewrite_streaming_as, rewrite_to_slice_as,
};
use uses::{
    BufferError, InfoIpoib, bond_message, bond_request, bridge_request, canonical, delete_link,
    first_fault, forward_delay, ipoib_mode, join, last_forward_delay, monitoring, normalised,
    print_list, read_front, vlan_request, with_attribute, with_vlan_id, write_into,
};

/// `ip link add bond0 type bond mode 802.3ad miimon 100`
const BOND: [u8; 16] = [5, 0, 1, 0, 4, 0, 0, 0, 8, 0, 3, 0, 100, 0, 0, 0];

/// `ip link add link eth0 name vlan5 type vlan proto 802.1ad id 5 egress-qos-map 1:2`
const VLAN: [u8; 32] = [
    6, 0, 5, 0, 0x88, 0xA8, 0, 0, 6, 0, 1, 0, 5, 0, 0, 0, 16, 0, 3, 0, 12, 0, 1, 0, 1, 0, 0, 0, 2,
    0, 0, 0,
];

/// A forward delay of 1500 clock ticks (`IFLA_BR_FORWARD_DELAY`), VLAN filtering (`IFLA_BR_VLAN_FILTERING`), and the
/// spanning tree protocol of the kernel (`IFLA_BR_STP_STATE`).
const BRIDGE: [u8; 24] = [
    8, 0, 1, 0, 0xDC, 5, 0, 0, 5, 0, 7, 0, 1, 0, 0, 0, 8, 0, 5, 0, 1, 0, 0, 0,
];

/// The partition key 0x8001 of an IPoIB device (`IFLA_IPOIB_PKEY`), and the mode `IPOIB_MODE_CONNECTED`
/// (`IFLA_IPOIB_MODE`).
const IPOIB: [u8; 16] = [6, 0, 1, 0, 1, 0x80, 0, 0, 6, 0, 2, 0, 1, 0, 0, 0];

/// `ip link add bond0 type bond mode 802.3ad miimon 100`, the whole message, with sequence number 0.
const BOND_MESSAGE: [u8; 76] = [
    76, 0, 0, 0, 16, 0, 5, 6, 0, 0, 0, 0, 0, 0, 0, 0, 0, 0, 0, 0, 0, 0, 0, 0, 0, 0, 0, 0, 0, 0, 0,
    0, 10, 0, 3, 0, b'b', b'o', b'n', b'd', b'0', 0, 0, 0, 32, 0, 18, 0, 8, 0, 1, 0, b'b', b'o',
    b'n', b'd', 20, 0, 2, 0, 5, 0, 1, 0, 4, 0, 0, 0, 8, 0, 3, 0, 100, 0, 0, 0,
];

/// `ip link set va master br0`, where the links have the indexes 3 and 4, with sequence number 0.
const JOIN: [u8; 40] = [
    40, 0, 0, 0, 16, 0, 5, 0, 0, 0, 0, 0, 0, 0, 0, 0, 0, 0, 0, 0, 3, 0, 0, 0, 0, 0, 0, 0, 0, 0, 0,
    0, 8, 0, 10, 0, 4, 0, 0, 0,
];

/// `ip link del va`, where the link has the index 3, with sequence number 0.
const DELETE: [u8; 32] = [
    32, 0, 0, 0, 17, 0, 5, 0, 0, 0, 0, 0, 0, 0, 0, 0, 0, 0, 0, 0, 3, 0, 0, 0, 0, 0, 0, 0, 0, 0, 0,
    0,
];

#[test]
fn reading(rt: HostRuntime) {
    let alloc = rt.alloc();
    assert!(rt; matches!(forward_delay(alloc, &BRIDGE), Ok(Some(1500))));
    assert!(rt; matches!(last_forward_delay(&BRIDGE), Ok(Some(1500))));
    assert!(rt; matches!(last_forward_delay(&BRIDGE[8..]), Ok(None)));
    let twice = [8, 0, 1, 0, 0xDC, 5, 0, 0, 8, 0, 1, 0, 0xD0, 7, 0, 0];
    assert!(rt; matches!(last_forward_delay(&twice), Ok(Some(2000))));
    let overrun = DecodeFault::Frame(Cause::Overrun { length: 8, left: 7 });
    assert!(rt;
        last_forward_delay(&twice[..15]).err()
            == Some(ListFault {
                at: 8,
                fault: overrun
            })
    );
    assert!(rt;
        matches!(
            monitoring(alloc, &BOND),
            Ok((Some(BondMode::Ieee8023Ad), Some(100)))
        )
    );
    assert!(rt; matches!(monitoring(alloc, &BOND[..8]), Ok((Some(_), None))));
    assert!(rt; matches!(first_fault::<InfoVlan>(alloc, &VLAN), Ok(None)));
    assert!(rt; matches!(first_fault::<InfoVlan>(alloc, &VLAN[..30]), Ok(Some(16))));
    assert!(rt;
        matches!(
            read_front::<InfoVlan>(alloc, &VLAN[..30]),
            Ok((values, Some((16, _)))) if matches!(
                values.as_slice(),
                [InfoVlan::Protocol(VlanProtocol::Ieee8021Ad), InfoVlan::Id(5)]
            )
        )
    );
    let mut out = Vec::new(alloc);
    assert!(rt; print_list::<InfoBond, Vec<u8>>(alloc, &BOND[..14], &mut out).is_ok());
    let printed = b"Mode(Ieee8023Ad)\nfault at 8: overrun 8 6\n".as_slice();
    assert!(rt; out.as_slice() == printed);
}

#[test]
fn own_set(rt: HostRuntime) {
    let alloc = rt.alloc();
    assert!(rt; matches!(ipoib_mode(&IPOIB), Ok(Some(1))));
    assert!(rt; matches!(ipoib_mode(&IPOIB[..8]), Ok(None)));
    let short = DecodeFault::Value {
        kind: 2,
        cause: Cause::WrongLength { want: 2, got: 1 },
    };
    let bad = [6, 0, 1, 0, 2, 0, 0, 0, 5, 0, 2, 0, 1];
    assert!(rt;
        ipoib_mode(&bad).err()
            == Some(ListFault {
                at: 8,
                fault: short
            })
    );
    assert!(rt;
        matches!(
            read_list(alloc, &IPOIB),
            Ok(values) if matches!(values.as_slice(), [InfoIpoib::Pkey(0x8001), InfoIpoib::Mode(1)])
        )
    );
    // The padding at the end is missing in the first input, and not in the output.
    let list = &IPOIB[..14];
    assert!(rt;
        matches!(rewrite_as::<InfoIpoib>(alloc, list), Ok(out) if out.as_slice() == IPOIB.as_slice())
    );
    let mut buffer = [0xFF; 16];
    assert!(rt;
        matches!(
            rewrite_streaming_as::<InfoIpoib>(alloc, list, &mut buffer),
            Ok(16)
        )
    );
    assert!(rt; buffer == IPOIB);
    buffer = [0xFF; 16];
    assert!(rt;
        matches!(
            rewrite_to_slice_as::<InfoIpoib>(alloc, list, &mut buffer),
            Ok(Some(16))
        )
    );
    assert!(rt; buffer == IPOIB);
}

#[test]
fn building(rt: HostRuntime) {
    let alloc = rt.alloc();
    assert!(rt;
        matches!(vlan_request(alloc, 5, 1, 2), Ok(out) if out.as_slice() == VLAN.as_slice())
    );
    assert!(rt;
        matches!(bridge_request(alloc, 1500), Ok(out) if out.as_slice() == BRIDGE.as_slice())
    );
    let mut buffer = [0xFF; 26];
    assert!(rt; matches!(bond_request(100, &mut buffer), Ok(24)));
    assert!(rt; buffer[..16] == BOND[..]);
    assert!(rt; buffer[16..] == [5, 0, 21, 0, 1, 0, 0, 0, 0xFF, 0xFF][..]);
    assert!(rt;
        matches!(
            bond_request(100, &mut buffer[..23]),
            Err(BufferError::TooSmall { needed: 24 })
        )
    );
    assert!(rt; matches!(write_into(&[InfoVlan::Id(5)], &mut buffer), Ok(8)));
    assert!(rt; buffer[..8] == VLAN[8..16]);
}

#[test]
fn requests(rt: HostRuntime) {
    let mut out = [0xFF; 80];
    assert!(rt; matches!(bond_message(&mut out[..75]), Ok(None)));
    assert!(rt; matches!(join(3, 4, &mut out[..39]), Ok(None)));
    assert!(rt; matches!(delete_link(3, &mut out[..31]), Ok(None)));
    assert!(rt; join(0, 4, &mut out).is_err());
    assert!(rt; delete_link(-1, &mut out).is_err());
    assert!(rt; out == [0xFF; 80]);
    assert!(rt; matches!(delete_link(3, &mut out), Ok(Some(32))));
    assert!(rt; out[..32] == DELETE[..] && out[32..] == [0xFF; 48][..]);
    assert!(rt; matches!(join(3, 4, &mut out), Ok(Some(40))));
    assert!(rt; out[..40] == JOIN[..] && out[40..] == [0xFF; 40][..]);
    assert!(rt; matches!(bond_message(&mut out), Ok(Some(76))));
    assert!(rt; out[..76] == BOND_MESSAGE[..] && out[76..] == [0xFF; 4][..]);
}

#[test]
fn changing(rt: HostRuntime) {
    let alloc = rt.alloc();
    // The second identifier has the nested flag; 99 is not a known attribute type.
    let many = [
        6, 0, 1, 0, 5, 0, 0, 0, 6, 0, 99, 0, 0xDE, 0xAD, 0, 0, 6, 0, 1, 0x80, 6, 0,
    ];
    let set = [
        6, 0, 1, 0, 7, 0, 0, 0, 6, 0, 99, 0, 0xDE, 0xAD, 0, 0, 6, 0, 1, 0, 7, 0, 0, 0,
    ];
    assert!(rt;
        matches!(with_vlan_id(alloc, &many, 7), Ok(out) if out.as_slice() == set.as_slice())
    );
    assert!(rt;
        matches!(with_vlan_id(alloc, &many[8..16], 7), Ok(out) if out.as_slice() == &set[8..])
    );
    let aged = [8, 0, 4, 0, 0x30, 0x75, 0, 0, 6, 0, 99, 0, 0xDE, 0xAD, 0, 0];
    let now = [6, 0, 99, 0, 0xDE, 0xAD, 0, 0, 8, 0, 4, 0, 0, 0, 0, 0];
    assert!(rt;
        matches!(
            with_attribute(alloc, &aged, InfoBridge::AgeingTime(0)),
            Ok(out) if out.as_slice() == now.as_slice()
        )
    );
    let loose = [6, 0, 1, 0x80, 5, 0];
    let tidy = [6, 0, 1, 0, 5, 0, 0, 0].as_slice();
    assert!(rt;
        matches!(canonical(alloc, Family::Vlan, &loose), Ok(out) if out.as_slice() == tidy)
    );
    assert!(rt;
        matches!(
            normalised(alloc, Family::Vlan, &loose),
            Ok((out, false)) if out.as_slice() == tidy
        )
    );
    assert!(rt; matches!(normalised(alloc, Family::Vlan, tidy), Ok((_, true))));
}
