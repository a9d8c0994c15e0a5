//! Tests fixed-layout structs that are not attributes, the types for whole `IFLA_AF_SPEC` and `IFLA_PROTINFO` lists, and
//! the errors of parsing them.

use crate::tests::{bytes, list};
use bitflags::Flags;
use netlink_packet_route::link::{
    AfSpecBridge, BridgeBooleanOptionFlags, BridgeBooleanOptions, BridgeFlag, BridgeId,
    BridgeIdBuffer, BridgeVlanInfo, BridgeVlanInfoFlags, BridgeVlanTunnelInfo, CanBitTiming,
    CanClock, Cause, DecodeError, DecodeFault, Emitable, LinkProtoInfoBridge, ListError,
    VecAfSpecBridge, VecLinkProtoInfoBridge,
};

fn refusal(cause: Cause) -> DecodeError {
    DecodeError::Fault(DecodeFault::Payload(cause))
}

#[test]
fn identifiers(rt: HostRuntime) {
    let id = BridgeId {
        priority: 32768,
        address: [2, 0, 0, 0, 0, 1],
    };
    let mut buffer = [0xFF; 10];
    assert!(rt; id.buffer_len() == 8);
    id.emit(&mut buffer);
    assert!(rt; buffer == [0x80, 0, 2, 0, 0, 0, 0, 1, 0xFF, 0xFF]);
    assert!(rt; BridgeId::parse(&buffer) == Ok(id) && BridgeId::parse(&buffer[..8]) == Ok(id));
    let short = refusal(Cause::TooShort { want: 8, got: 7 });
    assert!(rt; BridgeId::parse(&buffer[..7]) == Err(short));
    assert!(rt; BridgeId::from(BridgeIdBuffer::from(&id)) == id);
}

#[test]
fn options(rt: HostRuntime) {
    let options = BridgeBooleanOptions {
        value: BridgeBooleanOptionFlags::NoLinkLocalLearn,
        mask: BridgeBooleanOptionFlags::from_bits_retain(0x8000_0003),
    };
    let mut buffer = [0xFF; 9];
    assert!(rt; options.buffer_len() == 8);
    options.emit(&mut buffer);
    assert!(rt; buffer == [1, 0, 0, 0, 3, 0, 0, 0x80, 0xFF]);
    assert!(rt; BridgeBooleanOptions::parse(&buffer[..8]) == Ok(options));
    let long = refusal(Cause::WrongLength { want: 8, got: 9 });
    assert!(rt; BridgeBooleanOptions::parse(&buffer) == Err(long));
    let short = refusal(Cause::TooShort { want: 8, got: 7 });
    assert!(rt; BridgeBooleanOptions::parse(&buffer[..7]) == Err(short));
}

#[test]
fn vlans(rt: HostRuntime) {
    let info = BridgeVlanInfo {
        flags: BridgeVlanInfoFlags::from_bits_retain(0x8006),
        vid: 0x0102,
    };
    let octets = <[u8; 4]>::from(&info);
    assert!(rt; octets == [0x06, 0x80, 0x02, 0x01]);
    assert!(rt; BridgeVlanInfo::try_from(octets.as_slice()) == Ok(info));
    let short = refusal(Cause::WrongLength { want: 4, got: 3 });
    assert!(rt; BridgeVlanInfo::try_from(&octets[..3]) == Err(short));
}

#[test]
fn constructors(rt: HostRuntime) {
    let timing = CanBitTiming::new(250_000);
    assert!(rt; timing.bitrate == 250_000 && timing.brp == 0);
    assert!(rt; CanBitTiming::default() == CanBitTiming::new(0));
    assert!(rt; CanClock::default() == CanClock { freq: 0 });
}

#[test]
fn af_spec(rt: HostRuntime) {
    let alloc = rt.alloc();
    let payload = bytes(&rt, alloc, "06000000 02000000 0c000380 08000100 64000000");
    let flags = AfSpecBridge::Flags(BridgeFlag::LowerDev);
    let tunnels = list(&rt, alloc, [BridgeVlanTunnelInfo::Id(100)]);
    let tunnels = AfSpecBridge::VlanTunnelInfo(tunnels);
    let wanted = VecAfSpecBridge(list(&rt, alloc, [flags, tunnels]));
    assert!(rt; VecAfSpecBridge::parse(alloc, &payload) == Ok(wanted));
    let flags = AfSpecBridge::Flags(BridgeFlag::LowerDev);
    let wanted = VecAfSpecBridge(list(&rt, alloc, [flags]));
    let payload = bytes(&rt, alloc, "06000000 02000000");
    assert!(rt; VecAfSpecBridge::parse(alloc, &payload) == Ok(wanted));
    let payload = bytes(&rt, alloc, "06000000 02000000 0c000380 08000240 0a000000");
    let cause = Cause::WrongLength { want: 2, got: 4 };
    let fault = DecodeFault::NestedValue {
        kind: 3,
        inner: 2,
        cause,
    };
    let refused = Err(ListError::Fault { at: 8, fault });
    assert!(rt; VecAfSpecBridge::parse(alloc, &payload) == refused);
}

#[test]
fn protocol_information(rt: HostRuntime) {
    let alloc = rt.alloc();
    let payload = bytes(&rt, alloc, "05002d00 01000000");
    let neighbors = list(&rt, alloc, [LinkProtoInfoBridge::NeighForwardGrat(true)]);
    let wanted = VecLinkProtoInfoBridge(neighbors);
    assert!(rt; VecLinkProtoInfoBridge::parse(alloc, &payload) == Ok(wanted));
    let payload = bytes(&rt, alloc, "05000400 07000000 06002dc0 0102");
    let cause = Cause::WrongLength { want: 1, got: 2 };
    let fault = DecodeFault::Value { kind: 45, cause };
    let refused = Err(ListError::Fault { at: 8, fault });
    assert!(rt; VecLinkProtoInfoBridge::parse(alloc, &payload) == refused);
    let fault = DecodeFault::Frame(Cause::ShortFrame { left: 1 });
    let refused = Err(ListError::Fault { at: 0, fault });
    assert!(rt; VecLinkProtoInfoBridge::parse(alloc, &[5]) == refused);
}
