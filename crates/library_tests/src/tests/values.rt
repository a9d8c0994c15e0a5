//! Tests values of bytes that were decoded by hand, of each class of payloads and of each variant that owns heap memory:
//! they are parsed, cloned and written.

use crate::decodes_to;
use crate::tests::{are_kept, are_refused, bytes, holds, is_written, list, reads_as};
use bitflags::Flags;
use netlink_packet_route::link::{
    AfSpecBridge, BondAdInfo, BondArpValidate, BondMode, BridgeBooleanOptionFlags,
    BridgeBooleanOptions, BridgeFlag, BridgeId, BridgeQuerierState, BridgeVlanInfo,
    BridgeVlanInfoFlags, BridgeVlanTunnelInfo, CanBerrCounter, CanBitTiming, CanBitTimingConst,
    CanClock, CanCtrlMode, CanCtrlModeExt, CanCtrlModeFlags, CanTdc, Cause, DecodeFault,
    DefaultNla, HsrProtocol, InfoBond, InfoBondPort, InfoBridge, InfoBridgePort, InfoCan, InfoDsa,
    InfoHsr, InfoVlan, LacpState, LinkProtoInfoBridge, VlanFlags, VlanProtocol, VlanQosMapping,
};
use std::alloc::Global;
use std::net::{Ipv4Addr, Ipv6Addr};
use std::process::Abort;

/// Returns the attribute with this `nla_type` and payload.
fn any<const N: usize>(rt: &impl Abort, alloc: Global, kind: u16, payload: [u8; N]) -> DefaultNla {
    DefaultNla::new(kind, list(rt, alloc, payload))
}

#[test]
fn any_kind(rt: HostRuntime) {
    let alloc = rt.alloc();
    let value = any(&rt, alloc, 0x8001, [7]);
    are_kept(&rt, alloc, &[("05000180 07000000", value)]);
    let value = any(&rt, alloc, 0xC063, [0xDE, 0xAD]);
    reads_as(&rt, alloc, "060063c0 dead", value);
}

#[test]
fn dsa(rt: HostRuntime) {
    let alloc = rt.alloc();
    are_kept(
        &rt,
        alloc,
        &[
            ("08000100 2a000000", InfoDsa::Conduit(42)),
            ("04000000", InfoDsa::Other(any(&rt, alloc, 0, []))),
            (
                "060002c0 01020000",
                InfoDsa::Other(any(&rt, alloc, 0xC002, [1, 2])),
            ),
        ],
    );
    reads_as(&rt, alloc, "08000180 2a000000", InfoDsa::Conduit(42));
    let digits = "08000100 2a000000 08000100 2a000000";
    let two = [InfoDsa::Conduit(42), InfoDsa::Conduit(42)];
    let two_bytes = bytes(&rt, alloc, digits);
    holds(&rt, decodes_to(alloc, &two_bytes, &two), digits);
}

#[test]
fn hsr(rt: HostRuntime) {
    let alloc = rt.alloc();
    let address = InfoHsr::SupervisionAddr([0x01, 0x15, 0x4E, 0x00, 0x01, 0x00]);
    let other = InfoHsr::Other(any(&rt, alloc, 9, [1, 2, 3, 4]));
    are_kept(
        &rt,
        alloc,
        &[
            ("05000700 01000000", InfoHsr::Protocol(HsrProtocol::Prp)),
            ("0a000400 01154e00 01000000", address),
            ("08000900 01020304", other),
        ],
    );
}

#[test]
fn vlan(rt: HostRuntime) {
    let alloc = rt.alloc();
    let flags = InfoVlan::Flags((VlanFlags::ReorderHdr, VlanFlags::from_bits_retain(0x1F)));
    let egress = InfoVlan::EgressQos(list(&rt, alloc, [VlanQosMapping::Mapping(1, 2)]));
    let ingress = InfoVlan::IngressQos(list(&rt, alloc, [VlanQosMapping::Mapping(7, 0)]));
    are_kept(
        &rt,
        alloc,
        &[
            ("0c000200 01000000 1f000000", flags),
            (
                "06000500 88a80000",
                InfoVlan::Protocol(VlanProtocol::Ieee8021Ad),
            ),
            ("10000300 0c000100 01000000 02000000", egress),
            ("10000400 0c000100 07000000 00000000", ingress),
            (
                "06006300 dead0000",
                InfoVlan::Other(any(&rt, alloc, 99, [0xDE, 0xAD])),
            ),
        ],
    );
    // both flags, and no padding
    let other = InfoVlan::Other(any(&rt, alloc, 0xC063, [0xDE, 0xAD]));
    reads_as(&rt, alloc, "060063c0 dead", other);
    let other = VlanQosMapping::Other(any(&rt, alloc, 0xC009, [0xDE, 0xAD]));
    are_kept(
        &rt,
        alloc,
        &[
            ("0c000100 01000000 02000000", VlanQosMapping::Mapping(1, 2)),
            ("060009c0 dead0000", other),
        ],
    );
}

#[test]
fn can(rt: HostRuntime) {
    let alloc = rt.alloc();
    let modes = CanCtrlMode {
        mask: CanCtrlModeFlags::from_bits_retain(0x21),
        flags: CanCtrlModeFlags::Fd,
    };
    let timing = CanBitTiming {
        bitrate: 500_000,
        sample_point: 875,
        tq: 125,
        prop_seg: 6,
        phase_seg1: 7,
        phase_seg2: 2,
        sjw: 1,
        brp: 4,
    };
    let digits = "24000100 20a10700 6b030000 7d000000 06000000 07000000 02000000 01000000 04000000";
    are_kept(
        &rt,
        alloc,
        &[
            (
                "08000300 00127a00",
                InfoCan::Clock(CanClock::new(8_000_000)),
            ),
            ("0c000500 21000000 20000000", InfoCan::CtrlMode(modes)),
            (digits, InfoCan::BitTiming(timing)),
            (
                "06001200 01000000",
                InfoCan::Other(any(&rt, alloc, 18, [1, 0])),
            ),
        ],
    );
    // what follows a struct is ignored
    let counts = InfoCan::BerrCounter(CanBerrCounter { txerr: 1, rxerr: 2 });
    reads_as(&rt, alloc, "0a000800 01000200 ffff0000", counts);
}

/// The limits of a bit timing. Their names are tested in `can_names.rt`.
#[test]
fn limits_of_can(rt: HostRuntime) {
    let alloc = rt.alloc();
    let limits = |name: &str| CanBitTimingConst {
        name: String::from_str(alloc, name).expect(&rt, name),
        tseg1_min: 3,
        tseg1_max: 16,
        tseg2_min: 2,
        tseg2_max: 8,
        sjw_max: 4,
        brp_min: 1,
        brp_max: 64,
        brp_inc: 5,
    };
    let first =
        "34000200 6d637032 35317866 64000000 00000000 03000000 10000000 02000000 08000000 04000000 01000000 40000000 05000000";
    let second =
        "34000a00 61000000 00000000 00000000 00000000 03000000 10000000 02000000 08000000 04000000 01000000 40000000 05000000";
    are_kept(
        &rt,
        alloc,
        &[
            (first, InfoCan::BitTimingConst(limits("mcp251xfd"))),
            (second, InfoCan::DataBitTimingConst(limits("a"))),
        ],
    );
}

#[test]
fn lists_of_can(rt: HostRuntime) {
    let alloc = rt.alloc();
    let resistances = InfoCan::TerminationConst(list(&rt, alloc, [120, 0]));
    let rates = InfoCan::BitrateConst(list(&rt, alloc, [125_000, 100_000]));
    let data_rates = InfoCan::DataBitrateConst(list(&rt, alloc, [2_000_000]));
    let tdc = InfoCan::Tdc(list(&rt, alloc, [CanTdc::Tdcv(3)]));
    let fd = CanCtrlModeExt::Supported(CanCtrlModeFlags::Fd);
    let modes = InfoCan::CtrlModeExt(list(&rt, alloc, [fd]));
    are_kept(
        &rt,
        alloc,
        &[
            ("08000c00 78000000", resistances),
            ("0c000d00 48e80100 a0860100", rates),
            ("04000d00", InfoCan::BitrateConst(Vec::new(alloc))),
            ("08000e00 80841e00", data_rates),
            ("0c001080 08000700 03000000", tdc),
            ("0c001180 08000100 20000000", modes),
        ],
    );
    // each number is little-endian, whatever the flags of the attribute type, and there is no padding
    let numbers = InfoCan::TerminationConst(list(&rt, alloc, [0x0201, 0x0403, 0xFFFF]));
    reads_as(&rt, alloc, "0a000cc0 01020304 ffff", numbers);
    // a list without the nested flag
    let tdc = InfoCan::Tdc(list(&rt, alloc, [CanTdc::Tdcv(3)]));
    reads_as(&rt, alloc, "0c001000 08000700 03000000", tdc);
    let other = CanTdc::Other(any(&rt, alloc, 0xC00A, [0xDE, 0xAD]));
    are_kept(&rt, alloc, &[("06000ac0 dead0000", other)]);
    let other = CanCtrlModeExt::Other(any(&rt, alloc, 0xC002, [0xDE, 0xAD]));
    are_kept(&rt, alloc, &[("060002c0 dead0000", other)]);
}

#[test]
fn bond(rt: HostRuntime) {
    let alloc = rt.alloc();
    let first = Ipv4Addr::new(10, 0, 0, 1);
    let second = Ipv4Addr::new(10, 0, 0, 2);
    let two = InfoBond::ArpIpTarget(list(&rt, alloc, [first, second]));
    let local = Ipv6Addr::new(0, 0, 0, 0, 0, 0, 0, 1);
    let local = InfoBond::NsIp6Target(list(&rt, alloc, [local]));
    let aggregate = InfoBond::AdInfo(list(&rt, alloc, [BondAdInfo::Aggregator(7)]));
    are_kept(
        &rt,
        alloc,
        &[
            (
                "08000900 04000000",
                InfoBond::ArpValidate(BondArpValidate::Filter),
            ),
            ("05000100 01000000", InfoBond::Mode(BondMode::ActiveBackup)),
            ("14000800 08000000 0a000001 08000100 0a000002", two),
            (
                "18001f00 14000000 00000000 00000000 00000000 00000001",
                local,
            ),
            ("0c001700 06000100 07000000", aggregate),
            (
                "08002300 01020304",
                InfoBond::Other(any(&rt, alloc, 35, [1, 2, 3, 4])),
            ),
        ],
    );
    let other = BondAdInfo::Other(any(&rt, alloc, 0xC006, [0xDE, 0xAD]));
    are_kept(&rt, alloc, &[("060006c0 dead0000", other)]);
    reads_as(
        &rt,
        alloc,
        "050001c0 090000ff",
        InfoBond::Mode(BondMode::Other(9)),
    );
    is_written(
        &rt,
        alloc,
        "05000100 01000000",
        InfoBond::Mode(BondMode::Other(1)),
    );
    // an element with flags and another number, one that is no address, and one without padding
    let one = InfoBond::ArpIpTarget(list(&rt, alloc, [first]));
    reads_as(&rt, alloc, "0c000800 08000580 0a000001", one);
    let none = InfoBond::ArpIpTarget(Vec::new(alloc));
    reads_as(&rt, alloc, "0c000800 06000000 0a000000", none);
    let aggregate = InfoBond::AdInfo(list(&rt, alloc, [BondAdInfo::Aggregator(7)]));
    reads_as(&rt, alloc, "0a001700 06000100 07000000", aggregate);
}

#[test]
fn bond_port(rt: HostRuntime) {
    let alloc = rt.alloc();
    let address = InfoBondPort::PermHwaddr(list(&rt, alloc, [2, 0, 0, 0, 0, 1]));
    let actor = InfoBondPort::AdActorOperPortState(LacpState::from_bits_retain(0x3D));
    are_kept(
        &rt,
        alloc,
        &[
            ("08000900 ffffffff", InfoBondPort::Prio(-1)),
            ("0a000400 02000000 00010000", address),
            ("05000700 3d000000", actor),
            (
                "08000d00 01020304",
                InfoBondPort::Other(any(&rt, alloc, 13, [1, 2, 3, 4])),
            ),
        ],
    );
    let partner = InfoBondPort::AdPartnerOperPortState(LacpState::from_bits_retain(0x3F));
    reads_as(&rt, alloc, "06000800 3f010000", partner);
}

#[test]
fn bridge(rt: HostRuntime) {
    let alloc = rt.alloc();
    let options = InfoBridge::MultiBoolOpt(BridgeBooleanOptions {
        value: BridgeBooleanOptionFlags::NoLinkLocalLearn,
        mask: BridgeBooleanOptionFlags::from_bits_retain(3),
    });
    let address = BridgeQuerierState::Ipv4Address(Ipv4Addr::new(192, 168, 0, 1));
    let one = InfoBridge::MulticastQuerierState(list(&rt, alloc, [address]));
    are_kept(
        &rt,
        alloc,
        &[
            ("04001500", InfoBridge::FdbFlush),
            ("0c002e00 01000000 03000000", options),
            ("0c002f80 08000100 c0a80001", one),
            (
                "04002f80",
                InfoBridge::MulticastQuerierState(Vec::new(alloc)),
            ),
            ("04002800", InfoBridge::Other(any(&rt, alloc, 40, []))),
            (
                "060028c0 01020000",
                InfoBridge::Other(any(&rt, alloc, 0xC028, [1, 2])),
            ),
        ],
    );
    reads_as(&rt, alloc, "07001500 01020300", InfoBridge::FdbFlush);
    let none = InfoBridge::MulticastQuerierState(Vec::new(alloc));
    reads_as(&rt, alloc, "04002f00", none);
    let unknown = InfoBridge::VlanProtocol(VlanProtocol::Ieee8021Q);
    reads_as(&rt, alloc, "06000800 12340000", unknown);
    let (priority, address) = (32768, [2, 0, 0, 0, 0, 1]);
    let id = InfoBridge::BridgeId(BridgeId { priority, address });
    reads_as(&rt, alloc, "0e000b00 80000200 00000001 ffff0000", id);
    let local = BridgeQuerierState::Ipv6Address(Ipv6Addr::new(0, 0, 0, 0, 0, 0, 0, 1));
    let other = BridgeQuerierState::Other(any(&rt, alloc, 0x4004, [7]));
    are_kept(
        &rt,
        alloc,
        &[
            ("14000500 00000000 00000000 00000000 00000001", local),
            ("05000440 07000000", other),
        ],
    );
}

#[test]
fn ports_of_bridges(rt: HostRuntime) {
    let alloc = rt.alloc();
    are_kept(
        &rt,
        alloc,
        &[
            ("05000b00 01000000", InfoBridgePort::LearningSync(true)),
            ("04001800", InfoBridgePort::Flush),
            (
                "06001ac0 01020000",
                InfoBridgePort::Other(any(&rt, alloc, 0xC01A, [1, 2])),
            ),
        ],
    );
    for digits in [
        "05000b80 07000000",
        "05000b00 07000000",
        "05000b80 01000000",
    ] {
        reads_as(&rt, alloc, digits, InfoBridgePort::LearningSync(true));
    }
    let hairpin = InfoBridgePort::HairpinMode(true);
    reads_as(&rt, alloc, "05000400 07000000", hairpin);
    reads_as(&rt, alloc, "06001800 01020000", InfoBridgePort::Flush);
    let (priority, address) = (32768, [2, 0, 0, 0, 0, 1]);
    let root = InfoBridgePort::RootId(BridgeId { priority, address });
    reads_as(&rt, alloc, "0e000d00 80000200 00000001 ffff", root);
    // any other attribute of a port is kept unchanged
    let hairpin = LinkProtoInfoBridge::Other(any(&rt, alloc, 4, [7]));
    are_kept(
        &rt,
        alloc,
        &[
            (
                "05002d00 01000000",
                LinkProtoInfoBridge::NeighForwardGrat(true),
            ),
            ("05000400 07000000", hairpin),
        ],
    );
}

#[test]
fn af_spec(rt: HostRuntime) {
    let alloc = rt.alloc();
    let info = AfSpecBridge::VlanInfo(BridgeVlanInfo {
        flags: BridgeVlanInfoFlags::Pvid.union(BridgeVlanInfoFlags::Untagged),
        vid: 1,
    });
    let id = BridgeVlanTunnelInfo::Id(100);
    let vid = BridgeVlanTunnelInfo::Vid(10);
    let flags = BridgeVlanTunnelInfo::Flags(BridgeVlanInfoFlags::RangeEnd);
    let tunnel = AfSpecBridge::VlanTunnelInfo(list(&rt, alloc, [id, vid, flags]));
    are_kept(
        &rt,
        alloc,
        &[
            (
                "06000000 02000000",
                AfSpecBridge::Flags(BridgeFlag::LowerDev),
            ),
            ("08000200 06000100", info),
            (
                "1c000300 08000100 64000000 06000200 0a000000 06000300 10000000",
                tunnel,
            ),
            ("04000300", AfSpecBridge::VlanTunnelInfo(Vec::new(alloc))),
            (
                "08000480 01020304",
                AfSpecBridge::Other(any(&rt, alloc, 0x8004, [1, 2, 3, 4])),
            ),
        ],
    );
    let id = BridgeVlanTunnelInfo::Id(100);
    let vid = BridgeVlanTunnelInfo::Vid(10);
    let flags = BridgeVlanTunnelInfo::Flags(BridgeVlanInfoFlags::empty());
    let tunnel = AfSpecBridge::VlanTunnelInfo(list(&rt, alloc, [id, vid, flags]));
    let digits = "1c000300 08000100 64000000 06000200 0a000000 06000300 00000000";
    are_kept(&rt, alloc, &[(digits, tunnel)]);
    let other = BridgeVlanTunnelInfo::Other(any(&rt, alloc, 0xC000, [7]));
    are_kept(&rt, alloc, &[("050000c0 07000000", other)]);
}

/// The error of a payload that has `got` bytes.
fn wrong_length(kind: u16, want: usize, got: usize) -> DecodeFault {
    let cause = Cause::WrongLength { want, got };
    DecodeFault::Value { kind, cause }
}

fn too_short(kind: u16, want: usize, got: usize) -> DecodeFault {
    let cause = Cause::TooShort { want, got };
    DecodeFault::Value { kind, cause }
}

/// The error of an element that has `got` bytes.
fn wrong_element(kind: u16, inner: u16, want: usize, got: usize) -> DecodeFault {
    let cause = Cause::WrongLength { want, got };
    DecodeFault::NestedValue { kind, inner, cause }
}

fn wrong_frame(kind: u16, cause: Cause) -> DecodeFault {
    DecodeFault::NestedFrame { kind, cause }
}

#[test]
fn faults(rt: HostRuntime) {
    let alloc = rt.alloc();
    let (short, small) = (
        Cause::ShortFrame { left: 2 },
        Cause::SmallLength { length: 3 },
    );
    let rows = [
        ("05000100 0a000000", wrong_length(1, 2, 1)),
        ("08000300 03000100", wrong_frame(3, small)),
        ("0a000300 04000900 ffff0000", wrong_frame(3, short)),
        (
            "0f000300 0b000100 01000000 02000000",
            wrong_element(3, 1, 8, 7),
        ),
    ];
    are_refused::<InfoVlan>(&rt, alloc, &rows);
    let overrun = Cause::Overrun { length: 9, left: 6 };
    let rows = [("0a000800 09000000 0a000000", wrong_frame(8, overrun))];
    are_refused::<InfoBond>(&rt, alloc, &rows);
    let rows = [
        ("0b002e00 00000000 00000000", too_short(46, 8, 7)),
        (
            "0d002e00 00000000 00000000 00000000",
            wrong_length(46, 8, 9),
        ),
        ("09002f80 05000100 c0000000", wrong_element(47, 1, 4, 1)),
    ];
    are_refused::<InfoBridge>(&rt, alloc, &rows);
}

#[test]
fn other_faults(rt: HostRuntime) {
    let alloc = rt.alloc();
    let rows = [
        ("07000300 01020300", too_short(3, 4, 3)),
        ("09000300 00127a00 ff000000", wrong_length(3, 4, 5)),
        ("07000c00 01020300", wrong_length(12, 2, 3)),
        ("0a000e00 01000000 02000000", wrong_length(14, 4, 6)),
    ];
    are_refused::<InfoCan>(&rt, alloc, &rows);
    // before a truncated header
    let rows = [("05000100 2a000000 0300", wrong_length(1, 4, 1))];
    are_refused::<InfoDsa>(&rt, alloc, &rows);
    let rows = [("07000200 06000100", wrong_length(2, 4, 3))];
    are_refused::<AfSpecBridge>(&rt, alloc, &rows);
    let rows = [("06000b00 01000000", wrong_length(11, 1, 2))];
    are_refused::<InfoBridgePort>(&rt, alloc, &rows);
}
