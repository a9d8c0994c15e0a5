//! The attributes of a link message.

ghost use Rattle.link_common.specs.Link.{link_table, link_means};

use crate::devlink_port::DevlinkPort;
use crate::dpll_pin::DpllPin;
use crate::link_info::LinkInfo;
use crate::link_map::LinkMap;
use crate::link_names::{ExtMask, LinkEvent, LinkMode, OperState};
use crate::link_property::LinkProperty;
use crate::link_xdp::LinkXdp;
use crate::places::{LinkStats, LinkStats64};
use crate::proto_down_reason::ProtoDownReason;
use link_base::classes::coded::{CodedFlags, Counters};
use link_base::classes::shown::{Held, Shown, Text};
use link_base::rows::by_rows::{AttributeRows, RowVisitor};
use link_base::{
    Attribute, Coded, DecodeError, DefaultNla, Meaning, NestedList, Nla, NlaBuffer, Parseable,
    Place, Struct, TryClone,
};
use std::alloc::{AllocError, Global};

/// An attribute of a message about a link, such as RTM_NEWLINK (`IFLA_*`, `include/uapi/linux/if_link.h`).
///
/// Of the attributes, those marked read-only are reported by the kernel and cannot be set; those marked write-only
/// can be set and are not reported.
///
/// Bytes that are a list of another set are all bytes of the payload. `IFLA_PROTINFO` has no variant, since the
/// kernel tells its two forms apart by NLA_F_NESTED, which [`Other`](Self::Other) keeps.
#[derive(Debug, PartialEq, Eq, Drop)]
pub enum LinkAttribute {
    /// Hardware address: as many bytes as those of the device's type, 6 for Ethernet (`IFLA_ADDRESS`, bytes).
    Address(Vec<u8>),
    /// Broadcast address; of a point-to-point tunnel that of its peer (`IFLA_BROADCAST`, bytes).
    Broadcast(Vec<u8>),
    /// Name, at most 15 bytes (`IFLA_IFNAME`, a text).
    IfName(Vec<u8>),
    /// Maximum size of a packet, in bytes (`IFLA_MTU`, `u32`).
    Mtu(u32),
    /// Interface index of the device below, as of a VLAN's parent, or of a peer; in the namespace `LinkNetnsId`, if
    /// that is there (`IFLA_LINK`, `u32`).
    Link(u32),
    /// Name of the queueing discipline (`IFLA_QDISC`, a text, read-only).
    Qdisc(Vec<u8>),
    /// Counters of packets, bytes and errors, of 32 bits (`IFLA_STATS`, `struct rtnl_link_stats`, read-only).
    Stats(Vec<u32>),
    /// Not used by the kernel (`IFLA_COST`, bytes).
    Cost(Vec<u8>),
    /// Not used by the kernel (`IFLA_PRIORITY`, bytes).
    Priority(Vec<u8>),
    /// Interface index of the device that the link is a port of, as a bond or a bridge; 0 in a request for none
    /// (`IFLA_MASTER`, `u32`).
    Controller(u32),
    /// An event of the wireless extensions (`IFLA_WIRELESS`, bytes, read-only).
    Wireless(Vec<u8>),
    /// Maximum length of the transmit queue, in packets (`IFLA_TXQLEN`, `u32`).
    TxQueueLen(u32),
    /// Resources of the hardware (`IFLA_MAP`, `struct rtnl_link_ifmap`).
    Map(LinkMap),
    /// Accepted and not used by the kernel (`IFLA_WEIGHT`, `u32`, write-only).
    Weight(u32),
    /// Operational state of RFC 2863 (`IFLA_OPERSTATE`, `IF_OPER_*`, `u8`).
    OperState(u8),
    /// Which operational state the link gets when its carrier appears (`IFLA_LINKMODE`, `IF_LINK_MODE_*`, `u8`).
    LinkMode(u8),
    /// Kind of the device, and its attributes (`IFLA_LINKINFO`, a nested list).
    LinkInfo(Vec<LinkInfo>),
    /// Process ID: the link is moved to the network namespace of this process (`IFLA_NET_NS_PID`, `u32`, write-only).
    NetNsPid(u32),
    /// A description of the link; empty in a request removes it (`IFLA_IFALIAS`, a text).
    IfAlias(Vec<u8>),
    /// Number of virtual functions, if the request asks for them (`IFLA_NUM_VF`, `u32`, read-only).
    NumVf(u32),
    /// Virtual functions, if the request asks for them (`IFLA_VFINFO_LIST`, a list of another set).
    VfInfoList(Vec<u8>),
    /// Counters of packets, bytes and errors, of 64 bits (`IFLA_STATS64`, `struct rtnl_link_stats64`, read-only).
    Stats64(Vec<u64>),
    /// Port profiles of virtual functions (`IFLA_VF_PORTS`, a list of another set).
    VfPorts(Vec<u8>),
    /// Port profile of the link itself (`IFLA_PORT_SELF`, a list of another set).
    PortSelf(Vec<u8>),
    /// Attributes of address families: a list whose types are `AF_*`; in AF_BRIDGE messages those of a bridge
    /// (`IFLA_AF_SPEC`, a list of another set).
    AfSpec(Vec<u8>),
    /// Group of the link (`IFLA_GROUP`, `u32`).
    Group(u32),
    /// File descriptor: the link is moved to the network namespace that it names (`IFLA_NET_NS_FD`, `u32`,
    /// write-only).
    NetNsFd(u32),
    /// What a request for links asks for in addition (`IFLA_EXT_MASK`, `RTEXT_FILTER_*`, `u32`, write-only).
    ExtMask(u32),
    /// How many users have set the link to receive all packets (`IFLA_PROMISCUITY`, `u32`, read-only).
    Promiscuity(u32),
    /// Number of transmit queues (`IFLA_NUM_TX_QUEUES`, `u32`).
    NumTxQueues(u32),
    /// Number of receive queues (`IFLA_NUM_RX_QUEUES`, `u32`).
    NumRxQueues(u32),
    /// Whether the link has a carrier (`IFLA_CARRIER`, `u8`).
    Carrier(bool),
    /// Identifier of the physical port, at most 32 bytes (`IFLA_PHYS_PORT_ID`, bytes, read-only).
    PhysPortId(Vec<u8>),
    /// How often the carrier appeared or vanished (`IFLA_CARRIER_CHANGES`, `u32`, read-only).
    CarrierChanges(u32),
    /// Identifier of the switch that the port belongs to, at most 32 bytes (`IFLA_PHYS_SWITCH_ID`, bytes, read-only).
    PhysSwitchId(Vec<u8>),
    /// Number of the namespace of `Link`; -1 if it has none (`IFLA_LINK_NETNSID`, `i32`).
    LinkNetnsId(i32),
    /// Name of the physical port (`IFLA_PHYS_PORT_NAME`, a text, read-only).
    PhysPortName(Vec<u8>),
    /// Whether a protocol keeps the link down (`IFLA_PROTO_DOWN`, `u8`).
    ProtoDown(bool),
    /// Maximum number of segments of a packet that the device or the stack cuts (`IFLA_GSO_MAX_SEGS`, `u32`).
    GsoMaxSegs(u32),
    /// Maximum size of such a packet, in bytes (`IFLA_GSO_MAX_SIZE`, `u32`).
    GsoMaxSize(u32),
    /// Padding before numbers of 64 bits, on machines that have to align them (`IFLA_PAD`, without payload,
    /// read-only).
    Pad,
    /// The program that is attached for received packets (`IFLA_XDP`, a nested list).
    Xdp(Vec<LinkXdp>),
    /// What caused the message (`IFLA_EVENT`, `IFLA_EVENT_*`, `u32`, read-only).
    Event(u32),
    /// Number of the namespace that the link was moved to (`IFLA_NEW_NETNSID`, `i32`, read-only).
    NewNetnsId(i32),
    /// Number of the namespace in which the request is executed; also called `IFLA_IF_NETNSID`
    /// (`IFLA_TARGET_NETNSID`, `i32`).
    TargetNetnsId(i32),
    /// How often the carrier appeared (`IFLA_CARRIER_UP_COUNT`, `u32`, read-only).
    CarrierUpCount(u32),
    /// How often the carrier vanished (`IFLA_CARRIER_DOWN_COUNT`, `u32`, read-only).
    CarrierDownCount(u32),
    /// Interface index that the link has in its new namespace (`IFLA_NEW_IFINDEX`, `u32`).
    NewIfIndex(u32),
    /// Least MTU, in bytes (`IFLA_MIN_MTU`, `u32`, read-only).
    MinMtu(u32),
    /// Greatest MTU, in bytes; 0 for no limit (`IFLA_MAX_MTU`, `u32`, read-only).
    MaxMtu(u32),
    /// Further properties: alternative names (`IFLA_PROP_LIST`, a nested list).
    PropList(Vec<LinkProperty>),
    /// An alternative name, in place of `IfName`, by which a request names the link (`IFLA_ALT_IFNAME`, a text,
    /// write-only).
    AltIfName(Vec<u8>),
    /// Permanent hardware address (`IFLA_PERM_ADDRESS`, bytes, read-only).
    PermAddress(Vec<u8>),
    /// Why protocols keep the link down (`IFLA_PROTO_DOWN_REASON`, a nested list).
    ProtoDownReason(Vec<ProtoDownReason>),
    /// Name of the parent device, as `0000:00:1f.6` (`IFLA_PARENT_DEV_NAME`, a text).
    ParentDevName(Vec<u8>),
    /// Name of the parent device's bus, as `pci` (`IFLA_PARENT_DEV_BUS_NAME`, a text, read-only).
    ParentDevBusName(Vec<u8>),
    /// Maximum size of a packet that is put together from received ones, in bytes (`IFLA_GRO_MAX_SIZE`, `u32`).
    GroMaxSize(u32),
    /// Maximum size of a packet that the device cuts, in bytes (`IFLA_TSO_MAX_SIZE`, `u32`, read-only).
    TsoMaxSize(u32),
    /// Maximum number of its segments (`IFLA_TSO_MAX_SEGS`, `u32`, read-only).
    TsoMaxSegs(u32),
    /// How many users have set the link to receive all multicast packets (`IFLA_ALLMULTI`, `u32`, read-only).
    AllMulti(u32),
    /// The devlink port of the link; empty if it has none (`IFLA_DEVLINK_PORT`, a nested list, read-only).
    DevlinkPort(Vec<DevlinkPort>),
    /// As `GsoMaxSize`, for IPv4 (`IFLA_GSO_IPV4_MAX_SIZE`, `u32`).
    GsoIpv4MaxSize(u32),
    /// As `GroMaxSize`, for IPv4 (`IFLA_GRO_IPV4_MAX_SIZE`, `u32`).
    GroIpv4MaxSize(u32),
    /// The pin of a clock that is recovered from the link; empty if it has none (`IFLA_DPLL_PIN`, a nested list,
    /// read-only).
    DpllPin(Vec<DpllPin>),
    /// How far ahead the device can schedule packets, in nanoseconds: 4 bytes, or 8 if the number needs them
    /// (`IFLA_MAX_PACING_OFFLOAD_HORIZON`, bytes, read-only).
    MaxPacingOffloadHorizon(Vec<u8>),
    /// Whether the link cannot be moved to another network namespace (`IFLA_NETNS_IMMUTABLE`, `u8`, read-only).
    NetnsImmutable(bool),
    /// Bytes that the device needs before a packet (`IFLA_HEADROOM`, `u16`, read-only).
    Headroom(u16),
    /// Bytes that the device needs behind a packet (`IFLA_TAILROOM`, `u16`, read-only).
    Tailroom(u16),
    /// An attribute of any other type.
    Other(DefaultNla),
}

/// The attribute types (`IFLA_*`), the variant of each, and the class of its payload.
macro_rules! rows {
    ($call:ident($($argument:tt)*)) => {
        link_base::by_rows! { $call($($argument)*)
            "IFLA_";
            ..=33 => {
                IFLA_ADDRESS = 1, Address: Vec<u8>;
                IFLA_BROADCAST = 2, Broadcast: Vec<u8>;
                IFLA_IFNAME = 3, IfName: Shown<Text>;
                IFLA_MTU = 4, Mtu: u32;
                IFLA_LINK = 5, Link: u32 as InterfaceIndex;
                IFLA_QDISC = 6, Qdisc: Shown<Text>;
                IFLA_STATS = 7, Stats: Counters<LinkStats>;
                IFLA_COST = 8, Cost: Vec<u8>;
                IFLA_PRIORITY = 9, Priority: Vec<u8>;
                IFLA_MASTER = 10, Controller: u32 as InterfaceIndex;
                IFLA_WIRELESS = 11, Wireless: Vec<u8>;
                IFLA_TXQLEN = 13, TxQueueLen: u32;
                IFLA_MAP = 14, Map: Struct<LinkMap>;
                IFLA_WEIGHT = 15, Weight: u32;
                IFLA_OPERSTATE = 16, OperState: Coded<OperState>;
                IFLA_LINKMODE = 17, LinkMode: Coded<LinkMode>;
                IFLA_LINKINFO = 18, LinkInfo: NestedList<LinkInfo>;
                IFLA_NET_NS_PID = 19, NetNsPid: u32;
                IFLA_IFALIAS = 20, IfAlias: Shown<Text>;
                IFLA_NUM_VF = 21, NumVf: u32;
                IFLA_VFINFO_LIST = 22, VfInfoList: Shown<Held>;
                IFLA_STATS64 = 23, Stats64: Counters<LinkStats64>;
                IFLA_VF_PORTS = 24, VfPorts: Shown<Held>;
                IFLA_PORT_SELF = 25, PortSelf: Shown<Held>;
                IFLA_AF_SPEC = 26, AfSpec: Shown<Held>;
                IFLA_GROUP = 27, Group: u32;
                IFLA_NET_NS_FD = 28, NetNsFd: u32;
                IFLA_EXT_MASK = 29, ExtMask: CodedFlags<ExtMask>;
                IFLA_PROMISCUITY = 30, Promiscuity: u32;
                IFLA_NUM_TX_QUEUES = 31, NumTxQueues: u32;
                IFLA_NUM_RX_QUEUES = 32, NumRxQueues: u32;
                IFLA_CARRIER = 33, Carrier: bool;
            }
            _ => {
                IFLA_PHYS_PORT_ID = 34, PhysPortId: Vec<u8>;
                IFLA_CARRIER_CHANGES = 35, CarrierChanges: u32;
                IFLA_PHYS_SWITCH_ID = 36, PhysSwitchId: Vec<u8>;
                IFLA_LINK_NETNSID = 37, LinkNetnsId: i32;
                IFLA_PHYS_PORT_NAME = 38, PhysPortName: Shown<Text>;
                IFLA_PROTO_DOWN = 39, ProtoDown: bool;
                IFLA_GSO_MAX_SEGS = 40, GsoMaxSegs: u32;
                IFLA_GSO_MAX_SIZE = 41, GsoMaxSize: u32;
                IFLA_PAD = 42, Pad;
                IFLA_XDP = 43, Xdp: NestedList<LinkXdp>;
                IFLA_EVENT = 44, Event: Coded<LinkEvent>;
                IFLA_NEW_NETNSID = 45, NewNetnsId: i32;
                IFLA_TARGET_NETNSID = 46, TargetNetnsId: i32;
                IFLA_CARRIER_UP_COUNT = 47, CarrierUpCount: u32;
                IFLA_CARRIER_DOWN_COUNT = 48, CarrierDownCount: u32;
                IFLA_NEW_IFINDEX = 49, NewIfIndex: u32 as InterfaceIndex;
                IFLA_MIN_MTU = 50, MinMtu: u32;
                IFLA_MAX_MTU = 51, MaxMtu: u32;
                IFLA_PROP_LIST = 52 | NLA_F_NESTED, PropList: NestedList<LinkProperty>;
                IFLA_ALT_IFNAME = 53, AltIfName: Shown<Text>;
                IFLA_PERM_ADDRESS = 54, PermAddress: Vec<u8>;
                IFLA_PROTO_DOWN_REASON = 55 | NLA_F_NESTED, ProtoDownReason: NestedList<ProtoDownReason>;
                IFLA_PARENT_DEV_NAME = 56, ParentDevName: Shown<Text>;
                IFLA_PARENT_DEV_BUS_NAME = 57, ParentDevBusName: Shown<Text>;
                IFLA_GRO_MAX_SIZE = 58, GroMaxSize: u32;
                IFLA_TSO_MAX_SIZE = 59, TsoMaxSize: u32;
                IFLA_TSO_MAX_SEGS = 60, TsoMaxSegs: u32;
                IFLA_ALLMULTI = 61, AllMulti: u32;
                IFLA_DEVLINK_PORT = 62 | NLA_F_NESTED, DevlinkPort: NestedList<DevlinkPort>;
                IFLA_GSO_IPV4_MAX_SIZE = 63, GsoIpv4MaxSize: u32;
                IFLA_GRO_IPV4_MAX_SIZE = 64, GroIpv4MaxSize: u32;
                IFLA_DPLL_PIN = 65 | NLA_F_NESTED, DpllPin: NestedList<DpllPin>;
                IFLA_MAX_PACING_OFFLOAD_HORIZON = 66, MaxPacingOffloadHorizon: Vec<u8> as Nanoseconds;
                IFLA_NETNS_IMMUTABLE = 67, NetnsImmutable: bool;
                IFLA_HEADROOM = 68, Headroom: u16;
                IFLA_TAILROOM = 69, Tailroom: u16;
            }
        }
    };
}

impl TryClone for LinkAttribute {
    fn try_clone(&self, alloc: Global) -> Result<Self, AllocError> {
        rows!(clone(self, alloc))
    }
}

impl Meaning for LinkAttribute {
    ghost table = { link_table };

    ghost means = { link_means };
}

impl Nla for LinkAttribute {
    fn kind(&self) -> u16 {
        rows!(kind(self))
    }

    fn value_len(&self) -> usize {
        rows!(size(self))
    }

    fn emit_value(&self, buffer: &mut [u8]) {
        rows!(emit(self, buffer))
    }
}

impl Parseable for LinkAttribute {
    fn parse_payload<P: Place<Self>>(
        alloc: Global,
        buffer: &NlaBuffer<'_>,
        place: &mut P,
    ) -> Result<(), DecodeError> {
        rows!(read(alloc, buffer, place))
    }
}

impl AttributeRows for LinkAttribute {
    #[inline(always)]
    fn visit_row<V: RowVisitor<Self>>(kind: u16, visitor: V) -> V::Output {
        rows!(visit(kind, visitor))
    }
}

impl Attribute for LinkAttribute {
    ghost use Rattle.std.specs.Prelude.{refl};
    ghost use Rattle.link_base.proofs.TableLaws.{lawful};
    ghost use Rattle.link_base.specs.Equality.{of_cases, thorough_fields, twenty_five};
    ghost use Rattle.link_common.specs.LinkEquality.{maps};
    ghost use Rattle.link_common.specs.contracts.link_info.LinkInfoAttribute.TheImpl.Laws as infos;
    ghost use Rattle.link_common.specs.contracts.link_xdp.LinkXdpAttribute.TheImpl.Laws as programs;
    ghost use Rattle.link_common.specs.contracts.link_property.LinkPropertyAttribute.TheImpl.Laws as properties;
    ghost use Rattle.link_common.specs.contracts.proto_down_reason.ProtoDownReasonAttribute.TheImpl.Laws as reasons;
    ghost use Rattle.link_common.specs.contracts.devlink_port.DevlinkPortAttribute.TheImpl.Laws as ports;
    ghost use Rattle.link_common.specs.contracts.dpll_pin.DpllPinAttribute.TheImpl.Laws as pins;
    ghost use Rattle.link_common.specs.contracts.link.LinkAttribute.{enum};

    ghost lawful = { lawful link_table };

    ghost well_formed = { refl };

    ghost thorough = { of_cases enum _ _ (twenty_five
        (Prim.search (thorough_fields, maps, infos.thorough-law))
        (twenty_five
        (Prim.search (thorough_fields, programs.thorough-law))
        (Prim.search (
          thorough_fields,
          properties.thorough-law,
          reasons.thorough-law,
          ports.thorough-law,
          pins.thorough-law,
        )))) };
}
