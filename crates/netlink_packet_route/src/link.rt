//! Link attributes: framing, lists, and the types of every attribute set with the types of their values. The calls for
//! lists take the enum of the attributes as a type; those of the crate's root take a [`Family`](crate::Family).

pub use crate::rewriting::rewrite_as;
pub use crate::rewriting_streaming::rewrite_streaming_as;
pub use crate::rewriting_to_slice::rewrite_to_slice_as;
pub use link_base::classes::peer::Peer;
pub use link_base::lists::laws;
pub use link_base::{
    Attribute, Cause, DecodeError, DecodeFault, DefaultNla, Emitable, FrameTable, ListError,
    ListFault, NLA_F_NESTED, NLA_F_NET_BYTEORDER, NLA_TYPE_MASK, Nla, NlaBuffer, NlasIterator,
    Parseable, RewriteError, TryClone, VlanProtocol, WriteError, check_list, emit_i32, emit_list,
    emit_u16, emit_u16_be, emit_u32, emit_u64, expand_buffer_if_small, first_not_canonical,
    list_fits, list_is_canonical, list_len, padded, parse_i32, parse_ip, parse_mac, parse_u8,
    parse_u16, parse_u16_be, parse_u32, parse_u64, read_list, write_list,
};
// the attribute sets
pub use link_bond::{
    BondAdInfo, BondAdSelect, BondAllPortActive, BondArpAllTargets, BondArpValidate,
    BondFailOverMac, BondLacpRate, BondMode, BondPortState, BondPrimaryReselect,
    BondXmitHashPolicy, ChurnState, InfoBond, InfoBondPort, LacpState, MiiStatus,
};
pub use link_bridge::{
    AfSpecBridge, BridgeBooleanOptionFlags, BridgeBooleanOptions, BridgeFlag, BridgeId,
    BridgeIdBuffer, BridgeMode, BridgeMulticastRouterType, BridgePortState, BridgeQuerierState,
    BridgeStpMode, BridgeStpState, BridgeVlanInfo, BridgeVlanInfoFlags, BridgeVlanTunnelInfo,
    InfoBridge, InfoBridgePort, LinkProtoInfoBridge, VecAfSpecBridge, VecLinkProtoInfoBridge,
};
pub use link_common::{
    AddrGenMode, AfSpecInet, AfSpecInet6, AfSpecMctp, AfSpecUnspec, CacheInfo, DevlinkPort,
    DpllPin, ExtMask, Icmp6Stats, Inet6Flags, Ipv4Conf, Ipv6Conf, Ipv6Stats, LinkAttribute,
    LinkEvent, LinkInfo, LinkMap, LinkMode, LinkProperty, LinkStats, LinkStats64, LinkXdp,
    OperState, ProtoDownReason, ReplyAttribute, XdpAttached, XdpFlags,
};
pub use link_devices::{
    InfoIpVlan, InfoMacVlan, InfoNetkit, InfoTun, InfoVeth, InfoVrf, InfoVrfPort, MacVlanAddress,
};
pub use link_tunnels::{GenevePortRange, InfoGeneve, InfoVxlan, VxlanHeader, VxlanPortRange};
pub use link_vlan_can::{
    CanBerrCounter, CanBitTiming, CanBitTimingConst, CanClock, CanCtrlMode, CanCtrlModeExt,
    CanCtrlModeFlags, CanTdc, HsrProtocol, InfoCan, InfoDsa, InfoHsr, InfoVlan, VlanFlags,
    VlanQosMapping,
};
