//! Bridge attributes (`IFLA_INFO_DATA` of a link whose `IFLA_INFO_KIND` is `bridge`).

mod id;
mod querier;
mod router_type;
mod stp_mode;
mod stp_state;

use crate::bridge_boolopt::BridgeBooleanOptions;
pub use id::{BridgeId, BridgeIdBuffer};
use link_base::rows::by_rows::{AttributeRows, RowVisitor};
use link_base::{
    Attribute, DecodeError, DefaultNla, Meaning, Named, NestedList, Nla, NlaBuffer, Parseable,
    Place, Struct, TryClone, VlanProtocol,
};
pub use querier::BridgeQuerierState;
pub use router_type::BridgeMulticastRouterType;
use std::alloc::{AllocError, Global};
pub use stp_mode::BridgeStpMode;
pub use stp_state::BridgeStpState;

/// A bridge attribute (`IFLA_BR_*`, `include/uapi/linux/if_link.h`). A clock tick is 1/100 second (`USER_HZ`).
///
/// Attributes marked read-only are reported by the kernel and cannot be set; those marked write-only can be set and are
/// not reported.
#[derive(Debug, PartialEq, Eq, Drop)]
pub enum InfoBridge {
    /// Multicast address that the spanning tree protocol sends to; 01:80:c2:00:00:00 by default (`IFLA_BR_GROUP_ADDR`,
    /// `[u8; 6]`). The kernel rejects 01:80:c2:00:00:01 to 01:80:c2:00:00:03.
    GroupAddr([u8; 6]),
    /// Request to remove the learned entries from the forwarding database (`IFLA_BR_FDB_FLUSH`, no payload,
    /// write-only).
    FdbFlush,
    /// Time until this bridge, if it is the root, sends its next hello, in clock ticks (`IFLA_BR_HELLO_TIMER`, `u64`,
    /// read-only).
    HelloTimer(u64),
    /// Time until the bridge notifies the root of a topology change again, in clock ticks (`IFLA_BR_TCN_TIMER`, `u64`,
    /// read-only).
    TcnTimer(u64),
    /// Time for which this bridge, if it is the root, continues to announce a topology change, in clock ticks
    /// (`IFLA_BR_TOPOLOGY_CHANGE_TIMER`, `u64`, read-only).
    TopologyChangeTimer(u64),
    /// Time until expired entries are removed from the forwarding database, in clock ticks (`IFLA_BR_GC_TIMER`, `u64`,
    /// read-only).
    GcTimer(u64),
    /// How long a multicast group is kept after the last report of its members, in clock ticks
    /// (`IFLA_BR_MCAST_MEMBERSHIP_INTVL`, `u64`).
    MulticastMembershipInterval(u64),
    /// How long after the last query of another querier the bridge starts sending its own queries, in clock ticks
    /// (`IFLA_BR_MCAST_QUERIER_INTVL`, `u64`).
    MulticastQuerierInterval(u64),
    /// Interval between queries after the startup phase, in clock ticks (`IFLA_BR_MCAST_QUERY_INTVL`, `u64`).
    MulticastQueryInterval(u64),
    /// Time within which a query must be answered, in clock ticks (`IFLA_BR_MCAST_QUERY_RESPONSE_INTVL`, `u64`).
    MulticastQueryResponseInterval(u64),
    /// Interval between the queries for remaining members that are sent after a member has left a group, in clock ticks
    /// (`IFLA_BR_MCAST_LAST_MEMBER_INTVL`, `u64`).
    MulticastLastMemberInterval(u64),
    /// Interval between queries in the startup phase, in clock ticks (`IFLA_BR_MCAST_STARTUP_QUERY_INTVL`, `u64`).
    MulticastStartupQueryInterval(u64),
    /// How long a port listens, and then how long it learns, before it forwards, in clock ticks
    /// (`IFLA_BR_FORWARD_DELAY`, `u32`).
    ForwardDelay(u32),
    /// Interval between hellos of the root, in clock ticks (`IFLA_BR_HELLO_TIME`, `u32`).
    HelloTime(u32),
    /// How long after its last hello another bridge is considered gone, in clock ticks (`IFLA_BR_MAX_AGE`, `u32`).
    MaxAge(u32),
    /// How long an address is kept in the forwarding database after its last frame, in clock ticks
    /// (`IFLA_BR_AGEING_TIME`, `u32`).
    AgeingTime(u32),
    /// What runs the spanning tree protocol (`IFLA_BR_STP_STATE`, `u32`). In a request, 0 turns the protocol off and
    /// any other number turns it on.
    StpState(BridgeStpState),
    /// Maximum chain length in the hash table of multicast groups (`IFLA_BR_MCAST_HASH_ELASTICITY`, `u32`). The kernel
    /// reports 16 and ignores the value in requests.
    MulticastHashElasticity(u32),
    /// Maximum number of multicast groups in the hash table, a power of two (`IFLA_BR_MCAST_HASH_MAX`, `u32`).
    MulticastHashMax(u32),
    /// Number of queries for remaining members that are sent after a member has left a group
    /// (`IFLA_BR_MCAST_LAST_MEMBER_CNT`, `u32`).
    MulticastLastMemberCount(u32),
    /// Number of queries sent in the startup phase (`IFLA_BR_MCAST_STARTUP_QUERY_CNT`, `u32`).
    MulticastStartupQueryCount(u32),
    /// Cost of the path to the root (`IFLA_BR_ROOT_PATH_COST`, `u32`, read-only).
    RootPathCost(u32),
    /// Priority of the bridge; the bridge with the lowest becomes the root (`IFLA_BR_PRIORITY`, `u16`).
    Priority(u16),
    /// Tag protocol used for VLAN filtering (`IFLA_BR_VLAN_PROTOCOL`, `u16`, big-endian).
    VlanProtocol(VlanProtocol),
    /// Which link-local frames are forwarded: bit n for those sent to 01:80:c2:00:00:0n (`IFLA_BR_GROUP_FWD_MASK`,
    /// `u16`).
    GroupFwdMask(u16),
    /// ID of the root bridge (`IFLA_BR_ROOT_ID`, `struct ifla_bridge_id`, read-only).
    RootId(BridgeId),
    /// ID of this bridge (`IFLA_BR_BRIDGE_ID`, `struct ifla_bridge_id`, read-only).
    BridgeId(BridgeId),
    /// Number of the port towards the root; 0 if this bridge is the root (`IFLA_BR_ROOT_PORT`, `u16`, read-only).
    RootPort(u16),
    /// VLAN of untagged frames on new ports; 0 for none (`IFLA_BR_VLAN_DEFAULT_PVID`, `u16`).
    VlanDefaultPvid(u16),
    /// Whether frames are also forwarded according to their VLAN (`IFLA_BR_VLAN_FILTERING`, `u8`).
    VlanFiltering(bool),
    /// Whether this bridge, if it is the root, announces a topology change: 1 or 0 (`IFLA_BR_TOPOLOGY_CHANGE`, `u8`,
    /// read-only).
    TopologyChange(u8),
    /// Whether the bridge has detected a topology change: 1 or 0 (`IFLA_BR_TOPOLOGY_CHANGE_DETECTED`, `u8`, read-only).
    TopologyChangeDetected(u8),
    /// Whether the bridge itself is considered a multicast router and gets all multicast traffic
    /// (`IFLA_BR_MCAST_ROUTER`, `u8`).
    MulticastRouter(BridgeMulticastRouterType),
    /// Whether multicast is sent only to ports with members of its group (`IFLA_BR_MCAST_SNOOPING`, `u8`).
    MulticastSnooping(bool),
    /// Whether the source of IGMP queries is the bridge's own IP address; if not, it is 0.0.0.0
    /// (`IFLA_BR_MCAST_QUERY_USE_IFADDR`, `u8`).
    MulticastQueryUseIfaddr(bool),
    /// Whether the bridge queries for members of multicast groups (`IFLA_BR_MCAST_QUERIER`, `u8`).
    MulticastQuerier(bool),
    /// Whether bridged IPv4 packets are passed to iptables (`IFLA_BR_NF_CALL_IPTABLES`, `u8`).
    NfCallIpTables(bool),
    /// Whether bridged IPv6 packets are passed to ip6tables (`IFLA_BR_NF_CALL_IP6TABLES`, `u8`).
    NfCallIp6Tables(bool),
    /// Whether bridged ARP packets are passed to arptables (`IFLA_BR_NF_CALL_ARPTABLES`, `u8`).
    NfCallArpTables(bool),
    /// Whether packets are counted for each VLAN (`IFLA_BR_VLAN_STATS_ENABLED`, `u8`).
    VlanStatsEnabled(bool),
    /// Whether IGMP and MLD messages are counted (`IFLA_BR_MCAST_STATS_ENABLED`, `u8`).
    MulticastStatsEnabled(bool),
    /// IGMP version, 2 or 3 (`IFLA_BR_MCAST_IGMP_VERSION`, `u8`).
    MulticastIgmpVersion(u8),
    /// MLD version, 1 or 2 (`IFLA_BR_MCAST_MLD_VERSION`, `u8`).
    MulticastMldVersion(u8),
    /// Whether packets are counted for each VLAN of each port; set before ports have VLANs
    /// (`IFLA_BR_VLAN_STATS_PER_PORT`, `u8`).
    VlanStatsPerPort(bool),
    /// A set of boolean options (`IFLA_BR_MULTI_BOOLOPT`, `struct br_boolopt_multi`).
    MultiBoolOpt(BridgeBooleanOptions),
    /// The multicast queriers known to the bridge (`IFLA_BR_MCAST_QUERIER_STATE`, a nested list, written with
    /// `NLA_F_NESTED`, read-only).
    MulticastQuerierState(Vec<BridgeQuerierState>),
    /// Number of learned entries in the forwarding database (`IFLA_BR_FDB_N_LEARNED`, `u32`, read-only).
    FdbNLearned(u32),
    /// Maximum number of learned entries in the forwarding database; 0 for no limit (`IFLA_BR_FDB_MAX_LEARNED`, `u32`).
    FdbMaxLearned(u32),
    /// What is to run the spanning tree protocol when it is turned on (`IFLA_BR_STP_MODE`, `u32`).
    StpMode(BridgeStpMode),
    /// An attribute of any other type.
    Other(DefaultNla),
}

/// The attribute types (`IFLA_BR_*`), the variant of each, and the class of its payload.
macro_rules! rows {
    ($call:ident($($argument:tt)*)) => {
        link_base::by_rows! { $call($($argument)*)
            "IFLA_BR_";
            IFLA_BR_FORWARD_DELAY = 1, ForwardDelay: u32 as ClockTicks;
            IFLA_BR_HELLO_TIME = 2, HelloTime: u32 as ClockTicks;
            IFLA_BR_MAX_AGE = 3, MaxAge: u32 as ClockTicks;
            IFLA_BR_AGEING_TIME = 4, AgeingTime: u32 as ClockTicks;
            IFLA_BR_STP_STATE = 5, StpState: Named<BridgeStpState>;
            IFLA_BR_PRIORITY = 6, Priority: u16;
            IFLA_BR_VLAN_FILTERING = 7, VlanFiltering: bool;
            IFLA_BR_VLAN_PROTOCOL = 8, VlanProtocol: VlanProtocol;
            IFLA_BR_GROUP_FWD_MASK = 9, GroupFwdMask: u16 as Mask;
            IFLA_BR_ROOT_ID = 10, RootId: Struct<BridgeId>;
            IFLA_BR_BRIDGE_ID = 11, BridgeId: Struct<BridgeId>;
            IFLA_BR_ROOT_PORT = 12, RootPort: u16;
            IFLA_BR_ROOT_PATH_COST = 13, RootPathCost: u32;
            IFLA_BR_TOPOLOGY_CHANGE = 14, TopologyChange: u8;
            IFLA_BR_TOPOLOGY_CHANGE_DETECTED = 15, TopologyChangeDetected: u8;
            IFLA_BR_HELLO_TIMER = 16, HelloTimer: u64 as ClockTicks;
            IFLA_BR_TCN_TIMER = 17, TcnTimer: u64 as ClockTicks;
            IFLA_BR_TOPOLOGY_CHANGE_TIMER = 18, TopologyChangeTimer: u64 as ClockTicks;
            IFLA_BR_GC_TIMER = 19, GcTimer: u64 as ClockTicks;
            IFLA_BR_GROUP_ADDR = 20, GroupAddr: [u8; 6];
            IFLA_BR_FDB_FLUSH = 21, FdbFlush;
            IFLA_BR_MCAST_ROUTER = 22, MulticastRouter: Named<BridgeMulticastRouterType>;
            IFLA_BR_MCAST_SNOOPING = 23, MulticastSnooping: bool;
            IFLA_BR_MCAST_QUERY_USE_IFADDR = 24, MulticastQueryUseIfaddr: bool;
            IFLA_BR_MCAST_QUERIER = 25, MulticastQuerier: bool;
            IFLA_BR_MCAST_HASH_ELASTICITY = 26, MulticastHashElasticity: u32;
            IFLA_BR_MCAST_HASH_MAX = 27, MulticastHashMax: u32;
            IFLA_BR_MCAST_LAST_MEMBER_CNT = 28, MulticastLastMemberCount: u32;
            IFLA_BR_MCAST_STARTUP_QUERY_CNT = 29, MulticastStartupQueryCount: u32;
            IFLA_BR_MCAST_LAST_MEMBER_INTVL = 30, MulticastLastMemberInterval: u64 as ClockTicks;
            IFLA_BR_MCAST_MEMBERSHIP_INTVL = 31, MulticastMembershipInterval: u64 as ClockTicks;
            IFLA_BR_MCAST_QUERIER_INTVL = 32, MulticastQuerierInterval: u64 as ClockTicks;
            IFLA_BR_MCAST_QUERY_INTVL = 33, MulticastQueryInterval: u64 as ClockTicks;
            IFLA_BR_MCAST_QUERY_RESPONSE_INTVL = 34, MulticastQueryResponseInterval: u64 as ClockTicks;
            IFLA_BR_MCAST_STARTUP_QUERY_INTVL = 35, MulticastStartupQueryInterval: u64 as ClockTicks;
            IFLA_BR_NF_CALL_IPTABLES = 36, NfCallIpTables: bool;
            IFLA_BR_NF_CALL_IP6TABLES = 37, NfCallIp6Tables: bool;
            IFLA_BR_NF_CALL_ARPTABLES = 38, NfCallArpTables: bool;
            IFLA_BR_VLAN_DEFAULT_PVID = 39, VlanDefaultPvid: u16;
            IFLA_BR_VLAN_STATS_ENABLED = 41, VlanStatsEnabled: bool;
            IFLA_BR_MCAST_STATS_ENABLED = 42, MulticastStatsEnabled: bool;
            IFLA_BR_MCAST_IGMP_VERSION = 43, MulticastIgmpVersion: u8;
            IFLA_BR_MCAST_MLD_VERSION = 44, MulticastMldVersion: u8;
            IFLA_BR_VLAN_STATS_PER_PORT = 45, VlanStatsPerPort: bool;
            IFLA_BR_MULTI_BOOLOPT = 46, MultiBoolOpt: Struct<BridgeBooleanOptions>;
            IFLA_BR_MCAST_QUERIER_STATE = 47 | NLA_F_NESTED, MulticastQuerierState: NestedList<BridgeQuerierState>;
            IFLA_BR_FDB_N_LEARNED = 48, FdbNLearned: u32;
            IFLA_BR_FDB_MAX_LEARNED = 49, FdbMaxLearned: u32;
            IFLA_BR_STP_MODE = 50, StpMode: Named<BridgeStpMode>;
        }
    };
}

impl TryClone for InfoBridge {
    fn try_clone(&self, alloc: Global) -> Result<Self, AllocError> {
        rows!(clone(self, alloc))
    }
}

impl Meaning for InfoBridge {
    ghost use Rattle.link_bridge.specs.Bridge.{bridge_table, bridge_means};

    ghost table = { bridge_table };

    ghost means = { bridge_means };
}

impl Nla for InfoBridge {
    fn kind(&self) -> u16 {
        rows!(kind(self))
    }

    fn value_len(&self) -> usize {
        rows!(size(self))
    }

    fn emit_value(&self, buffer: &mut [u8]) {
        rows!(emit(self, buffer))
    }
}

impl Parseable for InfoBridge {
    fn parse_payload<P: Place<Self>>(
        alloc: Global,
        buffer: &NlaBuffer<'_>,
        place: &mut P,
    ) -> Result<(), DecodeError> {
        rows!(read(alloc, buffer, place))
    }
}

impl AttributeRows for InfoBridge {
    #[inline(always)]
    fn visit_row<V: RowVisitor<Self>>(kind: u16, visitor: V) -> V::Output {
        rows!(visit(kind, visitor))
    }
}

impl Attribute for InfoBridge {
    ghost use Rattle.std.specs.Prelude.{refl};
    ghost use Rattle.link_base.proofs.TableLaws.{lawful};
    ghost use Rattle.link_base.specs.Equality.{of_cases, thorough_fields, twenty_five};
    ghost use Rattle.link_bridge.specs.Bridge.{bridge_table};
    ghost use Rattle.link_bridge.specs.BridgeEquality.{ids, options};
    ghost use Rattle.link_bridge.specs.contracts.bridge.stp_state.BridgeStpStateNamedNumber.TheImpl.Laws as states;
    ghost use Rattle.link_bridge.specs.contracts.bridge.stp_mode.BridgeStpModeNamedNumber.TheImpl.Laws as modes;
    ghost use Rattle.link_bridge.specs.contracts.bridge.router_type.BridgeMulticastRouterTypeNamedNumber.TheImpl.Laws as routers;
    ghost use Rattle.link_bridge.specs.contracts.bridge.querier.BridgeQuerierStateAttribute.TheImpl.Laws as queriers;
    ghost use Rattle.link_bridge.specs.contracts.bridge.InfoBridge.{enum};

    ghost lawful = { lawful bridge_table };

    ghost well_formed = { refl };

    ghost thorough = { of_cases enum _ _ (twenty_five
        (Prim.search (
          thorough_fields,
          ids,
          options,
          states.thorough-law,
          modes.thorough-law,
          routers.thorough-law,
          queriers.thorough-law,
        ))
        (Prim.search (
          thorough_fields,
          ids,
          options,
          states.thorough-law,
          modes.thorough-law,
          routers.thorough-law,
          queriers.thorough-law,
        ))) };
}
