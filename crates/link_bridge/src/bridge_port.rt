//! Bridge port attributes (`IFLA_INFO_SLAVE_DATA` of a link whose `IFLA_INFO_SLAVE_KIND` is `bridge`).

mod state;

use crate::bridge::{BridgeId, BridgeMulticastRouterType};
use link_base::rows::by_rows::{AttributeRows, RowVisitor};
use link_base::{
    Attribute, DecodeError, DefaultNla, Meaning, Named, Nla, NlaBuffer, Parseable, Place, Struct,
    TryClone,
};
pub use state::BridgePortState;
use std::alloc::{AllocError, Global};

/// A bridge port attribute (`IFLA_BRPORT_*`, `include/uapi/linux/if_link.h`). A clock tick is 1/100 second (`USER_HZ`).
///
/// Attributes marked read-only are reported by the kernel and cannot be set; those marked write-only can be set and are
/// not reported.
#[derive(Debug, PartialEq, Eq, Drop)]
pub enum InfoBridgePort {
    /// State of the port in the spanning tree protocol (`IFLA_BRPORT_STATE`, `u8`).
    State(BridgePortState),
    /// Priority of the port in the spanning tree protocol, at most 63 (`IFLA_BRPORT_PRIORITY`, `u16`). Ports with lower
    /// values are preferred as root port and as designated port.
    Priority(u16),
    /// Path cost of the port, from 1 to 65535 (`IFLA_BRPORT_COST`, `u32`).
    Cost(u32),
    /// Whether frames may be sent back out of the port on which they were received: hairpin mode (`IFLA_BRPORT_MODE`,
    /// `u8`).
    HairpinMode(bool),
    /// Whether the port is disabled if it receives a BPDU (`IFLA_BRPORT_GUARD`, `u8`).
    Guard(bool),
    /// Whether the port is prevented from becoming the root port (`IFLA_BRPORT_PROTECT`, `u8`).
    Protect(bool),
    /// Whether multicast to a group stops on the port as soon as a host there leaves the group
    /// (`IFLA_BRPORT_FAST_LEAVE`, `u8`).
    FastLeave(bool),
    /// Whether source addresses of received frames are learned (`IFLA_BRPORT_LEARNING`, `u8`).
    Learning(bool),
    /// Whether unicast to addresses that are not in the forwarding database is flooded to the port
    /// (`IFLA_BRPORT_UNICAST_FLOOD`, `u8`).
    UnicastFlood(bool),
    /// Whether the bridge replies to ARP requests on behalf of the hosts on the port: proxy ARP
    /// (`IFLA_BRPORT_PROXYARP`, `u8`).
    ProxyARP(bool),
    /// Whether addresses learned by the port's device are also added to the bridge's forwarding database
    /// (`IFLA_BRPORT_LEARNING_SYNC`, `u8`).
    LearningSync(bool),
    /// Whether the bridge also replies to ARP requests by the extended rules of IEEE 802.11 and Hotspot 2.0
    /// (`IFLA_BRPORT_PROXYARP_WIFI`, `u8`).
    ProxyARPWifi(bool),
    /// ID of the root bridge (`IFLA_BRPORT_ROOT_ID`, `struct ifla_bridge_id`, read-only).
    RootId(BridgeId),
    /// ID of the designated bridge of the segment (`IFLA_BRPORT_BRIDGE_ID`, `struct ifla_bridge_id`, read-only).
    BridgeId(BridgeId),
    /// ID of the designated port of the segment (`IFLA_BRPORT_DESIGNATED_PORT`, `u16`, read-only).
    DesignatedPort(u16),
    /// Cost of the path from the designated bridge to the root (`IFLA_BRPORT_DESIGNATED_COST`, `u16`, read-only).
    DesignatedCost(u16),
    /// ID of the port in the spanning tree protocol: its priority and its number (`IFLA_BRPORT_ID`, `u16`, read-only).
    PortId(u16),
    /// Number of the port (`IFLA_BRPORT_NO`, `u16`, read-only).
    PortNumber(u16),
    /// Whether the next BPDU acknowledges a topology change (`IFLA_BRPORT_TOPOLOGY_CHANGE_ACK`, `u8`, read-only).
    TopologyChangeAck(bool),
    /// Whether a configuration BPDU is waiting for the hold timer (`IFLA_BRPORT_CONFIG_PENDING`, `u8`, read-only).
    ConfigPending(bool),
    /// Time until the information from the designated bridge expires, in clock ticks (`IFLA_BRPORT_MESSAGE_AGE_TIMER`,
    /// `u64`, read-only).
    MessageAgeTimer(u64),
    /// Time until the port enters its next state, in clock ticks (`IFLA_BRPORT_FORWARD_DELAY_TIMER`, `u64`, read-only).
    ForwardDelayTimer(u64),
    /// Time until the next configuration BPDU may be sent, in clock ticks (`IFLA_BRPORT_HOLD_TIMER`, `u64`, read-only).
    HoldTimer(u64),
    /// Request to remove the port's learned entries from the forwarding database (`IFLA_BRPORT_FLUSH`, no payload,
    /// write-only).
    Flush,
    /// Whether the port is considered to lead to a multicast router and gets all multicast traffic
    /// (`IFLA_BRPORT_MULTICAST_ROUTER`, `u8`).
    MulticastRouter(BridgeMulticastRouterType),
    /// Whether multicast to groups that are not in the multicast database is flooded to the port
    /// (`IFLA_BRPORT_MCAST_FLOOD`, `u8`).
    MulticastFlood(bool),
    /// Whether multicast is sent to each member of the group as unicast (`IFLA_BRPORT_MCAST_TO_UCAST`, `u8`).
    MulticastToUnicast(bool),
    /// Whether VLANs are mapped to tunnels on the port (`IFLA_BRPORT_VLAN_TUNNEL`, `u8`).
    VlanTunnel(bool),
    /// Whether broadcast is flooded to the port (`IFLA_BRPORT_BCAST_FLOOD`, `u8`).
    BroadcastFlood(bool),
    /// Which link-local frames are forwarded: bit n for those sent to 01:80:c2:00:00:0n (`IFLA_BRPORT_GROUP_FWD_MASK`,
    /// `u16`).
    GroupFwdMask(u16),
    /// Whether the bridge replies to ARP requests and neighbor solicitations itself if it can, and then does not flood
    /// them to the port: neighbor suppression (`IFLA_BRPORT_NEIGH_SUPPRESS`, `u8`).
    NeighSupress(bool),
    /// Whether the port exchanges frames only with ports that are not isolated (`IFLA_BRPORT_ISOLATED`, `u8`).
    Isolated(bool),
    /// Interface index of the port that gets the frames while this port has no carrier; 0 for none
    /// (`IFLA_BRPORT_BACKUP_PORT`, `u32`).
    BackupPort(u32),
    /// Whether the port's Media Redundancy Protocol ring is open (`IFLA_BRPORT_MRP_RING_OPEN`, `u8`, read-only).
    MrpRingOpen(bool),
    /// Whether the port's Media Redundancy Protocol interconnection ring is open (`IFLA_BRPORT_MRP_IN_OPEN`, `u8`,
    /// read-only).
    MrpInOpen(bool),
    /// Maximum number of hosts tracked on the port from their IGMPv3 and MLDv2 reports
    /// (`IFLA_BRPORT_MCAST_EHT_HOSTS_LIMIT`, `u32`).
    MulticastEhtHostsLimit(u32),
    /// Number of hosts tracked on the port (`IFLA_BRPORT_MCAST_EHT_HOSTS_CNT`, `u32`, read-only).
    MulticastEhtHostsCnt(u32),
    /// Whether frames are accepted only from addresses that the forwarding database has for this port
    /// (`IFLA_BRPORT_LOCKED`, `u8`).
    Locked(bool),
    /// Whether addresses that a locked port rejects are recorded, so that they can be admitted by MAC Authentication
    /// Bypass (`IFLA_BRPORT_MAB`, `u8`).
    Mab(bool),
    /// Number of the port's entries in the multicast database (`IFLA_BRPORT_MCAST_N_GROUPS`, `u32`, read-only).
    MulticastNGroups(u32),
    /// Maximum number of the port's entries in the multicast database; 0 for no limit (`IFLA_BRPORT_MCAST_MAX_GROUPS`,
    /// `u32`).
    MulticastMaxGroups(u32),
    /// Whether neighbor suppression is set for each VLAN of the port separately (`IFLA_BRPORT_NEIGH_VLAN_SUPPRESS`,
    /// `u8`).
    NeighVlanSuppress(bool),
    /// Next hop ID for the frames redirected to the backup port, used if that port maps VLANs to tunnels; 0 for none
    /// (`IFLA_BRPORT_BACKUP_NHID`, `u32`).
    BackupNextHopId(u32),
    /// Whether gratuitous ARP and unsolicited neighbor advertisements are flooded to the port even if neighbor
    /// suppression is on (`IFLA_BRPORT_NEIGH_FORWARD_GRAT`, `u8`).
    NeighForwardGrat(bool),
    /// An attribute of any other type.
    Other(DefaultNla),
}

/// The attribute types (`IFLA_BRPORT_*`), the variant of each, and the class of its payload.
macro_rules! rows {
    ($call:ident($($argument:tt)*)) => {
        link_base::by_rows! { $call($($argument)*)
            "IFLA_BRPORT_";
            IFLA_BRPORT_STATE = 1, State: Named<BridgePortState>;
            IFLA_BRPORT_PRIORITY = 2, Priority: u16;
            IFLA_BRPORT_COST = 3, Cost: u32;
            IFLA_BRPORT_MODE = 4, HairpinMode: bool;
            IFLA_BRPORT_GUARD = 5, Guard: bool;
            IFLA_BRPORT_PROTECT = 6, Protect: bool;
            IFLA_BRPORT_FAST_LEAVE = 7, FastLeave: bool;
            IFLA_BRPORT_LEARNING = 8, Learning: bool;
            IFLA_BRPORT_UNICAST_FLOOD = 9, UnicastFlood: bool;
            IFLA_BRPORT_PROXYARP = 10, ProxyARP: bool;
            IFLA_BRPORT_LEARNING_SYNC = 11, LearningSync: bool;
            IFLA_BRPORT_PROXYARP_WIFI = 12, ProxyARPWifi: bool;
            IFLA_BRPORT_ROOT_ID = 13, RootId: Struct<BridgeId>;
            IFLA_BRPORT_BRIDGE_ID = 14, BridgeId: Struct<BridgeId>;
            IFLA_BRPORT_DESIGNATED_PORT = 15, DesignatedPort: u16 as Mask;
            IFLA_BRPORT_DESIGNATED_COST = 16, DesignatedCost: u16;
            IFLA_BRPORT_ID = 17, PortId: u16 as Mask;
            IFLA_BRPORT_NO = 18, PortNumber: u16;
            IFLA_BRPORT_TOPOLOGY_CHANGE_ACK = 19, TopologyChangeAck: bool;
            IFLA_BRPORT_CONFIG_PENDING = 20, ConfigPending: bool;
            IFLA_BRPORT_MESSAGE_AGE_TIMER = 21, MessageAgeTimer: u64 as ClockTicks;
            IFLA_BRPORT_FORWARD_DELAY_TIMER = 22, ForwardDelayTimer: u64 as ClockTicks;
            IFLA_BRPORT_HOLD_TIMER = 23, HoldTimer: u64 as ClockTicks;
            IFLA_BRPORT_FLUSH = 24, Flush;
            IFLA_BRPORT_MULTICAST_ROUTER = 25, MulticastRouter: Named<BridgeMulticastRouterType>;
            IFLA_BRPORT_MCAST_FLOOD = 27, MulticastFlood: bool;
            IFLA_BRPORT_MCAST_TO_UCAST = 28, MulticastToUnicast: bool;
            IFLA_BRPORT_VLAN_TUNNEL = 29, VlanTunnel: bool;
            IFLA_BRPORT_BCAST_FLOOD = 30, BroadcastFlood: bool;
            IFLA_BRPORT_GROUP_FWD_MASK = 31, GroupFwdMask: u16 as Mask;
            IFLA_BRPORT_NEIGH_SUPPRESS = 32, NeighSupress: bool;
            IFLA_BRPORT_ISOLATED = 33, Isolated: bool;
            IFLA_BRPORT_BACKUP_PORT = 34, BackupPort: u32 as InterfaceIndex;
            IFLA_BRPORT_MRP_RING_OPEN = 35, MrpRingOpen: bool;
            IFLA_BRPORT_MRP_IN_OPEN = 36, MrpInOpen: bool;
            IFLA_BRPORT_MCAST_EHT_HOSTS_LIMIT = 37, MulticastEhtHostsLimit: u32;
            IFLA_BRPORT_MCAST_EHT_HOSTS_CNT = 38, MulticastEhtHostsCnt: u32;
            IFLA_BRPORT_LOCKED = 39, Locked: bool;
            IFLA_BRPORT_MAB = 40, Mab: bool;
            IFLA_BRPORT_MCAST_N_GROUPS = 41, MulticastNGroups: u32;
            IFLA_BRPORT_MCAST_MAX_GROUPS = 42, MulticastMaxGroups: u32;
            IFLA_BRPORT_NEIGH_VLAN_SUPPRESS = 43, NeighVlanSuppress: bool;
            IFLA_BRPORT_BACKUP_NHID = 44, BackupNextHopId: u32;
            IFLA_BRPORT_NEIGH_FORWARD_GRAT = 45, NeighForwardGrat: bool;
        }
    };
}

impl TryClone for InfoBridgePort {
    fn try_clone(&self, alloc: Global) -> Result<Self, AllocError> {
        rows!(clone(self, alloc))
    }
}

impl Meaning for InfoBridgePort {
    ghost use Rattle.link_bridge.specs.BridgePort.{bridge_port_table, bridge_port_means};

    ghost table = { bridge_port_table };

    ghost means = { bridge_port_means };
}

impl Nla for InfoBridgePort {
    fn kind(&self) -> u16 {
        rows!(kind(self))
    }

    fn value_len(&self) -> usize {
        rows!(size(self))
    }

    fn emit_value(&self, buffer: &mut [u8]) {
        rows!(emit(self, buffer))
    }
}

impl Parseable for InfoBridgePort {
    fn parse_payload<P: Place<Self>>(
        alloc: Global,
        buffer: &NlaBuffer<'_>,
        place: &mut P,
    ) -> Result<(), DecodeError> {
        rows!(read(alloc, buffer, place))
    }
}

impl AttributeRows for InfoBridgePort {
    #[inline(always)]
    fn visit_row<V: RowVisitor<Self>>(kind: u16, visitor: V) -> V::Output {
        rows!(visit(kind, visitor))
    }
}

impl Attribute for InfoBridgePort {
    ghost use Rattle.std.specs.Prelude.{refl};
    ghost use Rattle.link_base.proofs.TableLaws.{lawful};
    ghost use Rattle.link_base.specs.Equality.{of_cases, thorough_fields, twenty_five};
    ghost use Rattle.link_bridge.specs.BridgePort.{bridge_port_table};
    ghost use Rattle.link_bridge.specs.BridgeEquality.{ids};
    ghost use Rattle.link_bridge.specs.contracts.bridge_port.state.BridgePortStateNamedNumber.TheImpl.Laws as states;
    ghost use Rattle.link_bridge.specs.contracts.bridge.router_type.BridgeMulticastRouterTypeNamedNumber.TheImpl.Laws as routers;
    ghost use Rattle.link_bridge.specs.contracts.bridge_port.InfoBridgePort.{enum};

    ghost lawful = { lawful bridge_port_table };

    ghost well_formed = { refl };

    ghost thorough = { of_cases enum _ _ (twenty_five
        (Prim.search (thorough_fields, ids, states.thorough-law, routers.thorough-law))
        (Prim.search (thorough_fields, ids, states.thorough-law, routers.thorough-law))) };
}
