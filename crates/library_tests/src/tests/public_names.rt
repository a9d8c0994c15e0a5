//! Names of upstream that users rely on, and names of our own beside them: types, variants and fields, with their types.
//! A file that names them all does not compile once one of them changes. Nothing calls most of these functions.

use bitflags::Flags;
use netlink_packet_route::link::{
    AfSpecBridge, AfSpecInet, AfSpecInet6, AfSpecMctp, AfSpecUnspec, Attribute, BondAdInfo,
    BondAdSelect, BondAllPortActive, BondArpAllTargets, BondArpValidate, BondFailOverMac,
    BondLacpRate, BondMode, BondPortState, BondPrimaryReselect, BondXmitHashPolicy,
    BridgeBooleanOptionFlags, BridgeBooleanOptions, BridgeFlag, BridgeId, BridgeIdBuffer,
    BridgeMode, BridgeMulticastRouterType, BridgePortState, BridgeQuerierState, BridgeStpMode,
    BridgeStpState, BridgeVlanInfo, BridgeVlanInfoFlags, BridgeVlanTunnelInfo, CanBerrCounter,
    CanBitTiming, CanBitTimingConst, CanClock, CanCtrlMode, CanCtrlModeExt, CanCtrlModeFlags,
    CanTdc, Cause, ChurnState, DecodeError, DecodeFault, DefaultNla, FrameTable, GenevePortRange,
    HsrProtocol, InfoBond, InfoBondPort, InfoBridge, InfoBridgePort, InfoCan, InfoDsa, InfoGeneve,
    InfoHsr, InfoIpVlan, InfoMacVlan, InfoNetkit, InfoTun, InfoVeth, InfoVlan, InfoVrf,
    InfoVrfPort, InfoVxlan, LacpState, LinkAttribute, LinkProtoInfoBridge, ListError,
    MacVlanAddress, MiiStatus, NlaBuffer, NlasIterator, Peer, ReplyAttribute, TryClone,
    VecAfSpecBridge, VecLinkProtoInfoBridge, VlanFlags, VlanProtocol, VlanQosMapping, VxlanHeader,
    VxlanPortRange, WriteError,
};
use netlink_packet_route::{Family, RewriteError};
use std::alloc::AllocError;
use std::fmt::{Debug, Display};
use std::hash::Hash;
use std::net::{Ipv4Addr, Ipv6Addr};
use std::str::FromStr;

/// Is passed a value of the type `T`.
fn is<T>(_value: &T) {}

// The attribute sets

fn af_spec(value: &AfSpecBridge) {
    match value {
        AfSpecBridge::Flags(it) => is::<BridgeFlag>(it),
        AfSpecBridge::Mode(it) => is::<BridgeMode>(it),
        AfSpecBridge::VlanInfo(it) => is::<BridgeVlanInfo>(it),
        AfSpecBridge::VlanTunnelInfo(it) => is::<Vec<BridgeVlanTunnelInfo>>(it),
        AfSpecBridge::Other(it) => is::<DefaultNla>(it),
    }
}

fn bond(value: &InfoBond) {
    match value {
        InfoBond::Mode(it) => is::<BondMode>(it),
        InfoBond::ArpIpTarget(it) => is::<Vec<Ipv4Addr>>(it),
        InfoBond::ArpValidate(it) => is::<BondArpValidate>(it),
        InfoBond::ArpAllTargets(it) => is::<BondArpAllTargets>(it),
        InfoBond::PrimaryReselect(it) => is::<BondPrimaryReselect>(it),
        InfoBond::FailOverMac(it) => is::<BondFailOverMac>(it),
        InfoBond::XmitHashPolicy(it) => is::<BondXmitHashPolicy>(it),
        InfoBond::AllPortsActive(it) => is::<BondAllPortActive>(it),
        InfoBond::AdLacpRate(it) => is::<BondLacpRate>(it),
        InfoBond::AdSelect(it) => is::<BondAdSelect>(it),
        InfoBond::AdInfo(it) => is::<Vec<BondAdInfo>>(it),
        InfoBond::AdActorSystem(it) => is::<[u8; 6]>(it),
        InfoBond::NsIp6Target(it) => is::<Vec<Ipv6Addr>>(it),
        InfoBond::NumPeerNotif(it) | InfoBond::MissedMax(it) => is::<u8>(it),
        InfoBond::AdActorSysPrio(it) | InfoBond::AdUserPortKey(it) => is::<u16>(it),
        InfoBond::ActivePort(it) | InfoBond::MiiMon(it) | InfoBond::UpDelay(it) => is::<u32>(it),
        InfoBond::DownDelay(it) | InfoBond::ArpInterval(it) => is::<u32>(it),
        InfoBond::Primary(it) | InfoBond::ResendIgmp(it) | InfoBond::MinLinks(it) => is::<u32>(it),
        InfoBond::LpInterval(it) | InfoBond::PacketsPerPort(it) => is::<u32>(it),
        InfoBond::PeerNotifDelay(it) => is::<u32>(it),
        InfoBond::UseCarrier(it) | InfoBond::TlbDynamicLb(it) => is::<bool>(it),
        InfoBond::AdLacpActive(it) | InfoBond::CoupledControl(it) => is::<bool>(it),
        InfoBond::BroadcastNeigh(it) | InfoBond::LacpStrict(it) => is::<bool>(it),
        InfoBond::Other(it) => is::<DefaultNla>(it),
    }
}

fn bond_port(value: &InfoBondPort) {
    match value {
        InfoBondPort::BondPortState(it) => is::<BondPortState>(it),
        InfoBondPort::MiiStatus(it) => is::<MiiStatus>(it),
        InfoBondPort::LinkFailureCount(it) => is::<u32>(it),
        InfoBondPort::PermHwaddr(it) => is::<Vec<u8>>(it),
        InfoBondPort::QueueId(it) | InfoBondPort::AdAggregatorId(it) => is::<u16>(it),
        InfoBondPort::ActorPortPrio(it) => is::<u16>(it),
        InfoBondPort::AdActorOperPortState(it) => is::<LacpState>(it),
        InfoBondPort::AdPartnerOperPortState(it) => is::<LacpState>(it),
        InfoBondPort::Prio(it) => is::<i32>(it),
        InfoBondPort::AdChurnActorState(it) => is::<ChurnState>(it),
        InfoBondPort::AdChurnPartnerState(it) => is::<ChurnState>(it),
        InfoBondPort::Other(it) => is::<DefaultNla>(it),
    }
}

fn bridge(value: &InfoBridge) {
    use InfoBridge as Of;
    match value {
        Of::ForwardDelay(it) | Of::HelloTime(it) | Of::MaxAge(it) | Of::AgeingTime(it) => is::<u32>(
            it,
        ),
        Of::StpState(it) => is::<BridgeStpState>(it),
        Of::VlanProtocol(it) => is::<VlanProtocol>(it),
        Of::RootId(it) | Of::BridgeId(it) => is::<BridgeId>(it),
        Of::Priority(it) | Of::GroupFwdMask(it) | Of::RootPort(it) => is::<u16>(it),
        Of::VlanDefaultPvid(it) => is::<u16>(it),
        Of::TopologyChange(it) | Of::TopologyChangeDetected(it) => is::<u8>(it),
        Of::MulticastIgmpVersion(it) | Of::MulticastMldVersion(it) => is::<u8>(it),
        Of::HelloTimer(it) | Of::TcnTimer(it) | Of::TopologyChangeTimer(it) => is::<u64>(it),
        Of::GcTimer(it) | Of::MulticastLastMemberInterval(it) => is::<u64>(it),
        Of::MulticastMembershipInterval(it) | Of::MulticastQuerierInterval(it) => is::<u64>(it),
        Of::MulticastQueryInterval(it) | Of::MulticastQueryResponseInterval(it) => is::<u64>(it),
        Of::MulticastStartupQueryInterval(it) => is::<u64>(it),
        Of::GroupAddr(it) => is::<[u8; 6]>(it),
        Of::FdbFlush => {}
        Of::MulticastRouter(it) => is::<BridgeMulticastRouterType>(it),
        Of::RootPathCost(it) | Of::MulticastHashElasticity(it) => is::<u32>(it),
        Of::MulticastHashMax(it) | Of::MulticastLastMemberCount(it) => is::<u32>(it),
        Of::MulticastStartupQueryCount(it) | Of::FdbNLearned(it) => is::<u32>(it),
        Of::FdbMaxLearned(it) => is::<u32>(it),
        Of::VlanFiltering(it) | Of::MulticastSnooping(it) => is::<bool>(it),
        Of::MulticastQueryUseIfaddr(it) | Of::MulticastQuerier(it) => is::<bool>(it),
        Of::NfCallIpTables(it) | Of::NfCallIp6Tables(it) | Of::NfCallArpTables(it) => is::<bool>(
            it,
        ),
        Of::VlanStatsEnabled(it) | Of::MulticastStatsEnabled(it) => is::<bool>(it),
        Of::VlanStatsPerPort(it) => is::<bool>(it),
        Of::MultiBoolOpt(it) => is::<BridgeBooleanOptions>(it),
        Of::MulticastQuerierState(it) => is::<Vec<BridgeQuerierState>>(it),
        Of::StpMode(it) => is::<BridgeStpMode>(it),
        Of::Other(it) => is::<DefaultNla>(it),
    }
}

fn bridge_port(value: &InfoBridgePort) {
    use InfoBridgePort as Of;
    match value {
        Of::State(it) => is::<BridgePortState>(it),
        Of::Priority(it) | Of::DesignatedPort(it) | Of::DesignatedCost(it) => is::<u16>(it),
        Of::PortId(it) | Of::PortNumber(it) | Of::GroupFwdMask(it) => is::<u16>(it),
        Of::Cost(it) | Of::BackupPort(it) | Of::MulticastEhtHostsLimit(it) => is::<u32>(it),
        Of::MulticastEhtHostsCnt(it) | Of::MulticastNGroups(it) => is::<u32>(it),
        Of::MulticastMaxGroups(it) | Of::BackupNextHopId(it) => is::<u32>(it),
        Of::MessageAgeTimer(it) | Of::ForwardDelayTimer(it) | Of::HoldTimer(it) => is::<u64>(it),
        Of::HairpinMode(it) | Of::Guard(it) | Of::Protect(it) | Of::FastLeave(it) => is::<bool>(it),
        Of::Learning(it) | Of::UnicastFlood(it) | Of::ProxyARP(it) => is::<bool>(it),
        Of::LearningSync(it) | Of::ProxyARPWifi(it) | Of::TopologyChangeAck(it) => is::<bool>(it),
        Of::ConfigPending(it) | Of::MulticastFlood(it) => is::<bool>(it),
        Of::MulticastToUnicast(it) | Of::VlanTunnel(it) | Of::BroadcastFlood(it) => is::<bool>(it),
        Of::NeighSupress(it) | Of::Isolated(it) | Of::MrpRingOpen(it) => is::<bool>(it),
        Of::MrpInOpen(it) | Of::Locked(it) | Of::Mab(it) => is::<bool>(it),
        Of::NeighVlanSuppress(it) | Of::NeighForwardGrat(it) => is::<bool>(it),
        Of::RootId(it) | Of::BridgeId(it) => is::<BridgeId>(it),
        Of::Flush => {}
        Of::MulticastRouter(it) => is::<BridgeMulticastRouterType>(it),
        Of::Other(it) => is::<DefaultNla>(it),
    }
}

fn vlan(value: &InfoVlan) {
    match value {
        InfoVlan::Id(it) => is::<u16>(it),
        InfoVlan::Flags(it) => is::<(VlanFlags, VlanFlags)>(it),
        InfoVlan::EgressQos(it) | InfoVlan::IngressQos(it) => is::<Vec<VlanQosMapping>>(it),
        InfoVlan::Protocol(it) => is::<VlanProtocol>(it),
        InfoVlan::Other(it) => is::<DefaultNla>(it),
    }
}

fn can(value: &InfoCan) {
    match value {
        InfoCan::BitTiming(it) | InfoCan::DataBitTiming(it) => is::<CanBitTiming>(it),
        InfoCan::BitTimingConst(it) => is::<CanBitTimingConst>(it),
        InfoCan::DataBitTimingConst(it) => is::<CanBitTimingConst>(it),
        InfoCan::Clock(it) => is::<CanClock>(it),
        InfoCan::State(it) | InfoCan::RestartMs(it) | InfoCan::Restart(it) => is::<u32>(it),
        InfoCan::BitrateMax(it) => is::<u32>(it),
        InfoCan::CtrlMode(it) => is::<CanCtrlMode>(it),
        InfoCan::BerrCounter(it) => is::<CanBerrCounter>(it),
        InfoCan::Termination(it) => is::<u16>(it),
        InfoCan::TerminationConst(it) => is::<Vec<u16>>(it),
        InfoCan::BitrateConst(it) | InfoCan::DataBitrateConst(it) => is::<Vec<u32>>(it),
        InfoCan::Tdc(it) => is::<Vec<CanTdc>>(it),
        InfoCan::CtrlModeExt(it) => is::<Vec<CanCtrlModeExt>>(it),
        InfoCan::Other(it) => is::<DefaultNla>(it),
    }
}

fn dsa(value: &InfoDsa) {
    match value {
        InfoDsa::Conduit(it) => is::<u32>(it),
        InfoDsa::Other(it) => is::<DefaultNla>(it),
    }
}

fn hsr(value: &InfoHsr) {
    match value {
        InfoHsr::Port1(it) | InfoHsr::Port2(it) | InfoHsr::Interlink(it) => is::<u32>(it),
        InfoHsr::MulticastSpec(it) | InfoHsr::Version(it) => is::<u8>(it),
        InfoHsr::SupervisionAddr(it) => is::<[u8; 6]>(it),
        InfoHsr::SeqNr(it) => is::<u16>(it),
        InfoHsr::Protocol(it) => is::<HsrProtocol>(it),
        InfoHsr::Other(it) => is::<DefaultNla>(it),
    }
}

fn vxlan(value: &InfoVxlan) {
    match value {
        InfoVxlan::Id(it) | InfoVxlan::Link(it) | InfoVxlan::Ageing(it) => is::<u32>(it),
        InfoVxlan::Limit(it) | InfoVxlan::Label(it) | InfoVxlan::LabelPolicy(it) => is::<u32>(it),
        InfoVxlan::Group(it) | InfoVxlan::Local(it) => is::<Ipv4Addr>(it),
        InfoVxlan::Group6(it) | InfoVxlan::Local6(it) => is::<Ipv6Addr>(it),
        InfoVxlan::Ttl(it) | InfoVxlan::Tos(it) | InfoVxlan::Df(it) => is::<u8>(it),
        InfoVxlan::Port(it) => is::<u16>(it),
        InfoVxlan::PortRange(it) => is::<VxlanPortRange>(it),
        InfoVxlan::ReservedBits(it) => is::<VxlanHeader>(it),
        InfoVxlan::Learning(it) | InfoVxlan::Proxy(it) | InfoVxlan::Rsc(it) => is::<bool>(it),
        InfoVxlan::L2Miss(it) | InfoVxlan::L3Miss(it) | InfoVxlan::UdpCsum(it) => is::<bool>(it),
        InfoVxlan::UdpZeroCsum6Tx(it) | InfoVxlan::UdpZeroCsum6Rx(it) => is::<bool>(it),
        InfoVxlan::RemCsumTx(it) | InfoVxlan::RemCsumRx(it) => is::<bool>(it),
        InfoVxlan::CollectMetadata(it) | InfoVxlan::VniFilter(it) => is::<bool>(it),
        InfoVxlan::LocalBypass(it) | InfoVxlan::McRoute(it) => is::<bool>(it),
        InfoVxlan::TtlInherit(it) => is::<Option<bool>>(it),
        InfoVxlan::Gbp | InfoVxlan::RemCsumNoPartial | InfoVxlan::Gpe => {}
        InfoVxlan::Other(it) => is::<DefaultNla>(it),
    }
}

fn geneve(value: &InfoGeneve) {
    match value {
        InfoGeneve::Id(it) | InfoGeneve::Label(it) => is::<u32>(it),
        InfoGeneve::Remote(it) => is::<Ipv4Addr>(it),
        InfoGeneve::Remote6(it) => is::<Ipv6Addr>(it),
        InfoGeneve::Ttl(it) | InfoGeneve::Tos(it) | InfoGeneve::Df(it) => is::<u8>(it),
        InfoGeneve::Port(it) => is::<u16>(it),
        InfoGeneve::PortRange(it) => is::<GenevePortRange>(it),
        InfoGeneve::UdpCsum(it) | InfoGeneve::UdpZeroCsum6Tx(it) => is::<bool>(it),
        InfoGeneve::UdpZeroCsum6Rx(it) | InfoGeneve::TtlInherit(it) => is::<bool>(it),
        InfoGeneve::CollectMetadata | InfoGeneve::InnerProtoInherit => {}
        InfoGeneve::Other(it) => is::<DefaultNla>(it),
    }
}

fn vrf(value: &InfoVrf) {
    match value {
        InfoVrf::TableId(it) => is::<u32>(it),
        InfoVrf::Other(it) => is::<DefaultNla>(it),
    }
}

fn vrf_port(value: &InfoVrfPort) {
    match value {
        InfoVrfPort::TableId(it) => is::<u32>(it),
        InfoVrfPort::Other(it) => is::<DefaultNla>(it),
    }
}

fn tun(value: &InfoTun) {
    match value {
        InfoTun::Owner(it) | InfoTun::Group(it) => is::<u32>(it),
        InfoTun::NumQueues(it) | InfoTun::NumDisabledQueues(it) => is::<u32>(it),
        InfoTun::Type(it) => is::<u8>(it),
        InfoTun::Pi(it) | InfoTun::VnetHdr(it) | InfoTun::Persist(it) => is::<bool>(it),
        InfoTun::MultiQueue(it) => is::<bool>(it),
        InfoTun::Other(it) => is::<DefaultNla>(it),
    }
}

fn ipvlan(value: &InfoIpVlan) {
    match value {
        InfoIpVlan::Mode(it) | InfoIpVlan::Flags(it) => is::<u16>(it),
        InfoIpVlan::Other(it) => is::<DefaultNla>(it),
    }
}

fn macvlan(value: &InfoMacVlan) {
    match value {
        InfoMacVlan::Mode(it) | InfoMacVlan::MacAddrMode(it) => is::<u32>(it),
        InfoMacVlan::Flags(it) => is::<u16>(it),
        InfoMacVlan::MacAddr(it) => is::<[u8; 6]>(it),
        InfoMacVlan::MacAddrData(it) => is::<Vec<MacVlanAddress>>(it),
        InfoMacVlan::MacAddrCount(it) | InfoMacVlan::BcQueueLen(it) => is::<u32>(it),
        InfoMacVlan::BcQueueLenUsed(it) => is::<u32>(it),
        InfoMacVlan::BcCutoff(it) => is::<i32>(it),
        InfoMacVlan::Other(it) => is::<DefaultNla>(it),
    }
}

fn macvlan_address(value: &MacVlanAddress) {
    match value {
        MacVlanAddress::MacAddr(it) => is::<[u8; 6]>(it),
        MacVlanAddress::Other(it) => is::<DefaultNla>(it),
    }
}

fn netkit(value: &InfoNetkit) {
    match value {
        InfoNetkit::PeerInfo(it) => is::<Peer>(it),
        InfoNetkit::Primary(it) => is::<bool>(it),
        InfoNetkit::Policy(it) | InfoNetkit::PeerPolicy(it) => is::<u32>(it),
        InfoNetkit::Mode(it) | InfoNetkit::Scrub(it) | InfoNetkit::PeerScrub(it) => is::<u32>(it),
        InfoNetkit::Headroom(it) | InfoNetkit::Tailroom(it) => is::<u16>(it),
        InfoNetkit::Other(it) => is::<DefaultNla>(it),
    }
}

fn veth(value: &InfoVeth) {
    match value {
        InfoVeth::Peer(it) => is::<Peer>(it),
        InfoVeth::Other(it) => is::<DefaultNla>(it),
    }
}

fn proto_bridge(value: &LinkProtoInfoBridge) {
    match value {
        LinkProtoInfoBridge::NeighForwardGrat(it) => is::<bool>(it),
        LinkProtoInfoBridge::Other(it) => is::<DefaultNla>(it),
    }
}

// Elements of nested lists

fn tunnels(value: &BridgeVlanTunnelInfo) {
    match value {
        BridgeVlanTunnelInfo::Id(it) => is::<u32>(it),
        BridgeVlanTunnelInfo::Vid(it) => is::<u16>(it),
        BridgeVlanTunnelInfo::Flags(it) => is::<BridgeVlanInfoFlags>(it),
        BridgeVlanTunnelInfo::Other(it) => is::<DefaultNla>(it),
    }
}

fn aggregators(value: &BondAdInfo) {
    match value {
        BondAdInfo::Aggregator(it) | BondAdInfo::NumPorts(it) => is::<u16>(it),
        BondAdInfo::ActorKey(it) | BondAdInfo::PartnerKey(it) => is::<u16>(it),
        BondAdInfo::PartnerMac(it) => is::<[u8; 6]>(it),
        BondAdInfo::Other(it) => is::<DefaultNla>(it),
    }
}

fn queriers(value: &BridgeQuerierState) {
    match value {
        BridgeQuerierState::Ipv4Address(it) => is::<Ipv4Addr>(it),
        BridgeQuerierState::Ipv6Address(it) => is::<Ipv6Addr>(it),
        BridgeQuerierState::Ipv4Port(it) | BridgeQuerierState::Ipv6Port(it) => is::<u32>(it),
        BridgeQuerierState::Ipv4OtherTimer(it) => is::<u64>(it),
        BridgeQuerierState::Ipv6OtherTimer(it) => is::<u64>(it),
        BridgeQuerierState::Other(it) => is::<DefaultNla>(it),
    }
}

fn mappings(value: &VlanQosMapping) {
    match value {
        VlanQosMapping::Mapping(from, to) => is::<[&u32; 2]>(&[from, to]),
        VlanQosMapping::Other(it) => is::<DefaultNla>(it),
    }
}

fn delays(value: &CanTdc) {
    match value {
        CanTdc::TdcvMin(it) | CanTdc::TdcvMax(it) | CanTdc::TdcoMin(it) => is::<u32>(it),
        CanTdc::TdcoMax(it) | CanTdc::TdcfMin(it) | CanTdc::TdcfMax(it) => is::<u32>(it),
        CanTdc::Tdcv(it) | CanTdc::Tdco(it) | CanTdc::Tdcf(it) => is::<u32>(it),
        CanTdc::Other(it) => is::<DefaultNla>(it),
    }
}

fn modes(value: &CanCtrlModeExt) {
    match value {
        CanCtrlModeExt::Supported(it) => is::<CanCtrlModeFlags>(it),
        CanCtrlModeExt::Other(it) => is::<DefaultNla>(it),
    }
}

// Structs

fn bridge_structs(id: &BridgeId, info: &BridgeVlanInfo, options: &BridgeBooleanOptions) {
    let BridgeId { priority, address } = id;
    is::<u16>(priority);
    is::<[u8; 6]>(address);
    let BridgeVlanInfo { flags, vid } = info;
    is::<BridgeVlanInfoFlags>(flags);
    is::<u16>(vid);
    let BridgeBooleanOptions { value, mask } = options;
    is::<[&BridgeBooleanOptionFlags; 2]>(&[value, mask]);
}

fn can_structs(mode: &CanCtrlMode, clock: &CanClock, counter: &CanBerrCounter) {
    let CanCtrlMode { mask, flags } = mode;
    is::<[&CanCtrlModeFlags; 2]>(&[mask, flags]);
    let CanClock { freq } = clock;
    is::<u32>(freq);
    let CanBerrCounter { txerr, rxerr } = counter;
    is::<[&u16; 2]>(&[txerr, rxerr]);
}

fn port_range(range: &VxlanPortRange) {
    let VxlanPortRange { low, high } = range;
    is::<[&u16; 2]>(&[low, high]);
}

fn geneve_port_range(range: &GenevePortRange) {
    let GenevePortRange { low, high } = range;
    is::<[&u16; 2]>(&[low, high]);
}

fn header(bits: &VxlanHeader) {
    let VxlanHeader { vx_flags, vx_vni } = bits;
    is::<[&u32; 2]>(&[vx_flags, vx_vni]);
}

fn peer(other_end: &Peer) {
    let Peer { header, attributes } = other_end;
    is::<[u8; 16]>(header);
    is::<Vec<u8>>(attributes);
}

fn bit_timing(timing: &CanBitTiming) {
    let CanBitTiming {
        bitrate,
        sample_point,
        tq,
        prop_seg,
        phase_seg1,
        phase_seg2,
        sjw,
        brp,
    } = timing;
    is::<[&u32; 4]>(&[bitrate, sample_point, tq, prop_seg]);
    is::<[&u32; 4]>(&[phase_seg1, phase_seg2, sjw, brp]);
}

fn bit_timing_limits(limits: &CanBitTimingConst) {
    let CanBitTimingConst {
        name,
        tseg1_min,
        tseg1_max,
        tseg2_min,
        tseg2_max,
        sjw_max,
        brp_min,
        brp_max,
        brp_inc,
    } = limits;
    is::<String>(name);
    is::<[&u32; 4]>(&[tseg1_min, tseg1_max, tseg2_min, tseg2_max]);
    is::<[&u32; 4]>(&[sjw_max, brp_min, brp_max, brp_inc]);
}

fn lists(af_spec: &VecAfSpecBridge, protocol: &VecLinkProtoInfoBridge) {
    is::<Vec<AfSpecBridge>>(&af_spec.0);
    is::<Vec<LinkProtoInfoBridge>>(&protocol.0);
}

// Errors

fn causes(cause: Cause) {
    match cause {
        Cause::ShortFrame { left } => is::<usize>(&left),
        Cause::SmallLength { length } => is::<u16>(&length),
        Cause::Overrun { length, left } => {
            is::<u16>(&length);
            is::<usize>(&left);
        }
        Cause::WrongLength { want, got } => is::<[usize; 2]>(&[want, got]),
        Cause::TooShort { want, got } => is::<[usize; 2]>(&[want, got]),
        Cause::AddressLength { got } => is::<usize>(&got),
    }
}

fn faults(fault: DecodeFault) {
    match fault {
        DecodeFault::Frame(cause) | DecodeFault::Payload(cause) => is::<Cause>(&cause),
        DecodeFault::Value { kind, cause } | DecodeFault::NestedFrame { kind, cause } => {
            is::<u16>(&kind);
            is::<Cause>(&cause);
        }
        DecodeFault::NestedValue { kind, inner, cause } => {
            is::<[u16; 2]>(&[kind, inner]);
            is::<Cause>(&cause);
        }
        DecodeFault::Text => {}
    }
}

fn errors(one: &DecodeError, list: &ListError, written: &WriteError, again: &RewriteError) {
    match one {
        DecodeError::Memory(error) => is::<AllocError>(error),
        DecodeError::Fault(fault) => is::<DecodeFault>(fault),
    }
    match list {
        ListError::Memory(error) => is::<AllocError>(error),
        ListError::Fault { at, fault } => is::<(&usize, &DecodeFault)>(&(at, fault)),
    }
    match written {
        WriteError::Memory(error) => is::<AllocError>(error),
        WriteError::TooLong { index } => is::<usize>(index),
    }
    match again {
        RewriteError::Memory(error) => is::<AllocError>(error),
        RewriteError::Fault { at, fault } => is::<(&usize, &DecodeFault)>(&(at, fault)),
        RewriteError::TooLong { index } => is::<usize>(index),
    }
}

// Traits of types

/// An enum for the numbers `N`.
fn is_named<N: From<T>, T: Copy + Eq + Debug + Display + From<N>>() {}

/// An enum that parses texts.
fn is_parsed<N: From<T>, T: Copy + Eq + Debug + Display + From<N> + FromStr<Err = DecodeError>>() {}

fn is_flags<B, T: Flags<Bits = B> + Copy + Eq + Debug>() {}

fn has_default<T: Default>() {}

fn is_hashed<T: Hash>() {}

fn is_copied<T: Copy + Eq + Debug>() {}

fn is_cloned<T: Clone + Eq + Debug>() {}

fn is_attribute<T: Attribute + TryClone + Eq + Debug>() {}

fn is_compared<T: Eq + Debug>() {}

fn is_displayed<T: Eq + Debug + Display>() {}

#[test]
fn enums() {
    is_parsed::<u8, BondMode>();
    is_parsed::<u32, BondArpValidate>();
    is_parsed::<u8, BondPrimaryReselect>();
    is_parsed::<u8, BondXmitHashPolicy>();
    is_parsed::<u32, BondArpAllTargets>();
    is_parsed::<u8, BondFailOverMac>();
    is_parsed::<u8, BondAllPortActive>();
    is_parsed::<u8, BondLacpRate>();
    is_parsed::<u8, BondAdSelect>();
    is_parsed::<u8, BondPortState>();
    is_parsed::<u8, MiiStatus>();
    is_parsed::<u8, ChurnState>();
    is_parsed::<u16, BridgeFlag>();
    is_parsed::<u16, BridgeMode>();
    is_parsed::<u32, BridgeStpState>();
    is_parsed::<u32, BridgeStpMode>();
    is_parsed::<u8, BridgeMulticastRouterType>();
    is_parsed::<u8, BridgePortState>();
    is_named::<u8, HsrProtocol>();
    is_parsed::<u16, VlanProtocol>();
}

#[test]
fn traits() {
    is_flags::<u16, BridgeVlanInfoFlags>();
    is_flags::<u8, LacpState>();
    is_flags::<u32, BridgeBooleanOptionFlags>();
    is_flags::<u32, CanCtrlModeFlags>();
    is_flags::<u32, VlanFlags>();
    is_hashed::<BridgeVlanInfoFlags>();
    is_hashed::<CanCtrlModeFlags>();
    is_hashed::<VlanFlags>();
    has_default::<BridgeBooleanOptionFlags>();
    has_default::<BondMode>();
    has_default::<BondArpValidate>();
    has_default::<BondPrimaryReselect>();
    has_default::<BondXmitHashPolicy>();
    has_default::<BondArpAllTargets>();
    has_default::<BondFailOverMac>();
    has_default::<VlanProtocol>();
    has_default::<CanBitTiming>();
    has_default::<CanClock>();
    is_copied::<Family>();
    is_copied::<Cause>();
    is_copied::<DecodeFault>();
    is_copied::<NlaBuffer<'_>>();
    is_copied::<BridgeVlanInfo>();
    is_copied::<BridgeBooleanOptions>();
    is_cloned::<BridgeId>();
    is_cloned::<BridgeIdBuffer>();
    is_cloned::<CanBitTiming>();
    is_cloned::<CanCtrlMode>();
    is_cloned::<CanClock>();
    is_cloned::<CanBerrCounter>();
    is_copied::<VxlanPortRange>();
    is_copied::<VxlanHeader>();
    is_copied::<GenevePortRange>();
    is_compared::<CanBitTimingConst>();
    is_compared::<VecAfSpecBridge>();
    is_compared::<VecLinkProtoInfoBridge>();
    is_compared::<NlasIterator<'_>>();
    is_compared::<FrameTable<'_>>();
    is_displayed::<Cause>();
    is_displayed::<DecodeFault>();
    is_displayed::<DecodeError>();
    is_displayed::<ListError>();
    is_displayed::<WriteError>();
    is_displayed::<RewriteError>();
}

#[test]
fn attributes() {
    is_attribute::<AfSpecBridge>();
    is_attribute::<InfoBond>();
    is_attribute::<InfoBondPort>();
    is_attribute::<InfoBridge>();
    is_attribute::<InfoBridgePort>();
    is_attribute::<InfoVlan>();
    is_attribute::<InfoCan>();
    is_attribute::<InfoDsa>();
    is_attribute::<InfoHsr>();
    is_attribute::<LinkProtoInfoBridge>();
    is_attribute::<InfoVxlan>();
    is_attribute::<LinkAttribute>();
    is_attribute::<AfSpecUnspec>();
    is_attribute::<AfSpecInet>();
    is_attribute::<AfSpecInet6>();
    is_attribute::<AfSpecMctp>();
    is_attribute::<ReplyAttribute>();
    is_attribute::<InfoGeneve>();
    is_attribute::<InfoNetkit>();
    is_attribute::<InfoVeth>();
    is_attribute::<MacVlanAddress>();
    is_attribute::<InfoMacVlan>();
    is_attribute::<InfoIpVlan>();
    is_attribute::<InfoTun>();
    is_attribute::<InfoVrfPort>();
    is_attribute::<InfoVrf>();
    is_attribute::<BridgeVlanTunnelInfo>();
    is_attribute::<BondAdInfo>();
    is_attribute::<BridgeQuerierState>();
    is_attribute::<VlanQosMapping>();
    is_attribute::<CanTdc>();
    is_attribute::<CanCtrlModeExt>();
    is_attribute::<DefaultNla>();
}

// Variants of enums

fn bond_modes(value: BondMode) {
    use BondMode as Of;
    match value {
        Of::BalanceRr | Of::ActiveBackup | Of::BalanceXor | Of::Broadcast => {}
        Of::Ieee8023Ad | Of::BalanceTlb | Of::BalanceAlb => {}
        Of::Other(number) => is::<u8>(&number),
    }
}

fn bond_validation(value: BondArpValidate, targets: BondArpAllTargets) {
    use BondArpValidate as Of;
    match value {
        Of::None | Of::Active | Of::Backup | Of::All => {}
        Of::Filter | Of::FilterActive | Of::FilterBackup => {}
        Of::Other(number) => is::<u32>(&number),
    }
    match targets {
        BondArpAllTargets::Any | BondArpAllTargets::All => {}
        BondArpAllTargets::Other(number) => is::<u32>(&number),
    }
}

fn bond_policies(primary: BondPrimaryReselect, mac: BondFailOverMac, policy: BondXmitHashPolicy) {
    use BondXmitHashPolicy as Of;
    match primary {
        BondPrimaryReselect::Always | BondPrimaryReselect::Better => {}
        BondPrimaryReselect::Failure => {}
        BondPrimaryReselect::Other(number) => is::<u8>(&number),
    }
    match mac {
        BondFailOverMac::None | BondFailOverMac::Active | BondFailOverMac::Follow => {}
        BondFailOverMac::Other(number) => is::<u8>(&number),
    }
    match policy {
        Of::Layer2 | Of::Layer34 | Of::Layer23 | Of::Encap23 | Of::Encap34 | Of::VlanSrcMac => {}
        Of::Other(number) => is::<u8>(&number),
    }
}

fn bond_options(active: BondAllPortActive, rate: BondLacpRate, select: BondAdSelect) {
    use BondAdSelect as Of;
    match active {
        BondAllPortActive::Dropped | BondAllPortActive::Delivered => {}
        BondAllPortActive::Other(number) => is::<u8>(&number),
    }
    match rate {
        BondLacpRate::Slow | BondLacpRate::Fast => {}
        BondLacpRate::Other(number) => is::<u8>(&number),
    }
    match select {
        Of::Stable | Of::Bandwidth | Of::Count | Of::ActorPortPrio => {}
        Of::Other(number) => is::<u8>(&number),
    }
}

fn bond_port_states(state: BondPortState, status: MiiStatus, churn: ChurnState) {
    match state {
        BondPortState::Active | BondPortState::Backup => {}
        BondPortState::Other(number) => is::<u8>(&number),
    }
    match status {
        MiiStatus::Up | MiiStatus::GoingDown | MiiStatus::Down | MiiStatus::GoingBack => {}
        MiiStatus::Other(number) => is::<u8>(&number),
    }
    match churn {
        ChurnState::Monitor | ChurnState::Churn | ChurnState::NoChurn => {}
        ChurnState::Other(number) => is::<u8>(&number),
    }
}

fn af_spec_numbers(flag: BridgeFlag, mode: BridgeMode) {
    match flag {
        BridgeFlag::Controller | BridgeFlag::LowerDev => {}
        BridgeFlag::Other(number) => is::<u16>(&number),
    }
    match mode {
        BridgeMode::Veb | BridgeMode::Vepa => {}
        BridgeMode::Other(number) => is::<u16>(&number),
    }
}

fn bridge_states(state: BridgeStpState, mode: BridgeStpMode) {
    match state {
        BridgeStpState::Disabled | BridgeStpState::KernelStp | BridgeStpState::UserStp => {}
        BridgeStpState::Other(number) => is::<u32>(&number),
    }
    match mode {
        BridgeStpMode::Auto | BridgeStpMode::User | BridgeStpMode::Kernel => {}
        BridgeStpMode::Other(number) => is::<u32>(&number),
    }
}

fn bridge_port_states(router: BridgeMulticastRouterType, state: BridgePortState) {
    use BridgePortState as Of;
    match router {
        BridgeMulticastRouterType::Disabled | BridgeMulticastRouterType::TempQuery => {}
        BridgeMulticastRouterType::Permanent | BridgeMulticastRouterType::Temp => {}
        BridgeMulticastRouterType::Other(number) => is::<u8>(&number),
    }
    is::<BridgeMulticastRouterType>(&BridgeMulticastRouterType::Auto);
    match state {
        Of::Disabled | Of::Listening | Of::Learning | Of::Forwarding | Of::Blocking => {}
        Of::Other(number) => is::<u8>(&number),
    }
}

fn protocols(hsr: HsrProtocol, vlan: VlanProtocol) {
    match hsr {
        HsrProtocol::Hsr | HsrProtocol::Prp => {}
        HsrProtocol::Other(number) => is::<u8>(&number),
    }
    match vlan {
        VlanProtocol::Ieee8021Q | VlanProtocol::Ieee8021Ad => {}
    }
}

fn families(family: Family) {
    match family {
        Family::AfSpecBridge | Family::Bond | Family::BondPort | Family::Bridge => {}
        Family::BridgePort | Family::Vlan | Family::Can | Family::Dsa => {}
        Family::Hsr | Family::ProtoBridge | Family::Vxlan => {}
        Family::Link | Family::AfSpec | Family::Inet | Family::Inet6 => {}
        Family::Mctp | Family::Reply | Family::Geneve => {}
        Family::Vrf
        | Family::VrfPort
        | Family::Tun
        | Family::IpVlan
        | Family::MacVlan
        | Family::Netkit
        | Family::Veth => {}
    }
}

// Flags

fn flags_of_bridges() {
    use BridgeBooleanOptionFlags as Option;
    use BridgeVlanInfoFlags as Info;
    is::<[Info; 4]>(&[
        Info::Controller,
        Info::Pvid,
        Info::Untagged,
        Info::RangeBegin,
    ]);
    is::<[Info; 3]>(&[Info::RangeEnd, Info::Brentry, Info::OnlyOpts]);
    is::<[Option; 2]>(&[Option::NoLinkLocalLearn, Option::VlanMulticastSnooping]);
    is::<[Option; 2]>(&[Option::MstEnable, Option::MdbOffloadFailNotif]);
    is::<Option>(&Option::FdbLocalVlan0);
}

fn flags_of_bond_ports() {
    use LacpState as Of;
    is::<[Of; 3]>(&[Of::LACP_ACTIVITY, Of::LACP_TIMEOUT, Of::AGGREGATION]);
    is::<[Of; 3]>(&[Of::SYNCHRONIZATION, Of::COLLECTING, Of::DISTRIBUTING]);
    is::<[Of; 2]>(&[Of::DEFAULTED, Of::EXPIRED]);
}

fn flags_of_vlan_and_can() {
    use CanCtrlModeFlags as Of;
    use VlanFlags as Flag;
    is::<[Flag; 3]>(&[Flag::ReorderHdr, Flag::Gvrp, Flag::LooseBinding]);
    is::<[Flag; 2]>(&[Flag::Mvrp, Flag::BridgeBinding]);
    is::<[Of; 4]>(&[
        Of::Loopback,
        Of::ListenOnly,
        Of::TripleSampling,
        Of::OneShot,
    ]);
    is::<[Of; 4]>(&[Of::BerrReporting, Of::Fd, Of::PresumeAck, Of::FdNonIso]);
    is::<[Of; 4]>(&[Of::CcLen8Dlc, Of::TdcAuto, Of::TdcManual, Of::Restricted]);
    is::<[Of; 4]>(&[Of::Xl, Of::XlTdcAuto, Of::XlTdcManual, Of::XlTms]);
}
