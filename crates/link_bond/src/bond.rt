//! Bond attributes (`IFLA_INFO_DATA` of a link whose `IFLA_INFO_KIND` is `bond`).

ghost use Rattle.link_bond.specs.Bond.{bond_table, bond_means};

mod ad_info;
mod ad_select;
mod all_port_active;
mod arp_all_targets;
mod arp_validate;
mod fail_over_mac;
mod lacp_rate;
mod mode;
mod primary_reselect;
mod xmit_hash_policy;

pub use ad_info::BondAdInfo;
pub use ad_select::BondAdSelect;
pub use all_port_active::BondAllPortActive;
pub use arp_all_targets::BondArpAllTargets;
pub use arp_validate::BondArpValidate;
pub use fail_over_mac::BondFailOverMac;
pub use lacp_rate::BondLacpRate;
use link_base::rows::by_rows::{AttributeRows, RowVisitor};
use link_base::{
    AddressList, Attribute, DecodeError, DefaultNla, Meaning, Named, NestedList, Nla, NlaBuffer,
    Parseable, Place, TryClone,
};
pub use mode::BondMode;
pub use primary_reselect::BondPrimaryReselect;
use std::alloc::{AllocError, Global};
use std::net::{Ipv4Addr, Ipv6Addr};
pub use xmit_hash_policy::BondXmitHashPolicy;

/// A bond attribute (`IFLA_BOND_*`, `include/uapi/linux/if_link.h`).
///
/// Attributes marked read-only are reported by the kernel and cannot be set.
#[derive(Debug, PartialEq, Eq, Drop)]
pub enum InfoBond {
    /// How traffic is distributed over the ports (`IFLA_BOND_MODE`, `u8`).
    Mode(BondMode),
    /// Interface index of the active port (`IFLA_BOND_ACTIVE_SLAVE`, `u32`).
    ActivePort(u32),
    /// MII monitoring interval, at which the links of the ports are checked, in milliseconds; 0 disables monitoring
    /// (`IFLA_BOND_MIIMON`, `u32`).
    MiiMon(u32),
    /// How long a link must be up before its port is used, in milliseconds (`IFLA_BOND_UPDELAY`, `u32`).
    UpDelay(u32),
    /// How long a link must be down before its port is disabled, in milliseconds (`IFLA_BOND_DOWNDELAY`, `u32`).
    DownDelay(u32),
    /// Whether the link state is the carrier state that the driver reports; if not, it is queried by MII or ethtool
    /// (`IFLA_BOND_USE_CARRIER`, `u8`).
    UseCarrier(bool),
    /// ARP monitoring interval, at which the ports are checked by ARP and neighbor messages, in milliseconds; 0
    /// disables monitoring (`IFLA_BOND_ARP_INTERVAL`, `u32`).
    ArpInterval(u32),
    /// Target addresses of ARP requests (`IFLA_BOND_ARP_IP_TARGET`, a nested list of IPv4 addresses, at most 8191).
    ArpIpTarget(Vec<Ipv4Addr>),
    /// Which ports validate the ARP and neighbor messages that they receive (`IFLA_BOND_ARP_VALIDATE`, `u32`).
    ArpValidate(BondArpValidate),
    /// How many targets a port must reach (`IFLA_BOND_ARP_ALL_TARGETS`, `u32`).
    ArpAllTargets(BondArpAllTargets),
    /// Interface index of the preferred port (`IFLA_BOND_PRIMARY`, `u32`).
    Primary(u32),
    /// When the primary port becomes the active port again (`IFLA_BOND_PRIMARY_RESELECT`, `u8`).
    PrimaryReselect(BondPrimaryReselect),
    /// Which hardware addresses the ports have (`IFLA_BOND_FAIL_OVER_MAC`, `u8`).
    FailOverMac(BondFailOverMac),
    /// Which fields of a packet are hashed (`IFLA_BOND_XMIT_HASH_POLICY`, `u8`).
    XmitHashPolicy(BondXmitHashPolicy),
    /// Number of IGMP membership reports sent after a failover (`IFLA_BOND_RESEND_IGMP`, `u32`).
    ResendIgmp(u32),
    /// Number of gratuitous ARP and neighbor messages sent after a failover (`IFLA_BOND_NUM_PEER_NOTIF`, `u8`).
    NumPeerNotif(u8),
    /// What happens to duplicate frames, those received on inactive ports (`IFLA_BOND_ALL_SLAVES_ACTIVE`, `u8`).
    AllPortsActive(BondAllPortActive),
    /// Minimum number of ports that must be up for the bond to be up, in mode `Ieee8023Ad` (`IFLA_BOND_MIN_LINKS`,
    /// `u32`).
    MinLinks(u32),
    /// Interval between learning packets to the switch of each port, in seconds, in modes `BalanceTlb` and `BalanceAlb`
    /// (`IFLA_BOND_LP_INTERVAL`, `u32`).
    LpInterval(u32),
    /// Number of packets to send from a port before moving to the next, in mode `BalanceRr`; 0 selects ports at random
    /// (`IFLA_BOND_PACKETS_PER_SLAVE`, `u32`).
    PacketsPerPort(u32),
    /// How often the LACP partner is asked to send LACPDUs (`IFLA_BOND_AD_LACP_RATE`, `u8`).
    AdLacpRate(BondLacpRate),
    /// How the active aggregator is chosen (`IFLA_BOND_AD_SELECT`, `u8`).
    AdSelect(BondAdSelect),
    /// The active aggregator (`IFLA_BOND_AD_INFO`, a nested list, read-only).
    AdInfo(Vec<BondAdInfo>),
    /// LACP priority of this system (`IFLA_BOND_AD_ACTOR_SYS_PRIO`, `u16`).
    AdActorSysPrio(u16),
    /// Upper ten bits of the LACP port keys (`IFLA_BOND_AD_USER_PORT_KEY`, `u16`).
    AdUserPortKey(u16),
    /// Hardware address of this system in LACP (`IFLA_BOND_AD_ACTOR_SYSTEM`, `[u8; 6]`).
    AdActorSystem([u8; 6]),
    /// Whether flows are moved between ports according to load, in modes `BalanceTlb` and `BalanceAlb`
    /// (`IFLA_BOND_TLB_DYNAMIC_LB`, `u8`).
    TlbDynamicLb(bool),
    /// Delay between the messages counted by `NumPeerNotif`, in milliseconds (`IFLA_BOND_PEER_NOTIF_DELAY`, `u32`).
    PeerNotifDelay(u32),
    /// Whether LACPDUs are sent even if the LACP partner sends none (`IFLA_BOND_AD_LACP_ACTIVE`, `u8`).
    AdLacpActive(bool),
    /// Maximum number of consecutive ARP monitoring intervals without a reply before a port is considered down
    /// (`IFLA_BOND_MISSED_MAX`, `u8`).
    MissedMax(u8),
    /// Target addresses of neighbor solicitations (`IFLA_BOND_NS_IP6_TARGET`, a nested list of IPv6 addresses, at most
    /// 3276).
    NsIp6Target(Vec<Ipv6Addr>),
    /// Whether a port starts collecting and distributing at the same time in LACP (`IFLA_BOND_COUPLED_CONTROL`, `u8`).
    CoupledControl(bool),
    /// Whether ARP and neighbor messages are sent from every active port, in mode `Ieee8023Ad`
    /// (`IFLA_BOND_BROADCAST_NEIGH`, `u8`).
    BroadcastNeigh(bool),
    /// Whether the bond is up only if it has ports on which LACP has reached agreement (`IFLA_BOND_LACP_STRICT`, `u8`).
    LacpStrict(bool),
    /// An attribute of any other type.
    Other(DefaultNla),
}

/// The attribute types (`IFLA_BOND_*`), the variant of each, and the class of its payload.
macro_rules! rows {
    ($call:ident($($argument:tt)*)) => {
        link_base::by_rows! { $call($($argument)*)
            "IFLA_BOND_";
            IFLA_BOND_MODE = 1, Mode: Named<BondMode>;
            IFLA_BOND_ACTIVE_SLAVE = 2, ActivePort: u32 as InterfaceIndex;
            IFLA_BOND_MIIMON = 3, MiiMon: u32 as Milliseconds;
            IFLA_BOND_UPDELAY = 4, UpDelay: u32 as Milliseconds;
            IFLA_BOND_DOWNDELAY = 5, DownDelay: u32 as Milliseconds;
            IFLA_BOND_USE_CARRIER = 6, UseCarrier: bool;
            IFLA_BOND_ARP_INTERVAL = 7, ArpInterval: u32 as Milliseconds;
            IFLA_BOND_ARP_IP_TARGET = 8, ArpIpTarget: AddressList<Ipv4Addr>;
            IFLA_BOND_ARP_VALIDATE = 9, ArpValidate: Named<BondArpValidate>;
            IFLA_BOND_ARP_ALL_TARGETS = 10, ArpAllTargets: Named<BondArpAllTargets>;
            IFLA_BOND_PRIMARY = 11, Primary: u32 as InterfaceIndex;
            IFLA_BOND_PRIMARY_RESELECT = 12, PrimaryReselect: Named<BondPrimaryReselect>;
            IFLA_BOND_FAIL_OVER_MAC = 13, FailOverMac: Named<BondFailOverMac>;
            IFLA_BOND_XMIT_HASH_POLICY = 14, XmitHashPolicy: Named<BondXmitHashPolicy>;
            IFLA_BOND_RESEND_IGMP = 15, ResendIgmp: u32;
            IFLA_BOND_NUM_PEER_NOTIF = 16, NumPeerNotif: u8;
            IFLA_BOND_ALL_SLAVES_ACTIVE = 17, AllPortsActive: Named<BondAllPortActive>;
            IFLA_BOND_MIN_LINKS = 18, MinLinks: u32;
            IFLA_BOND_LP_INTERVAL = 19, LpInterval: u32 as Seconds;
            IFLA_BOND_PACKETS_PER_SLAVE = 20, PacketsPerPort: u32;
            IFLA_BOND_AD_LACP_RATE = 21, AdLacpRate: Named<BondLacpRate>;
            IFLA_BOND_AD_SELECT = 22, AdSelect: Named<BondAdSelect>;
            IFLA_BOND_AD_INFO = 23, AdInfo: NestedList<BondAdInfo>;
            IFLA_BOND_AD_ACTOR_SYS_PRIO = 24, AdActorSysPrio: u16;
            IFLA_BOND_AD_USER_PORT_KEY = 25, AdUserPortKey: u16;
            IFLA_BOND_AD_ACTOR_SYSTEM = 26, AdActorSystem: [u8; 6];
            IFLA_BOND_TLB_DYNAMIC_LB = 27, TlbDynamicLb: bool;
            IFLA_BOND_PEER_NOTIF_DELAY = 28, PeerNotifDelay: u32 as Milliseconds;
            IFLA_BOND_AD_LACP_ACTIVE = 29, AdLacpActive: bool;
            IFLA_BOND_MISSED_MAX = 30, MissedMax: u8;
            IFLA_BOND_NS_IP6_TARGET = 31, NsIp6Target: AddressList<Ipv6Addr>;
            IFLA_BOND_COUPLED_CONTROL = 32, CoupledControl: bool;
            IFLA_BOND_BROADCAST_NEIGH = 33, BroadcastNeigh: bool;
            IFLA_BOND_LACP_STRICT = 34, LacpStrict: bool;
        }
    };
}

impl TryClone for InfoBond {
    fn try_clone(&self, alloc: Global) -> Result<Self, AllocError> {
        rows!(clone(self, alloc))
    }
}

impl Meaning for InfoBond {
    ghost table = { bond_table };

    ghost means = { bond_means };
}

impl Nla for InfoBond {
    fn kind(&self) -> u16 {
        rows!(kind(self))
    }

    fn value_len(&self) -> usize {
        rows!(size(self))
    }

    fn emit_value(&self, buffer: &mut [u8]) {
        rows!(emit(self, buffer))
    }
}

impl Parseable for InfoBond {
    fn parse_payload<P: Place<Self>>(
        alloc: Global,
        buffer: &NlaBuffer<'_>,
        place: &mut P,
    ) -> Result<(), DecodeError> {
        rows!(read(alloc, buffer, place))
    }
}

impl AttributeRows for InfoBond {
    #[inline(always)]
    fn visit_row<V: RowVisitor<Self>>(kind: u16, visitor: V) -> V::Output {
        rows!(visit(kind, visitor))
    }
}

impl Attribute for InfoBond {
    ghost use Rattle.std.specs.Prelude.{refl};
    ghost use Rattle.link_base.proofs.TableLaws.{lawful};
    ghost use Rattle.link_base.specs.Equality.{of_cases, thorough_fields};
    ghost use Rattle.link_bond.specs.contracts.bond.mode.BondModeNamedNumber.TheImpl.Laws as modes;
    ghost use Rattle.link_bond.specs.contracts.bond.arp_validate.BondArpValidateNamedNumber.TheImpl.Laws as validations;
    ghost use Rattle.link_bond.specs.contracts.bond.arp_all_targets.BondArpAllTargetsNamedNumber.TheImpl.Laws as target_rules;
    ghost use Rattle.link_bond.specs.contracts.bond.primary_reselect.BondPrimaryReselectNamedNumber.TheImpl.Laws as reselections;
    ghost use Rattle.link_bond.specs.contracts.bond.fail_over_mac.BondFailOverMacNamedNumber.TheImpl.Laws as fail_overs;
    ghost use Rattle.link_bond.specs.contracts.bond.xmit_hash_policy.BondXmitHashPolicyNamedNumber.TheImpl.Laws as policies;
    ghost use Rattle.link_bond.specs.contracts.bond.all_port_active.BondAllPortActiveNamedNumber.TheImpl.Laws as port_rules;
    ghost use Rattle.link_bond.specs.contracts.bond.lacp_rate.BondLacpRateNamedNumber.TheImpl.Laws as rates;
    ghost use Rattle.link_bond.specs.contracts.bond.ad_select.BondAdSelectNamedNumber.TheImpl.Laws as selections;
    ghost use Rattle.link_bond.specs.contracts.bond.ad_info.BondAdInfoAttribute.TheImpl.Laws as infos;
    ghost use Rattle.link_bond.specs.contracts.bond.InfoBond.{enum};

    ghost lawful = { lawful bond_table };

    ghost well_formed = { refl };

    ghost thorough = { of_cases enum _ _
        (Prim.search (
          thorough_fields,
          modes.thorough-law,
          validations.thorough-law,
          target_rules.thorough-law,
          reselections.thorough-law,
          fail_overs.thorough-law,
          policies.thorough-law,
          port_rules.thorough-law,
          rates.thorough-law,
          selections.thorough-law,
          infos.thorough-law,
        )) };
}
