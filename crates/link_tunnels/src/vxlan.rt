//! VXLAN device attributes (`IFLA_INFO_DATA` of a link whose `IFLA_INFO_KIND` is `vxlan`).

ghost use Rattle.link_tunnels.specs.Vxlan.{vxlan_table, vxlan_means};

use crate::vxlan_header::VxlanHeader;
use crate::vxlan_names::{VxlanDf, VxlanLabelPolicy};
use crate::vxlan_port_range::VxlanPortRange;
use link_base::rows::by_rows::{AttributeRows, RowVisitor};
use link_base::{
    Attribute, Be, Coded, DecodeError, DefaultNla, Meaning, Nla, NlaBuffer, Parseable, Place,
    Struct, TryClone,
};
use std::alloc::{AllocError, Global};
use std::net::{Ipv4Addr, Ipv6Addr};

/// A VXLAN device attribute (`IFLA_VXLAN_*`, `include/uapi/linux/if_link.h`).
///
/// Attributes marked write-only can be set and are not reported.
#[derive(Debug, PartialEq, Eq, Drop)]
pub enum InfoVxlan {
    /// VXLAN network identifier (VNI), 24 bits (`IFLA_VXLAN_ID`, `u32`).
    Id(u32),
    /// Remote address, to which frames with an unknown destination are sent, or a multicast group (`IFLA_VXLAN_GROUP`,
    /// `Ipv4Addr`); for IPv6, [`Group6`](Self::Group6) is used.
    Group(Ipv4Addr),
    /// Interface index of the device that sends the tunnel's packets; 0 for any (`IFLA_VXLAN_LINK`, `u32`).
    Link(u32),
    /// Source address of the tunnel's packets (`IFLA_VXLAN_LOCAL`, `Ipv4Addr`); for IPv6, [`Local6`](Self::Local6) is
    /// used.
    Local(Ipv4Addr),
    /// TTL or hop limit of the tunnel's packets; 0 for the default (`IFLA_VXLAN_TTL`, `u8`).
    Ttl(u8),
    /// TOS or traffic class of the tunnel's packets; 1 copies that of the inner packet (`IFLA_VXLAN_TOS`, `u8`).
    Tos(u8),
    /// Whether entries of the forwarding database are learned from received packets (`IFLA_VXLAN_LEARNING`, `u8`).
    Learning(bool),
    /// Lifetime of learned entries of the forwarding database, in seconds; 0 keeps them forever (`IFLA_VXLAN_AGEING`,
    /// `u32`).
    Ageing(u32),
    /// Maximum number of entries in the forwarding database; 0 for no limit (`IFLA_VXLAN_LIMIT`, `u32`).
    Limit(u32),
    /// UDP source ports of the tunnel's packets (`IFLA_VXLAN_PORT_RANGE`, `struct ifla_vxlan_port_range`).
    PortRange(VxlanPortRange),
    /// Whether the device answers ARP and neighbour solicitation requests from its neighbour table (`IFLA_VXLAN_PROXY`,
    /// `u8`).
    Proxy(bool),
    /// Whether route short-circuiting is on: packets to a router are sent to the tunnel of the next hop
    /// (`IFLA_VXLAN_RSC`, `u8`).
    Rsc(bool),
    /// Whether user space is notified of a destination that is not in the forwarding database (`IFLA_VXLAN_L2MISS`,
    /// `u8`).
    L2Miss(bool),
    /// Whether user space is notified of an IP address that is not in the neighbour table (`IFLA_VXLAN_L3MISS`, `u8`).
    L3Miss(bool),
    /// UDP destination port (`IFLA_VXLAN_PORT`, big-endian `u16`).
    Port(u16),
    /// Remote address or multicast group (`IFLA_VXLAN_GROUP6`, `Ipv6Addr`).
    Group6(Ipv6Addr),
    /// Source address of the tunnel's packets (`IFLA_VXLAN_LOCAL6`, `Ipv6Addr`).
    Local6(Ipv6Addr),
    /// Whether UDP checksums are sent over IPv4 (`IFLA_VXLAN_UDP_CSUM`, `u8`).
    UdpCsum(bool),
    /// Whether UDP checksums are left out over IPv6 (`IFLA_VXLAN_UDP_ZERO_CSUM6_TX`, `u8`).
    UdpZeroCsum6Tx(bool),
    /// Whether packets without a UDP checksum are accepted over IPv6 (`IFLA_VXLAN_UDP_ZERO_CSUM6_RX`, `u8`).
    UdpZeroCsum6Rx(bool),
    /// Whether remote checksum offload is used for sent packets (`IFLA_VXLAN_REMCSUM_TX`, `u8`).
    RemCsumTx(bool),
    /// Whether remote checksum offload is accepted in received packets (`IFLA_VXLAN_REMCSUM_RX`, `u8`).
    RemCsumRx(bool),
    /// Enables the group policy extension (`IFLA_VXLAN_GBP`, a flag without payload).
    Gbp,
    /// Turns off partial checksums of received packets with remote checksum offload (`IFLA_VXLAN_REMCSUM_NOPARTIAL`, a
    /// flag without payload).
    RemCsumNoPartial,
    /// Whether packets are sent and received by metadata: the device has no VNI and no addresses of its own
    /// (`IFLA_VXLAN_COLLECT_METADATA`, `u8`).
    CollectMetadata(bool),
    /// Flow label of the tunnel's IPv6 packets, 20 bits (`IFLA_VXLAN_LABEL`, big-endian `u32`).
    Label(u32),
    /// Enables the generic protocol extension (`IFLA_VXLAN_GPE`, a flag without payload).
    Gpe,
    /// Whether the TTL of the inner packet is copied (`IFLA_VXLAN_TTL_INHERIT`): `None` for a flag without payload,
    /// which means yes, and is what the kernel accepts; `Some` for a `u8`, which is what it reports.
    TtlInherit(Option<bool>),
    /// Don't Fragment bit of the tunnel's IPv4 packets: 0 clears it, 1 sets it, 2 copies that of the inner packet
    /// (`IFLA_VXLAN_DF`, `enum ifla_vxlan_df`, `u8`).
    Df(u8),
    /// Whether packets are filtered by VNI, for devices with `CollectMetadata` (`IFLA_VXLAN_VNIFILTER`, `u8`).
    VniFilter(bool),
    /// Whether packets for a VXLAN device of the same machine are delivered to it directly (`IFLA_VXLAN_LOCALBYPASS`,
    /// `u8`).
    LocalBypass(bool),
    /// Origin of the flow label: 0 takes it from `Label`, 1 copies that of the inner packet (`IFLA_VXLAN_LABEL_POLICY`,
    /// `enum ifla_vxlan_label_policy`, `u32`).
    LabelPolicy(u32),
    /// Bits of the VXLAN header that must be 0 in received packets (`IFLA_VXLAN_RESERVED_BITS`, `struct vxlanhdr`).
    ReservedBits(VxlanHeader),
    /// Whether multicast packets of the tunnel are routed (`IFLA_VXLAN_MC_ROUTE`, `u8`, write-only).
    McRoute(bool),
    /// An attribute of any other type.
    Other(DefaultNla),
}

/// The attribute types (`IFLA_VXLAN_*`), the variant of each, and the class of its payload.
macro_rules! rows {
    ($call:ident($($argument:tt)*)) => {
        link_base::by_rows! { $call($($argument)*)
            "IFLA_VXLAN_";
            IFLA_VXLAN_ID = 1, Id: u32;
            IFLA_VXLAN_GROUP = 2, Group: Ipv4Addr;
            IFLA_VXLAN_LINK = 3, Link: u32 as InterfaceIndex;
            IFLA_VXLAN_LOCAL = 4, Local: Ipv4Addr;
            IFLA_VXLAN_TTL = 5, Ttl: u8;
            IFLA_VXLAN_TOS = 6, Tos: u8 as Mask;
            IFLA_VXLAN_LEARNING = 7, Learning: bool;
            IFLA_VXLAN_AGEING = 8, Ageing: u32 as Seconds;
            IFLA_VXLAN_LIMIT = 9, Limit: u32;
            IFLA_VXLAN_PORT_RANGE = 10, PortRange: Struct<VxlanPortRange>;
            IFLA_VXLAN_PROXY = 11, Proxy: bool;
            IFLA_VXLAN_RSC = 12, Rsc: bool;
            IFLA_VXLAN_L2MISS = 13, L2Miss: bool;
            IFLA_VXLAN_L3MISS = 14, L3Miss: bool;
            IFLA_VXLAN_PORT = 15, Port: Be<u16>;
            IFLA_VXLAN_GROUP6 = 16, Group6: Ipv6Addr;
            IFLA_VXLAN_LOCAL6 = 17, Local6: Ipv6Addr;
            IFLA_VXLAN_UDP_CSUM = 18, UdpCsum: bool;
            IFLA_VXLAN_UDP_ZERO_CSUM6_TX = 19, UdpZeroCsum6Tx: bool;
            IFLA_VXLAN_UDP_ZERO_CSUM6_RX = 20, UdpZeroCsum6Rx: bool;
            IFLA_VXLAN_REMCSUM_TX = 21, RemCsumTx: bool;
            IFLA_VXLAN_REMCSUM_RX = 22, RemCsumRx: bool;
            IFLA_VXLAN_GBP = 23, Gbp;
            IFLA_VXLAN_REMCSUM_NOPARTIAL = 24, RemCsumNoPartial;
            IFLA_VXLAN_COLLECT_METADATA = 25, CollectMetadata: bool;
            IFLA_VXLAN_LABEL = 26, Label: Be<u32> as Mask;
            IFLA_VXLAN_GPE = 27, Gpe;
            IFLA_VXLAN_TTL_INHERIT = 28, TtlInherit: Option<bool>;
            IFLA_VXLAN_DF = 29, Df: Coded<VxlanDf>;
            IFLA_VXLAN_VNIFILTER = 30, VniFilter: bool;
            IFLA_VXLAN_LOCALBYPASS = 31, LocalBypass: bool;
            IFLA_VXLAN_LABEL_POLICY = 32, LabelPolicy: Coded<VxlanLabelPolicy>;
            IFLA_VXLAN_RESERVED_BITS = 33, ReservedBits: Struct<VxlanHeader>;
            IFLA_VXLAN_MC_ROUTE = 34, McRoute: bool;
        }
    };
}

impl TryClone for InfoVxlan {
    fn try_clone(&self, alloc: Global) -> Result<Self, AllocError> {
        rows!(clone(self, alloc))
    }
}

impl Meaning for InfoVxlan {
    ghost table = { vxlan_table };

    ghost means = { vxlan_means };
}

impl Nla for InfoVxlan {
    fn kind(&self) -> u16 {
        rows!(kind(self))
    }

    fn value_len(&self) -> usize {
        rows!(size(self))
    }

    fn emit_value(&self, buffer: &mut [u8]) {
        rows!(emit(self, buffer))
    }
}

impl Parseable for InfoVxlan {
    fn parse_payload<P: Place<Self>>(
        alloc: Global,
        buffer: &NlaBuffer<'_>,
        place: &mut P,
    ) -> Result<(), DecodeError> {
        rows!(read(alloc, buffer, place))
    }
}

impl AttributeRows for InfoVxlan {
    #[inline(always)]
    fn visit_row<V: RowVisitor<Self>>(kind: u16, visitor: V) -> V::Output {
        rows!(visit(kind, visitor))
    }
}

impl Attribute for InfoVxlan {
    ghost use Rattle.std.specs.Prelude.{refl};
    ghost use Rattle.link_base.proofs.TableLaws.{lawful};
    ghost use Rattle.link_base.specs.Equality.{of_cases, thorough_fields};
    ghost use Rattle.link_tunnels.specs.VxlanEquality.{port_ranges, headers};
    ghost use Rattle.link_tunnels.specs.contracts.vxlan.InfoVxlan.{enum};

    ghost lawful = { lawful vxlan_table };

    ghost well_formed = { refl };

    ghost thorough = { of_cases enum _ _ (Prim.search (thorough_fields, port_ranges, headers)) };
}
