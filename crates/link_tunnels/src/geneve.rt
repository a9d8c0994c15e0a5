//! GENEVE device attributes (`IFLA_INFO_DATA` of a link whose `IFLA_INFO_KIND` is `geneve`).

ghost use Rattle.link_tunnels.specs.Geneve.{geneve_table, geneve_means};
ghost use Rattle.link_tunnels.specs.GeneveNames.{geneve_df_names};

use crate::geneve_port_range::GenevePortRange;
use link_base::rows::by_rows::{AttributeRows, RowVisitor};
use link_base::rows::label::Name;
use link_base::{
    Attribute, Be, Coded, DecodeError, DefaultNla, Meaning, Nla, NlaBuffer, NumberNames, Parseable,
    Place, Struct, TryClone,
};
use std::alloc::{AllocError, Global};
use std::net::{Ipv4Addr, Ipv6Addr};

/// A GENEVE device attribute (`IFLA_GENEVE_*`, `include/uapi/linux/if_link.h`).
#[derive(Debug, PartialEq, Eq, Drop)]
pub enum InfoGeneve {
    /// Virtual network identifier (VNI), 24 bits (`IFLA_GENEVE_ID`, `u32`).
    Id(u32),
    /// Remote address (`IFLA_GENEVE_REMOTE`, `Ipv4Addr`); for IPv6, [`Remote6`](Self::Remote6) is used.
    Remote(Ipv4Addr),
    /// TTL or hop limit of the tunnel's packets; 0 for the default (`IFLA_GENEVE_TTL`, `u8`).
    Ttl(u8),
    /// TOS or traffic class of the tunnel's packets; 1 copies that of the inner packet (`IFLA_GENEVE_TOS`, `u8`).
    Tos(u8),
    /// UDP destination port (`IFLA_GENEVE_PORT`, big-endian `u16`).
    Port(u16),
    /// Packets are sent and received by metadata: the device has no VNI and no address of its own
    /// (`IFLA_GENEVE_COLLECT_METADATA`, a flag without payload).
    CollectMetadata,
    /// Remote address (`IFLA_GENEVE_REMOTE6`, `Ipv6Addr`).
    Remote6(Ipv6Addr),
    /// Whether UDP checksums are sent over IPv4 (`IFLA_GENEVE_UDP_CSUM`, `u8`).
    UdpCsum(bool),
    /// Whether UDP checksums are left out over IPv6 (`IFLA_GENEVE_UDP_ZERO_CSUM6_TX`, `u8`).
    UdpZeroCsum6Tx(bool),
    /// Whether packets without a UDP checksum are accepted over IPv6 (`IFLA_GENEVE_UDP_ZERO_CSUM6_RX`, `u8`).
    UdpZeroCsum6Rx(bool),
    /// Flow label of the tunnel's IPv6 packets, 20 bits (`IFLA_GENEVE_LABEL`, big-endian `u32`).
    Label(u32),
    /// Whether the TTL of the inner packet is copied (`IFLA_GENEVE_TTL_INHERIT`, `u8`).
    TtlInherit(bool),
    /// Don't Fragment bit of the tunnel's IPv4 packets: 0 clears it, 1 sets it, 2 copies that of the inner packet
    /// (`IFLA_GENEVE_DF`, `enum ifla_geneve_df`, `u8`).
    Df(u8),
    /// The protocol of the inner packet is copied, so packets without an Ethernet header can be sent
    /// (`IFLA_GENEVE_INNER_PROTO_INHERIT`, a flag without payload).
    InnerProtoInherit,
    /// UDP source ports of the tunnel's packets (`IFLA_GENEVE_PORT_RANGE`, `struct ifla_geneve_port_range`).
    PortRange(GenevePortRange),
    /// An attribute of any other type.
    Other(DefaultNla),
}

/// The settings of the Don't Fragment bit (`enum ifla_geneve_df`, `include/uapi/linux/if_link.h`). A setting is a `u8`.
pub struct GeneveDf;

/// The numbers, and the constants' names without `GENEVE_DF_`, in lower case.
impl NumberNames for GeneveDf {
    type Number = u8;

    ghost names = { geneve_df_names };

    fn names() -> &'static [Name] {
        link_base::names![0 "unset" 1 "set" 2 "inherit"]
    }
}

/// The attribute types (`IFLA_GENEVE_*`), the variant of each, and the class of its payload.
macro_rules! rows {
    ($call:ident($($argument:tt)*)) => {
        link_base::by_rows! { $call($($argument)*)
            "IFLA_GENEVE_";
            IFLA_GENEVE_ID = 1, Id: u32;
            IFLA_GENEVE_REMOTE = 2, Remote: Ipv4Addr;
            IFLA_GENEVE_TTL = 3, Ttl: u8;
            IFLA_GENEVE_TOS = 4, Tos: u8 as Mask;
            IFLA_GENEVE_PORT = 5, Port: Be<u16>;
            IFLA_GENEVE_COLLECT_METADATA = 6, CollectMetadata;
            IFLA_GENEVE_REMOTE6 = 7, Remote6: Ipv6Addr;
            IFLA_GENEVE_UDP_CSUM = 8, UdpCsum: bool;
            IFLA_GENEVE_UDP_ZERO_CSUM6_TX = 9, UdpZeroCsum6Tx: bool;
            IFLA_GENEVE_UDP_ZERO_CSUM6_RX = 10, UdpZeroCsum6Rx: bool;
            IFLA_GENEVE_LABEL = 11, Label: Be<u32> as Mask;
            IFLA_GENEVE_TTL_INHERIT = 12, TtlInherit: bool;
            IFLA_GENEVE_DF = 13, Df: Coded<GeneveDf>;
            IFLA_GENEVE_INNER_PROTO_INHERIT = 14, InnerProtoInherit;
            IFLA_GENEVE_PORT_RANGE = 15, PortRange: Struct<GenevePortRange>;
        }
    };
}

impl TryClone for InfoGeneve {
    fn try_clone(&self, alloc: Global) -> Result<Self, AllocError> {
        rows!(clone(self, alloc))
    }
}

impl Meaning for InfoGeneve {
    ghost table = { geneve_table };

    ghost means = { geneve_means };
}

impl Nla for InfoGeneve {
    fn kind(&self) -> u16 {
        rows!(kind(self))
    }

    fn value_len(&self) -> usize {
        rows!(size(self))
    }

    fn emit_value(&self, buffer: &mut [u8]) {
        rows!(emit(self, buffer))
    }
}

impl Parseable for InfoGeneve {
    fn parse_payload<P: Place<Self>>(
        alloc: Global,
        buffer: &NlaBuffer<'_>,
        place: &mut P,
    ) -> Result<(), DecodeError> {
        rows!(read(alloc, buffer, place))
    }
}

impl AttributeRows for InfoGeneve {
    #[inline(always)]
    fn visit_row<V: RowVisitor<Self>>(kind: u16, visitor: V) -> V::Output {
        rows!(visit(kind, visitor))
    }
}

impl Attribute for InfoGeneve {
    ghost use Rattle.std.specs.Prelude.{refl};
    ghost use Rattle.link_base.proofs.TableLaws.{lawful};
    ghost use Rattle.link_base.specs.Equality.{of_cases, thorough_fields};
    ghost use Rattle.link_tunnels.specs.GeneveEquality.{geneve_port_ranges};
    ghost use Rattle.link_tunnels.specs.contracts.geneve.InfoGeneve.{enum};

    ghost lawful = { lawful geneve_table };

    ghost well_formed = { refl };

    ghost thorough = { of_cases enum _ _ (Prim.search (thorough_fields, geneve_port_ranges)) };
}
