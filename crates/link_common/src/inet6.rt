//! Attributes of a link for IPv6.

ghost use Rattle.link_common.specs.Inet6.{inet6_table, inet6_means};

use crate::cache_info::CacheInfo;
use crate::inet_names::{AddrGenMode, Inet6Flags};
use crate::places::{Icmp6Stats, Ipv6Conf, Ipv6Stats};
use link_base::classes::coded::{CodedFlags, Counters};
use link_base::rows::by_rows::{AttributeRows, RowVisitor};
use link_base::{
    Attribute, Coded, DecodeError, DefaultNla, Meaning, Nla, NlaBuffer, Parseable, Place, Struct,
    TryClone,
};
use std::alloc::{AllocError, Global};
use std::net::Ipv6Addr;

/// An attribute of a link for IPv6 (`IFLA_INET6_*`, `include/uapi/linux/if_link.h`), in `AF_INET6` of `IFLA_AF_SPEC`,
/// and in `IFLA_PROTINFO` of AF_INET6 messages.
///
/// Of the attributes, those marked read-only are reported by the kernel and cannot be set.
#[derive(Debug, PartialEq, Eq, Drop)]
pub enum AfSpecInet6 {
    /// State of address configuration (`IFLA_INET6_FLAGS`, `IF_*`, `u32`, read-only).
    Flags(u32),
    /// Settings for IPv6 (`IFLA_INET6_CONF`, an array of `i32`, read-only).
    Conf(Vec<i32>),
    /// Counters of packets, of which the first is their number; kernels differ in the order of those from number 4 on
    /// (`IFLA_INET6_STATS`, an array of `u64`, read-only).
    Stats(Vec<u64>),
    /// Not used by the kernel (`IFLA_INET6_MCAST`, bytes).
    Mcast(Vec<u8>),
    /// Times of neighbour discovery (`IFLA_INET6_CACHEINFO`, `struct ifla_cacheinfo`, read-only).
    CacheInfo(CacheInfo),
    /// Counters of ICMPv6 messages, of which the first is their number (`IFLA_INET6_ICMP6STATS`, an array of `u64`,
    /// read-only).
    Icmp6Stats(Vec<u64>),
    /// Interface identifier of addresses from router advertisements (`IFLA_INET6_TOKEN`, `Ipv6Addr`).
    Token(Ipv6Addr),
    /// How interface identifiers of addresses are made (`IFLA_INET6_ADDR_GEN_MODE`, `enum in6_addr_gen_mode`, `u8`).
    AddrGenMode(u8),
    /// MTU of the last router advertisement, in bytes (`IFLA_INET6_RA_MTU`, `u32`, read-only).
    RaMtu(u32),
    /// An attribute of any other type.
    Other(DefaultNla),
}

/// The attribute types (`IFLA_INET6_*`), the variant of each, and the class of its payload.
macro_rules! rows {
    ($call:ident($($argument:tt)*)) => {
        link_base::by_rows! { $call($($argument)*)
            "IFLA_INET6_";
            IFLA_INET6_FLAGS = 1, Flags: CodedFlags<Inet6Flags>;
            IFLA_INET6_CONF = 2, Conf: Counters<Ipv6Conf>;
            IFLA_INET6_STATS = 3, Stats: Counters<Ipv6Stats>;
            IFLA_INET6_MCAST = 4, Mcast: Vec<u8>;
            IFLA_INET6_CACHEINFO = 5, CacheInfo: Struct<CacheInfo>;
            IFLA_INET6_ICMP6STATS = 6, Icmp6Stats: Counters<Icmp6Stats>;
            IFLA_INET6_TOKEN = 7, Token: Ipv6Addr;
            IFLA_INET6_ADDR_GEN_MODE = 8, AddrGenMode: Coded<AddrGenMode>;
            IFLA_INET6_RA_MTU = 9, RaMtu: u32;
        }
    };
}

impl TryClone for AfSpecInet6 {
    fn try_clone(&self, alloc: Global) -> Result<Self, AllocError> {
        rows!(clone(self, alloc))
    }
}

impl Meaning for AfSpecInet6 {
    ghost table = { inet6_table };

    ghost means = { inet6_means };
}

impl Nla for AfSpecInet6 {
    fn kind(&self) -> u16 {
        rows!(kind(self))
    }

    fn value_len(&self) -> usize {
        rows!(size(self))
    }

    fn emit_value(&self, buffer: &mut [u8]) {
        rows!(emit(self, buffer))
    }
}

impl Parseable for AfSpecInet6 {
    fn parse_payload<P: Place<Self>>(
        alloc: Global,
        buffer: &NlaBuffer<'_>,
        place: &mut P,
    ) -> Result<(), DecodeError> {
        rows!(read(alloc, buffer, place))
    }
}

impl AttributeRows for AfSpecInet6 {
    #[inline(always)]
    fn visit_row<V: RowVisitor<Self>>(kind: u16, visitor: V) -> V::Output {
        rows!(visit(kind, visitor))
    }
}

impl Attribute for AfSpecInet6 {
    ghost use Rattle.std.specs.Prelude.{refl};
    ghost use Rattle.link_base.proofs.TableLaws.{lawful};
    ghost use Rattle.link_base.specs.Equality.{of_cases, thorough_fields};
    ghost use Rattle.link_common.specs.LinkEquality.{cache_infos};
    ghost use Rattle.link_common.specs.contracts.inet6.AfSpecInet6.{enum};

    ghost lawful = { lawful inet6_table };

    ghost well_formed = { refl };

    ghost thorough = { of_cases enum _ _ (Prim.search (thorough_fields, cache_infos)) };
}
