//! NETKIT device attributes (`IFLA_INFO_DATA` of a link whose `IFLA_INFO_KIND` is `netkit`).

ghost use Rattle.link_devices.specs.Netkit.{netkit_table, netkit_means};
ghost use Rattle.link_devices.specs.NetkitNames.{netkit_mode_names, netkit_policy_names, netkit_scrub_names};

use link_base::classes::peer::Peer;
use link_base::rows::by_rows::{AttributeRows, RowVisitor};
use link_base::rows::label::Name;
use link_base::{
    Attribute, Coded, DecodeError, DefaultNla, Meaning, Nla, NlaBuffer, NumberNames, Parseable,
    Place, TryClone,
};
use std::alloc::{AllocError, Global};

/// A NETKIT device attribute (`IFLA_NETKIT_*`, `include/uapi/linux/if_link.h`).
///
/// Attributes marked read-only are reported by the kernel and cannot be set; those marked write-only can be set and are
/// not reported.
#[derive(Debug, PartialEq, Eq, Drop)]
pub enum InfoNetkit {
    /// The other device of the pair: its header, and its attributes (`IFLA_NETKIT_PEER_INFO`, write-only).
    PeerInfo(Peer),
    /// Whether the device is the primary one of the pair (`IFLA_NETKIT_PRIMARY`, `u8`, read-only).
    Primary(bool),
    /// What happens to packets without a BPF program: 0 forwards them, 2 drops them (`IFLA_NETKIT_POLICY`, `enum
    /// netkit_action`, `u32`).
    Policy(u32),
    /// Likewise for packets of the peer (`IFLA_NETKIT_PEER_POLICY`, `enum netkit_action`, `u32`).
    PeerPolicy(u32),
    /// What the devices carry: 0 for Ethernet frames, 1 for IP packets (`IFLA_NETKIT_MODE`, `enum netkit_mode`, `u32`).
    Mode(u32),
    /// What is removed from packets that change network namespaces: 0 nothing, 1 mark and priority
    /// (`IFLA_NETKIT_SCRUB`, `enum netkit_scrub`, `u32`).
    Scrub(u32),
    /// Likewise for packets of the peer (`IFLA_NETKIT_PEER_SCRUB`, `enum netkit_scrub`, `u32`).
    PeerScrub(u32),
    /// Bytes that are kept free before a packet (`IFLA_NETKIT_HEADROOM`, `u16`).
    Headroom(u16),
    /// Bytes that are kept free after a packet (`IFLA_NETKIT_TAILROOM`, `u16`).
    Tailroom(u16),
    /// An attribute of any other type.
    Other(DefaultNla),
}

/// The policies (`enum netkit_action`, `include/uapi/linux/if_link.h`). A policy is a `u32`.
pub struct NetkitPolicy;

/// The numbers of `NETKIT_PASS` and `NETKIT_DROP`, and their names as `ip` prints them.
impl NumberNames for NetkitPolicy {
    type Number = u32;

    ghost names = { netkit_policy_names };

    fn names() -> &'static [Name] {
        link_base::names![0 "forward" 2 "blackhole"]
    }
}

/// The modes (`enum netkit_mode`, `include/uapi/linux/if_link.h`). A mode is a `u32`.
pub struct NetkitMode;

/// The numbers, and the constants' names without `NETKIT_`, in lower case.
impl NumberNames for NetkitMode {
    type Number = u32;

    ghost names = { netkit_mode_names };

    fn names() -> &'static [Name] {
        link_base::names![0 "l2" 1 "l3"]
    }
}

/// What is removed from packets (`enum netkit_scrub`, `include/uapi/linux/if_link.h`). It is a `u32`.
pub struct NetkitScrub;

/// The numbers, and the constants' names without `NETKIT_SCRUB_`, in lower case.
impl NumberNames for NetkitScrub {
    type Number = u32;

    ghost names = { netkit_scrub_names };

    fn names() -> &'static [Name] {
        link_base::names![0 "none" 1 "default"]
    }
}

/// The attribute types (`IFLA_NETKIT_*`), the variant of each, and the class of its payload.
macro_rules! rows {
    ($call:ident($($argument:tt)*)) => {
        link_base::by_rows! { $call($($argument)*)
            "IFLA_NETKIT_";
            IFLA_NETKIT_PEER_INFO = 1, PeerInfo: Peer;
            IFLA_NETKIT_PRIMARY = 2, Primary: bool;
            IFLA_NETKIT_POLICY = 3, Policy: Coded<NetkitPolicy>;
            IFLA_NETKIT_PEER_POLICY = 4, PeerPolicy: Coded<NetkitPolicy>;
            IFLA_NETKIT_MODE = 5, Mode: Coded<NetkitMode>;
            IFLA_NETKIT_SCRUB = 6, Scrub: Coded<NetkitScrub>;
            IFLA_NETKIT_PEER_SCRUB = 7, PeerScrub: Coded<NetkitScrub>;
            IFLA_NETKIT_HEADROOM = 8, Headroom: u16;
            IFLA_NETKIT_TAILROOM = 9, Tailroom: u16;
        }
    };
}

impl TryClone for InfoNetkit {
    fn try_clone(&self, alloc: Global) -> Result<Self, AllocError> {
        rows!(clone(self, alloc))
    }
}

impl Meaning for InfoNetkit {
    ghost table = { netkit_table };

    ghost means = { netkit_means };
}

impl Nla for InfoNetkit {
    fn kind(&self) -> u16 {
        rows!(kind(self))
    }

    fn value_len(&self) -> usize {
        rows!(size(self))
    }

    fn emit_value(&self, buffer: &mut [u8]) {
        rows!(emit(self, buffer))
    }
}

impl Parseable for InfoNetkit {
    fn parse_payload<P: Place<Self>>(
        alloc: Global,
        buffer: &NlaBuffer<'_>,
        place: &mut P,
    ) -> Result<(), DecodeError> {
        rows!(read(alloc, buffer, place))
    }
}

impl AttributeRows for InfoNetkit {
    #[inline(always)]
    fn visit_row<V: RowVisitor<Self>>(kind: u16, visitor: V) -> V::Output {
        rows!(visit(kind, visitor))
    }
}

impl Attribute for InfoNetkit {
    ghost use Rattle.std.specs.Prelude.{refl};
    ghost use Rattle.link_base.proofs.TableLaws.{lawful};
    ghost use Rattle.link_base.specs.Equality.{of_cases, thorough_fields};
    ghost use Rattle.link_devices.specs.contracts.netkit.InfoNetkit.{enum};

    ghost lawful = { lawful netkit_table };

    ghost well_formed = { refl };

    ghost thorough = { of_cases enum _ _ (Prim.search (thorough_fields)) };
}
