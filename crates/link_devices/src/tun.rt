//! Attributes of TUN and TAP devices (`IFLA_INFO_DATA` of a link whose `IFLA_INFO_KIND` is `tun`).

ghost use Rattle.link_devices.specs.Tun.{tun_table, tun_means};
ghost use Rattle.link_devices.specs.TunNames.{tun_type_names};

use link_base::rows::by_rows::{AttributeRows, RowVisitor};
use link_base::rows::label::Name;
use link_base::{
    Attribute, Coded, DecodeError, DefaultNla, Meaning, Nla, NlaBuffer, NumberNames, Parseable,
    Place, TryClone,
};
use std::alloc::{AllocError, Global};

/// An attribute of a TUN or TAP device (`IFLA_TUN_*`, `include/uapi/linux/if_link.h`).
///
/// All are read-only: the kernel makes such a device only through `/dev/net/tun`.
#[derive(Debug, PartialEq, Eq, Drop)]
pub enum InfoTun {
    /// User that may attach to the device (`IFLA_TUN_OWNER`, `u32`, read-only).
    Owner(u32),
    /// Group whose members may attach to the device (`IFLA_TUN_GROUP`, `u32`, read-only).
    Group(u32),
    /// Whether the device carries IP packets (1) or Ethernet frames (2) (`IFLA_TUN_TYPE`, `u8`, read-only).
    Type(u8),
    /// Whether each packet is preceded by a `struct tun_pi` (`IFLA_TUN_PI`, `u8`, read-only).
    Pi(bool),
    /// Whether each packet is preceded by a `struct virtio_net_hdr` (`IFLA_TUN_VNET_HDR`, `u8`, read-only).
    VnetHdr(bool),
    /// Whether the device stays when no program has it open (`IFLA_TUN_PERSIST`, `u8`, read-only).
    Persist(bool),
    /// Whether programs can attach several queues (`IFLA_TUN_MULTI_QUEUE`, `u8`, read-only).
    MultiQueue(bool),
    /// Number of attached queues, for devices with `MultiQueue` (`IFLA_TUN_NUM_QUEUES`, `u32`, read-only).
    NumQueues(u32),
    /// Number of disabled queues, for devices with `MultiQueue` (`IFLA_TUN_NUM_DISABLED_QUEUES`, `u32`, read-only).
    NumDisabledQueues(u32),
    /// An attribute of any other type.
    Other(DefaultNla),
}

/// What a device carries (`IFF_TUN` and `IFF_TAP`, `include/uapi/linux/if_tun.h`). A type is a `u8`.
pub struct TunType;

/// The numbers, and the constants' names without `IFF_`, in lower case.
impl NumberNames for TunType {
    type Number = u8;

    ghost names = { tun_type_names };

    fn names() -> &'static [Name] {
        link_base::names![1 "tun" 2 "tap"]
    }
}

/// The attribute types (`IFLA_TUN_*`), the variant of each, and the class of its payload.
macro_rules! rows {
    ($call:ident($($argument:tt)*)) => {
        link_base::by_rows! { $call($($argument)*)
            "IFLA_TUN_";
            IFLA_TUN_OWNER = 1, Owner: u32;
            IFLA_TUN_GROUP = 2, Group: u32;
            IFLA_TUN_TYPE = 3, Type: Coded<TunType>;
            IFLA_TUN_PI = 4, Pi: bool;
            IFLA_TUN_VNET_HDR = 5, VnetHdr: bool;
            IFLA_TUN_PERSIST = 6, Persist: bool;
            IFLA_TUN_MULTI_QUEUE = 7, MultiQueue: bool;
            IFLA_TUN_NUM_QUEUES = 8, NumQueues: u32;
            IFLA_TUN_NUM_DISABLED_QUEUES = 9, NumDisabledQueues: u32;
        }
    };
}

impl TryClone for InfoTun {
    fn try_clone(&self, alloc: Global) -> Result<Self, AllocError> {
        rows!(clone(self, alloc))
    }
}

impl Meaning for InfoTun {
    ghost table = { tun_table };

    ghost means = { tun_means };
}

impl Nla for InfoTun {
    fn kind(&self) -> u16 {
        rows!(kind(self))
    }

    fn value_len(&self) -> usize {
        rows!(size(self))
    }

    fn emit_value(&self, buffer: &mut [u8]) {
        rows!(emit(self, buffer))
    }
}

impl Parseable for InfoTun {
    fn parse_payload<P: Place<Self>>(
        alloc: Global,
        buffer: &NlaBuffer<'_>,
        place: &mut P,
    ) -> Result<(), DecodeError> {
        rows!(read(alloc, buffer, place))
    }
}

impl AttributeRows for InfoTun {
    #[inline(always)]
    fn visit_row<V: RowVisitor<Self>>(kind: u16, visitor: V) -> V::Output {
        rows!(visit(kind, visitor))
    }
}

impl Attribute for InfoTun {
    ghost use Rattle.std.specs.Prelude.{refl};
    ghost use Rattle.link_base.proofs.TableLaws.{lawful};
    ghost use Rattle.link_base.specs.Equality.{of_cases, thorough_fields};
    ghost use Rattle.link_devices.specs.contracts.tun.InfoTun.{enum};

    ghost lawful = { lawful tun_table };

    ghost well_formed = { refl };

    ghost thorough = { of_cases enum _ _ (Prim.search (thorough_fields)) };
}
