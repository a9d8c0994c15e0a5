//! Attributes of MACVLAN and MACVTAP devices (`IFLA_INFO_DATA` of a link whose `IFLA_INFO_KIND` is `macvlan` or `macvtap`).

ghost use Rattle.link_devices.specs.Macvlan.{macvlan_table, macvlan_means};
ghost use Rattle.link_devices.specs.MacvlanNames.{macvlan_address_mode_names, macvlan_flags_names, macvlan_mode_names};

use crate::macvlan_address::MacVlanAddress;
use link_base::classes::coded::CodedFlags;
use link_base::rows::by_rows::{AttributeRows, RowVisitor};
use link_base::rows::label::Name;
use link_base::{
    Attribute, Coded, DecodeError, DefaultNla, Meaning, NestedList, Nla, NlaBuffer, NumberNames,
    Parseable, Place, TryClone,
};
use std::alloc::{AllocError, Global};

/// An attribute of a MACVLAN or MACVTAP device (`IFLA_MACVLAN_*`, `include/uapi/linux/if_link.h`).
///
/// Attributes marked read-only are reported by the kernel and cannot be set; those marked write-only can be set and are
/// not reported.
#[derive(Debug, PartialEq, Eq, Drop)]
pub enum InfoMacVlan {
    /// How packets between devices of the same parent are passed on: 1 not at all, 2 through the switch, 4 directly; 8
    /// is for a device that has its parent for itself, 16 for one that accepts packets from the addresses in
    /// `MacAddrData` (`IFLA_MACVLAN_MODE`, `enum macvlan_mode`, `u32`).
    Mode(u32),
    /// Flags: 1 leaves the parent without promiscuous mode, 2 matches source addresses only (`IFLA_MACVLAN_FLAGS`,
    /// `u16`).
    Flags(u16),
    /// What to do with the accepted source addresses: 0 adds one, 1 removes one, 2 removes all, 3 sets them
    /// (`IFLA_MACVLAN_MACADDR_MODE`, `enum macvlan_macaddr_mode`, `u32`, write-only).
    MacAddrMode(u32),
    /// Source address to add or remove (`IFLA_MACVLAN_MACADDR`, 6 bytes, write-only).
    MacAddr([u8; 6]),
    /// The accepted source addresses (`IFLA_MACVLAN_MACADDR_DATA`).
    MacAddrData(Vec<MacVlanAddress>),
    /// Number of accepted source addresses (`IFLA_MACVLAN_MACADDR_COUNT`, `u32`, read-only).
    MacAddrCount(u32),
    /// Requested length of the queue for broadcast and multicast packets (`IFLA_MACVLAN_BC_QUEUE_LEN`, `u32`).
    BcQueueLen(u32),
    /// Length of that queue, the greatest that any device of the parent requests (`IFLA_MACVLAN_BC_QUEUE_LEN_USED`,
    /// `u32`, read-only).
    BcQueueLenUsed(u32),
    /// Multicast packets are queued if more devices than this receive them; a negative number for never
    /// (`IFLA_MACVLAN_BC_CUTOFF`, `i32`).
    BcCutoff(i32),
    /// An attribute of any other type.
    Other(DefaultNla),
}

/// The modes (`enum macvlan_mode`, `include/uapi/linux/if_link.h`). A mode is a `u32`. Each is one bit.
pub struct MacvlanMode;

/// The numbers, and the constants' names without `MACVLAN_MODE_`, in lower case.
impl NumberNames for MacvlanMode {
    type Number = u32;

    ghost names = { macvlan_mode_names };

    fn names() -> &'static [Name] {
        link_base::names![1 "private" 2 "vepa" 4 "bridge" 8 "passthru" 16 "source"]
    }
}

/// The flags (`MACVLAN_FLAG_*`, `include/uapi/linux/if_link.h`): flags of a `u16`.
pub struct MacvlanFlags;

/// The bits, and the constants' names without `MACVLAN_FLAG_`.
impl NumberNames for MacvlanFlags {
    type Number = u16;

    ghost names = { macvlan_flags_names };

    fn names() -> &'static [Name] {
        link_base::names![1 "NOPROMISC" 2 "NODST"]
    }
}

/// What to do with source addresses (`enum macvlan_macaddr_mode`, `include/uapi/linux/if_link.h`). It is a `u32`.
pub struct MacvlanAddressMode;

/// The numbers, and the constants' names without `MACVLAN_MACADDR_`, in lower case.
impl NumberNames for MacvlanAddressMode {
    type Number = u32;

    ghost names = { macvlan_address_mode_names };

    fn names() -> &'static [Name] {
        link_base::names![0 "add" 1 "del" 2 "flush" 3 "set"]
    }
}

/// The attribute types (`IFLA_MACVLAN_*`), the variant of each, and the class of its payload.
macro_rules! rows {
    ($call:ident($($argument:tt)*)) => {
        link_base::by_rows! { $call($($argument)*)
            "IFLA_MACVLAN_";
            IFLA_MACVLAN_MODE = 1, Mode: Coded<MacvlanMode>;
            IFLA_MACVLAN_FLAGS = 2, Flags: CodedFlags<MacvlanFlags>;
            IFLA_MACVLAN_MACADDR_MODE = 3, MacAddrMode: Coded<MacvlanAddressMode>;
            IFLA_MACVLAN_MACADDR = 4, MacAddr: [u8; 6];
            IFLA_MACVLAN_MACADDR_DATA = 5, MacAddrData: NestedList<MacVlanAddress>;
            IFLA_MACVLAN_MACADDR_COUNT = 6, MacAddrCount: u32;
            IFLA_MACVLAN_BC_QUEUE_LEN = 7, BcQueueLen: u32;
            IFLA_MACVLAN_BC_QUEUE_LEN_USED = 8, BcQueueLenUsed: u32;
            IFLA_MACVLAN_BC_CUTOFF = 9, BcCutoff: i32;
        }
    };
}

impl TryClone for InfoMacVlan {
    fn try_clone(&self, alloc: Global) -> Result<Self, AllocError> {
        rows!(clone(self, alloc))
    }
}

impl Meaning for InfoMacVlan {
    ghost table = { macvlan_table };

    ghost means = { macvlan_means };
}

impl Nla for InfoMacVlan {
    fn kind(&self) -> u16 {
        rows!(kind(self))
    }

    fn value_len(&self) -> usize {
        rows!(size(self))
    }

    fn emit_value(&self, buffer: &mut [u8]) {
        rows!(emit(self, buffer))
    }
}

impl Parseable for InfoMacVlan {
    fn parse_payload<P: Place<Self>>(
        alloc: Global,
        buffer: &NlaBuffer<'_>,
        place: &mut P,
    ) -> Result<(), DecodeError> {
        rows!(read(alloc, buffer, place))
    }
}

impl AttributeRows for InfoMacVlan {
    #[inline(always)]
    fn visit_row<V: RowVisitor<Self>>(kind: u16, visitor: V) -> V::Output {
        rows!(visit(kind, visitor))
    }
}

impl Attribute for InfoMacVlan {
    ghost use Rattle.std.specs.Prelude.{refl};
    ghost use Rattle.link_base.proofs.TableLaws.{lawful};
    ghost use Rattle.link_base.specs.Equality.{of_cases, thorough_fields};
    ghost use Rattle.link_devices.specs.contracts.macvlan_address.MacVlanAddressAttribute.TheImpl.Laws as addresses;
    ghost use Rattle.link_devices.specs.contracts.macvlan.InfoMacVlan.{enum};

    ghost lawful = { lawful macvlan_table };

    ghost well_formed = { refl };

    ghost thorough = { of_cases enum _ _ (Prim.search (thorough_fields, addresses.thorough-law)) };
}
