//! Attributes of IPVLAN and IPVTAP devices (`IFLA_INFO_DATA` of a link whose `IFLA_INFO_KIND` is `ipvlan` or `ipvtap`).

ghost use Rattle.link_devices.specs.Ipvlan.{ipvlan_table, ipvlan_means};
ghost use Rattle.link_devices.specs.IpvlanNames.{ipvlan_flags_names, ipvlan_mode_names};

use link_base::classes::coded::CodedFlags;
use link_base::rows::by_rows::{AttributeRows, RowVisitor};
use link_base::rows::label::Name;
use link_base::{
    Attribute, Coded, DecodeError, DefaultNla, Meaning, Nla, NlaBuffer, NumberNames, Parseable,
    Place, TryClone,
};
use std::alloc::{AllocError, Global};

/// An attribute of an IPVLAN or IPVTAP device (`IFLA_IPVLAN_*`, `include/uapi/linux/if_link.h`).
#[derive(Debug, PartialEq, Eq, Drop)]
pub enum InfoIpVlan {
    /// How packets are passed on: 0 by their hardware addresses, 1 by their IP addresses, 2 like 1 and through
    /// netfilter (`IFLA_IPVLAN_MODE`, `enum ipvlan_mode`, `u16`).
    Mode(u16),
    /// Whether devices of the same parent reach each other: 0 for yes, 1 for no, 2 through the switch
    /// (`IFLA_IPVLAN_FLAGS`, `u16`).
    Flags(u16),
    /// An attribute of any other type.
    Other(DefaultNla),
}

/// The modes (`enum ipvlan_mode`, `include/uapi/linux/if_link.h`). A mode is a `u16`.
pub struct IpvlanMode;

/// The numbers, and the constants' names without `IPVLAN_MODE_`, in lower case.
impl NumberNames for IpvlanMode {
    type Number = u16;

    ghost names = { ipvlan_mode_names };

    fn names() -> &'static [Name] {
        link_base::names![0 "l2" 1 "l3" 2 "l3s"]
    }
}

/// The flags (`IPVLAN_F_*`, `include/uapi/linux/if_link.h`): flags of a `u16`.
pub struct IpvlanFlags;

/// The bits, and the constants' names without `IPVLAN_F_`.
impl NumberNames for IpvlanFlags {
    type Number = u16;

    ghost names = { ipvlan_flags_names };

    fn names() -> &'static [Name] {
        link_base::names![1 "PRIVATE" 2 "VEPA"]
    }
}

/// The attribute types (`IFLA_IPVLAN_*`), the variant of each, and the class of its payload.
macro_rules! rows {
    ($call:ident($($argument:tt)*)) => {
        link_base::by_rows! { $call($($argument)*)
            "IFLA_IPVLAN_";
            IFLA_IPVLAN_MODE = 1, Mode: Coded<IpvlanMode>;
            IFLA_IPVLAN_FLAGS = 2, Flags: CodedFlags<IpvlanFlags>;
        }
    };
}

impl TryClone for InfoIpVlan {
    fn try_clone(&self, alloc: Global) -> Result<Self, AllocError> {
        rows!(clone(self, alloc))
    }
}

impl Meaning for InfoIpVlan {
    ghost table = { ipvlan_table };

    ghost means = { ipvlan_means };
}

impl Nla for InfoIpVlan {
    fn kind(&self) -> u16 {
        rows!(kind(self))
    }

    fn value_len(&self) -> usize {
        rows!(size(self))
    }

    fn emit_value(&self, buffer: &mut [u8]) {
        rows!(emit(self, buffer))
    }
}

impl Parseable for InfoIpVlan {
    fn parse_payload<P: Place<Self>>(
        alloc: Global,
        buffer: &NlaBuffer<'_>,
        place: &mut P,
    ) -> Result<(), DecodeError> {
        rows!(read(alloc, buffer, place))
    }
}

impl AttributeRows for InfoIpVlan {
    #[inline(always)]
    fn visit_row<V: RowVisitor<Self>>(kind: u16, visitor: V) -> V::Output {
        rows!(visit(kind, visitor))
    }
}

impl Attribute for InfoIpVlan {
    ghost use Rattle.std.specs.Prelude.{refl};
    ghost use Rattle.link_base.proofs.TableLaws.{lawful};
    ghost use Rattle.link_base.specs.Equality.{of_cases, thorough_fields};
    ghost use Rattle.link_devices.specs.contracts.ipvlan.InfoIpVlan.{enum};

    ghost lawful = { lawful ipvlan_table };

    ghost well_formed = { refl };

    ghost thorough = { of_cases enum _ _ (Prim.search (thorough_fields)) };
}
