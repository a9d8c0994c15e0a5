//! The hardware addresses that a MACVLAN device accepts as sources.

ghost use Rattle.std.specs.Prelude.{false, refl};
ghost use Rattle.link_base.specs.Lift.{lift, lift_table};
ghost use Rattle.link_devices.specs.MacvlanAddress.{mac_vlan_address_rows, mac_vlan_address_leaf};

use link_base::rows::by_rows::{AttributeRows, RowVisitor};
use link_base::{
    Attribute, DecodeError, DefaultNla, Meaning, NestedAttribute, Nla, NlaBuffer, Parseable, Place,
    TryClone,
};
use std::alloc::{AllocError, Global};

/// An element of `IFLA_MACVLAN_MACADDR_DATA` (`IFLA_MACVLAN_*`, `include/uapi/linux/if_link.h`).
#[derive(Debug, PartialEq, Eq, Drop)]
pub enum MacVlanAddress {
    /// Hardware address (`IFLA_MACVLAN_MACADDR`, 6 bytes).
    MacAddr([u8; 6]),
    /// An element of any other type.
    Other(DefaultNla),
}

/// The attribute types (`IFLA_MACVLAN_*`), the variant of each, and the class of its payload.
macro_rules! rows {
    ($call:ident($($argument:tt)*)) => {
        link_base::by_rows! { $call($($argument)*)
            "IFLA_MACVLAN_";
            IFLA_MACVLAN_MACADDR = 4, MacAddr: [u8; 6];
        }
    };
}

impl TryClone for MacVlanAddress {
    fn try_clone(&self, alloc: Global) -> Result<Self, AllocError> {
        rows!(clone(self, alloc))
    }
}

impl Meaning for MacVlanAddress {
    ghost table = { lift_table mac_vlan_address_rows };

    ghost means = { λ info. lift (mac_vlan_address_leaf info) };
}

impl Nla for MacVlanAddress {
    fn kind(&self) -> u16 {
        rows!(kind(self))
    }

    fn value_len(&self) -> usize {
        rows!(size(self))
    }

    fn emit_value(&self, buffer: &mut [u8]) {
        rows!(emit(self, buffer))
    }
}

impl Parseable for MacVlanAddress {
    fn parse_payload<P: Place<Self>>(
        alloc: Global,
        buffer: &NlaBuffer<'_>,
        place: &mut P,
    ) -> Result<(), DecodeError> {
        rows!(read(alloc, buffer, place))
    }
}

impl AttributeRows for MacVlanAddress {
    #[inline(always)]
    fn visit_row<V: RowVisitor<Self>>(kind: u16, visitor: V) -> V::Output {
        rows!(visit(kind, visitor))
    }
}

impl Attribute for MacVlanAddress {
    ghost use Rattle.link_base.proofs.TableLaws.{lawful};
    ghost use Rattle.link_base.specs.Equality.{of_cases, thorough_fields};
    ghost use Rattle.link_devices.specs.contracts.macvlan_address.MacVlanAddress.{enum};

    ghost lawful = { lawful (lift_table mac_vlan_address_rows) };

    ghost well_formed = { refl };

    ghost thorough = { of_cases enum _ _ (Prim.search (thorough_fields)) };
}

impl NestedAttribute for MacVlanAddress {
    ghost rows = { mac_vlan_address_rows };

    const FLAGGED: bool = false;

    ghost FLAGGED = { false };

    ghost leaf = { mac_vlan_address_leaf };

    ghost same_table = { refl };

    ghost same_means = { λ _. refl };
}
