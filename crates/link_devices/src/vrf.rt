//! VRF device attributes (`IFLA_INFO_DATA` of a link whose `IFLA_INFO_KIND` is `vrf`).

ghost use Rattle.link_devices.specs.Vrf.{vrf_table, vrf_means};

use link_base::rows::by_rows::{AttributeRows, RowVisitor};
use link_base::{
    Attribute, DecodeError, DefaultNla, Meaning, Nla, NlaBuffer, Parseable, Place, TryClone,
};
use std::alloc::{AllocError, Global};

/// A VRF device attribute (`IFLA_VRF_*`, `include/uapi/linux/if_link.h`).
#[derive(Debug, PartialEq, Eq, Drop)]
pub enum InfoVrf {
    /// Routing table of the device (`IFLA_VRF_TABLE`, `u32`).
    TableId(u32),
    /// An attribute of any other type.
    Other(DefaultNla),
}

/// The attribute types (`IFLA_VRF_*`), the variant of each, and the class of its payload.
macro_rules! rows {
    ($call:ident($($argument:tt)*)) => {
        link_base::by_rows! { $call($($argument)*)
            "IFLA_VRF_";
            IFLA_VRF_TABLE = 1, TableId: u32;
        }
    };
}

impl TryClone for InfoVrf {
    fn try_clone(&self, alloc: Global) -> Result<Self, AllocError> {
        rows!(clone(self, alloc))
    }
}

impl Meaning for InfoVrf {
    ghost table = { vrf_table };

    ghost means = { vrf_means };
}

impl Nla for InfoVrf {
    fn kind(&self) -> u16 {
        rows!(kind(self))
    }

    fn value_len(&self) -> usize {
        rows!(size(self))
    }

    fn emit_value(&self, buffer: &mut [u8]) {
        rows!(emit(self, buffer))
    }
}

impl Parseable for InfoVrf {
    fn parse_payload<P: Place<Self>>(
        alloc: Global,
        buffer: &NlaBuffer<'_>,
        place: &mut P,
    ) -> Result<(), DecodeError> {
        rows!(read(alloc, buffer, place))
    }
}

impl AttributeRows for InfoVrf {
    #[inline(always)]
    fn visit_row<V: RowVisitor<Self>>(kind: u16, visitor: V) -> V::Output {
        rows!(visit(kind, visitor))
    }
}

impl Attribute for InfoVrf {
    ghost use Rattle.std.specs.Prelude.{refl};
    ghost use Rattle.link_base.proofs.TableLaws.{lawful};
    ghost use Rattle.link_base.specs.Equality.{of_cases, thorough_fields};
    ghost use Rattle.link_devices.specs.contracts.vrf.InfoVrf.{enum};

    ghost lawful = { lawful vrf_table };

    ghost well_formed = { refl };

    ghost thorough = { of_cases enum _ _ (Prim.search (thorough_fields)) };
}
