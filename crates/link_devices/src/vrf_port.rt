//! VRF port attributes (`IFLA_INFO_SLAVE_DATA` of a link whose `IFLA_INFO_SLAVE_KIND` is `vrf`).

ghost use Rattle.link_devices.specs.VrfPort.{vrf_port_table, vrf_port_means};

use link_base::rows::by_rows::{AttributeRows, RowVisitor};
use link_base::{
    Attribute, DecodeError, DefaultNla, Meaning, Nla, NlaBuffer, Parseable, Place, TryClone,
};
use std::alloc::{AllocError, Global};

/// A VRF port attribute (`IFLA_VRF_PORT_*`, `include/uapi/linux/if_link.h`).
///
/// Attributes marked read-only are reported by the kernel and cannot be set.
#[derive(Debug, PartialEq, Eq, Drop)]
pub enum InfoVrfPort {
    /// Routing table of the VRF device (`IFLA_VRF_PORT_TABLE`, `u32`, read-only).
    TableId(u32),
    /// An attribute of any other type.
    Other(DefaultNla),
}

/// The attribute types (`IFLA_VRF_PORT_*`), the variant of each, and the class of its payload.
macro_rules! rows {
    ($call:ident($($argument:tt)*)) => {
        link_base::by_rows! { $call($($argument)*)
            "IFLA_VRF_PORT_";
            IFLA_VRF_PORT_TABLE = 1, TableId: u32;
        }
    };
}

impl TryClone for InfoVrfPort {
    fn try_clone(&self, alloc: Global) -> Result<Self, AllocError> {
        rows!(clone(self, alloc))
    }
}

impl Meaning for InfoVrfPort {
    ghost table = { vrf_port_table };

    ghost means = { vrf_port_means };
}

impl Nla for InfoVrfPort {
    fn kind(&self) -> u16 {
        rows!(kind(self))
    }

    fn value_len(&self) -> usize {
        rows!(size(self))
    }

    fn emit_value(&self, buffer: &mut [u8]) {
        rows!(emit(self, buffer))
    }
}

impl Parseable for InfoVrfPort {
    fn parse_payload<P: Place<Self>>(
        alloc: Global,
        buffer: &NlaBuffer<'_>,
        place: &mut P,
    ) -> Result<(), DecodeError> {
        rows!(read(alloc, buffer, place))
    }
}

impl AttributeRows for InfoVrfPort {
    #[inline(always)]
    fn visit_row<V: RowVisitor<Self>>(kind: u16, visitor: V) -> V::Output {
        rows!(visit(kind, visitor))
    }
}

impl Attribute for InfoVrfPort {
    ghost use Rattle.std.specs.Prelude.{refl};
    ghost use Rattle.link_base.proofs.TableLaws.{lawful};
    ghost use Rattle.link_base.specs.Equality.{of_cases, thorough_fields};
    ghost use Rattle.link_devices.specs.contracts.vrf_port.InfoVrfPort.{enum};

    ghost lawful = { lawful vrf_port_table };

    ghost well_formed = { refl };

    ghost thorough = { of_cases enum _ _ (Prim.search (thorough_fields)) };
}
