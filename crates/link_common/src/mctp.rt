//! Attributes of a link for MCTP.

ghost use Rattle.link_common.specs.Mctp.{mctp_table, mctp_means};

use link_base::rows::by_rows::{AttributeRows, RowVisitor};
use link_base::{
    Attribute, DecodeError, DefaultNla, Meaning, Nla, NlaBuffer, Parseable, Place, TryClone,
};
use std::alloc::{AllocError, Global};

/// An attribute of a link for MCTP (`IFLA_MCTP_*`, `include/uapi/linux/if_link.h`).
///
/// Of the attributes, those marked read-only are reported by the kernel and cannot be set.
#[derive(Debug, PartialEq, Eq, Drop)]
pub enum AfSpecMctp {
    /// Number of the MCTP network (`IFLA_MCTP_NET`, `u32`).
    Net(u32),
    /// Number of the transport binding (`IFLA_MCTP_PHYS_BINDING`, `u8`, read-only).
    PhysBinding(u8),
    /// An attribute of any other type.
    Other(DefaultNla),
}

/// The attribute types (`IFLA_MCTP_*`), the variant of each, and the class of its payload.
macro_rules! rows {
    ($call:ident($($argument:tt)*)) => {
        link_base::by_rows! { $call($($argument)*)
            "IFLA_MCTP_";
            IFLA_MCTP_NET = 1, Net: u32;
            IFLA_MCTP_PHYS_BINDING = 2, PhysBinding: u8;
        }
    };
}

impl TryClone for AfSpecMctp {
    fn try_clone(&self, alloc: Global) -> Result<Self, AllocError> {
        rows!(clone(self, alloc))
    }
}

impl Meaning for AfSpecMctp {
    ghost table = { mctp_table };

    ghost means = { mctp_means };
}

impl Nla for AfSpecMctp {
    fn kind(&self) -> u16 {
        rows!(kind(self))
    }

    fn value_len(&self) -> usize {
        rows!(size(self))
    }

    fn emit_value(&self, buffer: &mut [u8]) {
        rows!(emit(self, buffer))
    }
}

impl Parseable for AfSpecMctp {
    fn parse_payload<P: Place<Self>>(
        alloc: Global,
        buffer: &NlaBuffer<'_>,
        place: &mut P,
    ) -> Result<(), DecodeError> {
        rows!(read(alloc, buffer, place))
    }
}

impl AttributeRows for AfSpecMctp {
    #[inline(always)]
    fn visit_row<V: RowVisitor<Self>>(kind: u16, visitor: V) -> V::Output {
        rows!(visit(kind, visitor))
    }
}

impl Attribute for AfSpecMctp {
    ghost use Rattle.std.specs.Prelude.{refl};
    ghost use Rattle.link_base.proofs.TableLaws.{lawful};
    ghost use Rattle.link_base.specs.Equality.{of_cases, thorough_fields};
    ghost use Rattle.link_common.specs.contracts.mctp.AfSpecMctp.{enum};

    ghost lawful = { lawful mctp_table };

    ghost well_formed = { refl };

    ghost thorough = { of_cases enum _ _ (Prim.search (thorough_fields)) };
}
