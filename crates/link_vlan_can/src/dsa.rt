//! DSA port attributes (`IFLA_INFO_DATA` of a link whose `IFLA_INFO_KIND` is `dsa`).

ghost use Rattle.link_vlan_can.specs.Dsa.{dsa_table, dsa_means};

use link_base::rows::by_rows::{AttributeRows, RowVisitor};
use link_base::{
    Attribute, DecodeError, DefaultNla, Meaning, Nla, NlaBuffer, Parseable, Place, TryClone,
};
use std::alloc::{AllocError, Global};

/// A DSA port attribute (`IFLA_DSA_*`, `include/uapi/linux/if_link.h`).
#[derive(Debug, PartialEq, Eq, Drop)]
pub enum InfoDsa {
    /// Interface index of the conduit, the network device that carries the port's frames to the processor
    /// (`IFLA_DSA_CONDUIT`, before Linux 6.7 `IFLA_DSA_MASTER`, `u32`).
    Conduit(u32),
    /// An attribute of any other type.
    Other(DefaultNla),
}

/// The attribute types (`IFLA_DSA_*`), the variant of each, and the class of its payload.
macro_rules! rows {
    ($call:ident($($argument:tt)*)) => {
        link_base::by_rows! { $call($($argument)*)
            "IFLA_DSA_";
            IFLA_DSA_CONDUIT = 1, Conduit: u32 as InterfaceIndex;
        }
    };
}

impl TryClone for InfoDsa {
    fn try_clone(&self, alloc: Global) -> Result<Self, AllocError> {
        rows!(clone(self, alloc))
    }
}

impl Meaning for InfoDsa {
    ghost table = { dsa_table };

    ghost means = { dsa_means };
}

impl Nla for InfoDsa {
    fn kind(&self) -> u16 {
        rows!(kind(self))
    }

    fn value_len(&self) -> usize {
        rows!(size(self))
    }

    fn emit_value(&self, buffer: &mut [u8]) {
        rows!(emit(self, buffer))
    }
}

impl Parseable for InfoDsa {
    fn parse_payload<P: Place<Self>>(
        alloc: Global,
        buffer: &NlaBuffer<'_>,
        place: &mut P,
    ) -> Result<(), DecodeError> {
        rows!(read(alloc, buffer, place))
    }
}

impl AttributeRows for InfoDsa {
    #[inline(always)]
    fn visit_row<V: RowVisitor<Self>>(kind: u16, visitor: V) -> V::Output {
        rows!(visit(kind, visitor))
    }
}

impl Attribute for InfoDsa {
    ghost use Rattle.std.specs.Prelude.{refl};
    ghost use Rattle.link_base.proofs.TableLaws.{lawful};
    ghost use Rattle.link_base.specs.Equality.{of_cases, thorough_fields};
    ghost use Rattle.link_vlan_can.specs.contracts.dsa.InfoDsa.{enum};

    ghost lawful = { lawful dsa_table };

    ghost well_formed = { refl };

    ghost thorough = { of_cases enum _ _ (Prim.search (thorough_fields)) };
}
