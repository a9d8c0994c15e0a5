//! Attributes of VETH and VXCAN devices (`IFLA_INFO_DATA` of a link whose `IFLA_INFO_KIND` is `veth` or `vxcan`).

ghost use Rattle.link_devices.specs.Veth.{veth_table, veth_means};

use link_base::classes::peer::Peer;
use link_base::rows::by_rows::{AttributeRows, RowVisitor};
use link_base::{
    Attribute, DecodeError, DefaultNla, Meaning, Nla, NlaBuffer, Parseable, Place, TryClone,
};
use std::alloc::{AllocError, Global};

/// An attribute of a VETH or VXCAN device (`VETH_INFO_*`, `include/uapi/linux/veth.h`). For VXCAN it is `VXCAN_INFO_*` of
/// `include/uapi/linux/can/vxcan.h`, with the same numbers.
///
/// Of the attributes, those marked write-only can be set and are not reported.
#[derive(Debug, PartialEq, Eq, Drop)]
pub enum InfoVeth {
    /// The other device of the pair: its header, and its attributes (`VETH_INFO_PEER`, write-only). The kernel reports its
    /// index as `IFLA_LINK`.
    Peer(Peer),
    /// An attribute of any other type.
    Other(DefaultNla),
}

/// The attribute types (`VETH_INFO_*`), the variant of each, and the class of its payload.
macro_rules! rows {
    ($call:ident($($argument:tt)*)) => {
        link_base::by_rows! { $call($($argument)*)
            "VETH_INFO_";
            VETH_INFO_PEER = 1, Peer: Peer;
        }
    };
}

impl TryClone for InfoVeth {
    fn try_clone(&self, alloc: Global) -> Result<Self, AllocError> {
        rows!(clone(self, alloc))
    }
}

impl Meaning for InfoVeth {
    ghost table = { veth_table };

    ghost means = { veth_means };
}

impl Nla for InfoVeth {
    fn kind(&self) -> u16 {
        rows!(kind(self))
    }

    fn value_len(&self) -> usize {
        rows!(size(self))
    }

    fn emit_value(&self, buffer: &mut [u8]) {
        rows!(emit(self, buffer))
    }
}

impl Parseable for InfoVeth {
    fn parse_payload<P: Place<Self>>(
        alloc: Global,
        buffer: &NlaBuffer<'_>,
        place: &mut P,
    ) -> Result<(), DecodeError> {
        rows!(read(alloc, buffer, place))
    }
}

impl AttributeRows for InfoVeth {
    #[inline(always)]
    fn visit_row<V: RowVisitor<Self>>(kind: u16, visitor: V) -> V::Output {
        rows!(visit(kind, visitor))
    }
}

impl Attribute for InfoVeth {
    ghost use Rattle.std.specs.Prelude.{refl};
    ghost use Rattle.link_base.proofs.TableLaws.{lawful};
    ghost use Rattle.link_base.specs.Equality.{of_cases, thorough_fields};
    ghost use Rattle.link_devices.specs.contracts.veth.InfoVeth.{enum};

    ghost lawful = { lawful veth_table };

    ghost well_formed = { refl };

    ghost thorough = { of_cases enum _ _ (Prim.search (thorough_fields)) };
}
