//! Why protocols keep a link down.

ghost use Rattle.std.specs.Prelude.{refl, true};
ghost use Rattle.link_base.specs.Lift.{lift, lift_table};
ghost use Rattle.link_common.specs.ProtoDownReason.{proto_down_reason_rows, proto_down_reason_leaf};

use link_base::rows::by_rows::{AttributeRows, RowVisitor};
use link_base::{
    Attribute, DecodeError, DefaultNla, Meaning, NestedAttribute, Nla, NlaBuffer, Parseable, Place,
    TryClone,
};
use std::alloc::{AllocError, Global};

/// An element of `IFLA_PROTO_DOWN_REASON`: bits, each of which is a reason to keep a link down
/// (`IFLA_PROTO_DOWN_REASON_*`, `include/uapi/linux/if_link.h`).
///
/// Of the elements, those marked write-only can be set and are not reported.
#[derive(Debug, PartialEq, Eq, Drop)]
pub enum ProtoDownReason {
    /// Which bits are set (`IFLA_PROTO_DOWN_REASON_MASK`, `u32`, write-only).
    Mask(u32),
    /// The bits (`IFLA_PROTO_DOWN_REASON_VALUE`, `u32`).
    Value(u32),
    /// An element of any other type.
    Other(DefaultNla),
}

/// The attribute types (`IFLA_PROTO_DOWN_REASON_*`), the variant of each, and the class of its payload.
macro_rules! rows {
    ($call:ident($($argument:tt)*)) => {
        link_base::by_rows! { $call($($argument)*)
            "IFLA_PROTO_DOWN_REASON_";
            IFLA_PROTO_DOWN_REASON_MASK = 1, Mask: u32 as Mask;
            IFLA_PROTO_DOWN_REASON_VALUE = 2, Value: u32 as Mask;
        }
    };
}

impl TryClone for ProtoDownReason {
    fn try_clone(&self, alloc: Global) -> Result<Self, AllocError> {
        rows!(clone(self, alloc))
    }
}

impl Meaning for ProtoDownReason {
    ghost table = { lift_table proto_down_reason_rows };

    ghost means = { λ info. lift (proto_down_reason_leaf info) };
}

impl Nla for ProtoDownReason {
    fn kind(&self) -> u16 {
        rows!(kind(self))
    }

    fn value_len(&self) -> usize {
        rows!(size(self))
    }

    fn emit_value(&self, buffer: &mut [u8]) {
        rows!(emit(self, buffer))
    }
}

impl Parseable for ProtoDownReason {
    fn parse_payload<P: Place<Self>>(
        alloc: Global,
        buffer: &NlaBuffer<'_>,
        place: &mut P,
    ) -> Result<(), DecodeError> {
        rows!(read(alloc, buffer, place))
    }
}

impl AttributeRows for ProtoDownReason {
    #[inline(always)]
    fn visit_row<V: RowVisitor<Self>>(kind: u16, visitor: V) -> V::Output {
        rows!(visit(kind, visitor))
    }
}

impl Attribute for ProtoDownReason {
    ghost use Rattle.link_base.proofs.TableLaws.{lawful};
    ghost use Rattle.link_base.specs.Equality.{of_cases, thorough_fields};
    ghost use Rattle.link_common.specs.contracts.proto_down_reason.ProtoDownReason.{enum};

    ghost lawful = { lawful (lift_table proto_down_reason_rows) };

    ghost well_formed = { refl };

    ghost thorough = { of_cases enum _ _ (Prim.search (thorough_fields)) };
}

impl NestedAttribute for ProtoDownReason {
    ghost rows = { proto_down_reason_rows };

    const FLAGGED: bool = true;

    ghost FLAGGED = { true };

    ghost leaf = { proto_down_reason_leaf };

    ghost same_table = { refl };

    ghost same_means = { λ _. refl };
}
