//! Further properties of a link.

ghost use Rattle.std.specs.Prelude.{refl, true};
ghost use Rattle.link_base.specs.Lift.{lift, lift_table};
ghost use Rattle.link_common.specs.LinkProperty.{link_property_rows, link_property_leaf};

use link_base::classes::shown::{Shown, Text};
use link_base::rows::by_rows::{AttributeRows, RowVisitor};
use link_base::{
    Attribute, DecodeError, DefaultNla, Meaning, NestedAttribute, Nla, NlaBuffer, Parseable, Place,
    TryClone,
};
use std::alloc::{AllocError, Global};

/// An element of `IFLA_PROP_LIST` (`IFLA_ALT_IFNAME`, `include/uapi/linux/if_link.h`).
#[derive(Debug, PartialEq, Eq, Drop)]
pub enum LinkProperty {
    /// An alternative name of the link, at most 127 bytes; each has an element of its own (`IFLA_ALT_IFNAME`, a
    /// text).
    AltIfName(Vec<u8>),
    /// An element of any other type.
    Other(DefaultNla),
}

/// The attribute types (`IFLA_*`), the variant of each, and the class of its payload.
macro_rules! rows {
    ($call:ident($($argument:tt)*)) => {
        link_base::by_rows! { $call($($argument)*)
            "IFLA_";
            IFLA_ALT_IFNAME = 53, AltIfName: Shown<Text>;
        }
    };
}

impl TryClone for LinkProperty {
    fn try_clone(&self, alloc: Global) -> Result<Self, AllocError> {
        rows!(clone(self, alloc))
    }
}

impl Meaning for LinkProperty {
    ghost table = { lift_table link_property_rows };

    ghost means = { λ info. lift (link_property_leaf info) };
}

impl Nla for LinkProperty {
    fn kind(&self) -> u16 {
        rows!(kind(self))
    }

    fn value_len(&self) -> usize {
        rows!(size(self))
    }

    fn emit_value(&self, buffer: &mut [u8]) {
        rows!(emit(self, buffer))
    }
}

impl Parseable for LinkProperty {
    fn parse_payload<P: Place<Self>>(
        alloc: Global,
        buffer: &NlaBuffer<'_>,
        place: &mut P,
    ) -> Result<(), DecodeError> {
        rows!(read(alloc, buffer, place))
    }
}

impl AttributeRows for LinkProperty {
    #[inline(always)]
    fn visit_row<V: RowVisitor<Self>>(kind: u16, visitor: V) -> V::Output {
        rows!(visit(kind, visitor))
    }
}

impl Attribute for LinkProperty {
    ghost use Rattle.link_base.proofs.TableLaws.{lawful};
    ghost use Rattle.link_base.specs.Equality.{of_cases, thorough_fields};
    ghost use Rattle.link_common.specs.contracts.link_property.LinkProperty.{enum};

    ghost lawful = { lawful (lift_table link_property_rows) };

    ghost well_formed = { refl };

    ghost thorough = { of_cases enum _ _ (Prim.search (thorough_fields)) };
}

impl NestedAttribute for LinkProperty {
    ghost rows = { link_property_rows };

    const FLAGGED: bool = true;

    ghost FLAGGED = { true };

    ghost leaf = { link_property_leaf };

    ghost same_table = { refl };

    ghost same_means = { λ _. refl };
}
