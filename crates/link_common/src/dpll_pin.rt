//! The pin of a clock that is recovered from a link.

ghost use Rattle.std.specs.Prelude.{refl, true};
ghost use Rattle.link_base.specs.Lift.{lift, lift_table};
ghost use Rattle.link_common.specs.DpllPin.{dpll_pin_rows, dpll_pin_leaf};

use link_base::rows::by_rows::{AttributeRows, RowVisitor};
use link_base::{
    Attribute, DecodeError, DefaultNla, Meaning, NestedAttribute, Nla, NlaBuffer, Parseable, Place,
    TryClone,
};
use std::alloc::{AllocError, Global};

/// An element of `IFLA_DPLL_PIN` (`DPLL_A_PIN_*`, `include/uapi/linux/dpll.h`).
///
/// Of the elements, those marked read-only are reported by the kernel and cannot be set.
#[derive(Debug, PartialEq, Eq, Drop)]
pub enum DpllPin {
    /// Number of the pin (`DPLL_A_PIN_ID`, `u32`, read-only).
    Id(u32),
    /// An element of any other type.
    Other(DefaultNla),
}

/// The attribute types (`DPLL_A_PIN_*`), the variant of each, and the class of its payload.
macro_rules! rows {
    ($call:ident($($argument:tt)*)) => {
        link_base::by_rows! { $call($($argument)*)
            "DPLL_A_PIN_";
            DPLL_A_PIN_ID = 1, Id: u32;
        }
    };
}

impl TryClone for DpllPin {
    fn try_clone(&self, alloc: Global) -> Result<Self, AllocError> {
        rows!(clone(self, alloc))
    }
}

impl Meaning for DpllPin {
    ghost table = { lift_table dpll_pin_rows };

    ghost means = { λ info. lift (dpll_pin_leaf info) };
}

impl Nla for DpllPin {
    fn kind(&self) -> u16 {
        rows!(kind(self))
    }

    fn value_len(&self) -> usize {
        rows!(size(self))
    }

    fn emit_value(&self, buffer: &mut [u8]) {
        rows!(emit(self, buffer))
    }
}

impl Parseable for DpllPin {
    fn parse_payload<P: Place<Self>>(
        alloc: Global,
        buffer: &NlaBuffer<'_>,
        place: &mut P,
    ) -> Result<(), DecodeError> {
        rows!(read(alloc, buffer, place))
    }
}

impl AttributeRows for DpllPin {
    #[inline(always)]
    fn visit_row<V: RowVisitor<Self>>(kind: u16, visitor: V) -> V::Output {
        rows!(visit(kind, visitor))
    }
}

impl Attribute for DpllPin {
    ghost use Rattle.link_base.proofs.TableLaws.{lawful};
    ghost use Rattle.link_base.specs.Equality.{of_cases, thorough_fields};
    ghost use Rattle.link_common.specs.contracts.dpll_pin.DpllPin.{enum};

    ghost lawful = { lawful (lift_table dpll_pin_rows) };

    ghost well_formed = { refl };

    ghost thorough = { of_cases enum _ _ (Prim.search (thorough_fields)) };
}

impl NestedAttribute for DpllPin {
    ghost rows = { dpll_pin_rows };

    const FLAGGED: bool = true;

    ghost FLAGGED = { true };

    ghost leaf = { dpll_pin_leaf };

    ghost same_table = { refl };

    ghost same_means = { λ _. refl };
}
