//! Transmitter delay compensation of a CAN controller.

ghost use Rattle.std.specs.Prelude.{refl, true};
ghost use Rattle.link_base.specs.Lift.{lift, lift_table};
ghost use Rattle.link_vlan_can.specs.Can.{tdc_rows, tdc_leaf};

use link_base::rows::by_rows::{AttributeRows, RowVisitor};
use link_base::{
    Attribute, DecodeError, DefaultNla, Meaning, NestedAttribute, Nla, NlaBuffer, Parseable, Place,
    TryClone,
};
use std::alloc::{AllocError, Global};

/// An attribute of transmitter delay compensation (`IFLA_CAN_TDC_*`, `include/uapi/linux/can/netlink.h`). Each is a
/// `u32`, in periods of the controller's clock.
///
/// Attributes marked read-only are reported by the kernel and cannot be set.
#[derive(Debug, PartialEq, Eq, Drop)]
pub enum CanTdc {
    /// Minimum value (`IFLA_CAN_TDC_TDCV_MIN`, read-only).
    TdcvMin(u32),
    /// Maximum value (`IFLA_CAN_TDC_TDCV_MAX`, read-only).
    TdcvMax(u32),
    /// Minimum offset (`IFLA_CAN_TDC_TDCO_MIN`, read-only).
    TdcoMin(u32),
    /// Maximum offset (`IFLA_CAN_TDC_TDCO_MAX`, read-only).
    TdcoMax(u32),
    /// Minimum filter window (`IFLA_CAN_TDC_TDCF_MIN`, read-only).
    TdcfMin(u32),
    /// Maximum filter window (`IFLA_CAN_TDC_TDCF_MAX`, read-only).
    TdcfMax(u32),
    /// Value: the delay between the start of a transmitted bit and the start of its reception (`IFLA_CAN_TDC_TDCV`).
    Tdcv(u32),
    /// Offset: the time from the start of a received bit to its sampling (`IFLA_CAN_TDC_TDCO`).
    Tdco(u32),
    /// Filter window: the minimum sum of value and offset for which the delay is compensated (`IFLA_CAN_TDC_TDCF`).
    Tdcf(u32),
    /// An element of any other type.
    Other(DefaultNla),
}

/// The attribute types (`IFLA_CAN_TDC_*`), the variant of each, and the class of its payload.
macro_rules! rows {
    ($call:ident($($argument:tt)*)) => {
        link_base::by_rows! { $call($($argument)*)
            "IFLA_CAN_TDC_";
            IFLA_CAN_TDC_TDCV_MIN = 1, TdcvMin: u32;
            IFLA_CAN_TDC_TDCV_MAX = 2, TdcvMax: u32;
            IFLA_CAN_TDC_TDCO_MIN = 3, TdcoMin: u32;
            IFLA_CAN_TDC_TDCO_MAX = 4, TdcoMax: u32;
            IFLA_CAN_TDC_TDCF_MIN = 5, TdcfMin: u32;
            IFLA_CAN_TDC_TDCF_MAX = 6, TdcfMax: u32;
            IFLA_CAN_TDC_TDCV = 7, Tdcv: u32;
            IFLA_CAN_TDC_TDCO = 8, Tdco: u32;
            IFLA_CAN_TDC_TDCF = 9, Tdcf: u32;
        }
    };
}

impl TryClone for CanTdc {
    fn try_clone(&self, alloc: Global) -> Result<Self, AllocError> {
        rows!(clone(self, alloc))
    }
}

impl Meaning for CanTdc {
    ghost table = { lift_table tdc_rows };

    ghost means = { λ tdc. lift (tdc_leaf tdc) };
}

impl Nla for CanTdc {
    fn kind(&self) -> u16 {
        rows!(kind(self))
    }

    fn value_len(&self) -> usize {
        rows!(size(self))
    }

    fn emit_value(&self, buffer: &mut [u8]) {
        rows!(emit(self, buffer))
    }
}

impl Parseable for CanTdc {
    fn parse_payload<P: Place<Self>>(
        alloc: Global,
        buffer: &NlaBuffer<'_>,
        place: &mut P,
    ) -> Result<(), DecodeError> {
        rows!(read(alloc, buffer, place))
    }
}

impl AttributeRows for CanTdc {
    #[inline(always)]
    fn visit_row<V: RowVisitor<Self>>(kind: u16, visitor: V) -> V::Output {
        rows!(visit(kind, visitor))
    }
}

impl Attribute for CanTdc {
    ghost use Rattle.link_base.proofs.TableLaws.{lawful};
    ghost use Rattle.link_base.specs.Equality.{of_cases, thorough_fields};
    ghost use Rattle.link_vlan_can.specs.contracts.can_tdc.CanTdc.{enum};

    ghost lawful = { lawful (lift_table tdc_rows) };

    ghost well_formed = { refl };

    ghost thorough = { of_cases enum _ _ (Prim.search (thorough_fields)) };
}

impl NestedAttribute for CanTdc {
    ghost rows = { tdc_rows };

    const FLAGGED: bool = true;

    ghost FLAGGED = { true };

    ghost leaf = { tdc_leaf };

    ghost same_table = { refl };

    ghost same_means = { λ _. refl };
}
