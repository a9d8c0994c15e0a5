//! Information about the modes of a CAN controller.

ghost use Rattle.std.specs.Prelude.{refl, true};
ghost use Rattle.link_base.specs.Lift.{lift, lift_table};
ghost use Rattle.link_vlan_can.specs.Can.{mode_rows, mode_leaf};

use crate::can_flags::CanCtrlModeFlags;
use link_base::rows::by_rows::{AttributeRows, RowVisitor};
use link_base::{
    Attribute, DecodeError, DefaultNla, FlagBits, Meaning, NestedAttribute, Nla, NlaBuffer,
    Parseable, Place, TryClone,
};
use std::alloc::{AllocError, Global};

/// An attribute of the modes of a CAN controller (`IFLA_CAN_CTRLMODE_*`, `include/uapi/linux/can/netlink.h`).
#[derive(Debug, PartialEq, Eq, Drop)]
pub enum CanCtrlModeExt {
    /// The modes that the controller supports (`IFLA_CAN_CTRLMODE_SUPPORTED`, `u32`, read-only).
    Supported(CanCtrlModeFlags),
    /// An element of any other type.
    Other(DefaultNla),
}

/// The attribute types (`IFLA_CAN_CTRLMODE_*`), the variant of each, and the class of its payload.
macro_rules! rows {
    ($call:ident($($argument:tt)*)) => {
        link_base::by_rows! { $call($($argument)*)
            "IFLA_CAN_CTRLMODE_";
            IFLA_CAN_CTRLMODE_SUPPORTED = 1, Supported: FlagBits<CanCtrlModeFlags>;
        }
    };
}

impl TryClone for CanCtrlModeExt {
    fn try_clone(&self, alloc: Global) -> Result<Self, AllocError> {
        rows!(clone(self, alloc))
    }
}

impl Meaning for CanCtrlModeExt {
    ghost table = { lift_table mode_rows };

    ghost means = { λ mode. lift (mode_leaf mode) };
}

impl Nla for CanCtrlModeExt {
    fn kind(&self) -> u16 {
        rows!(kind(self))
    }

    fn value_len(&self) -> usize {
        rows!(size(self))
    }

    fn emit_value(&self, buffer: &mut [u8]) {
        rows!(emit(self, buffer))
    }
}

impl Parseable for CanCtrlModeExt {
    fn parse_payload<P: Place<Self>>(
        alloc: Global,
        buffer: &NlaBuffer<'_>,
        place: &mut P,
    ) -> Result<(), DecodeError> {
        rows!(read(alloc, buffer, place))
    }
}

impl AttributeRows for CanCtrlModeExt {
    #[inline(always)]
    fn visit_row<V: RowVisitor<Self>>(kind: u16, visitor: V) -> V::Output {
        rows!(visit(kind, visitor))
    }
}

impl Attribute for CanCtrlModeExt {
    ghost use Rattle.link_base.proofs.TableLaws.{lawful};
    ghost use Rattle.link_base.specs.Equality.{of_cases, thorough_fields};
    ghost use Rattle.link_vlan_can.specs.contracts.can_flags.CanCtrlModeFlagsFlagSet.TheImpl.Laws as modes;
    ghost use Rattle.link_vlan_can.specs.contracts.can_modes.CanCtrlModeExt.{enum};

    ghost lawful = { lawful (lift_table mode_rows) };

    ghost well_formed = { refl };

    ghost thorough = { of_cases enum _ _ (Prim.search (thorough_fields, modes.thorough-law)) };
}

impl NestedAttribute for CanCtrlModeExt {
    ghost rows = { mode_rows };

    const FLAGGED: bool = true;

    ghost FLAGGED = { true };

    ghost leaf = { mode_leaf };

    ghost same_table = { refl };

    ghost same_means = { λ _. refl };
}
