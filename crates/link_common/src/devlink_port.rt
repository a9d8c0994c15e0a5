//! The devlink port of a link.

ghost use Rattle.std.specs.Prelude.{refl, true};
ghost use Rattle.link_base.specs.Lift.{lift, lift_table};
ghost use Rattle.link_common.specs.DevlinkPort.{devlink_port_rows, devlink_port_leaf};

use link_base::classes::shown::{Shown, Text};
use link_base::rows::by_rows::{AttributeRows, RowVisitor};
use link_base::{
    Attribute, DecodeError, DefaultNla, Meaning, NestedAttribute, Nla, NlaBuffer, Parseable, Place,
    TryClone,
};
use std::alloc::{AllocError, Global};

/// An element of `IFLA_DEVLINK_PORT` (`DEVLINK_ATTR_*`, `include/uapi/linux/devlink.h`).
///
/// Of the elements, those marked read-only are reported by the kernel and cannot be set.
#[derive(Debug, PartialEq, Eq, Drop)]
pub enum DevlinkPort {
    /// Name of the device's bus, as `pci` (`DEVLINK_ATTR_BUS_NAME`, a text, read-only).
    BusName(Vec<u8>),
    /// Name of the device, as `0000:00:1f.6` (`DEVLINK_ATTR_DEV_NAME`, a text, read-only).
    DevName(Vec<u8>),
    /// Number of the port (`DEVLINK_ATTR_PORT_INDEX`, `u32`, read-only).
    PortIndex(u32),
    /// An element of any other type.
    Other(DefaultNla),
}

/// The attribute types (`DEVLINK_ATTR_*`), the variant of each, and the class of its payload.
macro_rules! rows {
    ($call:ident($($argument:tt)*)) => {
        link_base::by_rows! { $call($($argument)*)
            "DEVLINK_ATTR_";
            DEVLINK_ATTR_BUS_NAME = 1, BusName: Shown<Text>;
            DEVLINK_ATTR_DEV_NAME = 2, DevName: Shown<Text>;
            DEVLINK_ATTR_PORT_INDEX = 3, PortIndex: u32;
        }
    };
}

impl TryClone for DevlinkPort {
    fn try_clone(&self, alloc: Global) -> Result<Self, AllocError> {
        rows!(clone(self, alloc))
    }
}

impl Meaning for DevlinkPort {
    ghost table = { lift_table devlink_port_rows };

    ghost means = { λ info. lift (devlink_port_leaf info) };
}

impl Nla for DevlinkPort {
    fn kind(&self) -> u16 {
        rows!(kind(self))
    }

    fn value_len(&self) -> usize {
        rows!(size(self))
    }

    fn emit_value(&self, buffer: &mut [u8]) {
        rows!(emit(self, buffer))
    }
}

impl Parseable for DevlinkPort {
    fn parse_payload<P: Place<Self>>(
        alloc: Global,
        buffer: &NlaBuffer<'_>,
        place: &mut P,
    ) -> Result<(), DecodeError> {
        rows!(read(alloc, buffer, place))
    }
}

impl AttributeRows for DevlinkPort {
    #[inline(always)]
    fn visit_row<V: RowVisitor<Self>>(kind: u16, visitor: V) -> V::Output {
        rows!(visit(kind, visitor))
    }
}

impl Attribute for DevlinkPort {
    ghost use Rattle.link_base.proofs.TableLaws.{lawful};
    ghost use Rattle.link_base.specs.Equality.{of_cases, thorough_fields};
    ghost use Rattle.link_common.specs.contracts.devlink_port.DevlinkPort.{enum};

    ghost lawful = { lawful (lift_table devlink_port_rows) };

    ghost well_formed = { refl };

    ghost thorough = { of_cases enum _ _ (Prim.search (thorough_fields)) };
}

impl NestedAttribute for DevlinkPort {
    ghost rows = { devlink_port_rows };

    const FLAGGED: bool = true;

    ghost FLAGGED = { true };

    ghost leaf = { devlink_port_leaf };

    ghost same_table = { refl };

    ghost same_means = { λ _. refl };
}
