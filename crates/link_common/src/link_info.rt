//! Kind and attributes of a device.

ghost use Rattle.std.specs.Prelude.{refl, false};
ghost use Rattle.link_base.specs.Lift.{lift, lift_table};
ghost use Rattle.link_common.specs.LinkInfo.{link_info_rows, link_info_leaf};

use link_base::classes::shown::{Held, Shown, Text};
use link_base::rows::by_rows::{AttributeRows, RowVisitor};
use link_base::{
    Attribute, DecodeError, DefaultNla, Meaning, NestedAttribute, Nla, NlaBuffer, Parseable, Place,
    TryClone,
};
use std::alloc::{AllocError, Global};

/// An element of `IFLA_LINKINFO`: the kind of a device, and its attributes (`IFLA_INFO_*`,
/// `include/uapi/linux/if_link.h`).
///
/// Of the elements, those marked read-only are reported by the kernel and cannot be set.
#[derive(Debug, PartialEq, Eq, Drop)]
pub enum LinkInfo {
    /// Kind of the device, as `bond` (`IFLA_INFO_KIND`, a text).
    Kind(Vec<u8>),
    /// Attributes of the device, by its kind (`IFLA_INFO_DATA`, a list of another set).
    Data(Vec<u8>),
    /// Counters of the device, in a form of its kind (`IFLA_INFO_XSTATS`, bytes, read-only).
    Xstats(Vec<u8>),
    /// Kind of the device that the link is a port of (`IFLA_INFO_SLAVE_KIND`, a text).
    PortKind(Vec<u8>),
    /// Attributes of the port, by this kind (`IFLA_INFO_SLAVE_DATA`, a list of another set).
    PortData(Vec<u8>),
    /// An element of any other type.
    Other(DefaultNla),
}

/// The attribute types (`IFLA_INFO_*`), the variant of each, and the class of its payload.
macro_rules! rows {
    ($call:ident($($argument:tt)*)) => {
        link_base::by_rows! { $call($($argument)*)
            "IFLA_INFO_";
            IFLA_INFO_KIND = 1, Kind: Shown<Text>;
            IFLA_INFO_DATA = 2, Data: Shown<Held>;
            IFLA_INFO_XSTATS = 3, Xstats: Vec<u8>;
            IFLA_INFO_SLAVE_KIND = 4, PortKind: Shown<Text>;
            IFLA_INFO_SLAVE_DATA = 5, PortData: Shown<Held>;
        }
    };
}

impl TryClone for LinkInfo {
    fn try_clone(&self, alloc: Global) -> Result<Self, AllocError> {
        rows!(clone(self, alloc))
    }
}

impl Meaning for LinkInfo {
    ghost table = { lift_table link_info_rows };

    ghost means = { λ info. lift (link_info_leaf info) };
}

impl Nla for LinkInfo {
    fn kind(&self) -> u16 {
        rows!(kind(self))
    }

    fn value_len(&self) -> usize {
        rows!(size(self))
    }

    fn emit_value(&self, buffer: &mut [u8]) {
        rows!(emit(self, buffer))
    }
}

impl Parseable for LinkInfo {
    fn parse_payload<P: Place<Self>>(
        alloc: Global,
        buffer: &NlaBuffer<'_>,
        place: &mut P,
    ) -> Result<(), DecodeError> {
        rows!(read(alloc, buffer, place))
    }
}

impl AttributeRows for LinkInfo {
    #[inline(always)]
    fn visit_row<V: RowVisitor<Self>>(kind: u16, visitor: V) -> V::Output {
        rows!(visit(kind, visitor))
    }
}

impl Attribute for LinkInfo {
    ghost use Rattle.link_base.proofs.TableLaws.{lawful};
    ghost use Rattle.link_base.specs.Equality.{of_cases, thorough_fields};
    ghost use Rattle.link_common.specs.contracts.link_info.LinkInfo.{enum};

    ghost lawful = { lawful (lift_table link_info_rows) };

    ghost well_formed = { refl };

    ghost thorough = { of_cases enum _ _ (Prim.search (thorough_fields)) };
}

impl NestedAttribute for LinkInfo {
    ghost rows = { link_info_rows };

    const FLAGGED: bool = false;

    ghost FLAGGED = { false };

    ghost leaf = { link_info_leaf };

    ghost same_table = { refl };

    ghost same_means = { λ _. refl };
}
