//! An attribute set that the library does not have: IPoIB device attributes (`IFLA_INFO_DATA` of a link whose
//! `IFLA_INFO_KIND` is `ipoib`). All calls that take the enum of the attributes as a type accept it.

ghost use Rattle.std.specs.Prelude.{IfOk, IfErr};
ghost use Rattle.netlink_packet_route.specs.Table.{Gives};
ghost use Rattle.netlink_packet_route.specs.Wire.{FirstFault};
ghost use Rattle.uses.specs.Ipoib.{ipoib_table, ipoib_means};
ghost use Rattle.uses.specs.Reading.{IsLastNumber};

use netlink_packet_route::implementing::by_rows::{AttributeRows, RowVisitor};
use netlink_packet_route::implementing::{
    Attribute, DecodeError, DefaultNla, Meaning, Nla, NlaBuffer, Parseable, Place, TryClone,
};
use netlink_packet_route::link::ListFault;
use netlink_packet_route::views::view_list;
use std::alloc::{AllocError, Global};

/// An IPoIB device attribute (`IFLA_IPOIB_*`, `include/uapi/linux/if_link.h`).
#[derive(Debug, PartialEq, Eq, Drop)]
pub enum InfoIpoib {
    /// Partition key (`IFLA_IPOIB_PKEY`, `u16`).
    Pkey(u16),
    /// Mode: `IPOIB_MODE_DATAGRAM` is 0, `IPOIB_MODE_CONNECTED` 1 (`IFLA_IPOIB_MODE`, `u16`).
    Mode(u16),
    /// Whether user space controls the multicast groups: 0 or 1 (`IFLA_IPOIB_UMCAST`, `u16`).
    Umcast(u16),
    /// An attribute of any other type.
    Other(DefaultNla),
}

/// The attribute types (`IFLA_IPOIB_*`), the variant of each, and the class of its payload.
macro_rules! rows {
    ($call:ident($($argument:tt)*)) => {
        link_base::by_rows! { $call($($argument)*)
            "IFLA_IPOIB_";
            IFLA_IPOIB_PKEY = 1, Pkey: u16 as Mask;
            IFLA_IPOIB_MODE = 2, Mode: u16;
            IFLA_IPOIB_UMCAST = 3, Umcast: u16;
        }
    };
}

impl TryClone for InfoIpoib {
    fn try_clone(&self, alloc: Global) -> Result<Self, AllocError> {
        rows!(clone(self, alloc))
    }
}

impl Meaning for InfoIpoib {
    ghost table = { ipoib_table };

    ghost means = { ipoib_means };
}

impl Nla for InfoIpoib {
    fn kind(&self) -> u16 {
        rows!(kind(self))
    }

    fn value_len(&self) -> usize {
        rows!(size(self))
    }

    fn emit_value(&self, buffer: &mut [u8]) {
        rows!(emit(self, buffer))
    }
}

impl Parseable for InfoIpoib {
    fn parse_payload<P: Place<Self>>(
        alloc: Global,
        buffer: &NlaBuffer<'_>,
        place: &mut P,
    ) -> Result<(), DecodeError> {
        rows!(read(alloc, buffer, place))
    }
}

impl AttributeRows for InfoIpoib {
    #[inline(always)]
    fn visit_row<V: RowVisitor<Self>>(kind: u16, visitor: V) -> V::Output {
        rows!(visit(kind, visitor))
    }
}

impl Attribute for InfoIpoib {
    ghost use Rattle.std.specs.Prelude.{refl};
    ghost use Rattle.link_base.proofs.TableLaws.{lawful};
    ghost use Rattle.netlink_packet_route.specs.Equality.{of_cases, thorough_fields};
    ghost use Rattle.uses.specs.contracts.ipoib.InfoIpoib.{enum};

    ghost lawful = { lawful ipoib_table };

    ghost well_formed = { refl };

    ghost thorough = { of_cases enum _ _ (Prim.search (thorough_fields)) };
}

const IFLA_IPOIB_MODE: u16 = 2;

/// Returns the mode of an IPoIB device, as in [`InfoIpoib::Mode`], or `None` if the list has none. If the mode occurs
/// more than once, this is the last, the one that Linux takes. Does not allocate.
///
/// # Errors
///
/// The first error in the list, with the byte offset of its attribute.
pub fn ipoib_mode(bytes: &[u8]) -> Result<Option<u16>, ListFault>
    ensures mode { IfOk result (IsLastNumber ipoib_table bytes.now 2) }
    ensures fault { IfErr result (λ error. FirstFault (Gives ipoib_table) bytes.now error.at error.fault) }
{
    let view = view_list::<InfoIpoib>(bytes)?;
    match view.find(IFLA_IPOIB_MODE) {
        Some(mode) => Ok(mode.as_u16()),
        None => Ok(None),
    }
}
