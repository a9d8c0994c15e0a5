//! Attributes of a link for IPv4.

ghost use Rattle.link_common.specs.Inet.{inet_table, inet_means};

use crate::places::Ipv4Conf;
use link_base::classes::coded::Counters;
use link_base::rows::by_rows::{AttributeRows, RowVisitor};
use link_base::{
    Attribute, DecodeError, DefaultNla, Meaning, Nla, NlaBuffer, Parseable, Place, TryClone,
};
use std::alloc::{AllocError, Global};

/// An attribute of a link for IPv4 (`IFLA_INET_*`, `include/uapi/linux/if_link.h`).
#[derive(Debug, PartialEq, Eq, Drop)]
pub enum AfSpecInet {
    /// Settings for IPv4: place k has that with the number k + 1. This is what the kernel sends; a request has a list
    /// of attributes instead, whose types are these numbers, which this reads as an array (`IFLA_INET_CONF`, an array
    /// of `i32`).
    Conf(Vec<i32>),
    /// An attribute of any other type.
    Other(DefaultNla),
}

/// The attribute types (`IFLA_INET_*`), the variant of each, and the class of its payload.
macro_rules! rows {
    ($call:ident($($argument:tt)*)) => {
        link_base::by_rows! { $call($($argument)*)
            "IFLA_INET_";
            IFLA_INET_CONF = 1, Conf: Counters<Ipv4Conf>;
        }
    };
}

impl TryClone for AfSpecInet {
    fn try_clone(&self, alloc: Global) -> Result<Self, AllocError> {
        rows!(clone(self, alloc))
    }
}

impl Meaning for AfSpecInet {
    ghost table = { inet_table };

    ghost means = { inet_means };
}

impl Nla for AfSpecInet {
    fn kind(&self) -> u16 {
        rows!(kind(self))
    }

    fn value_len(&self) -> usize {
        rows!(size(self))
    }

    fn emit_value(&self, buffer: &mut [u8]) {
        rows!(emit(self, buffer))
    }
}

impl Parseable for AfSpecInet {
    fn parse_payload<P: Place<Self>>(
        alloc: Global,
        buffer: &NlaBuffer<'_>,
        place: &mut P,
    ) -> Result<(), DecodeError> {
        rows!(read(alloc, buffer, place))
    }
}

impl AttributeRows for AfSpecInet {
    #[inline(always)]
    fn visit_row<V: RowVisitor<Self>>(kind: u16, visitor: V) -> V::Output {
        rows!(visit(kind, visitor))
    }
}

impl Attribute for AfSpecInet {
    ghost use Rattle.std.specs.Prelude.{refl};
    ghost use Rattle.link_base.proofs.TableLaws.{lawful};
    ghost use Rattle.link_base.specs.Equality.{of_cases, thorough_fields};
    ghost use Rattle.link_common.specs.contracts.inet.AfSpecInet.{enum};

    ghost lawful = { lawful inet_table };

    ghost well_formed = { refl };

    ghost thorough = { of_cases enum _ _ (Prim.search (thorough_fields)) };
}
