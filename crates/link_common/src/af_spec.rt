//! Attributes of a link for each address family.

ghost use Rattle.link_common.specs.AfSpec.{af_spec_table, af_spec_means};

use link_base::classes::shown::{Held, Shown};
use link_base::rows::by_rows::{AttributeRows, RowVisitor};
use link_base::{
    Attribute, DecodeError, DefaultNla, Meaning, Nla, NlaBuffer, Parseable, Place, TryClone,
};
use std::alloc::{AllocError, Global};

/// An attribute of `IFLA_AF_SPEC`, but for AF_BRIDGE messages. Its type is an address family (`AF_*`,
/// `include/linux/socket.h`).
#[derive(Debug, PartialEq, Eq, Drop)]
pub enum AfSpecUnspec {
    /// Attributes for IPv4 (`AF_INET`, a list of another set).
    Inet(Vec<u8>),
    /// Attributes for IPv6 (`AF_INET6`, a list of another set).
    Inet6(Vec<u8>),
    /// Attributes for MCTP (`AF_MCTP`, a list of another set).
    Mctp(Vec<u8>),
    /// An attribute of any other type.
    Other(DefaultNla),
}

/// The attribute types (`AF_*`), the variant of each, and the class of its payload.
macro_rules! rows {
    ($call:ident($($argument:tt)*)) => {
        link_base::by_rows! { $call($($argument)*)
            "AF_";
            AF_INET = 2, Inet: Shown<Held>;
            AF_INET6 = 10, Inet6: Shown<Held>;
            AF_MCTP = 45, Mctp: Shown<Held>;
        }
    };
}

impl TryClone for AfSpecUnspec {
    fn try_clone(&self, alloc: Global) -> Result<Self, AllocError> {
        rows!(clone(self, alloc))
    }
}

impl Meaning for AfSpecUnspec {
    ghost table = { af_spec_table };

    ghost means = { af_spec_means };
}

impl Nla for AfSpecUnspec {
    fn kind(&self) -> u16 {
        rows!(kind(self))
    }

    fn value_len(&self) -> usize {
        rows!(size(self))
    }

    fn emit_value(&self, buffer: &mut [u8]) {
        rows!(emit(self, buffer))
    }
}

impl Parseable for AfSpecUnspec {
    fn parse_payload<P: Place<Self>>(
        alloc: Global,
        buffer: &NlaBuffer<'_>,
        place: &mut P,
    ) -> Result<(), DecodeError> {
        rows!(read(alloc, buffer, place))
    }
}

impl AttributeRows for AfSpecUnspec {
    #[inline(always)]
    fn visit_row<V: RowVisitor<Self>>(kind: u16, visitor: V) -> V::Output {
        rows!(visit(kind, visitor))
    }
}

impl Attribute for AfSpecUnspec {
    ghost use Rattle.std.specs.Prelude.{refl};
    ghost use Rattle.link_base.proofs.TableLaws.{lawful};
    ghost use Rattle.link_base.specs.Equality.{of_cases, thorough_fields};
    ghost use Rattle.link_common.specs.contracts.af_spec.AfSpecUnspec.{enum};

    ghost lawful = { lawful af_spec_table };

    ghost well_formed = { refl };

    ghost thorough = { of_cases enum _ _ (Prim.search (thorough_fields)) };
}
