//! Attributes of the kernel's replies to requests.

ghost use Rattle.link_common.specs.Reply.{reply_table, reply_means};

use link_base::classes::shown::{Held, Shown, Text};
use link_base::rows::by_rows::{AttributeRows, RowVisitor};
use link_base::{
    Attribute, DecodeError, DefaultNla, Meaning, Nla, NlaBuffer, Parseable, Place, TryClone,
};
use std::alloc::{AllocError, Global};

/// An attribute of an NLMSG_ERROR or NLMSG_DONE (`NLMSGERR_ATTR_*`, `include/uapi/linux/netlink.h`). The kernel sends
/// them.
#[derive(Debug, PartialEq, Eq, Drop)]
pub enum ReplyAttribute {
    /// What was wrong, as a text (`NLMSGERR_ATTR_MSG`, a text).
    Msg(Vec<u8>),
    /// Offset, in the request, of the attribute that was rejected (`NLMSGERR_ATTR_OFFS`, `u32`).
    Offs(u32),
    /// What identifies the object or the operation, in a form of the subsystem (`NLMSGERR_ATTR_COOKIE`, bytes).
    Cookie(Vec<u8>),
    /// What the rejected attribute has to meet: a list of `NL_POLICY_TYPE_ATTR_*` (`NLMSGERR_ATTR_POLICY`, a list of
    /// another set).
    Policy(Vec<u8>),
    /// Type of an attribute that the request lacks (`NLMSGERR_ATTR_MISS_TYPE`, `u32`).
    MissType(u32),
    /// Offset, in the request, of the nested list that lacks it (`NLMSGERR_ATTR_MISS_NEST`, `u32`).
    MissNest(u32),
    /// An attribute of any other type.
    Other(DefaultNla),
}

/// The attribute types (`NLMSGERR_ATTR_*`), the variant of each, and the class of its payload.
macro_rules! rows {
    ($call:ident($($argument:tt)*)) => {
        link_base::by_rows! { $call($($argument)*)
            "NLMSGERR_ATTR_";
            NLMSGERR_ATTR_MSG = 1, Msg: Shown<Text>;
            NLMSGERR_ATTR_OFFS = 2, Offs: u32;
            NLMSGERR_ATTR_COOKIE = 3, Cookie: Vec<u8>;
            NLMSGERR_ATTR_POLICY = 4, Policy: Shown<Held>;
            NLMSGERR_ATTR_MISS_TYPE = 5, MissType: u32;
            NLMSGERR_ATTR_MISS_NEST = 6, MissNest: u32;
        }
    };
}

impl TryClone for ReplyAttribute {
    fn try_clone(&self, alloc: Global) -> Result<Self, AllocError> {
        rows!(clone(self, alloc))
    }
}

impl Meaning for ReplyAttribute {
    ghost table = { reply_table };

    ghost means = { reply_means };
}

impl Nla for ReplyAttribute {
    fn kind(&self) -> u16 {
        rows!(kind(self))
    }

    fn value_len(&self) -> usize {
        rows!(size(self))
    }

    fn emit_value(&self, buffer: &mut [u8]) {
        rows!(emit(self, buffer))
    }
}

impl Parseable for ReplyAttribute {
    fn parse_payload<P: Place<Self>>(
        alloc: Global,
        buffer: &NlaBuffer<'_>,
        place: &mut P,
    ) -> Result<(), DecodeError> {
        rows!(read(alloc, buffer, place))
    }
}

impl AttributeRows for ReplyAttribute {
    #[inline(always)]
    fn visit_row<V: RowVisitor<Self>>(kind: u16, visitor: V) -> V::Output {
        rows!(visit(kind, visitor))
    }
}

impl Attribute for ReplyAttribute {
    ghost use Rattle.std.specs.Prelude.{refl};
    ghost use Rattle.link_base.proofs.TableLaws.{lawful};
    ghost use Rattle.link_base.specs.Equality.{of_cases, thorough_fields};
    ghost use Rattle.link_common.specs.contracts.reply.ReplyAttribute.{enum};

    ghost lawful = { lawful reply_table };

    ghost well_formed = { refl };

    ghost thorough = { of_cases enum _ _ (Prim.search (thorough_fields)) };
}
