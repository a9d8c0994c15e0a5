//! The program that is attached to a link for received packets.

ghost use Rattle.std.specs.Prelude.{refl, false};
ghost use Rattle.link_base.specs.Lift.{lift, lift_table};
ghost use Rattle.link_common.specs.LinkXdp.{link_xdp_rows, link_xdp_leaf};

use crate::link_names::{XdpAttached, XdpFlags};
use link_base::classes::coded::CodedFlags;
use link_base::rows::by_rows::{AttributeRows, RowVisitor};
use link_base::{
    Attribute, Coded, DecodeError, DefaultNla, Meaning, NestedAttribute, Nla, NlaBuffer, Parseable,
    Place, TryClone,
};
use std::alloc::{AllocError, Global};

/// An element of `IFLA_XDP`: the program that is attached to a link for received packets (`IFLA_XDP_*`,
/// `include/uapi/linux/if_link.h`).
///
/// Of the elements, those marked read-only are reported by the kernel and cannot be set; those marked write-only can
/// be set and are not reported.
#[derive(Debug, PartialEq, Eq, Drop)]
pub enum LinkXdp {
    /// File descriptor of the program; -1 removes it (`IFLA_XDP_FD`, `i32`, write-only).
    Fd(i32),
    /// Where a program is attached (`IFLA_XDP_ATTACHED`, `XDP_ATTACHED_*`, `u8`, read-only).
    Attached(u8),
    /// How the program is attached (`IFLA_XDP_FLAGS`, `XDP_FLAGS_*`, `u32`, write-only).
    Flags(u32),
    /// Number of the program, if there is one (`IFLA_XDP_PROG_ID`, `u32`, read-only).
    ProgId(u32),
    /// Number of the program that the driver runs (`IFLA_XDP_DRV_PROG_ID`, `u32`, read-only).
    DrvProgId(u32),
    /// Number of the program that the network stack runs (`IFLA_XDP_SKB_PROG_ID`, `u32`, read-only).
    SkbProgId(u32),
    /// Number of the program that the device runs (`IFLA_XDP_HW_PROG_ID`, `u32`, read-only).
    HwProgId(u32),
    /// File descriptor of the program that is replaced (`IFLA_XDP_EXPECTED_FD`, `i32`, write-only).
    ExpectedFd(i32),
    /// An element of any other type.
    Other(DefaultNla),
}

/// The attribute types (`IFLA_XDP_*`), the variant of each, and the class of its payload.
macro_rules! rows {
    ($call:ident($($argument:tt)*)) => {
        link_base::by_rows! { $call($($argument)*)
            "IFLA_XDP_";
            IFLA_XDP_FD = 1, Fd: i32;
            IFLA_XDP_ATTACHED = 2, Attached: Coded<XdpAttached>;
            IFLA_XDP_FLAGS = 3, Flags: CodedFlags<XdpFlags>;
            IFLA_XDP_PROG_ID = 4, ProgId: u32;
            IFLA_XDP_DRV_PROG_ID = 5, DrvProgId: u32;
            IFLA_XDP_SKB_PROG_ID = 6, SkbProgId: u32;
            IFLA_XDP_HW_PROG_ID = 7, HwProgId: u32;
            IFLA_XDP_EXPECTED_FD = 8, ExpectedFd: i32;
        }
    };
}

impl TryClone for LinkXdp {
    fn try_clone(&self, alloc: Global) -> Result<Self, AllocError> {
        rows!(clone(self, alloc))
    }
}

impl Meaning for LinkXdp {
    ghost table = { lift_table link_xdp_rows };

    ghost means = { λ info. lift (link_xdp_leaf info) };
}

impl Nla for LinkXdp {
    fn kind(&self) -> u16 {
        rows!(kind(self))
    }

    fn value_len(&self) -> usize {
        rows!(size(self))
    }

    fn emit_value(&self, buffer: &mut [u8]) {
        rows!(emit(self, buffer))
    }
}

impl Parseable for LinkXdp {
    fn parse_payload<P: Place<Self>>(
        alloc: Global,
        buffer: &NlaBuffer<'_>,
        place: &mut P,
    ) -> Result<(), DecodeError> {
        rows!(read(alloc, buffer, place))
    }
}

impl AttributeRows for LinkXdp {
    #[inline(always)]
    fn visit_row<V: RowVisitor<Self>>(kind: u16, visitor: V) -> V::Output {
        rows!(visit(kind, visitor))
    }
}

impl Attribute for LinkXdp {
    ghost use Rattle.link_base.proofs.TableLaws.{lawful};
    ghost use Rattle.link_base.specs.Equality.{of_cases, thorough_fields};
    ghost use Rattle.link_common.specs.contracts.link_xdp.LinkXdp.{enum};

    ghost lawful = { lawful (lift_table link_xdp_rows) };

    ghost well_formed = { refl };

    ghost thorough = { of_cases enum _ _ (Prim.search (thorough_fields)) };
}

impl NestedAttribute for LinkXdp {
    ghost rows = { link_xdp_rows };

    const FLAGGED: bool = false;

    ghost FLAGGED = { false };

    ghost leaf = { link_xdp_leaf };

    ghost same_table = { refl };

    ghost same_means = { λ _. refl };
}
