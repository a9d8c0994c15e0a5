//! The header of VXLAN packets, as a set of bits.

ghost use Rattle.std.specs.Prelude.{[], refl};
ghost use Rattle.link_base.specs.Structs.{classes_in};
ghost use Rattle.link_base.specs.declared.classes.lengths.Lengths.TheVariants as lengths;
ghost use Rattle.link_base.specs.declared.rows.form.Layout.TheVariants as layouts;
ghost use Rattle.link_tunnels.specs.VxlanHeader.{vxlan_header_fields, vxlan_header_held};

use link_base::rows::fields::Field;
use link_base::rows::form::Layout;
use link_base::rows::label::Name;
use link_base::{Be, Lengths, PayloadStruct, by_fields};

/// Bits of a VXLAN header (`struct vxlanhdr`, `include/net/vxlan.h`): two big-endian `u32`s.
#[derive(Clone, Copy, Debug, PartialEq, Eq)]
pub struct VxlanHeader {
    /// Bits of the first word, which has the flags.
    pub vx_flags: u32,
    /// Bits of the second word: the VNI in the upper 24, and 8 others.
    pub vx_vni: u32,
}

type HeaderFields = (Be<u32>, (Be<u32>, ()));

impl PayloadStruct for VxlanHeader {
    const LAYOUT: Layout = Layout::Other(Lengths::Exactly(8));

    ghost LAYOUT = { layouts.Other (lengths.Exactly 8) };

    ghost fields = { vxlan_header_fields };

    ghost classes = { classes_in [] vxlan_header_fields };

    ghost held = { vxlan_header_held };

    ghost whole = { refl };

    ghost placed = { refl };

    #[inline]
    fn names() -> &'static [Name] {
        &[]
    }

    #[inline]
    fn fields() -> &'static [Field] {
        link_base::fields! {
            "vx_flags" = 0, u32_be as Mask;
            "vx_vni" = 4, u32_be as Mask;
        }
    }

    #[inline(always)]
    fn load(bytes: &[u8]) -> Self {
        by_fields!(load(bytes, VxlanHeader, HeaderFields) vx_flags vx_vni)
    }

    #[inline(always)]
    fn sized(&self) {
        by_fields!(sized(self, HeaderFields) vx_flags vx_vni)
    }

    #[inline(always)]
    fn store(&self, buffer: &mut [u8]) {
        by_fields!(store(self, buffer, HeaderFields) vx_flags vx_vni)
    }
}
