//! The range of UDP source ports of a GENEVE device.

ghost use Rattle.std.specs.Prelude.{[], refl};
ghost use Rattle.link_base.specs.Structs.{classes_in};
ghost use Rattle.link_base.specs.declared.classes.lengths.Lengths.TheVariants as lengths;
ghost use Rattle.link_base.specs.declared.rows.form.Layout.TheVariants as layouts;
ghost use Rattle.link_tunnels.specs.GenevePortRange.{geneve_port_range_fields, geneve_port_range_held};

use link_base::rows::fields::Field;
use link_base::rows::form::Layout;
use link_base::rows::label::Name;
use link_base::{Be, Lengths, PayloadStruct, by_fields};

/// A range of UDP ports (`struct ifla_geneve_port_range`, `include/uapi/linux/if_link.h`): two big-endian `u16`s.
/// Payloads of any other length are an error, as in the kernel.
#[derive(Clone, Copy, Debug, PartialEq, Eq)]
pub struct GenevePortRange {
    /// First port of the range. If both ports are 0, the kernel chooses the range.
    pub low: u16,
    /// Last port of the range.
    pub high: u16,
}

type PortRangeFields = (Be<u16>, (Be<u16>, ()));

impl PayloadStruct for GenevePortRange {
    const LAYOUT: Layout = Layout::Other(Lengths::Exactly(4));

    ghost LAYOUT = { layouts.Other (lengths.Exactly 4) };

    ghost fields = { geneve_port_range_fields };

    ghost classes = { classes_in [] geneve_port_range_fields };

    ghost held = { geneve_port_range_held };

    ghost whole = { refl };

    ghost placed = { refl };

    #[inline]
    fn names() -> &'static [Name] {
        &[]
    }

    #[inline]
    fn fields() -> &'static [Field] {
        link_base::fields! {
            "low" = 0, u16_be;
            "high" = 2, u16_be;
        }
    }

    #[inline(always)]
    fn load(bytes: &[u8]) -> Self {
        by_fields!(load(bytes, GenevePortRange, PortRangeFields) low high)
    }

    #[inline(always)]
    fn sized(&self) {
        by_fields!(sized(self, PortRangeFields) low high)
    }

    #[inline(always)]
    fn store(&self, buffer: &mut [u8]) {
        by_fields!(store(self, buffer, PortRangeFields) low high)
    }
}
