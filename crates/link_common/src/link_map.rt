//! The resources of a link's hardware.

ghost use Rattle.std.specs.Prelude.{[], ◌∷◌, refl};
ghost use Rattle.link_base.specs.Class.{Unsigned};
ghost use Rattle.link_base.specs.declared.classes.lengths.Lengths.TheVariants as lengths;
ghost use Rattle.link_base.specs.declared.rows.form.Layout.TheVariants as layouts;
ghost use Rattle.link_common.specs.LinkMap.{link_map_fields, link_map_held};

use link_base::rows::fields::Field;
use link_base::rows::form::Layout;
use link_base::rows::label::Name;
use link_base::{Lengths, PayloadStruct, by_fields};

/// Resources of a link's hardware (`struct rtnl_link_ifmap`, `include/uapi/linux/if_link.h`), 32 bytes where numbers of
/// 64 bits are aligned. Payloads may be longer; the additional bytes are ignored.
#[derive(Clone, Copy, Debug, PartialEq, Eq)]
pub struct LinkMap {
    /// Address at which the memory of the device starts.
    pub mem_start: u64,
    /// Address at which it ends.
    pub mem_end: u64,
    /// Address of the I/O ports.
    pub base_addr: u64,
    /// Number of the interrupt.
    pub irq: u16,
    /// Number of the DMA channel.
    pub dma: u8,
    /// Which port of the device is used.
    pub port: u8,
    /// Padding, which is 0.
    pub padding: u32,
}

type MapFields = (u64, (u64, (u64, (u16, (u8, (u8, (u32, ())))))));

impl PayloadStruct for LinkMap {
    const LAYOUT: Layout = Layout::Other(Lengths::AtLeast(32));

    ghost LAYOUT = { layouts.Other (lengths.AtLeast 32) };

    ghost fields = { link_map_fields };

    ghost classes = { Unsigned 8 ∷ Unsigned 8 ∷ Unsigned 8 ∷ Unsigned 2 ∷ Unsigned 1 ∷ Unsigned 1 ∷ Unsigned 4 ∷ [] };

    ghost held = { link_map_held };

    ghost whole = { refl };

    ghost placed = { refl };

    #[inline]
    fn names() -> &'static [Name] {
        &[]
    }

    #[inline]
    fn fields() -> &'static [Field] {
        link_base::fields! {
            "mem_start" = 0, u64 as Mask;
            "mem_end" = 8, u64 as Mask;
            "base_addr" = 16, u64 as Mask;
            "irq" = 24, u16;
            "dma" = 26, u8;
            "port" = 27, u8;
        }
    }

    #[inline(always)]
    fn load(bytes: &[u8]) -> Self {
        by_fields!(load(bytes, LinkMap, MapFields) mem_start mem_end base_addr irq dma port padding)
    }

    #[inline(always)]
    fn sized(&self) {
        by_fields!(sized(self, MapFields) mem_start mem_end base_addr irq dma port padding)
    }

    #[inline(always)]
    fn store(&self, buffer: &mut [u8]) {
        by_fields!(store(self, buffer, MapFields) mem_start mem_end base_addr irq dma port padding)
    }
}
