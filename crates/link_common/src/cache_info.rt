//! Times of neighbour discovery on a link.

ghost use Rattle.std.specs.Prelude.{[], refl};
ghost use Rattle.link_base.specs.Structs.{classes_in};
ghost use Rattle.link_base.specs.declared.classes.lengths.Lengths.TheVariants as lengths;
ghost use Rattle.link_base.specs.declared.rows.form.Layout.TheVariants as layouts;
ghost use Rattle.link_common.specs.CacheInfo.{cache_info_fields, cache_info_held};

use link_base::rows::fields::Field;
use link_base::rows::form::Layout;
use link_base::rows::label::Name;
use link_base::{Lengths, PayloadStruct, by_fields};

/// Times of neighbour discovery (`struct ifla_cacheinfo`, `include/uapi/linux/if_link.h`): four `u32`s. Payloads may be
/// longer; the additional bytes are ignored.
#[derive(Clone, Copy, Debug, PartialEq, Eq)]
pub struct CacheInfo {
    /// Maximum size of a packet that is put together from fragments, in bytes.
    pub max_reasm_len: u32,
    /// When the attributes of the link for IPv6 last changed, in clock ticks of 1/100 s.
    pub tstamp: u32,
    /// How long a neighbour is taken for reachable, in milliseconds.
    pub reachable_time: u32,
    /// Interval between neighbour solicitations, in milliseconds.
    pub retrans_time: u32,
}

type InfoFields = (u32, (u32, (u32, (u32, ()))));

impl PayloadStruct for CacheInfo {
    const LAYOUT: Layout = Layout::Other(Lengths::AtLeast(16));

    ghost LAYOUT = { layouts.Other (lengths.AtLeast 16) };

    ghost fields = { cache_info_fields };

    ghost classes = { classes_in [] cache_info_fields };

    ghost held = { cache_info_held };

    ghost whole = { refl };

    ghost placed = { refl };

    #[inline]
    fn names() -> &'static [Name] {
        &[]
    }

    #[inline]
    fn fields() -> &'static [Field] {
        link_base::fields! {
            "max_reasm_len" = 0, u32;
            "tstamp" = 4, u32 as ClockTicks;
            "reachable_time" = 8, u32 as Milliseconds;
            "retrans_time" = 12, u32 as Milliseconds;
        }
    }

    #[inline(always)]
    fn load(bytes: &[u8]) -> Self {
        by_fields!(load(bytes, CacheInfo, InfoFields) max_reasm_len tstamp reachable_time retrans_time)
    }

    #[inline(always)]
    fn sized(&self) {
        by_fields!(sized(self, InfoFields) max_reasm_len tstamp reachable_time retrans_time)
    }

    #[inline(always)]
    fn store(&self, buffer: &mut [u8]) {
        by_fields!(store(self, buffer, InfoFields) max_reasm_len tstamp reachable_time retrans_time)
    }
}
