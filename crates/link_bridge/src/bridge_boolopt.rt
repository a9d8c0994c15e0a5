//! Boolean options of a bridge.

ghost use Rattle.std.specs.Prelude.{refl, ◌≡◌, take, IfOk};
ghost use Rattle.link_base.specs.declared.rows.form.Layout.TheVariants as layouts;
ghost use Rattle.link_base.specs.Class.{accepted, Fixed};
ghost use Rattle.link_base.specs.Answers.{payload_result};
ghost use Rattle.link_base.specs.Structs.{classes_in};
ghost use Rattle.link_bridge.specs.BooleanOptions.{option_bit_names, options_of, options_octets, options_fields, options_held};

mod flags;

use bitflags::Flags;
pub use flags::BridgeBooleanOptionFlags;
use link_base::names::flag_laws::FlagSet;
use link_base::rows::fields::Field;
use link_base::rows::form::Layout;
use link_base::rows::label::Name;
use link_base::{
    DecodeError, Emitable, FlagBits, PayloadStruct, by_fields, check_length, emit_numbers, u32s_at,
};

/// Length of the options as a payload, in bytes.
const SIZE: usize = 8;

/// A set of boolean options of a bridge (`struct br_boolopt_multi`, `include/uapi/linux/if_bridge.h`): two `u32`s. A
/// payload of any other length is rejected.
#[derive(Clone, Copy, Debug, PartialEq, Eq)]
pub struct BridgeBooleanOptions {
    /// The options that are on (`optval`).
    pub value: BridgeBooleanOptionFlags,
    /// In a request, the options to change; in a report, the options that the kernel knows (`optmask`).
    pub mask: BridgeBooleanOptionFlags,
}

impl BridgeBooleanOptions {
    /// Parses a payload of 8 bytes.
    ///
    /// # Errors
    ///
    /// `Payload(TooShort)` if the payload is shorter, `Payload(WrongLength)` if it is longer.
    pub fn parse(payload: &[u8]) -> Result<Self, DecodeError>
        ensures value { result ≡ payload_result (accepted (Fixed 8) options_of payload.now) }
        ensures octets { IfOk result (λ options. options_octets options ≡ take 8 payload.now) }
    {
        check_length(payload, SIZE)?;
        let [value, mask] = u32s_at::<2>(payload, 0);
        Ok(BridgeBooleanOptions {
            value: BridgeBooleanOptionFlags::from_bits_retain(value),
            mask: BridgeBooleanOptionFlags::from_bits_retain(mask),
        })
    }
}

impl Emitable for BridgeBooleanOptions {
    ghost octets = { options_octets };

    ghost size = { 8 };

    fn buffer_len(&self) -> usize {
        SIZE
    }

    fn emit(&self, buffer: &mut [u8]) {
        emit_numbers(buffer, &[self.value.bits(), self.mask.bits()]);
    }
}

type OptionsFields = (
    FlagBits<BridgeBooleanOptionFlags>,
    (FlagBits<BridgeBooleanOptionFlags>, ()),
);

impl PayloadStruct for BridgeBooleanOptions {
    const LAYOUT: Layout = Layout::BooleanOptions;

    ghost LAYOUT = { layouts.BooleanOptions };

    ghost bit_names = { option_bit_names };

    ghost fields = { options_fields };

    ghost classes = { classes_in option_bit_names options_fields };

    ghost held = { options_held };

    ghost whole = { refl };

    ghost placed = { refl };

    #[inline]
    fn names() -> &'static [Name] {
        BridgeBooleanOptionFlags::names()
    }

    #[inline]
    fn fields() -> &'static [Field] {
        link_base::fields! {
            "value" = 0, u32_flags;
            "mask" = 4, u32_flags;
        }
    }

    #[inline(always)]
    fn load(bytes: &[u8]) -> Self {
        by_fields!(load(bytes, BridgeBooleanOptions, OptionsFields) value mask)
    }

    #[inline(always)]
    fn sized(&self) {
        by_fields!(sized(self, OptionsFields) value mask)
    }

    #[inline(always)]
    fn store(&self, buffer: &mut [u8]) {
        by_fields!(store(self, buffer, OptionsFields) value mask)
    }
}
