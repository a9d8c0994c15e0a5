//! The bit timing limits of a CAN controller, with the controller's name.

ghost use Rattle.std.specs.Prelude.{◌≡◌, ◌≤◌, [], length, take, drop, IfOk, IsTrue, string_bytes};
ghost use Rattle.link_base.specs.Name.{name_of, name_field};
ghost use Rattle.link_base.specs.Class.{Limits, IsInRange, written};
ghost use Rattle.link_base.specs.declared.rows.form.Form.TheVariants as forms;
ghost use Rattle.link_base.specs.Table.{One, Single};
ghost use Rattle.link_base.specs.Answers.{OnMemory, OverwritesFront};
ghost use Rattle.link_vlan_can.specs.CanLimits.{limits_view, limits_with, limits_octets, limits_value, LimitsAnswer};

use bstr::ByteSlice;
use link_base::rows::fields::Field;
use link_base::rows::form::Form;
use link_base::rows::label::{KindLabel, Name};
use link_base::{
    DecodeError, DecodeFault, DefaultNla, Lengths, NlaBuffer, PayloadClass, before_nul,
    check_at_least, emit_numbers, is_limits, u32s_at,
};
use std::alloc::{AllocError, Global};

/// Length of a name field, in bytes.
pub(crate) const NAME: usize = 16;

/// The bit timing limits of a CAN controller (`struct can_bittiming_const`, `include/uapi/linux/can/netlink.h`): a name
/// field of 16 bytes, then eight `u32`s. Payloads may be longer; the additional bytes are ignored.
#[derive(Debug, PartialEq, Eq, Drop)]
pub struct CanBitTimingConst {
    /// Name of the controller. The bytes before the first NUL, or all 16 if there is none, are decoded as UTF-8 with
    /// U+FFFD in place of each maximal invalid part. Writing truncates the name to 15 bytes and fills the field with
    /// zeros.
    pub name: String,
    /// Minimum sum of the propagation segment and the first phase buffer segment, in time quanta.
    pub tseg1_min: u32,
    /// Maximum sum of the propagation segment and the first phase buffer segment, in time quanta.
    pub tseg1_max: u32,
    /// Minimum second phase buffer segment, in time quanta.
    pub tseg2_min: u32,
    /// Maximum second phase buffer segment, in time quanta.
    pub tseg2_max: u32,
    /// Maximum synchronization jump width, in time quanta.
    pub sjw_max: u32,
    /// Minimum bit rate prescaler.
    pub brp_min: u32,
    /// Maximum bit rate prescaler.
    pub brp_max: u32,
    /// Increment between prescalers.
    pub brp_inc: u32,
}

impl CanBitTimingConst {
    /// Returns limits with this name and all numbers 0.
    ///
    /// # Errors
    ///
    /// `AllocError` if an allocation fails.
    pub fn new(alloc: Global, name: &str) -> Result<Self, AllocError>
        ensures { IfOk result (λ limits. limits_view limits ≡ limits_with name.now) }
    {
        Ok(Self::named(String::from_str(alloc, name)?))
    }

    /// Returns limits with an empty name and all numbers 0. Does not allocate.
    pub fn empty(alloc: Global) -> Self
        ensures { limits_view result ≡ limits_with [] }
    {
        Self::named(String::new(alloc))
    }

    fn named(name: String) -> Self
        ensures { limits_view result ≡ limits_with (string_bytes name) }
    {
        CanBitTimingConst {
            name,
            tseg1_min: 0,
            tseg1_max: 0,
            tseg2_min: 0,
            tseg2_max: 0,
            sjw_max: 0,
            brp_min: 0,
            brp_max: 0,
            brp_inc: 0,
        }
    }

    /// Returns an equal value.
    ///
    /// # Errors
    ///
    /// `AllocError` if an allocation fails.
    pub fn try_clone(&self, alloc: Global) -> Result<Self, AllocError>
        ensures copy { IfOk result (λ limits. limits_view limits ≡ limits_view self.now) }
        ensures equal { IfOk result (λ limits. IsTrue (⟦<CanBitTimingConst as PartialEq>⟧.eq limits self.now)) }
    {
        Ok(CanBitTimingConst {
            name: String::from_str(alloc, &self.name)?,
            tseg1_min: self.tseg1_min,
            tseg1_max: self.tseg1_max,
            tseg2_min: self.tseg2_min,
            tseg2_max: self.tseg2_max,
            sjw_max: self.sjw_max,
            brp_min: self.brp_min,
            brp_max: self.brp_max,
            brp_inc: self.brp_inc,
        })
    }

    pub(crate) fn parse(alloc: Global, payload: &[u8]) -> Result<Self, DecodeError>
        ensures value { LimitsAnswer payload.now result }
        ensures octets { IfOk result (λ limits. limits_octets limits ≡ take 32 (drop 16 payload.now)) }
        ensures memory { OnMemory result (48 ≤ length payload.now) }
    {
        check_at_least(payload, 48)?;
        let name = read_name(alloc, &payload[..NAME]).map_err(DecodeError::Memory)?;
        let [
            tseg1_min,
            tseg1_max,
            tseg2_min,
            tseg2_max,
            sjw_max,
            brp_min,
            brp_max,
            brp_inc,
        ] = u32s_at::<8>(payload, NAME);
        Ok(CanBitTimingConst {
            name,
            tseg1_min,
            tseg1_max,
            tseg2_min,
            tseg2_max,
            sjw_max,
            brp_min,
            brp_max,
            brp_inc,
        })
    }

    #[inline(never)]
    pub(crate) fn emit(&self, buffer: &mut [u8])
        requires { 48 ≤ length buffer.old }
        ensures written { OverwritesFront buffer.old buffer.new (written (limits_value self.now)) }
        ensures in_range { IsInRange Limits (limits_value self.now) }
    {
        emit_name(buffer, &self.name);
        emit_numbers(
            &mut buffer[NAME..],
            &[
                self.tseg1_min,
                self.tseg1_max,
                self.tseg2_min,
                self.tseg2_max,
                self.sjw_max,
                self.brp_min,
                self.brp_max,
                self.brp_inc,
            ],
        );
    }
}

impl PayloadClass for CanBitTimingConst {
    type Value = CanBitTimingConst;

    const FORM: Form = Form::Limits;

    ghost FORM = { forms.Limits };

    ghost shape = { One Limits };

    ghost content = { λ limits. Single (limits_value limits) };

    fn read(alloc: Global, _kind: u16, payload: &[u8]) -> Result<Self, DecodeError> {
        Self::parse(alloc, payload)
    }

    #[inline]
    fn check(kind: u16, payload: &[u8]) -> Result<(), DecodeFault> {
        Lengths::AtLeast(48).check(kind, payload)
    }

    #[inline(always)]
    fn element_label(_kind: u16) -> Option<KindLabel> {
        None
    }

    #[inline]
    fn names() -> &'static [Name] {
        &[]
    }

    #[inline]
    fn fields() -> &'static [Field] {
        &[]
    }

    #[inline]
    fn size(_limits: &Self) -> usize {
        48
    }

    fn emit(limits: &Self, buffer: &mut [u8]) {
        limits.emit(buffer);
    }

    #[inline]
    fn is_canonical(buffer: &NlaBuffer<'_>) -> bool {
        is_limits(buffer)
    }

    fn try_clone(alloc: Global, limits: &Self) -> Result<Self, AllocError> {
        limits.try_clone(alloc)
    }
}

/// Decodes the bytes of a field before the first NUL, or all of them if there is none.
///
/// # Errors
///
/// `AllocError` if an allocation fails.
fn read_name(alloc: Global, field: &[u8]) -> Result<String, AllocError>
    ensures { IfOk result (λ name. string_bytes name ≡ name_of field.now) }
{
    let text = before_nul(field);
    let mut name = String::new(alloc);
    text.to_str_lossy_into(&mut name)?;
    Ok(name)
}

fn emit_name(buffer: &mut [u8], name: &str)
    requires { 16 ≤ length buffer.old }
    ensures { OverwritesFront buffer.old buffer.new (name_field name.now) }
{
    let bytes = name.as_bytes();
    let end = bytes.len().min(NAME - 1);
    buffer[..end].copy_from_slice(&bytes[..end]);
    buffer[end..NAME].fill(0);
}
