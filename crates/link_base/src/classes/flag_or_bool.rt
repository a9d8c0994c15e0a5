//! Flags that are set by being there, and may have a byte that says whether they are on.

ghost use Rattle.std.specs.Prelude.{◌≡◌};
ghost use Rattle.link_base.specs.Class.{Optional, flag_in, flag_value, is_on};
ghost use Rattle.link_base.specs.Table.{One, Single};
ghost use Rattle.link_base.specs.declared.rows.form.Form.TheVariants as forms;

use crate::classes::lengths::Lengths;
use crate::classes::payload_class::PayloadClass;
use crate::classes::scalars::emit_u8;
use crate::lists::canonical::is_flag_or_bool;
use crate::rows::fields::Field;
use crate::rows::form::Form;
use crate::rows::label::{KindLabel, Name};
use crate::wire::buffer::NlaBuffer;
use crate::wire::fault::{DecodeError, DecodeFault};
use std::alloc::{AllocError, Global};

/// A flag: no byte, or a boolean. The value is `None` for an empty payload: the flag is set by being there.
impl PayloadClass for Option<bool> {
    type Value = Option<bool>;

    const FORM: Form = Form::FlagOrBool;

    ghost FORM = { forms.FlagOrBool };

    ghost shape = { One Optional };

    ghost content = { λ flag. Single (flag_value flag) };

    #[inline(always)]
    fn element_label(_kind: u16) -> Option<KindLabel> {
        None
    }

    #[inline]
    fn names() -> &'static [Name] {
        &[]
    }

    #[inline]
    fn fields() -> &'static [Field] {
        &[]
    }

    #[inline]
    fn read(_alloc: Global, _kind: u16, payload: &[u8]) -> Result<Option<bool>, DecodeError> {
        match Lengths::AtMost(1).cause(payload.len()) {
            None => Ok(flag_in(payload)),
            Some(cause) => Err(DecodeError::Fault(DecodeFault::Payload(cause))),
        }
    }

    #[inline]
    fn check(kind: u16, payload: &[u8]) -> Result<(), DecodeFault> {
        Lengths::AtMost(1).check(kind, payload)
    }

    #[inline]
    fn size(flag: &Option<bool>) -> usize {
        match *flag {
            None => 0,
            Some(_) => 1,
        }
    }

    #[inline]
    #[tactic(auto, using(crate::proofs::Values::flag_in_range))]
    fn emit(flag: &Option<bool>, buffer: &mut [u8]) {
        match *flag {
            None => {}
            Some(on) => emit_u8(buffer, u8::from(on)),
        }
    }

    #[inline]
    fn is_canonical(buffer: &NlaBuffer<'_>) -> bool {
        is_flag_or_bool(buffer)
    }

    #[inline]
    #[tactic(auto, using(crate::proofs::EqualityLemmas::optional_same))]
    fn try_clone(_alloc: Global, flag: &Option<bool>) -> Result<Option<bool>, AllocError> {
        Ok(*flag)
    }
}

/// Returns the flag that a payload is. A second byte would be ignored; no payload has one.
#[inline(always)]
#[tactic(auto, using(crate::proofs::ClassLemmas::no_flag_byte, crate::proofs::ClassLemmas::flag_byte))]
pub(crate) fn flag_in(payload: &[u8]) -> Option<bool>
    ensures { result ≡ flag_in payload.now }
{
    if payload.is_empty() {
        None
    } else {
        Some(payload[0] != 0)
    }
}

/// Returns whether a flag is on: it is, if it is there without a byte.
#[inline]
pub fn flag_is_on(flag: Option<bool>) -> bool
    ensures { result ≡ is_on flag }
{
    match flag {
        None => true,
        Some(on) => on,
    }
}
