//! Payloads of one fixed size: each class by the functions that load and store a value.

ghost use Rattle.std.specs.Prelude.{◌≡◌, ℕ, List, [], None, Some, true, length};
ghost use Rattle.link_base.specs.declared.rows.form.Form.{Form};
ghost use Rattle.link_base.specs.Class.{Value, IsInRange, extent, length_cause, meant, size_of, written};
ghost use Rattle.link_base.specs.Payloads.{class_by, is_fixed};
ghost use Rattle.link_base.specs.Table.{One, Single};
ghost use Rattle.link_base.specs.Labels.{names_in};

use crate::classes::payload_class::PayloadClass;
use crate::lists::canonical::is_fixed;
use crate::rows::fields::Field;
use crate::rows::form::Form;
use crate::rows::label::{KindLabel, Name};
use crate::wire::buffer::NlaBuffer;
use crate::wire::fault::{DecodeError, DecodeFault};
use std::alloc::{AllocError, Global};

/// A class of payloads that are written with one fixed size. The lengths that it accepts are those of its form.
pub trait FixedSize {
    /// A decoded payload.
    type Value: Copy + Eq + Drop;

    /// The form of the content.
    const FORM: Form;

    ghost FORM: { Form };

    /// The names of numbers or of bits, each with its number.
    ghost names: { List (ℕ × List ℕ) } = { [] };

    /// The size of the form is fixed.
    ghost fixed: { is_fixed FORM ≡ true };

    /// What a value represents.
    ghost means: { Self.Value → Value };

    /// Returns the names of the numbers of an enum, or of the bits of a set of flags.
    fn names() -> &'static [Name]
        ensures { names_in result.now ≡ Self.names };

    /// Returns the value of a payload, whose length must be accepted.
    fn load(payload: &[u8]) -> Self::Value
        requires { length_cause (extent (class_by Self.FORM Self.names)) (length payload.now) ≡ None }
        ensures { Self.means result ≡ meant (class_by Self.FORM Self.names) payload.now };

    /// Returns the length of the written payload in bytes.
    fn len(value: &Self::Value) -> usize
        ensures written { result ≡ length (written (Self.means value.now)) }
        ensures size { result ≡ size_of (extent (class_by Self.FORM Self.names)) };

    /// Writes the payload. `buffer` must be exactly `len(value)` bytes long.
    fn store(value: &Self::Value, buffer: &mut [u8])
        requires { length buffer.old ≡ length (written (Self.means value.now)) }
        ensures written { buffer.new ≡ written (Self.means value.now) }
        ensures in_range { IsInRange (class_by Self.FORM Self.names) (Self.means value.now) };
}

impl<F: FixedSize> PayloadClass for F {
    type Value = F::Value;

    const FORM: Form = <F as FixedSize>::FORM;

    ghost FORM = { F.FORM };

    ghost shape = { One (class_by F.FORM F.names) };

    ghost names = { F.names };

    ghost content = { λ value. Single (F.means value) };

    #[inline(always)]
    fn element_label(_kind: u16) -> Option<KindLabel> {
        None
    }

    #[inline]
    fn names() -> &'static [Name] {
        <F as FixedSize>::names()
    }

    #[inline]
    fn fields() -> &'static [Field] {
        &[]
    }

    #[inline]
    fn read(_alloc: Global, _kind: u16, payload: &[u8]) -> Result<F::Value, DecodeError> {
        match <F as FixedSize>::FORM.lengths().cause(payload.len()) {
            None => Ok(F::load(payload)),
            Some(cause) => Err(DecodeError::Fault(DecodeFault::Payload(cause))),
        }
    }

    #[inline]
    fn check(kind: u16, payload: &[u8]) -> Result<(), DecodeFault> {
        <F as FixedSize>::FORM.lengths().check(kind, payload)
    }

    #[inline]
    fn size(value: &F::Value) -> usize {
        F::len(value)
    }

    #[inline]
    fn emit(value: &F::Value, buffer: &mut [u8]) {
        F::store(value, buffer);
    }

    #[inline]
    fn is_canonical(buffer: &NlaBuffer<'_>) -> bool {
        is_fixed(buffer, <F as FixedSize>::FORM)
    }

    #[inline]
    fn try_clone(_alloc: Global, value: &F::Value) -> Result<F::Value, AllocError> {
        Ok(*value)
    }
}
