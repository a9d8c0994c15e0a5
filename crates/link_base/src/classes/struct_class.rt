//! Fixed-layout structs as payloads.

ghost use Rattle.std.specs.Prelude.{◌≡◌, ◌≤◌, ℕ, List, [], None, true, length};
ghost use Rattle.link_base.specs.Number.{IsBytes};
ghost use Rattle.link_base.specs.Class.{Class, Octets, Raw, Value, length_cause, meant, size_of};
ghost use Rattle.link_base.specs.Table.{One, Single};
ghost use Rattle.link_base.specs.Forms.{layout_extent};
ghost use Rattle.link_base.specs.Fields.{FieldRow};
ghost use Rattle.link_base.specs.Structs.{ArePlaced, is_whole, packed, total, values_along};
ghost use Rattle.link_base.specs.Labels.{names_in, field_rows};
ghost use Rattle.link_base.specs.declared.rows.form.Layout.{Layout};
ghost use Rattle.link_base.specs.declared.rows.form.Form.TheVariants as forms;

use crate::classes::payload_class::PayloadClass;
use crate::lists::canonical::is_fixed;
use crate::rows::fields::Field;
use crate::rows::form::{Form, Layout};
use crate::rows::label::{KindLabel, Name};
use crate::wire::buffer::NlaBuffer;
use crate::wire::fault::{DecodeError, DecodeFault};
use std::alloc::{AllocError, Global};
use std::marker::PhantomData;

/// A fixed-layout struct that is the payload of an attribute. `by_fields!` makes the bodies of `load`, `sized` and `store`.
pub trait PayloadStruct: Copy + Eq + Drop {
    /// The lengths of payloads that are accepted, and which struct it is, if it has a form of its own in C.
    const LAYOUT: Layout;

    ghost LAYOUT: { Layout };

    /// The names of the bits of its flags, each with its number.
    ghost bit_names: { List (ℕ × List ℕ) } = { [] };

    /// The fields that are shown, in this order.
    ghost fields: { List FieldRow };

    /// The classes of all fields, in the order in which they lie, with the padding.
    ghost classes: { List Class };

    /// What each of these fields represents.
    ghost held: { Self → List Value };

    /// The fields fill the struct, and each is written as it was read.
    ghost whole: { is_whole classes (size_of (layout_extent LAYOUT)) ≡ true };

    /// The fields that are shown are fields of the struct.
    ghost placed: { ArePlaced bit_names fields classes };

    /// Returns the names of the bits of its flags.
    fn names() -> &'static [Name]
        ensures { names_in result.now ≡ bit_names };

    /// Returns the fields that are shown.
    fn fields() -> &'static [Field]
        ensures { field_rows result.now ≡ Self.fields };

    /// Returns the struct at the front of `bytes`.
    fn load(bytes: &[u8]) -> Self
        requires { total classes ≤ length bytes.now }
        ensures { held result ≡ values_along classes bytes.now };

    /// States that the written fields have as many bytes as their classes say. Nothing is done.
    fn sized(&self)
        ensures { length (packed (held self.now)) ≡ total classes };

    /// Writes the struct. `buffer` must be exactly as long as it is.
    fn store(&self, buffer: &mut [u8])
        requires { length buffer.old ≡ total classes }
        ensures written { buffer.new ≡ packed (held self.now) }
        ensures in_range { IsBytes (packed (held self.now)) };
}

/// The class of payloads that are a fixed-layout struct.
pub struct Struct<S> {
    of: PhantomData<S>,
}

/// Returns the value of a payload, whose length must be accepted.
#[inline(always)]
pub(crate) fn load_struct<S: PayloadStruct>(payload: &[u8]) -> S
    requires { length_cause (layout_extent S.LAYOUT) (length payload.now) ≡ None }
    ensures held { S.held result ≡ values_along S.classes payload.now }
    ensures bytes { Raw (packed (S.held result)) ≡ meant (Octets (layout_extent S.LAYOUT)) payload.now }
{
    S::load(payload)
}

impl<S: PayloadStruct> PayloadClass for Struct<S> {
    type Value = S;

    const FORM: Form = Form::Struct(S::LAYOUT);

    ghost FORM = { forms.Struct S.LAYOUT };

    ghost shape = { One (Octets (layout_extent S.LAYOUT)) };

    ghost names = { S.bit_names };

    ghost fields = { S.fields };

    ghost content = { λ value. Single (Raw (packed (S.held value))) };

    #[inline(always)]
    fn element_label(_kind: u16) -> Option<KindLabel> {
        None
    }

    #[inline]
    fn names() -> &'static [Name] {
        S::names()
    }

    #[inline]
    fn fields() -> &'static [Field] {
        S::fields()
    }

    #[inline]
    fn read(_alloc: Global, _kind: u16, payload: &[u8]) -> Result<S, DecodeError> {
        match S::LAYOUT.lengths().cause(payload.len()) {
            None => Ok(load_struct::<S>(payload)),
            Some(cause) => Err(DecodeError::Fault(DecodeFault::Payload(cause))),
        }
    }

    #[inline]
    fn check(kind: u16, payload: &[u8]) -> Result<(), DecodeFault> {
        S::LAYOUT.lengths().check(kind, payload)
    }

    #[inline]
    fn size(value: &S) -> usize {
        value.sized();
        S::LAYOUT.lengths().kept()
    }

    #[inline]
    fn emit(value: &S, buffer: &mut [u8]) {
        value.sized();
        value.store(buffer);
    }

    #[inline]
    fn is_canonical(buffer: &NlaBuffer<'_>) -> bool {
        is_fixed(buffer, Form::Struct(S::LAYOUT))
    }

    #[inline]
    fn try_clone(_alloc: Global, value: &S) -> Result<S, AllocError> {
        Ok(*value)
    }
}
