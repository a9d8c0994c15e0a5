//! Bytes of any length that are shown as something else than an address.

ghost use Rattle.link_base.specs.Class.{Bytes, Raw};
ghost use Rattle.link_base.specs.Table.{One, Single};
ghost use Rattle.link_base.specs.declared.rows.form.Form.TheVariants as forms;
ghost use Rattle.link_base.specs.declared.rows.form.Look.{Look};
ghost use Rattle.link_base.specs.declared.rows.form.Look.TheVariants as looks;

use crate::classes::lengths::Lengths;
use crate::classes::payload_class::PayloadClass;
use crate::lists::canonical::is_bytes;
use crate::rows::fields::Field;
use crate::rows::form::{Form, Look};
use crate::rows::label::{KindLabel, Name};
use crate::wire::buffer::NlaBuffer;
use crate::wire::fault::{DecodeError, DecodeFault};
use std::alloc::{AllocError, Global};
use std::marker::PhantomData;

/// What bytes are shown as.
pub trait BytesLook {
    /// What they are shown as.
    const LOOK: Look;

    ghost LOOK: { Look };
}

/// Bytes that are shown as a text: `Shown<Text>` is a class. A NUL at the end is kept, and is not shown.
pub struct Text;

impl BytesLook for Text {
    const LOOK: Look = Look::Text;

    ghost LOOK = { looks.Text };
}

/// Bytes that are a list of attributes of another set, which its caller reads: `Shown<Held>` is a class.
pub struct Held;

impl BytesLook for Held {
    const LOOK: Look = Look::Held;

    ghost LOOK = { looks.Held };
}

/// The class of payloads that are bytes, shown as `L` says. Values are all bytes of the payload.
pub struct Shown<L> {
    of: PhantomData<L>,
}

impl<L: BytesLook> PayloadClass for Shown<L> {
    type Value = Vec<u8>;

    const FORM: Form = Form::Bytes(L::LOOK);

    ghost FORM = { forms.Bytes L.LOOK };

    ghost shape = { One Bytes };

    ghost content = { λ bytes. Single (Raw bytes.items) };

    #[inline(always)]
    fn element_label(_kind: u16) -> Option<KindLabel> {
        None
    }

    #[inline]
    fn names() -> &'static [Name] {
        &[]
    }

    #[inline]
    fn fields() -> &'static [Field] {
        &[]
    }

    #[inline]
    fn read(alloc: Global, _kind: u16, payload: &[u8]) -> Result<Vec<u8>, DecodeError> {
        Vec::from_slice(alloc, payload).map_err(DecodeError::Memory)
    }

    #[inline]
    fn check(kind: u16, payload: &[u8]) -> Result<(), DecodeFault> {
        Lengths::AtLeast(0).check(kind, payload)
    }

    #[inline]
    fn size(bytes: &Vec<u8>) -> usize {
        bytes.len()
    }

    #[inline]
    fn emit(bytes: &Vec<u8>, buffer: &mut [u8]) {
        buffer.copy_from_slice(bytes);
    }

    #[inline]
    fn is_canonical(buffer: &NlaBuffer<'_>) -> bool {
        is_bytes(buffer)
    }

    #[inline]
    fn try_clone(alloc: Global, bytes: &Vec<u8>) -> Result<Vec<u8>, AllocError> {
        Vec::from_slice(alloc, bytes)
    }
}
