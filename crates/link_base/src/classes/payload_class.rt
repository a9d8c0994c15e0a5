//! Classes of payloads: how the value of an attribute type is read, measured, written, checked and copied.
//!
//! The rows of an attribute set name a class for each attribute type. Most classes are the type of their values:
//! `u32` is the class of payloads that are one little-endian `u32`.

ghost use Rattle.std.specs.Prelude.{◌≡◌, ◌≤◌, ◌↔◌, ℕ, List, [], IsTrue, IfOk, OnErr, Some, length};
ghost use Rattle.link_base.specs.declared.rows.form.Form.{Form};
ghost use Rattle.link_base.specs.Frame.{max_payload};
ghost use Rattle.link_base.specs.Table.{Shape, Content, Case, ShapeGives, ShapeTakesMemory, label_at};
ghost use Rattle.link_base.specs.Table.{content_payload};
ghost use Rattle.link_base.specs.Held.{ContentInRange};
ghost use Rattle.link_base.specs.Buffer.{IsCanonicalAs};
ghost use Rattle.link_base.specs.Answers.{Answers, OnMemory, capped, under_kind};
ghost use Rattle.link_base.specs.Checked.{Checks};
ghost use Rattle.link_base.specs.Borrowed.{elements_by};
ghost use Rattle.link_base.specs.Fields.{FieldRow};
ghost use Rattle.link_base.specs.Labels.{names_in, field_rows, label_in};

use crate::rows::fields::Field;
use crate::rows::form::Form;
use crate::rows::label::{KindLabel, Name};
use crate::wire::buffer::NlaBuffer;
use crate::wire::fault::{DecodeError, DecodeFault};
use std::alloc::{AllocError, Global};

/// What the payloads of an attribute type are: a class of the tables, with the type of its values.
pub trait PayloadClass {
    /// A decoded payload.
    type Value: PartialEq + Drop;

    /// The form of the content.
    const FORM: Form;

    ghost FORM: { Form };

    /// The shape in the table.
    ghost shape: { Shape };

    /// The names of numbers or of bits, each with its number.
    ghost names: { List (ℕ × List ℕ) } = { [] };

    /// The fields of a struct.
    ghost fields: { List FieldRow } = { [] };

    /// The content that a value represents.
    ghost content: { Self.Value → Content };

    /// Returns what is known of an attribute type in the nested lists of this class; `None` if no row has the type, or if
    /// the class has no nested lists.
    fn element_label(kind: u16) -> Option<KindLabel>
        ensures { label_in result ≡ label_at (elements_by (Some Self.shape)) kind };

    /// Returns the names of the numbers of an enum, or of the bits of a set of flags.
    fn names() -> &'static [Name]
        ensures { names_in result.now ≡ Self.names };

    /// Returns the fields of a struct that are shown.
    fn fields() -> &'static [Field]
        ensures { field_rows result.now ≡ Self.fields };

    /// Parses the payload of an attribute of type `kind`.
    ///
    /// # Errors
    ///
    /// Those of the class; the error for a malformed payload may lack the attribute type (`Payload`). `Memory` if an
    /// allocation fails, which is possible only if values of the class may be heap-allocated.
    fn read(alloc: Global, kind: u16, payload: &[u8]) -> Result<Self::Value, DecodeError>
        ensures answer { Answers (λ value. Case kind (Self.content value)) (under_kind kind result)
            (ShapeGives Self.shape kind payload.now) }
        ensures memory { OnMemory result (ShapeTakesMemory Self.shape) };

    /// Checks whether the payload of an attribute of type `kind` decodes. Builds no value and does not allocate.
    ///
    /// # Errors
    ///
    /// Those of `read` except `Memory`, with the attribute type: `Value` in place of `Payload`.
    fn check(kind: u16, payload: &[u8]) -> Result<(), DecodeFault>
        ensures { Checks (ShapeGives Self.shape kind payload.now) result };

    /// Returns the length of the written payload in bytes; saturates at `usize::MAX`.
    fn size(value: &Self::Value) -> usize
        ensures { result ≡ capped (length (content_payload (Self.content value.now))) };

    /// Writes the payload. `buffer` must be exactly `size(value)` bytes long, which must be at most 65531.
    fn emit(value: &Self::Value, buffer: &mut [u8])
        requires fits { length (content_payload (Self.content value.now)) ≤ max_payload }
        requires exact { length buffer.old ≡ length (content_payload (Self.content value.now)) }
        ensures written { buffer.new ≡ content_payload (Self.content value.now) }
        ensures in_range { ContentInRange Self.shape (Self.content value.now) };

    /// Checks whether an attribute is canonical.
    fn is_canonical(buffer: &NlaBuffer<'_>) -> bool
        ensures { IsTrue result ↔ IsCanonicalAs Self.shape buffer.now };

    /// Returns an equal value.
    ///
    /// # Errors
    ///
    /// `AllocError` if an allocation fails, which is possible only if values of the class may be heap-allocated.
    fn try_clone(alloc: Global, value: &Self::Value) -> Result<Self::Value, AllocError>
        ensures copy { IfOk result (λ copy. Self.content copy ≡ Self.content value.now) }
        ensures equal { IfOk result (λ copy. IsTrue (Self.Value.PartialEq.eq copy value.now)) }
        ensures memory { OnErr result (ShapeTakesMemory Self.shape) };
}
