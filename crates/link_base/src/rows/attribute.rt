//! The traits of an attribute set, and the properties that its attributes are guaranteed to have.

ghost use Rattle.std.specs.Prelude.{◌≡◌, ◌≤◌, ◌+◌, ◌++◌, ◌↔◌, IsTrue, length, take, drop, replicate};
ghost use Rattle.link_base.specs.Number.{bytes_of};
ghost use Rattle.link_base.specs.Frame.{kind_of};
ghost use Rattle.link_base.specs.Table.{Table, AttrValue, Gives, TakesMemory, Fits, Allows, label_at};
ghost use Rattle.link_base.specs.Labels.{label_in};
ghost use Rattle.link_base.specs.Table.{written_kind, written_payload, written_frame};
ghost use Rattle.link_base.specs.Held.{IsInRange};
ghost use Rattle.link_base.specs.WellFormed.{is_table};
ghost use Rattle.link_base.specs.Lawful.{IsLawful};
ghost use Rattle.link_base.specs.Equality.{IsThorough};
ghost use Rattle.link_base.specs.Buffer.{kind_field_of, payload_of};
ghost use Rattle.link_base.specs.Storing.{Puts};
ghost use Rattle.link_base.specs.Answers.{Answers, OnMemory, OverwritesFront, capped, under_kind};
ghost use Rattle.link_base.specs.Checked.{Checks};
ghost use Rattle.link_base.specs.Borrowed.{table_within};

use crate::rows::by_rows::AttributeRows;
use crate::rows::label::KindLabel;
use crate::rows::place::Place;
use crate::rows::visitors::{Canonical, Check, ElementLabel, Label};
use crate::wire::buffer::NlaBuffer;
use crate::wire::fault::{DecodeError, DecodeFault, of_kind};
use crate::wire::padding::total_size;
use std::alloc::Global;

/// The maximum length of a payload in bytes: the maximum `nla_len`, 65535, without the four bytes of the header.
pub const MAX_PAYLOAD: usize = 65531;

/// The attributes that the values of a type represent. The trait has no methods; contracts refer to it.
pub trait Meaning {
    /// The rows of the type's table: attribute types, and what their payloads are.
    ghost table: { Table };

    /// The attribute that a value represents.
    ghost means: { Self → AttrValue };
}

/// A value that can be written as an attribute.
pub trait Nla: Meaning {
    /// Returns `nla_type` as it is written, including its two flags.
    fn kind(&self) -> u16
        ensures { result ≡ written_kind (Self.means self.now) };

    /// Returns the length of the written payload in bytes; saturates at `usize::MAX`.
    fn value_len(&self) -> usize
        ensures { result ≡ capped (length (written_payload (Self.means self.now))) };

    /// Writes the payload. `buffer` must be exactly `value_len()` bytes long, and the value must fit (see `fits`).
    fn emit_value(&self, buffer: &mut [u8])
        requires fits { Fits (Self.means self.now) }
        requires exact { length buffer.old ≡ length (written_payload (Self.means self.now)) }
        ensures written { buffer.new ≡ written_payload (Self.means self.now) }
        ensures in_range { IsInRange Self.table (Self.means self.now) };

    /// Checks whether the written payload fits in an attribute: it has at most 65531 bytes.
    fn fits(&self) -> bool
        ensures { IsTrue result ↔ Fits (Self.means self.now) }
    {
        self.value_len() <= MAX_PAYLOAD
    }

    /// Returns the length of the written attribute in bytes: header, payload, and padding up to a multiple of four.
    /// Saturates at `usize::MAX`.
    fn buffer_len(&self) -> usize
        ensures { result ≡ capped (length (written_frame (Self.means self.now))) }
    {
        let size = self.value_len();
        if size > usize::MAX - 7 {
            usize::MAX
        } else {
            // with `total_size`, the compiler computes this again for a payload of constant length
            (size + 7) / 4 * 4
        }
    }

    /// Writes the attribute, padded with zeros, to the start of `buffer`; the rest of the buffer is unchanged. `buffer`
    /// must be at least `buffer_len()` bytes long, and the value must fit (see `fits`).
    fn emit(&self, buffer: &mut [u8])
        requires fits { Fits (Self.means self.now) }
        requires room { length (written_frame (Self.means self.now)) ≤ length buffer.old }
        ensures written { OverwritesFront buffer.old buffer.new (written_frame (Self.means self.now)) }
        ensures in_range { IsInRange Self.table (Self.means self.now) }
    {
        self.emit_sized(self.value_len(), buffer);
    }

    /// Writes the attribute as `emit` does, for callers that already know the payload length: `size` must equal
    /// `value_len()`. The conditions of `emit` apply too.
    fn emit_sized(&self, size: usize, buffer: &mut [u8])
        requires size { size ≡ length (written_payload (Self.means self.now)) }
        requires fits { Fits (Self.means self.now) }
        requires room { length (written_frame (Self.means self.now)) ≤ length buffer.old }
        ensures written { OverwritesFront buffer.old buffer.new (written_frame (Self.means self.now)) }
        ensures in_range { IsInRange Self.table (Self.means self.now) }
    {
        let kind_field = self.kind();
        // the last four bytes of the attribute, which include all of its padding
        put_zeros(buffer, total_size(size) - 4);
        put_header(buffer, kind_field, 4 + size as u16);
        self.emit_value(&mut buffer[4..4 + size]);
    }
}

fn put_header(buffer: &mut [u8], kind_field: u16, stated: u16)
    requires { 4 ≤ length buffer.old }
    ensures { buffer.new ≡ (bytes_of 2 stated ++ bytes_of 2 kind_field) ++ drop 4 buffer.old }
{
    let [a, b] = stated.to_le_bytes();
    let [c, d] = kind_field.to_le_bytes();
    buffer[..4].copy_from_slice(&[a, b, c, d]);
}

fn put_zeros(buffer: &mut [u8], start: usize)
    requires { start + 4 ≤ length buffer.old }
    ensures { buffer.new ≡ take start buffer.old ++ (replicate 4 0 ++ drop (start + 4) buffer.old) }
{
    buffer[start..start + 4].copy_from_slice(&[0; 4]);
}

/// A value that can be parsed from an attribute. A type implements `parse_payload`, a `match` on the attribute type.
pub trait Parseable: Meaning + Drop + Sized {
    /// Parses one attribute into `place`. This is the part of `parse_into` that a type implements; call `parse_into`
    /// instead. Both do the same, except that the error for a malformed payload may lack the attribute type here
    /// (`Payload`).
    fn parse_payload<P: Place<Self>>(
        alloc: Global,
        buffer: &NlaBuffer<'_>,
        place: &mut P,
    ) -> Result<(), DecodeError>
        requires { P.is_free place.old }
        ensures answer { Puts (λ value. P.takes place.old value place.new) (place.new ≡ place.old) Self.means
            (under_kind (kind_of (kind_field_of buffer.now)) result)
            (Gives Self.table (kind_field_of buffer.now) (payload_of buffer.now)) }
        ensures memory { OnMemory result (TakesMemory Self.table (kind_field_of buffer.now)) };

    /// Parses one attribute and stores the value in `place`, which must be free.
    ///
    /// # Errors
    ///
    /// As for `parse`. On error, `place` is unchanged.
    #[inline(always)]
    fn parse_into<P: Place<Self>>(
        alloc: Global,
        buffer: &NlaBuffer<'_>,
        place: &mut P,
    ) -> Result<(), DecodeError>
        requires { P.is_free place.old }
        ensures answer { Puts (λ value. P.takes place.old value place.new) (place.new ≡ place.old) Self.means result
            (Gives Self.table (kind_field_of buffer.now) (payload_of buffer.now)) }
        ensures memory { OnMemory result (TakesMemory Self.table (kind_field_of buffer.now)) }
    {
        of_kind(buffer.kind(), Self::parse_payload(alloc, buffer, place))
    }

    /// Parses one attribute.
    ///
    /// # Errors
    ///
    /// `Value`, `NestedFrame` or `NestedValue` if there is a variant for this attribute type and the payload is
    /// malformed. `Memory` if an allocation fails, which is possible only for `Other` and for variants whose values may
    /// be heap-allocated.
    fn parse(alloc: Global, buffer: &NlaBuffer<'_>) -> Result<Self, DecodeError>
        ensures answer { Answers Self.means result
            (Gives Self.table (kind_field_of buffer.now) (payload_of buffer.now)) }
        ensures memory { OnMemory result (TakesMemory Self.table (kind_field_of buffer.now)) }
    {
        let mut place = None;
        match Self::parse_into(alloc, buffer, &mut place) {
            Ok(()) => Ok(place.unwrap()),
            Err(error) => Err(error),
        }
    }
}

/// An attribute of one attribute set. Parsing and writing agree, by the properties below.
pub trait Attribute: AttributeRows + Nla + Parseable + Eq {
    /// Checks whether an attribute decodes. Builds no value and does not allocate.
    ///
    /// # Errors
    ///
    /// `Value`, `NestedFrame` or `NestedValue`: the error that `parse` returns unless an allocation fails.
    #[inline(always)]
    fn check(buffer: &NlaBuffer<'_>) -> Result<(), DecodeFault>
        ensures { Checks (Gives Self.table (kind_field_of buffer.now) (payload_of buffer.now)) result }
    {
        Self::visit_row(buffer.kind(), Check { buffer })
    }

    /// Returns what is known of an attribute type besides its payloads; `None` if no row has the type. If `list` is
    /// `Some`, the type is one in nested lists of this attribute type.
    #[inline(always)]
    fn label(list: Option<u16>, kind: u16) -> Option<KindLabel>
        ensures { label_in result ≡ label_at (table_within Self.table list) kind }
    {
        match list {
            None => Self::visit_row(kind, Label),
            Some(list) => Self::visit_row(list, ElementLabel { kind }),
        }
    }

    /// Checks whether an attribute is canonical: its `nla_type` and payload are what would be written for the value
    /// that they decode to. Nothing is decoded. Padding is checked with the list, by `list_is_canonical`.
    fn canonical(buffer: &NlaBuffer<'_>) -> bool
        ensures { IsTrue result ↔ Allows Self.table (kind_field_of buffer.now) (payload_of buffer.now) }
    {
        Self::visit_row(buffer.kind(), Canonical { buffer })
    }

    /// The theorems about single attributes hold for the type's table.
    ghost lawful: { IsLawful Self.table };

    /// The table is well-formed.
    ghost well_formed: { IsTrue (is_table Self.table) };

    /// `==` compares every field: equal values represent the same attribute.
    ghost thorough: { IsThorough Self.PartialEq.eq Self.means };
}
