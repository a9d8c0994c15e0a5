//! Errors of lists and of attributes.

ghost use Rattle.std.specs.Prelude.{◌≡◌, OnOk};
ghost use Rattle.link_show.specs.Sink.{Gains};
ghost use Rattle.link_base.specs.Labels.{label_in};
ghost use Rattle.link_show.specs.Fault.{byte_word, bytes_text, opaque_text, expected_word, cause_words, kind_text, is_array, payload_fault, fault_text};

use crate::pieces::{Piece, put_pieces};
use crate::sets::ListSet;
use crate::sink::Sink;
use link_base::rows::form::Form;
use link_base::rows::label::KindLabel;
use link_base::views::attribute_set::AttributeSet;
use link_base::{Cause, DecodeFault};

/// Writes an error of a list of attributes of `set`, or of one of them, with the kernel's names of attribute types, such
/// as `IFLA_BR_HELLO_TIME has 3 bytes, expected 4`.
///
/// # Errors
///
/// That of the writer.
pub fn write_fault<S: ListSet, W: Sink>(
    writer: &mut W,
    set: S,
    fault: DecodeFault,
) -> Result<(), W::Error>
    ensures { OnOk result (Gains (W.output writer.old) (W.output writer.new) (fault_text (S.rows set) fault)) }
{
    match fault {
        DecodeFault::Frame(cause) | DecodeFault::Payload(cause) => write_cause(
            writer, false, cause,
        ),
        DecodeFault::Value { kind, cause } => {
            write_payload_fault(writer, set.label(kind), kind, cause)
        }
        DecodeFault::NestedFrame { kind, cause } => {
            write_type_name(writer, set.label(kind), kind)?;
            writer.put(b": ")?;
            write_cause(writer, false, cause)
        }
        DecodeFault::NestedValue { kind, inner, cause } => {
            write_type_name(writer, set.label(kind), kind)?;
            writer.put(b": ")?;
            write_payload_fault(writer, set.elements(kind).label(inner), inner, cause)
        }
        DecodeFault::Text => writer.put(b"unknown text"),
    }
}

/// Writes the error of a payload of this attribute type.
fn write_payload_fault<W: Sink>(
    writer: &mut W,
    label: Option<KindLabel>,
    kind: u16,
    cause: Cause,
) -> Result<(), W::Error>
    ensures { OnOk result (Gains (W.output writer.old) (W.output writer.new)
        (payload_fault (label_in label) kind cause)) }
{
    write_type_name(writer, label, kind)?;
    writer.put(b" ")?;
    write_cause(writer, is_array(label), cause)
}

/// Writes the name of an attribute type, or its number, if it has none.
fn write_type_name<W: Sink>(
    writer: &mut W,
    label: Option<KindLabel>,
    kind: u16,
) -> Result<(), W::Error>
    ensures { OnOk result (Gains (W.output writer.old) (W.output writer.new) (kind_text (label_in label) kind)) }
{
    match label {
        Some(label) => writer.put(label.name.as_bytes()),
        None => put_pieces(writer, &[Piece::Text("type "), Piece::Number(kind as u64)]),
    }
}

/// Checks whether payloads of an attribute type are arrays of numbers.
fn is_array(label: Option<KindLabel>) -> bool
    ensures { result ≡ is_array (label_in label) }
{
    match label {
        Some(label) => matches!(label.form, Form::Numbers(_)),
        None => false,
    }
}

/// Writes why an attribute, or a payload, is malformed.
pub(crate) fn write_cause<W: Sink>(
    writer: &mut W,
    is_array: bool,
    cause: Cause,
) -> Result<(), W::Error>
    ensures { OnOk result (Gains (W.output writer.old) (W.output writer.new) (cause_words is_array cause)) }
{
    match cause {
        Cause::ShortFrame { left } => {
            write_bytes(writer, left, " left, too few for an attribute header")
        }
        Cause::SmallLength { length } => put_pieces(
            writer,
            &[
                Piece::Text("nla_len "),
                Piece::Number(length as u64),
                Piece::Text(" is below 4"),
            ],
        ),
        Cause::Overrun { length, left } => {
            put_pieces(
                writer,
                &[
                    Piece::Text("nla_len "),
                    Piece::Number(length as u64),
                    Piece::Text(" exceeds the "),
                ],
            )?;
            write_bytes(writer, left, " left")
        }
        Cause::WrongLength { want, got } => {
            let expected = expected(is_array);
            let bytes = bytes_of(got);
            put_pieces(
                writer,
                &[
                    Piece::Text("has "),
                    Piece::Number(got as u64),
                    Piece::Text(bytes),
                    Piece::Text(expected),
                    Piece::Number(want as u64),
                ],
            )
        }
        Cause::TooShort { want, got } => {
            let bytes = bytes_of(got);
            put_pieces(
                writer,
                &[
                    Piece::Text("has "),
                    Piece::Number(got as u64),
                    Piece::Text(bytes),
                    Piece::Text(", expected at least "),
                    Piece::Number(want as u64),
                ],
            )
        }
        Cause::AddressLength { got } => {
            writer.put(b"has ")?;
            write_bytes(writer, got, ", expected 4 or 16")
        }
    }
}

/// Writes a number of bytes, and `more`.
pub(crate) fn write_bytes<W: Sink>(writer: &mut W, count: usize, more: &str) -> Result<(), W::Error>
    ensures { OnOk result (Gains (W.output writer.old) (W.output writer.new) (bytes_text count more.now)) }
{
    let bytes = bytes_of(count);
    put_pieces(
        writer,
        &[
            Piece::Number(count as u64),
            Piece::Text(bytes),
            Piece::Text(more),
        ],
    )
}

/// Writes how long data is that no attribute set reads.
pub(crate) fn write_opaque_size<W: Sink>(writer: &mut W, count: usize) -> Result<(), W::Error>
    ensures { OnOk result (Gains (W.output writer.old) (W.output writer.new) (opaque_text count)) }
{
    writer.put(b"(")?;
    write_bytes(writer, count, ", not decoded)")
}

/// Returns what follows a number of bytes.
pub(crate) fn bytes_of(count: usize) -> &'static str
    ensures { result.now ≡ byte_word count }
{
    if count == 1 { " byte" } else { " bytes" }
}

/// Returns what is before the expected length of a payload.
fn expected(is_array: bool) -> &'static str
    ensures { result.now ≡ expected_word is_array }
{
    if is_array {
        ", expected a multiple of "
    } else {
        ", expected "
    }
}
