//! Structs, by the kernel's names of their fields.

ghost use Rattle.std.specs.Prelude.{◌≡◌, ◌∷◌, [], true, length, OnOk};
ghost use Rattle.link_base.specs.Fields.{names_for};
ghost use Rattle.link_base.specs.Labels.{names_in, field_row, field_rows};
ghost use Rattle.link_base.specs.Layout.{octets_of};
ghost use Rattle.link_base.specs.Structs.{form_width};
ghost use Rattle.link_show.specs.Sink.{Gains};
ghost use Rattle.link_show.specs.Structs.{are_within, has_field, has_fields, field_in, role_text, form_text, field_text, fields_text};
ghost use Rattle.link_show.specs.Structs.{struct_text, bridge_id_text, limits_text};

use crate::flags::{write_enum, write_flags};
use crate::numbers::write_number;
use crate::octets::{write_address, write_hex};
use crate::pieces::put_separator;
use crate::quoted::write_quoted;
use crate::sink::Sink;
use link_base::rows::fields::Field;
use link_base::rows::form::{Form, Layout, Role, Width};
use link_base::rows::label::{Name, Quantity};
use link_base::rows::limits::limit_fields;
use link_base::views::content_by::number_in;
use link_base::{emit_numbers, fields};

/// Two consecutive numbers.
pub const PAIR_FIELDS: &[Field] = fields! {
    "from" = 0, u32;
    "to" = 4, u32;
};

/// A set of flags, and which of them count.
pub const MASKED_FIELDS: &[Field] = fields! {
    "flags" = 0, u32_flags;
    "mask" = 4, u32_flags;
};

/// Writes the struct that `bytes` start with: each field after its name in the kernel's headers, such as
/// `txerr 1 rxerr 2`; a bridge identifier as `8000.02:00:00:00:00:01`. `names` are those of the numbers and bits of fields
/// that have none of their own. Writes the bytes in hexadecimal if there are too few, or if no fields are known.
///
/// # Errors
///
/// That of the writer.
pub fn write_struct<W: Sink>(
    writer: &mut W,
    layout: Layout,
    fields: &[Field],
    names: &[Name],
    bytes: &[u8],
) -> Result<(), W::Error>
    ensures { OnOk result (Gains (W.output writer.old) (W.output writer.new)
        (struct_text layout (field_rows fields.now) (names_in names.now) bytes.now)) }
{
    match layout {
        Layout::BridgeId => write_bridge_id(writer, bytes),
        _ => write_fields(writer, fields, 0, names, bytes),
    }
}

/// Writes the priority of a bridge identifier as four hexadecimal digits, and its address.
#[tactic(auto, using(std::proofs::lemmas::Grind::common_steps, crate::specs::Gained::chains), unfolding(crate::specs::Structs::bridge_id_text))]
fn write_bridge_id<W: Sink>(writer: &mut W, bytes: &[u8]) -> Result<(), W::Error>
    ensures { OnOk result (Gains (W.output writer.old) (W.output writer.new) (bridge_id_text bytes.now)) }
{
    if bytes.len() < 8 {
        return write_hex(writer, bytes);
    }
    write_hex(writer, &bytes[..2])?;
    writer.put(b".")?;
    write_address(writer, &bytes[2..8])
}

/// Writes fields of a struct. `bytes` are those of the struct from offset `start` on. If a field is not within them, they
/// are written in hexadecimal.
#[tactic(auto, using(std::proofs::lemmas::Grind::common_steps, crate::proofs::Written::next_steps, crate::proofs::StructFields::field_there, crate::proofs::StructFields::all_within), unfolding(crate::specs::Structs::fields_text))]
pub(crate) fn write_fields<W: Sink>(
    writer: &mut W,
    fields: &[Field],
    start: usize,
    names: &[Name],
    bytes: &[u8],
) -> Result<(), W::Error>
    ensures { OnOk result (Gains (W.output writer.old) (W.output writer.new)
        (fields_text (field_rows fields.now) start (names_in names.now) bytes.now)) }
{
    if !has_fields(fields, start, bytes) {
        return write_hex(writer, bytes);
    }
    let mut separator = b"".as_slice();
    for field in fields {
        put_separator(writer, separator)?;
        write_field(writer, field, start, names, bytes)?;
        separator = b" ".as_slice();
    }
    Ok(())
}

/// Checks whether there are fields, and all are within the bytes of a struct from offset `start` on.
pub fn has_fields(fields: &[Field], start: usize, bytes: &[u8]) -> bool
    ensures { result ≡ has_fields (field_rows fields.now) start bytes.now }
{
    !fields.is_empty() && are_within(fields, start, bytes)
}

/// Checks whether all fields are within the bytes of a struct from offset `start` on.
#[tactic(auto, using(std::proofs::lemmas::Grind::common_steps, std::proofs::lemmas::List::drop_more))]
fn are_within(fields: &[Field], start: usize, bytes: &[u8]) -> bool
    ensures { result ≡ are_within (field_rows fields.now) start bytes.now }
{
    for field in fields {
        if !has_field(field, start, bytes) {
            return false;
        }
    }
    true
}

/// Checks whether a field is within the bytes of a struct from offset `start` on.
fn has_field(field: &Field, start: usize, bytes: &[u8]) -> bool
    ensures { result ≡ has_field start bytes.now (field_row field.now) }
{
    let size = field.form.width();
    size <= bytes.len() && field.offset.saturating_sub(start) <= bytes.len() - size
}

/// Returns the bytes of two numbers, each little-endian.
pub fn bytes_of_two(first: u32, second: u32) -> [u8; 8]
    ensures { result ≡ octets_of 4 (first ∷ second ∷ []) }
{
    let mut bytes = [0; 8];
    emit_numbers(&mut bytes, &[first, second]);
    bytes
}

/// Returns the names of the number or of the bits of a field: its own, or those of the row if it has none.
pub fn names_for<'a>(row: &'a [Name], own: &'a [Name]) -> &'a [Name]
    ensures { names_in result.now ≡ names_for (names_in row.now) (names_in own.now) }
{
    if own.is_empty() { row } else { own }
}

/// Returns the bytes of a field. `bytes` are those of the struct from offset `start` on, and must have the field.
pub fn field_bytes<'a>(field: &Field, start: usize, bytes: &'a [u8]) -> &'a [u8]
    requires { has_field start bytes.now (field_row field.now) ≡ true }
    ensures value { result.now ≡ field_in start bytes.now (field_row field.now) }
    ensures size { length result.now ≡ form_width field.now.form }
{
    let at = field.offset.saturating_sub(start);
    &bytes[at..at + field.form.width()]
}

/// Writes a field after its name.
fn write_field<W: Sink>(
    writer: &mut W,
    field: &Field,
    start: usize,
    names: &[Name],
    bytes: &[u8],
) -> Result<(), W::Error>
    requires { has_field start bytes.now (field_row field.now) ≡ true }
    ensures { OnOk result (Gains (W.output writer.old) (W.output writer.new)
        (field_text start (names_in names.now) bytes.now (field_row field.now))) }
{
    writer.put(field.name.as_bytes())?;
    writer.put(b" ")?;
    write_form(
        writer,
        names_for(names, field.names),
        field.quantity,
        field.form,
        field_bytes(field, start, bytes),
    )
}

/// Writes what a field of this form with these bytes holds.
fn write_form<W: Sink>(
    writer: &mut W,
    names: &[Name],
    quantity: Quantity,
    form: Form,
    bytes: &[u8],
) -> Result<(), W::Error>
    requires { length bytes.now ≡ form_width form }
    ensures { OnOk result (Gains (W.output writer.old) (W.output writer.new)
        (form_text (names_in names.now) quantity form bytes.now)) }
{
    match form {
        Form::Number { width, order, role } => {
            let number = number_in(width, order, bytes);
            write_role(writer, names, quantity, role, width, number)
        }
        Form::Mac => write_address(writer, bytes),
        _ => write_hex(writer, bytes),
    }
}

/// Writes a number by what it says.
pub(crate) fn write_role<W: Sink>(
    writer: &mut W,
    names: &[Name],
    quantity: Quantity,
    role: Role,
    width: Width,
    number: u64,
) -> Result<(), W::Error>
    ensures { OnOk result (Gains (W.output writer.old) (W.output writer.new)
        (role_text (names_in names.now) quantity role width number)) }
{
    match role {
        Role::Plain => write_number(writer, quantity, number),
        Role::Coded | Role::Enum => write_enum(writer, names, number),
        Role::Flags => write_flags(writer, names, width, number),
    }
}

/// Writes the limits of a CAN controller: its name, and the numbers, whose bytes are behind those of the name.
pub(crate) fn write_limits<W: Sink>(
    writer: &mut W,
    name: &[u8],
    numbers: &[u8],
) -> Result<(), W::Error>
    ensures { OnOk result (Gains (W.output writer.old) (W.output writer.new) (limits_text name.now numbers.now)) }
{
    writer.put(b"name ")?;
    write_quoted(writer, name)?;
    writer.put(b" ")?;
    write_fields(writer, limit_fields(), 16, &[], numbers)
}
