//! Structs, by the kernel's names of their fields.

ghost use Rattle.std.specs.Prelude.{◌≡◌, ◌++◌, ◌∷◌, [], true, length, OnOk};
ghost use Rattle.json.specs.Tree.{json_tokens};
ghost use Rattle.link_base.specs.Labels.{names_in, field_row, field_rows};
ghost use Rattle.link_base.specs.Structs.{form_width};
ghost use Rattle.link_show.specs.Structs.{has_field};
ghost use Rattle.link_json.specs.Doc.{object_of, fields_tokens};
ghost use Rattle.link_json.specs.Value.{role_json, form_json, field_json, fields_json, struct_json, limits_json};

use crate::document::Document;
use crate::numbers::{write_enum, write_flags};
use link_base::rows::fields::Field;
use link_base::rows::form::{Form, Layout, Role};
use link_base::rows::label::Name;
use link_base::rows::limits::limit_fields;
use link_base::views::content_by::number_in;
use link_show::{field_bytes, has_fields, names_for};
use std::alloc::AllocError;

/// Writes the struct that `bytes` start with. `names` are those of the numbers and bits of fields that have none of their
/// own.
pub(crate) fn write_struct(
    doc: &mut Document,
    layout: Layout,
    fields: &[Field],
    names: &[Name],
    bytes: &[u8],
) -> Result<(), AllocError>
    ensures { OnOk result (doc.new ≡ doc.old
        ++ json_tokens (struct_json layout (field_rows fields.now) (names_in names.now) bytes.now)) }
{
    match layout {
        Layout::BridgeId => doc.bridge_id(bytes),
        _ => write_object(doc, fields, names, bytes),
    }
}

/// Writes an object of the fields of a struct that `bytes` start with.
pub(crate) fn write_object(
    doc: &mut Document,
    fields: &[Field],
    names: &[Name],
    bytes: &[u8],
) -> Result<(), AllocError>
    ensures { OnOk result (doc.new ≡ doc.old
        ++ json_tokens (object_of (fields_json (field_rows fields.now) 0 (names_in names.now) bytes.now))) }
{
    doc.begin_object()?;
    write_fields(doc, fields, 0, names, bytes)?;
    doc.end_object()
}

/// Writes fields of a struct as members. `bytes` are those of the struct from offset `start` on. If a field is not within
/// them, they are written in hexadecimal.
fn write_fields(
    doc: &mut Document,
    fields: &[Field],
    start: usize,
    names: &[Name],
    bytes: &[u8],
) -> Result<(), AllocError>
    ensures { OnOk result (doc.new ≡ doc.old
        ++ fields_tokens (fields_json (field_rows fields.now) start (names_in names.now) bytes.now)) }
{
    if !has_fields(fields, start, bytes) {
        doc.key("hex")?;
        return doc.hex(bytes);
    }
    for field in fields {
        write_field(doc, field, start, names, bytes)?;
    }
    Ok(())
}

/// Writes a field as a member.
fn write_field(
    doc: &mut Document,
    field: &Field,
    start: usize,
    names: &[Name],
    bytes: &[u8],
) -> Result<(), AllocError>
    requires { has_field start bytes.now (field_row field.now) ≡ true }
    ensures { OnOk result (doc.new ≡ doc.old
        ++ fields_tokens (field_json start (names_in names.now) bytes.now (field_row field.now) ∷ [])) }
{
    doc.key(field.name)?;
    write_form(
        doc,
        names_for(names, field.names),
        field.form,
        field_bytes(field, start, bytes),
    )
}

/// Writes what a field of this form with these bytes holds.
fn write_form(
    doc: &mut Document,
    names: &[Name],
    form: Form,
    bytes: &[u8],
) -> Result<(), AllocError>
    requires { length bytes.now ≡ form_width form }
    ensures { OnOk result (doc.new ≡ doc.old ++ json_tokens (form_json (names_in names.now) form bytes.now)) }
{
    match form {
        Form::Number { width, order, role } => {
            write_role(doc, names, role, number_in(width, order, bytes))
        }
        Form::Mac => doc.address(bytes),
        _ => doc.hex(bytes),
    }
}

/// Writes a number by what it says. `names` are those of the attribute type.
pub(crate) fn write_role(
    doc: &mut Document,
    names: &[Name],
    role: Role,
    number: u64,
) -> Result<(), AllocError>
    ensures { OnOk result (doc.new ≡ doc.old ++ json_tokens (role_json (names_in names.now) role number)) }
{
    match role {
        Role::Plain => doc.number(number),
        Role::Coded | Role::Enum => write_enum(doc, names, number),
        Role::Flags => write_flags(doc, names, number),
    }
}

/// Writes the limits of a CAN controller: its name, and the numbers, whose bytes follow those of the name.
pub(crate) fn write_limits(
    doc: &mut Document,
    name: &[u8],
    numbers: &[u8],
) -> Result<(), AllocError>
    ensures { OnOk result (doc.new ≡ doc.old ++ json_tokens (limits_json name.now numbers.now)) }
{
    doc.begin_object()?;
    doc.key("name")?;
    doc.text(name)?;
    write_fields(doc, limit_fields(), 16, &[], numbers)?;
    doc.end_object()
}
