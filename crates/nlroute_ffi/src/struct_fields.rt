//! The fields of structs: of the payloads that values encode to.

ghost use Rattle.std.specs.Prelude.{◌≡◌, true, length, slice_get, replicate, IfOk, OnErr};
ghost use Rattle.link_base.specs.Labels.{label_in, field_row, field_rows};
ghost use Rattle.link_base.specs.Structs.{form_width};
ghost use Rattle.link_show.specs.Structs.{has_field, are_within};
ghost use Rattle.nlroute_ffi.specs.Buffers.{cut_text};
ghost use Rattle.nlroute_ffi.specs.Timing.{shown_fields};
ghost use Rattle.nlroute_ffi.specs.StructFields.{field_form, field_number, field_octets, stored_field, have_room, FieldIn, FieldBy, FieldAnswers};

use crate::buffers::store;
use crate::names::own_kind;
use crate::refusal::{Refusal, refused_for};
use crate::value_text::{fields_of, own_label, payload_in};
use link_base::FixedSize;
use link_base::rows::fields::Field;
use link_base::rows::form::{Form, Role};
use link_base::rows::label::KindLabel;
use link_base::views::content_by::number_in;
use link_entries::octets::padded;
use link_entries::{Entry, forms};
use link_show::field_bytes;
use netlink_packet_route::Family;

/// A field of a struct: `struct nlroute_field` of the header. Numbers are in the byte order of the machine.
#[repr(C)]
#[derive(Clone, Copy)]
pub struct StructField {
    /// The name in the kernel's headers, at most 31 bytes, and zeros.
    pub name: [u8; 32],
    /// The number; 0 if the field is none.
    pub number: u64,
    /// Where the field starts, in bytes from the start of the struct.
    pub offset: u64,
    /// Length of the field in bytes.
    pub length: u32,
    /// What the field holds: a number of [`forms`].
    pub form: u32,
    /// The octets of an address; the rest is 0.
    pub octets: [u8; 16],
}

/// Stores the field with this index, of the struct that a value of a list of `family` encodes to, in `field`, and returns 0.
/// `octets` has the bytes that the value refers to.
///
/// # Errors
///
/// The first that applies of those that `nlroute_write` returns for the value: `BadElement`, `BadForm`, `BadNumber`,
/// `BadOctets` and `TooLong`. `Absent` if the attribute type has no struct, or the struct fewer fields. On error `field` is
/// unchanged.
pub(crate) fn store_field(
    family: Family,
    value: &Entry,
    index: usize,
    octets: &[u8],
    field: &mut StructField,
) -> Result<usize, Refusal>
    ensures answer { FieldAnswers value.now index octets.now field.new family result }
    ensures zero { IfOk result (λ n. n ≡ 0) }
    ensures unchanged { OnErr result (field.new ≡ field.old) }
{
    match own_label(family, value) {
        Ok(label) => store_by_label(label, *value, index, octets, field),
        Err(misfit) => Err(refused_for(misfit)),
    }
}

/// Stores a field of a value whose type has this label, as [`store_field`] does.
///
/// # Errors
///
/// As for `store_field`, without `BadElement`.
fn store_by_label(
    label: Option<KindLabel>,
    value: Entry,
    index: usize,
    octets: &[u8],
    field: &mut StructField,
) -> Result<usize, Refusal>
    requires { have_room (label_in label) ≡ true }
    ensures answer { FieldBy (Ok (label_in label)) value index octets.now field.new result }
    ensures zero { IfOk result (λ n. n ≡ 0) }
    ensures unchanged { OnErr result (field.new ≡ field.old) }
{
    let mut room = [0; 20];
    let of_kind = own_kind(&value);
    match payload_in(fields_of(label), of_kind, value, octets, &mut room) {
        Ok(payload) => store_in(shown_fields(label), index, payload, field),
        Err(misfit) => Err(refused_for(misfit)),
    }
}

/// Returns the fields of the struct of an attribute type; none if it has no struct.
fn shown_fields(label: Option<KindLabel>) -> &'static [Field]
    ensures { field_rows result.now ≡ shown_fields (label_in label) }
{
    match label {
        Some(label) => label.fields,
        None => &[],
    }
}

/// Stores the field with this index of a struct with these bytes, and returns 0.
///
/// # Errors
///
/// `Absent` if there is none. Then `field` is unchanged.
fn store_in(
    fields: &[Field],
    index: usize,
    bytes: &[u8],
    field: &mut StructField,
) -> Result<usize, Refusal>
    requires { are_within (field_rows fields.now) 0 bytes.now ≡ true }
    ensures answer { FieldIn (slice_get (field_rows fields.now) index) bytes.now field.new result }
    ensures zero { IfOk result (λ n. n ≡ 0) }
    ensures unchanged { OnErr result (field.new ≡ field.old) }
{
    if index >= fields.len() {
        return Err(Refusal::Absent);
    }
    *field = field_in(&fields[index], bytes);
    Ok(0)
}

/// Returns a field of a struct with these bytes.
fn field_in(field: &Field, bytes: &[u8]) -> StructField
    requires { has_field 0 bytes.now (field_row field.now) ≡ true }
    ensures { result ≡ stored_field (field_row field.now) bytes.now }
{
    let own = field_bytes(field, 0, bytes);
    StructField {
        name: cut_name(field.name),
        number: field_number(field.form, own),
        offset: field.offset as u64,
        length: (own.len() % 0x1_0000_0000) as u32,
        form: field_form(field.form).into(),
        octets: padded(field_octets(field.form, own)),
    }
}

/// Returns a name, cut to 31 bytes, and zeros after it.
fn cut_name(name: &str) -> [u8; 32]
    ensures { result ≡ cut_text name.now (replicate 32 0) }
{
    let mut all = [0; 32];
    store(name.as_bytes(), &mut all);
    all
}

/// Returns the form of a field: that of an attribute whose values have this form; bytes, if they are no number and no address.
fn field_form(form: Form) -> u8
    ensures { result ≡ field_form form }
{
    match form {
        Form::Number { role, .. } => match role {
            Role::Plain => forms::UNSIGNED,
            Role::Coded | Role::Enum => forms::NAMED,
            Role::Flags => forms::FLAGS,
        },
        Form::Signed => forms::SIGNED,
        Form::Mac => forms::MAC,
        _ => forms::BYTES,
    }
}

/// Returns the number of a field with these bytes; 0 if it is none.
fn field_number(form: Form, bytes: &[u8]) -> u64
    requires { length bytes.now ≡ form_width form }
    ensures { result ≡ field_number form bytes.now }
{
    match form {
        Form::Number { width, order, .. } => number_in(width, order, bytes),
        Form::Signed => i64::from(i32::load(bytes)).cast_unsigned(),
        _ => 0,
    }
}

/// Returns the octets of a field with these bytes; none if it is a number.
fn field_octets<'a>(form: Form, bytes: &'a [u8]) -> &'a [u8]
    ensures { result.now ≡ field_octets form bytes.now }
{
    match form {
        Form::Number { .. } | Form::Signed => &[],
        _ => bytes,
    }
}
