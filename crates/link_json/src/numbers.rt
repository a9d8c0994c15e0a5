//! Enums, sets of flags, and arrays of numbers.

ghost use Rattle.std.specs.Prelude.{◌≡◌, ◌≤◌, ◌+◌, ◌*◌, ◌++◌, ◌∷◌, [], OnOk, length, map};
ghost use Rattle.json.specs.Token.{key};
ghost use Rattle.json.specs.Tree.{json_tokens};
ghost use Rattle.link_base.specs.Forms.{size_in};
ghost use Rattle.link_base.specs.Labels.{names_in, name_in};
ghost use Rattle.link_base.specs.Layout.{number_at, numbers_of};
ghost use Rattle.link_json.specs.Doc.{object_of, array_of};
ghost use Rattle.link_json.specs.Value.{enum_json, flags_json, names_json, item_json, place_key, places_json, numbers_json};

use crate::document::Document;
use crate::parts::write_named;
use itoa::Buffer;
use link_base::rows::form::ArrayOf;
use link_base::rows::label::{Name, name_of};
use link_show::{names_from, number_at, signed_at};
use std::alloc::AllocError;

/// Writes the number of an enum, and its name.
pub(crate) fn write_enum(doc: &mut Document, names: &[Name], number: u64) -> Result<(), AllocError>
    ensures { OnOk result (doc.new ≡ doc.old ++ json_tokens (enum_json (names_in names.now) number)) }
{
    write_named(doc, number, name_of(names, number))
}

/// Writes a set of flags, and the names of the bits that are set.
pub(crate) fn write_flags(doc: &mut Document, names: &[Name], bits: u64) -> Result<(), AllocError>
    ensures { OnOk result (doc.new ≡ doc.old ++ json_tokens (flags_json (names_in names.now) bits)) }
{
    doc.begin_object()?;
    doc.key("number")?;
    doc.number(bits)?;
    doc.key("names")?;
    write_set_names(doc, names, bits)?;
    doc.end_object()
}

/// Writes the names of the bits that are set.
fn write_set_names(doc: &mut Document, names: &[Name], bits: u64) -> Result<(), AllocError>
    ensures { OnOk result (doc.new ≡ doc.old ++ json_tokens (array_of (names_json (names_in names.now) bits))) }
{
    doc.begin_array()?;
    for name in names {
        if bits & name.number != 0 {
            doc.string(name.text)?;
        }
    }
    doc.end_array()
}

/// Writes little-endian numbers: an array, or an object, if `names` has names of its places.
pub(crate) fn write_numbers(
    doc: &mut Document,
    names: &[Name],
    of: ArrayOf,
    bytes: &[u8],
) -> Result<(), AllocError>
    ensures { OnOk result (doc.new ≡ doc.old
        ++ json_tokens (numbers_json (names_in names.now) of (numbers_of (size_in of) bytes.now))) }
{
    if names.is_empty() {
        write_items(doc, of, bytes)
    } else {
        write_places(doc, names, of, bytes)
    }
}

/// Writes an array of numbers.
fn write_items(doc: &mut Document, of: ArrayOf, bytes: &[u8]) -> Result<(), AllocError>
    ensures { OnOk result (doc.new ≡ doc.old
        ++ json_tokens (array_of (map (item_json of) (numbers_of (size_in of) bytes.now)))) }
{
    doc.begin_array()?;
    for i in 0..bytes.len() / of.size() {
        write_item(doc, of, i, bytes)?;
    }
    doc.end_array()
}

/// Writes an object of numbers, each with the name of its place as its key.
fn write_places(
    doc: &mut Document,
    names: &[Name],
    of: ArrayOf,
    bytes: &[u8],
) -> Result<(), AllocError>
    ensures { OnOk result (doc.new ≡ doc.old
        ++ json_tokens (object_of (places_json (names_in names.now) of 0 (numbers_of (size_in of) bytes.now)))) }
{
    let mut left = names;
    doc.begin_object()?;
    for i in 0..bytes.len() / of.size() {
        left = names_from(left, i as u64);
        write_place(doc, left, i as u64)?;
        write_item(doc, of, i, bytes)?;
    }
    doc.end_object()
}

/// Writes the key of the number at an index: the name of its place, or the index, if that has none.
fn write_place(doc: &mut Document, names: &[Name], index: u64) -> Result<(), AllocError>
    ensures { OnOk result (doc.new ≡ doc.old ++ key (place_key index (name_in (names_in names.now) index)) ∷ []) }
{
    match name_of(names, index) {
        Some(name) => doc.key(name),
        None => doc.key(Buffer::new().format(index)),
    }
}

/// Writes the number at an index of an array.
fn write_item(doc: &mut Document, of: ArrayOf, index: usize, bytes: &[u8]) -> Result<(), AllocError>
    requires { (index + 1) * size_in of ≤ length bytes.now }
    ensures { OnOk result (doc.new ≡ doc.old
        ++ json_tokens (item_json of (number_at (size_in of) (index * size_in of) bytes.now))) }
{
    match of {
        ArrayOf::I32 => doc.signed(signed_at(index, bytes)),
        _ => doc.number(number_at(of.width(), index, bytes)),
    }
}
