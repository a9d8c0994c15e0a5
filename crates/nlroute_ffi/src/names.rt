//! The names of attribute types, of the numbers of enums, and of the bits of sets of flags.

ghost use Rattle.std.specs.Prelude.{◌≡◌, ◌≤◌, ◌+◌, ◌<◌, ◌^◌, ◌++◌, [], List, length, option_map, IfOk, OnErr};
ghost use Rattle.std.specs.Fmt.{decimal};
ghost use Rattle.link_base.specs.Labels.{label_in};
ghost use Rattle.nlroute_ffi.specs.Buffers.{cut_text, Stores};
ghost use Rattle.nlroute_ffi.specs.Names.{is_indexed, has_indices, label_for, own_kind, place_name, number_name, flag_name};
ghost use Rattle.nlroute_ffi.specs.Names.{KindNameAnswers, NumberNameAnswers, FlagNameAnswers};

use crate::buffers::{refuse, store};
use crate::refusal::Refusal;
use arrayvec::ArrayVec;
use itoa::Buffer;
use link_base::rows::form::{Form, Role};
use link_base::rows::label::KindLabel;
use link_base::views::attribute_set::AttributeSet;
use link_entries::Entry;
use netlink_packet_route::{Family, FamilyElements, FamilySet};

/// Stores the name of the attribute type of `value`; for a number of an array the name of its place, and the index if it
/// has none, as an address of a list. Returns the length of the whole name.
pub(crate) fn store_kind_name(
    family: Family,
    value: &Entry,
    buffer: &mut [u8],
) -> Result<usize, Refusal>
    ensures answer { KindNameAnswers value.now buffer.old buffer.new family result }
    ensures bounded { IfOk result (λ n. n < 2 ^ 63) }
{
    let label = label_of(family, value);
    if is_indexed(family, value) {
        return Ok(match place_name(label, value.inner) {
            Some(name) => store(name.as_bytes(), buffer),
            None => store_number("[", value.inner, "]", buffer),
        });
    }
    Ok(match label {
        Some(label) => store(label.name.as_bytes(), buffer),
        None => store_number("type ", own_kind(value), "", buffer),
    })
}

/// Returns the name of a place of an array.
fn place_name(label: Option<KindLabel>, index: u16) -> Option<&'static str>
    ensures { option_map (λ name. name.now) result ≡ place_name (label_in label) index }
{
    label?.name_of(index.into())
}

/// Stores the name of the number of `value`.
///
/// # Errors
///
/// `Absent` if it has none. Then `buffer` has the empty text.
pub(crate) fn store_number_name(
    family: Family,
    value: &Entry,
    buffer: &mut [u8],
) -> Result<usize, Refusal>
    ensures answer { NumberNameAnswers value.now buffer.old buffer.new family result }
    ensures bounded { IfOk result (λ n. n < 2 ^ 63) }
    ensures empty { OnErr result (buffer.new ≡ cut_text [] buffer.old) }
{
    match number_name(label_of(family, value), value.number) {
        Some(name) => Ok(store(name.as_bytes(), buffer)),
        None => refuse(Refusal::Absent, buffer),
    }
}

/// Stores the name of a bit of the attribute type of `value`.
///
/// # Errors
///
/// `Absent` if it has none. Then `buffer` has the empty text.
pub(crate) fn store_flag_name(
    family: Family,
    value: &Entry,
    bit: u32,
    buffer: &mut [u8],
) -> Result<usize, Refusal>
    ensures answer { FlagNameAnswers value.now bit buffer.old buffer.new family result }
    ensures bounded { IfOk result (λ n. n < 2 ^ 63) }
    ensures empty { OnErr result (buffer.new ≡ cut_text [] buffer.old) }
{
    match flag_name(label_of(family, value), bit) {
        Some(name) => Ok(store(name.as_bytes(), buffer)),
        None => refuse(Refusal::Absent, buffer),
    }
}

/// Returns what is known of the type of an attribute or an element; for an address of a list or a number of an array,
/// that of its list. `None` if no row has the type, or if the depth is greater than 1.
pub(crate) fn label_of(family: Family, value: &Entry) -> Option<KindLabel>
    ensures { label_in result ≡ label_for family value.now }
{
    if value.depth == 0 || is_indexed(family, value) {
        let set = FamilySet { family };
        return set.label(value.kind);
    }
    if value.depth > 1 {
        return None;
    }
    let elements = FamilyElements {
        family,
        list: value.kind,
    };
    elements.label(value.inner)
}

/// Checks whether an entry is an address of a list or a number of an array.
fn is_indexed(family: Family, value: &Entry) -> bool
    ensures { result ≡ is_indexed family value.now }
{
    if value.depth != 1 {
        return false;
    }
    let set = FamilySet { family };
    match set.label(value.kind) {
        Some(label) => has_indices(label.form),
        None => false,
    }
}

fn has_indices(form: Form) -> bool
    ensures { result ≡ has_indices form }
{
    match form {
        Form::Addresses { .. } | Form::Numbers(_) => true,
        _ => false,
    }
}

/// Returns the type of an attribute, or of an element.
pub(crate) fn own_kind(value: &Entry) -> u16
    ensures { result ≡ own_kind value.now }
{
    if value.depth == 0 {
        value.kind
    } else {
        value.inner
    }
}

/// Stores a number between two texts.
fn store_number(before: &str, number: u16, after: &str, buffer: &mut [u8]) -> usize
    requires { length before.now + length after.now ≤ 8 }
    ensures stored { Stores (before.now ++ (decimal number ++ after.now)) buffer.old buffer.new result }
    ensures bounded { result < 2 ^ 63 }
{
    let mut digits = Buffer::new();
    let mut text = ArrayVec::<u8, 16>::new();
    append(&mut text, before);
    append(&mut text, digits.format(number));
    append(&mut text, after);
    store(text.as_slice(), buffer)
}

fn append(text: &mut ArrayVec<u8, 16>, part: &str)
    requires { length text.old.items + length part.now ≤ 16 }
    ensures { text.new.items ≡ text.old.items ++ part.now }
{
    let _ = text.try_extend_from_slice(part.as_bytes());
}

/// Returns the name of a number of an attribute type: of an enum, or a VLAN protocol.
fn number_name(label: Option<KindLabel>, number: u64) -> Option<&'static str>
    ensures { option_map (λ name. name.now) result ≡ number_name (label_in label) number }
{
    let label = label?;
    match label.form {
        Form::Number {
            role: Role::Enum | Role::Coded,
            ..
        }
        | Form::Protocol => label.name_of(number),
        _ => None,
    }
}

/// Returns the name of a bit of an attribute type: of a set of flags, or of one in a struct.
fn flag_name(label: Option<KindLabel>, bit: u32) -> Option<&'static str>
    ensures { option_map (λ name. name.now) result ≡ flag_name (label_in label) bit }
{
    let label = label?;
    if bit >= 64 {
        return None;
    }
    let set = 1 << bit;
    match label.form {
        Form::Number {
            role: Role::Flags,
            ..
        }
        | Form::LowFlags
        | Form::MaskedFlags
        | Form::Struct(_) => label.name_of(set),
        _ => None,
    }
}
