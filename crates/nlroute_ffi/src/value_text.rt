//! The texts of values: of the payloads that they encode to.

ghost use Rattle.std.specs.Prelude.{◌≡◌, ◌<◌, ◌^◌, [], Ok, Err, length, IfOk, OnErr, MatchResult};
ghost use Rattle.link_base.specs.Labels.{label_of, label_in};
ghost use Rattle.link_base.specs.Table.{label_at};
ghost use Rattle.link_base.specs.Borrowed.{elements_at};
ghost use Rattle.netlink_packet_route.specs.Family.{table_of};
ghost use Rattle.link_show.specs.Value.{content_text};
ghost use Rattle.link_entries.specs.Fields.{IsNarrow};
ghost use Rattle.link_entries.specs.Payload.{payload_of};
ghost use Rattle.nlroute_ffi.specs.Buffers.{cut_text};
ghost use Rattle.nlroute_ffi.specs.ValueText.{with_form, address_form, element_label, own_label, fields_for, label_or_plain};
ghost use Rattle.nlroute_ffi.specs.ValueText.{is_passed, Shows, has_elements, HasSize, IsContent, LabelAnswers, TextAnswers};

use crate::buffers::{refuse, store_words};
use crate::names::own_kind;
use crate::refusal::{Refusal, refused_for};
use link_base::rows::form::Form;
use link_base::rows::label::{KindLabel, Quantity};
use link_base::views::attribute_set::AttributeSet;
use link_base::views::content::Content;
use link_base::views::content_by::content_by;
use link_entries::fields::{Fields, number_form, row_fields};
use link_entries::payload::put_payload;
use link_entries::{Entry, Misfit};
use link_show::{Sink, Words, write_content};
use netlink_packet_route::{Family, FamilyElements, FamilySet};

/// What is known of a type without a row.
const PLAIN: KindLabel = KindLabel {
    name: "",
    prefix: "",
    quantity: Quantity::Number,
    form: Form::Nothing,
    names: &[],
    fields: &[],
};

/// The text of a value: what is known of its type, and the content of its payload.
#[derive(Drop)]
struct ValueWords<'a> {
    label: KindLabel,
    content: Content<'a>,
}

impl Words for ValueWords<'_> {
    ghost words = { λ words. content_text (label_of words.label) words.content };

    fn write_words<W: Sink>(&self, writer: &mut W) -> Result<(), W::Error> {
        write_content(writer, &self.label, self.content)
    }
}

/// Stores the text of a value of a list of `family`: of the payload that it encodes to. `octets` has the bytes that it
/// refers to.
///
/// # Errors
///
/// The first that applies of those that `nlroute_write` returns for the value: `BadElement`, `BadForm`, `BadNumber`,
/// `BadOctets` and `TooLong`. Then `buffer` has the empty text.
pub(crate) fn store_value_text(
    family: Family,
    value: &Entry,
    octets: &[u8],
    buffer: &mut [u8],
) -> Result<usize, Refusal>
    ensures answer { TextAnswers value.now octets.now buffer.old buffer.new family result }
    ensures bounded { IfOk result (λ n. n < 2 ^ 63) }
    ensures empty { OnErr result (buffer.new ≡ cut_text [] buffer.old) }
{
    match own_label(family, value) {
        Ok(label) => store_payload_text(label, *value, octets, buffer),
        Err(misfit) => refuse(refused_for(misfit), buffer),
    }
}

/// Returns what is known of the type of a value; of a number of an array and of an address of a list, with the form of the
/// element. `None` if no row has the type.
///
/// # Errors
///
/// `BadElement` if the value is an element, and its attribute type has none; or if its depth is greater than 1.
pub(crate) fn own_label(family: Family, value: &Entry) -> Result<Option<KindLabel>, Misfit>
    ensures { MatchResult result (λ label. own_label family value.now ≡ Ok (label_in label))
        (λ misfit. own_label family value.now ≡ Err misfit) }
{
    let set = FamilySet { family };
    let label = set.label(value.kind);
    match value.depth {
        0 => Ok(label),
        1 => element_label(family, value, label),
        _ => Err(Misfit::BadElement),
    }
}

/// Returns what is known of the type of an element of a list with this label, as [`own_label`].
///
/// # Errors
///
/// `BadElement` if the attribute type has no elements.
fn element_label(
    family: Family,
    value: &Entry,
    list: Option<KindLabel>,
) -> Result<Option<KindLabel>, Misfit>
    ensures { MatchResult result
        (λ label. element_label (label_in list) (label_at (elements_at (table_of family) value.now.kind) value.now.inner)
        ≡ Ok (label_in label))
        (λ misfit. element_label (label_in list) (label_at (elements_at (table_of family) value.now.kind) value.now.inner)
        ≡ Err misfit) }
{
    let Some(list) = list else {
        return Err(Misfit::BadElement);
    };
    match list.form {
        Form::Numbers(of) => Ok(Some(with_form(list, number_form(of)))),
        Form::Addresses { size } => Ok(Some(with_form(list, address_form(size)))),
        Form::List { .. } => {
            let elements = FamilyElements {
                family,
                list: value.kind,
            };
            Ok(elements.label(value.inner))
        }
        _ => Err(Misfit::BadElement),
    }
}

/// Returns the form of an address of this size.
fn address_form(size: usize) -> Form
    ensures { result ≡ address_form size }
{
    if size == 4 { Form::Ipv4 } else { Form::Ipv6 }
}

/// Returns the label with another form.
fn with_form(label: KindLabel, form: Form) -> KindLabel
    ensures { label_of result ≡ with_form form (label_of label) }
{
    KindLabel { form, ..label }
}

/// Stores the text of a value whose type has this label, as [`store_value_text`] does.
///
/// # Errors
///
/// As for `store_value_text`, without `BadElement`.
fn store_payload_text(
    label: Option<KindLabel>,
    value: Entry,
    octets: &[u8],
    buffer: &mut [u8],
) -> Result<usize, Refusal>
    ensures answer { LabelAnswers (Ok (label_in label)) value octets.now buffer.old buffer.new result }
    ensures bounded { IfOk result (λ n. n < 2 ^ 63) }
    ensures empty { OnErr result (buffer.new ≡ cut_text [] buffer.old) }
{
    let mut room = [0; 20];
    let of_kind = own_kind(&value);
    match payload_in(fields_of(label), of_kind, value, octets, &mut room) {
        Ok(payload) => {
            let words = ValueWords {
                label: label_or_plain(label),
                content: content_in(label, payload),
            };
            Ok(store_words(&words, buffer))
        }
        Err(misfit) => refuse(refused_for(misfit), buffer),
    }
}

fn label_or_plain(label: Option<KindLabel>) -> KindLabel
    ensures { label_of result ≡ label_or_plain (label_in label) }
{
    match label {
        Some(label) => label,
        None => PLAIN,
    }
}

/// Returns which fields of an entry make the payload of an attribute whose type has this label.
pub(crate) fn fields_of(label: Option<KindLabel>) -> Fields
    ensures value { result ≡ fields_for (label_in label) }
    ensures narrow { IsNarrow result }
{
    match label {
        Some(label) => row_fields(label.form),
        None => Fields::Unknown,
    }
}

/// Returns the payload that an entry of type `of_kind` with these fields encodes to. Bytes that it refers to are returned
/// as they are in `octets`; others are stored in `room`, after the place of a header.
///
/// # Errors
///
/// Those of `put_payload`.
pub(crate) fn payload_in<'a>(
    fields: Fields,
    of_kind: u16,
    entry: Entry,
    octets: &'a [u8],
    room: &'a mut [u8; 20],
) -> Result<&'a [u8], Misfit>
    requires { IsNarrow fields }
    ensures { MatchResult result (λ p. Shows fields (record entry { kind = of_kind }) octets.now p.now)
        (λ misfit. payload_of fields (record entry { kind = of_kind }) octets.now ≡ Err misfit) }
{
    let n = match put_payload(fields, of_kind, &entry, octets, room) {
        Ok(n) => n,
        Err(misfit) => return Err(misfit),
    };
    if !is_passed(fields) {
        return Ok(&room[4..4 + n]);
    }
    let start = entry.offset as usize;
    Ok(&octets[start..start + entry.length as usize])
}

/// Checks whether an entry with these fields refers to bytes.
fn is_passed(fields: Fields) -> bool
    ensures { result ≡ is_passed fields }
{
    match fields {
        Fields::Passed { .. } | Fields::Peer | Fields::Limits | Fields::Unknown => true,
        _ => false,
    }
}

/// Returns the content of a payload of an attribute whose type has this label: nothing of a list, whose elements have texts of
/// their own.
#[tactic(auto, using(crate::proofs::ShownBytes::single_content))]
fn content_in<'a>(label: Option<KindLabel>, payload: &'a [u8]) -> Content<'a>
    requires { HasSize (label_in label) (length payload.now) }
    ensures { IsContent (label_in label) payload.now result }
{
    let Some(label) = label else {
        return Content::Other(payload);
    };
    if has_elements(label.form) {
        return Content::Nothing;
    }
    content_by(label.form, payload)
}

/// Checks whether a value of this form is a list: its elements are values of their own.
fn has_elements(form: Form) -> bool
    ensures { result ≡ has_elements form }
{
    match form {
        Form::Numbers(_) | Form::Addresses { .. } | Form::List { .. } => true,
        _ => false,
    }
}
