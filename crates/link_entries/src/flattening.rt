//! Lists as entries.

ghost use Rattle.std.specs.Prelude.{◌≡◌, ◌≤◌, ◌<◌, ◌+◌, ◌*◌, ◌^◌, ◌∷◌, [], List, length, slice_set, IfOk, IsTrue};
ghost use Rattle.link_base.specs.Frame.{kind_of};
ghost use Rattle.link_base.specs.Buffer.{kind_field_of, payload_of};
ghost use Rattle.link_base.specs.Borrowed.{HasValues, elements_at, HasContent};
ghost use Rattle.link_base.specs.Viewed.{set_in, buffer_in, kind_in, payload_in};
ghost use Rattle.netlink_packet_route.specs.Family.{table_of};
ghost use Rattle.link_entries.specs.declared.entry.Entry.{Entry};
ghost use Rattle.link_entries.specs.Entry.{blank};
ghost use Rattle.link_entries.specs.Flat.{Elements, head_entry, IsGroup, Flat, Puts, Flattens};

use crate::arrays::put_numbers;
use crate::contents::fill;
use crate::elements::{put_addresses, put_elements};
use crate::entry::Entry;
use link_base::views::attribute_set::{AttributeSet, ElementSet, Set};
use link_base::views::content::Content;
use link_base::views::view::{Value, View};
use link_base::{Attribute, DefaultNla, ListFault, NlaBuffer, check_list};
use netlink_packet_route::{Family, by_family};

/// Stores the entries of a list in `places`: one for each attribute, and after an attribute that is a list one for each
/// element. Returns the number of entries, which may be greater than that of places: then the first entries are stored. The
/// places after the entries are unchanged. With no places, this counts the entries. Nothing is allocated.
///
/// # Errors
///
/// The first error in the list, with the byte offset of its attribute. Then all places are unchanged.
#[inline(always)]
pub fn flatten(family: Family, bytes: &[u8], places: &mut [Entry]) -> Result<usize, ListFault>
    ensures entries { Flattens (table_of family) bytes.now places.old places.new result }
    ensures bounded { IfOk result (λ n. 2 * n ≤ length bytes.now) }
{
    by_family!(family, flatten_list(places, bytes))
}

/// Stores the entries of a list of attributes of the type `F`, as [`flatten`] does for a `Family`.
#[inline(always)]
fn flatten_list<F: Attribute>(places: &mut [Entry], bytes: &[u8]) -> Result<usize, ListFault>
    ensures entries { Flattens F.table bytes.now places.old places.new result }
    ensures bounded { IfOk result (λ n. 2 * n ≤ length bytes.now) }
{
    match check_list::<F>(bytes) {
        Ok(_) => Ok(put_list::<F>(places, bytes)),
        Err(fault) => Err(fault),
    }
}

/// Stores the entries of a list that decodes, as far as there are places. Returns their number.
#[inline(never)]
fn put_list<F: Attribute>(places: &mut [Entry], bytes: &[u8]) -> usize
    requires { HasValues F.table bytes.now }
    ensures { (es : List Entry) × Flat F.table bytes.now es
        × Puts places.old places.new 0 es result × (2 * length es ≤ length bytes.now) }
{
    let mut rest = View::of_checked(bytes, Set::<F>::new());
    let mut next = 0;
    'values: loop {
        // In this loop, each attribute takes one place.
        'singles: while next < places.len() {
            let at = bytes.len() - rest.bytes().len();
            match rest.next() {
                Some(value) => {
                    if !fill_single(&mut places[next], at, &value) {
                        next = put_value(places, at, next, value);
                        continue 'values;
                    }
                    next += 1;
                }
                None => return next,
            }
        }
        let at = bytes.len() - rest.bytes().len();
        match rest.next() {
            Some(value) => next = put_value(places, at, next, value),
            None => return next,
        }
    }
}

/// Stores the entries of an attribute that starts at this offset, the first in the place `first`. Returns the place after
/// them.
#[inline(always)]
fn put_value<F: Attribute>(
    places: &mut [Entry],
    at: usize,
    first: usize,
    value: Value<'_, Set<F>>,
) -> usize
    requires offset { at + (4 + length (payload_in value)) < 2 ^ 63 }
    requires place { first + (4 + length (payload_in value)) < 2 ^ 63 }
    ensures { (es : List Entry) × IsGroup F.table (at, buffer_in value.entry) es
        × Puts places.old places.new first es result × (2 * length es ≤ 4 + length (payload_in value.entry)) }
{
    let elements = ElementSet::<F>::new(value.kind());
    put_group(places, at, first, &value, elements)
}

/// Stores the entry of an attribute that starts at this offset in `place`, and returns true, unless it is a list. If it is,
/// the entry is not complete.
#[inline(always)]
fn fill_single<F: Attribute>(place: &mut Entry, at: usize, value: &Value<'_, Set<F>>) -> bool
    requires { at + (4 + length (payload_in value.now)) < 2 ^ 63 }
    ensures { IsTrue result → IsGroup F.table (at, buffer_in value.now) (place.new ∷ []) }
{
    let buffer = value.buffer();
    // Before the content is read: the compiler then stores each content where it reads it.
    start_head(place, at, &buffer);
    match value.content() {
        Content::List { .. } | Content::Addresses { .. } | Content::Numbers { .. } => false,
        content => {
            fill(place, buffer.raw_kind(), content, 0);
            true
        }
    }
}

/// Stores the entries of an attribute that starts at this offset, the first in the place `first`. Returns the place after
/// them. `elements` is the set of its elements.
#[inline(never)]
pub(crate) fn put_group<S: AttributeSet, E: AttributeSet>(
    places: &mut [Entry],
    at: usize,
    first: usize,
    value: &Value<'_, S>,
    elements: E,
) -> usize
    requires elements { E.rows elements ≡ elements_at (S.rows (set_in value.now)) (kind_in value.now) }
    requires offset { at + (4 + length (payload_in value.now)) < 2 ^ 63 }
    requires place { first + (4 + length (payload_in value.now)) < 2 ^ 63 }
    ensures { (es : List Entry) × IsGroup (S.rows (set_in value.now)) (at, buffer_in value.now) es
        × Puts places.old places.new first es result × (2 * length es ≤ 4 + length (payload_in value.now)) }
{
    let buffer = value.buffer();
    let content = value.content();
    let next = put_below(places, at + 4, first + 1, value, content, elements);
    let below = next - (first + 1);
    store_head(places, at, first, &buffer, content, below);
    next
}

/// Stores the entry of an attribute that starts at this offset in the place `first`, if there is one. If the attribute is a
/// list, `below` elements follow.
#[inline(always)]
fn store_head(
    places: &mut [Entry],
    at: usize,
    first: usize,
    buffer: &NlaBuffer<'_>,
    content: Content<'_>,
    below: usize,
)
    requires { at + (4 + length (payload_of buffer.now)) < 2 ^ 63 }
    ensures { places.new ≡ slice_set places.old first (head_entry (at, buffer.now) content.entry below) }
{
    if first < places.len() {
        fill_head(&mut places[first], at, buffer, content, below);
    }
}

/// Stores the entry of an attribute that starts at this offset in `place`. If the attribute is a list, `below` elements follow.
#[inline(always)]
fn fill_head(
    place: &mut Entry,
    at: usize,
    buffer: &NlaBuffer<'_>,
    content: Content<'_>,
    below: usize,
)
    requires { at + (4 + length (payload_of buffer.now)) < 2 ^ 63 }
    ensures { place.new ≡ head_entry (at, buffer.now) content.entry below }
{
    start_head(place, at, buffer);
    fill(place, buffer.raw_kind(), content, below);
}

/// Sets all fields of `place` except the number to those of the entry of an attribute that starts at this offset, without its
/// content.
#[inline(always)]
fn start_head(place: &mut Entry, at: usize, buffer: &NlaBuffer<'_>)
    requires { at + (4 + length (payload_of buffer.now)) < 2 ^ 63 }
    ensures { place.new ≡ record (blank (kind_of (kind_field_of buffer.now)) 0 0 (at + 4) (length (payload_of buffer.now))) {
      number = place.old.number;
    } }
{
    let length = buffer.value_length() as u32;
    place.start(buffer.kind(), 0, 0, (at + 4) as u64, length);
}

/// Stores the entries of the elements of an attribute whose payload starts at offset `at`, if its content is a list; the
/// first in the place `first`. Returns the place after them. `elements` is the set of its elements.
#[inline(always)]
pub(crate) fn put_below<S: AttributeSet, E: AttributeSet>(
    places: &mut [Entry],
    at: usize,
    first: usize,
    value: &Value<'_, S>,
    content: Content<'_>,
    elements: E,
) -> usize
    requires content { HasContent (S.rows (set_in value.now)) (buffer_in value.now) content }
    requires elements { E.rows elements ≡ elements_at (S.rows (set_in value.now)) (kind_in value.now) }
    requires offset { at + length (payload_in value.now) < 2 ^ 63 }
    requires place { first + length (payload_in value.now) < 2 ^ 63 }
    ensures { (es : List Entry)
        × Elements (S.rows (set_in value.now)) (kind_in value.now) at content.entry es
        × Puts places.old places.new first es result × (2 * length es ≤ length (payload_in value.now)) }
{
    let kind = value.kind();
    match content {
        Content::List { list, .. } => put_elements(
            places,
            kind,
            at,
            first,
            View::of_checked(list, elements),
        ),
        Content::Addresses { list, size } => put_addresses(
            places,
            kind,
            at,
            first,
            View::of_checked(list, Set::<DefaultNla>::new()),
            size,
        ),
        Content::Numbers { of, bytes } => put_numbers(places, kind, at, first, of, bytes),
        _ => first,
    }
}
