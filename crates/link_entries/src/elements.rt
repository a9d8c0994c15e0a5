//! The entries of the elements of lists.

ghost use Rattle.std.specs.Prelude.{◌≡◌, ◌≤◌, ◌<◌, ◌+◌, ◌-◌, ◌*◌, ◌^◌, ◌==◌, List, [], MatchOption, length, slice_set, if◌then◌else◌};
ghost use Rattle.link_base.specs.declared.wire.buffer.NlaBuffer.{NlaBuffer};
ghost use Rattle.link_base.specs.Buffer.{payload_of, SplitsFirst};
ghost use Rattle.link_base.specs.Frame.{max_payload};
ghost use Rattle.link_base.specs.Viewed.{bytes_in, set_of, set_in, buffer_in};
ghost use Rattle.link_entries.specs.declared.entry.Entry.{Entry};
ghost use Rattle.link_entries.specs.Flat.{IsElement, AreElements, AreAddresses, address_entry, Puts};

use crate::contents::fill;
use crate::entry::Entry;
use crate::forms;
use crate::octets::{four, padded, sixteen};
use link_base::views::attribute_set::{AttributeSet, Set};
use link_base::views::view::{Value, View};
use link_base::{DefaultNla, MAX_PAYLOAD, NlaBuffer, u16_at};

/// Stores the elements of a nested list whose attribute type is `kind` and whose bytes start at offset `at`, the first in
/// the place `first`. Returns the place after them.
pub(crate) fn put_elements<T: AttributeSet>(
    places: &mut [Entry],
    kind: u16,
    at: usize,
    first: usize,
    elements: View<'_, T>,
) -> usize
    requires offset { at + length (bytes_in elements) < 2 ^ 63 }
    requires place { first + length (bytes_in elements) < 2 ^ 63 }
    ensures { (es : List Entry)
        × AreElements (T.rows (set_of elements.entry)) kind at (bytes_in elements.entry) es
        × Puts places.old places.new first es result × (2 * length es ≤ length (bytes_in elements.entry)) }
{
    let length = elements.bytes().len();
    let mut rest = elements;
    let mut next = first;
    'elements: loop {
        let offset = at + (length - rest.bytes().len()) + 4;
        match rest.next() {
            Some(element) => {
                put_element(places, next, kind, offset, &element);
                next += 1;
            }
            None => return next,
        }
    }
}

/// Stores the entry of an element of a nested list, whose payload starts at this offset, in the place `next`, if there is
/// one.
#[inline(always)]
fn put_element<T: AttributeSet>(
    places: &mut [Entry],
    next: usize,
    kind: u16,
    offset: usize,
    element: &Value<'_, T>,
)
    ensures { (e : Entry) × IsElement (T.rows (set_in element.now)) kind offset (buffer_in element.now) e
        × (places.new ≡ slice_set places.old next e) }
{
    if next < places.len() {
        fill_element(&mut places[next], kind, offset, element);
    } else {
        // The contract speaks of the entry, although no place takes it.
        let _ = element_entry(kind, offset, element);
    }
}

/// Stores the entry of an element of a nested list, whose payload starts at this offset, in `place`.
#[inline(always)]
fn fill_element<T: AttributeSet>(
    place: &mut Entry,
    kind: u16,
    offset: usize,
    element: &Value<'_, T>,
)
    ensures { IsElement (T.rows (set_in element.now)) kind offset (buffer_in element.now) place.new }
{
    let buffer = element.buffer();
    let length = buffer.value_length() as u32;
    // Before the content is read: the compiler then stores each content where it reads it.
    place.start(kind, element.kind(), 1, offset as u64, length);
    fill(place, buffer.raw_kind(), element.content(), 0);
}

/// Returns the entry of an element of a nested list, whose payload starts at this offset.
#[inline]
pub(crate) fn element_entry<T: AttributeSet>(
    kind: u16,
    offset: usize,
    element: &Value<'_, T>,
) -> Entry
    ensures { IsElement (T.rows (set_in element.now)) kind offset (buffer_in element.now) result }
{
    let mut entry = Entry::blank(0, 0, 0, 0, 0);
    fill_element(&mut entry, kind, offset, element);
    entry
}

/// Stores the addresses of `size` bytes each in a list whose attribute type is `kind` and whose bytes start at offset `at`,
/// the first in the place `first`. Returns the place after them.
pub(crate) fn put_addresses(
    places: &mut [Entry],
    kind: u16,
    at: usize,
    first: usize,
    addresses: View<'_, Set<DefaultNla>>,
    size: usize,
) -> usize
    requires short { length (bytes_in addresses) ≤ max_payload }
    requires offset { at + length (bytes_in addresses) < 2 ^ 63 }
    requires place { first + length (bytes_in addresses) < 2 ^ 63 }
    ensures { (es : List Entry) × AreAddresses kind at size (bytes_in addresses.entry) es
        × Puts places.old places.new first es result × (2 * length es ≤ length (bytes_in addresses.entry)) }
{
    // A loop of its own for each size that occurs: the compiler then knows the length of the copies.
    match size {
        4 => put_each_address(places, kind, at, first, addresses, 4),
        16 => put_each_address(places, kind, at, first, addresses, 16),
        _ => put_each_address(places, kind, at, first, addresses, size),
    }
}

/// Stores addresses as [`put_addresses`] does.
#[inline(always)]
fn put_each_address(
    places: &mut [Entry],
    kind: u16,
    at: usize,
    first: usize,
    addresses: View<'_, Set<DefaultNla>>,
    size: usize,
) -> usize
    requires short { length (bytes_in addresses) ≤ max_payload }
    requires offset { at + length (bytes_in addresses) < 2 ^ 63 }
    requires place { first + length (bytes_in addresses) < 2 ^ 63 }
    ensures { (es : List Entry) × AreAddresses kind at size (bytes_in addresses.entry) es
        × Puts places.old places.new first es result × (2 * length es ≤ length (bytes_in addresses.entry)) }
{
    let length = addresses.bytes().len();
    let mut rest = addresses;
    let mut next = first;
    'addresses: loop {
        // Most lists have only addresses. In this loop, the compiler knows how long each attribute is.
        'even: while starts_with_size(rest.bytes(), size) {
            let offset = at + (length - rest.bytes().len()) + 4;
            match put_next_address(places, kind, first, next, offset, &mut rest, size) {
                Some(after) => next = after,
                None => return next,
            }
        }
        let offset = at + (length - rest.bytes().len()) + 4;
        match put_next_address(places, kind, first, next, offset, &mut rest, size) {
            Some(after) => next = after,
            None => return next,
        }
    }
}

/// Checks whether bytes are long enough for a payload of `size` bytes, and start with its header. Only the speed depends
/// on this.
#[inline(always)]
fn starts_with_size(bytes: &[u8], size: usize) -> bool {
    if size > MAX_PAYLOAD || bytes.len() < size + 4 {
        return false;
    }
    usize::from(u16_at(bytes, 0)) == size + 4
}

/// Stores the address in the first attribute that is left, as `put_address` does; `None` if no attribute is left.
#[inline(always)]
fn put_next_address(
    places: &mut [Entry],
    kind: u16,
    first: usize,
    next: usize,
    offset: usize,
    rest: &mut View<'_, Set<DefaultNla>>,
    size: usize,
) -> Option<usize>
    requires index { (first ≤ next) × (next < first + 65536) }
    requires place { next < 2 ^ 63 }
    ensures { MatchOption result ((bytes_in rest.old ≡ []) × (places.new ≡ places.old))
        (λ after. (b : NlaBuffer) × SplitsFirst (bytes_in rest.old) b (bytes_in rest.new)
        × (after ≡ (if length (payload_of b) == size then next + 1 else next))
        × (places.new ≡ (if length (payload_of b) == size
        then slice_set places.old next (address_entry kind (next - first) offset (payload_of b))
        else places.old))) }
{
    match rest.next() {
        Some(address) => Some(put_address(
            places,
            kind,
            first,
            next,
            offset,
            &address.buffer(),
            size,
        )),
        None => None,
    }
}

/// Stores the address in an attribute in the place `next`, if it has `size` bytes; the place of the first is `first`.
/// Returns the place after it.
#[inline(always)]
fn put_address(
    places: &mut [Entry],
    kind: u16,
    first: usize,
    next: usize,
    offset: usize,
    address: &NlaBuffer<'_>,
    size: usize,
) -> usize
    requires index { (first ≤ next) × (next < first + 65536) }
    requires place { next < 2 ^ 63 }
    ensures place { result ≡ (if length (payload_of address.now) == size then next + 1 else next) }
    ensures stored { places.new ≡ (if length (payload_of address.now) == size
        then slice_set places.old next (address_entry kind (next - first) offset (payload_of address.now))
        else places.old) }
{
    if address.value_length() != size {
        return next;
    }
    let index = (next - first) as u16;
    store_address(places, next, kind, index, offset, address);
    next + 1
}

/// Stores the entry of the address in an attribute in the place `next`, if there is one.
#[inline(always)]
fn store_address(
    places: &mut [Entry],
    next: usize,
    kind: u16,
    index: u16,
    offset: usize,
    address: &NlaBuffer<'_>,
)
    ensures { places.new ≡ slice_set places.old next (address_entry kind index offset (payload_of address.now)) }
{
    if next < places.len() {
        fill_address(&mut places[next], kind, index, offset, address);
    }
}

/// Stores the entry of the address in an attribute in `place`.
#[inline(always)]
fn fill_address(place: &mut Entry, kind: u16, index: u16, offset: usize, address: &NlaBuffer<'_>)
    ensures { place.new ≡ address_entry kind index offset (payload_of address.now) }
{
    let length = address.value_length() as u32;
    // Before the place is changed: the compiler then stores the octets once.
    let octets = address.value();
    let (form, octets) = match octets.len() {
        4 => (forms::IPV4, four(octets)),
        16 => (forms::IPV6, sixteen(octets)),
        _ => (forms::IPV6, padded(octets)),
    };
    *place = Entry::blank(kind, index, 1, offset as u64, length);
    place.form = form;
    place.octets = octets;
}

/// Returns the entry of the address in an attribute.
#[inline]
pub(crate) fn address_entry(kind: u16, index: u16, offset: usize, address: &NlaBuffer<'_>) -> Entry
    ensures { result ≡ address_entry kind index offset (payload_of address.now) }
{
    let mut entry = Entry::blank(0, 0, 0, 0, 0);
    fill_address(&mut entry, kind, index, offset, address);
    entry
}
