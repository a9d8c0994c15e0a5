//! Elements looked up in a list.

ghost use Rattle.std.specs.Prelude.{◌≡◌, ◌≤◌, ◌<◌, ◌+◌, ◌^◌, ◌==◌, List, Some, None, length, if◌then◌else◌};
ghost use Rattle.link_base.specs.Frame.{max_payload, kind_of};
ghost use Rattle.link_base.specs.Buffer.{kind_field_of, payload_of};
ghost use Rattle.link_base.specs.Viewed.{bytes_in, set_of, set_in, buffer_in, payload_in};
ghost use Rattle.netlink_packet_route.specs.Family.{table_of};
ghost use Rattle.netlink_packet_route.specs.Views.{family_in};
ghost use Rattle.link_entries.specs.declared.entry.Entry.{Entry};
ghost use Rattle.link_messages.specs.Walk.{Item, Walk};
ghost use Rattle.link_messages.specs.BeforeFault.{last_item};
ghost use Rattle.link_base.specs.Borrowed.{HasContent};
ghost use Rattle.link_entries.specs.Flat.{AreAddresses, number_entries, address_entry};
ghost use Rattle.link_entries.specs.Finding.{last_inner, IsOneElement, IsLastElement, IsElementFound, IsLastIn, FindsIn};

use crate::arrays::{count_of, number_entry};
use crate::elements::{address_entry, element_entry};
use crate::entry::Entry;
use crate::finding::last_value;
use link_base::rows::form::ArrayOf;
use link_base::views::attribute_set::{AttributeSet, Set};
use link_base::views::content::Content;
use link_base::views::view::{Value, View};
use link_base::{DefaultNla, ListFault, NlaBuffer};
use netlink_packet_route::{Family, FamilyElements, FamilySet, view_list};

/// Returns the entry of the last element `inner` of the last attribute of type `kind` in a list, as `flatten` stores it;
/// `None` if there is none. `inner` is the element's own attribute type, or its index in a list of addresses or an array of
/// numbers. Nothing is allocated.
///
/// # Errors
///
/// The first error in the list, with the byte offset of its attribute.
pub fn find_in(
    family: Family,
    bytes: &[u8],
    kind: u16,
    inner: u16,
) -> Result<Option<Entry>, ListFault>
    ensures { FindsIn (table_of family) kind inner bytes.now result }
{
    Ok(find_in_view(view_list(family, bytes)?, kind, inner))
}

/// Returns the entry of the last element `inner` of the last attribute of type `kind` of a view.
fn find_in_view(list: View<'_, FamilySet>, kind: u16, inner: u16) -> Option<Entry>
    ensures { IsLastIn (table_of (family_in (set_of list.entry))) kind inner (bytes_in list.entry) result }
{
    match last_value(list, kind) {
        Some((at, value)) => find_in_value(at, &value, inner),
        None => None,
    }
}

/// Returns the entry of the last element `inner` of an attribute that starts at this offset.
fn find_in_value(at: usize, value: &Value<'_, FamilySet>, inner: u16) -> Option<Entry>
    requires { at + (4 + length (payload_in value.now)) < 2 ^ 63 }
    ensures { IsElementFound (table_of (family_in (set_in value.now))) (Some (at, buffer_in value.now)) inner result }
{
    find_in_content(
        value.set().family,
        at + 4,
        &value.buffer(),
        value.content(),
        inner,
    )
}

/// Returns the entry of the last element `inner` of a content that starts at this offset.
fn find_in_content(
    family: Family,
    at: usize,
    buffer: &NlaBuffer<'_>,
    content: Content<'_>,
    inner: u16,
) -> Option<Entry>
    requires content { HasContent (table_of family) buffer.now content }
    requires offset { at + length (payload_of buffer.now) < 2 ^ 63 }
    ensures { IsLastElement (table_of family) (kind_of (kind_field_of buffer.now)) at content.entry inner result }
{
    let kind = buffer.kind();
    match content {
        Content::List { list, .. } => find_nested(
            kind,
            at,
            View::of_checked(list, FamilyElements { family, list: kind }),
            inner,
        ),
        Content::Addresses { list, size } => find_address(
            kind,
            at,
            View::of_checked(list, Set::<DefaultNla>::new()),
            size,
            inner,
        ),
        Content::Numbers { of, bytes } => find_number(kind, at, of, bytes, inner),
        _ => None,
    }
}

/// Returns the entry of the last element of type `inner` of a nested list.
fn find_nested<T: AttributeSet>(
    kind: u16,
    at: usize,
    elements: View<'_, T>,
    inner: u16,
) -> Option<Entry>
    requires { at + length (bytes_in elements) < 2 ^ 63 }
    ensures { (items : List Item) × Walk (bytes_in elements.entry) items None
        × IsOneElement (T.rows (set_of elements.entry)) kind at (last_item inner items) result }
{
    match last_value(elements, inner) {
        Some((offset, element)) => Some(element_entry(kind, at + (offset + 4), &element)),
        None => None,
    }
}

/// Returns the entry of the number at an index of an array.
fn find_number(kind: u16, at: usize, of: ArrayOf, bytes: &[u8], inner: u16) -> Option<Entry>
    requires short { length bytes.now ≤ max_payload }
    requires offset { at + length bytes.now < 2 ^ 63 }
    ensures { result ≡ last_inner inner (number_entries kind at of bytes.now) }
{
    let index = usize::from(inner);
    if index < count_of(of, bytes) {
        return Some(number_entry(kind, at, of, index, bytes));
    }
    None
}

/// Returns the entry of the address at an index of a list of addresses of `size` bytes each.
fn find_address(
    kind: u16,
    at: usize,
    addresses: View<'_, Set<DefaultNla>>,
    size: usize,
    inner: u16,
) -> Option<Entry>
    requires { at + length (bytes_in addresses) < 2 ^ 63 }
    ensures { (es : List Entry) × AreAddresses kind at size (bytes_in addresses.entry) es × (result ≡ last_inner inner es) }
{
    let length = addresses.bytes().len();
    let mut rest = addresses;
    let mut index = 0;
    let mut found = None;
    'addresses: loop {
        let offset = at + (length - rest.bytes().len()) + 4;
        match rest.next() {
            Some(address) => {
                let buffer = address.buffer();
                found = at_index(found, kind, index, offset, &buffer, size, inner);
                index = index_after(index, &buffer, size);
            }
            None => return found,
        }
    }
}

/// Returns the entry of an address of `size` bytes whose index is `inner`, and otherwise `found`.
#[inline]
fn at_index(
    found: Option<Entry>,
    kind: u16,
    index: usize,
    offset: usize,
    address: &NlaBuffer<'_>,
    size: usize,
    inner: u16,
) -> Option<Entry>
    ensures { result ≡ (if length (payload_of address.now) == size
        then (if index == inner then Some (address_entry kind index offset (payload_of address.now)) else found)
        else found) }
{
    if address.value_length() == size && index == usize::from(inner) {
        Some(address_entry(kind, inner, offset, address))
    } else {
        found
    }
}

/// Returns the index of the next address after an attribute, which is an address if it has `size` bytes.
#[inline]
fn index_after(index: usize, address: &NlaBuffer<'_>, size: usize) -> usize
    requires { index < 2 ^ 63 }
    ensures { result ≡ (if length (payload_of address.now) == size then index + 1 else index) }
{
    if address.value_length() == size {
        index + 1
    } else {
        index
    }
}
