//! Entries looked up in a list.

ghost use Rattle.std.specs.Prelude.{◌≡◌, ◌≤◌, ◌<◌, ◌+◌, ◌^◌, ◌==◌, List, Some, None, IfSome, length, if◌then◌else◌};
ghost use Rattle.std.specs.Option.{option_map};
ghost use Rattle.link_base.specs.Viewed.{bytes_in, set_of, set_in, buffer_in, kind_in, payload_in};
ghost use Rattle.link_messages.specs.Walk.{Item, Walk};
ghost use Rattle.link_messages.specs.BeforeFault.{last_item};
ghost use Rattle.netlink_packet_route.specs.Family.{table_of};
ghost use Rattle.netlink_packet_route.specs.Views.{family_in};
ghost use Rattle.link_entries.specs.Finding.{item_of, IsEntryOf, IsLastOf, Finds};

use crate::entry::Entry;
use crate::flattening::put_group;
use link_base::ListFault;
use link_base::views::attribute_set::AttributeSet;
use link_base::views::view::{Value, View};
use netlink_packet_route::{Family, FamilyElements, FamilySet, view_list};

/// Returns the entry of the last attribute of type `kind` in a list, as `flatten` stores it; `None` if there is none. Unless
/// it takes all attributes of a type, Linux takes the last. Nothing is allocated.
///
/// # Errors
///
/// The first error in the list, with the byte offset of its attribute.
pub fn find(family: Family, bytes: &[u8], kind: u16) -> Result<Option<Entry>, ListFault>
    ensures { Finds (table_of family) kind bytes.now result }
{
    Ok(find_in_view(view_list(family, bytes)?, kind))
}

/// Returns the entry of the last attribute of type `kind` of a view.
fn find_in_view(list: View<'_, FamilySet>, kind: u16) -> Option<Entry>
    ensures { IsLastOf (table_of (family_in (set_of list.entry))) kind (bytes_in list.entry) result }
{
    let (at, value) = last_value(list, kind)?;
    Some(entry_of(at, &value))
}

/// Returns the last attribute of type `kind` of a view, with its offset.
pub(crate) fn last_value<'a, S: AttributeSet>(
    list: View<'a, S>,
    kind: u16,
) -> Option<(usize, Value<'a, S>)>
    ensures last { (items : List Item) × Walk (bytes_in list.entry) items None
        × (option_map item_of result ≡ last_item kind items) }
    ensures set { IfSome result (λ x. set_in x.1 ≡ set_of list.entry) }
    ensures within { IfSome result (λ x. x.0 + (4 + length (payload_in x.1)) ≤ length (bytes_in list.entry)) }
{
    let length = list.bytes().len();
    let mut rest = list;
    let mut found = None;
    'values: loop {
        let at = length - rest.bytes().len();
        match rest.next() {
            Some(value) => found = later(found, at, value, kind),
            None => return found,
        }
    }
}

/// Returns an attribute with its offset if its type is `kind`, and otherwise `found`.
#[inline]
fn later<'a, S: AttributeSet>(
    found: Option<(usize, Value<'a, S>)>,
    at: usize,
    value: Value<'a, S>,
    kind: u16,
) -> Option<(usize, Value<'a, S>)>
    ensures { result ≡ (if kind_in value.entry == kind then Some (at, value.entry) else found.entry) }
{
    if value.kind() == kind {
        Some((at, value))
    } else {
        found
    }
}

/// Returns the entry of an attribute that starts at this offset.
fn entry_of(at: usize, value: &Value<'_, FamilySet>) -> Entry
    requires { at + (4 + length (payload_in value.now)) < 2 ^ 63 }
    ensures { IsEntryOf (table_of (family_in (set_in value.now))) (at, buffer_in value.now) result }
{
    let family = value.set().family;
    let list = value.kind();
    let mut place = [Entry::blank(0, 0, 0, 0, 0)];
    put_group(&mut place, at, 0, value, FamilyElements { family, list });
    place[0]
}
