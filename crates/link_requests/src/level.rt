//! The lists that the values of a request are in.

ghost use Rattle.std.specs.Prelude.{◌≡◌, true, Some, IfSome};
ghost use Rattle.link_base.specs.Borrowed.{elements_at};
ghost use Rattle.netlink_packet_route.specs.Family.{table_of};
ghost use Rattle.link_entries.specs.Fields.{IsNarrow, fields_at};
ghost use Rattle.link_requests.specs.Opening.{kinds_of};
ghost use Rattle.link_requests.specs.Value.{is_protinfo, row_for, is_placed, names_form, kind_for, type_for, set_for, is_held, is_allowed, scope_below, is_above, begins_at};
ghost use Rattle.link_requests.specs.Values.{kinds_in, kinds_among};
ghost use Rattle.link_requests.specs.declared.level.Scope.TheVariants.{Attributes};

use crate::context::set_at;
use crate::names::{is_kind, is_name};
use crate::text::text_among;
use link_base::NLA_F_NESTED;
use link_base::rows::form::ArrayOf;
use link_base::views::attribute_set::AttributeSet;
use link_entries::encoding::field_of;
use link_entries::fields::{Fields, array_number, fields_in, ip_address};
use link_entries::{Entry, forms};
use link_messages::link_types::{AF_BRIDGE, IFLA_IFNAME, IFLA_LINKINFO, IFLA_PROTINFO};
use netlink_packet_route::{Context, Family, FamilyElements, FamilySet, port_kind_in, without_nul};

/// The `inner` of a value that is an attribute of the message.
pub const OF_MESSAGE: u16 = u16::MAX;

const IFLA_INFO_KIND: u16 = 1;

const IFLA_INFO_SLAVE_KIND: u16 = 4;

/// A list that values are in.
#[derive(Clone, Copy)]
pub(crate) enum Scope {
    /// A list of attributes of a set.
    Attributes(Family),
    /// A nested list of this attribute type, in a list of a set.
    Elements(Family, u16),
    /// An array of numbers, of this attribute type.
    Numbers(ArrayOf, u16),
    /// A list of addresses of this size, of this attribute type.
    Addresses(usize, u16),
}

/// A list, at a depth.
#[derive(Clone, Copy)]
pub(crate) struct Level<'a> {
    /// The list.
    pub scope: Scope,
    /// The depth of its values.
    pub depth: u8,
    /// What decides which sets read the lists in it.
    pub context: Context<'a>,
}

/// Returns the fields that make the payload of a value, if the list has such a value.
pub(crate) fn row_for(level: &Level<'_>, entry: &Entry) -> Option<Fields>
    ensures value { result ≡ row_for level.now.scope level.now.context.address_family entry.now }
    ensures narrow { IfSome result IsNarrow }
{
    match level.scope {
        Scope::Attributes(family) => {
            Some(attribute_row(family, level.context.address_family, entry))
        }
        Scope::Elements(family, list) if entry.kind == list => {
            Some(element_fields(family, list, entry.inner))
        }
        Scope::Numbers(of, list) if entry.kind == list => Some(array_number(of)),
        Scope::Addresses(size, list) if entry.kind == list => Some(ip_address(size)),
        _ => None,
    }
}

/// Returns the fields that make the payload of an attribute of a set.
fn attribute_row(family: Family, address_family: u8, entry: &Entry) -> Fields
    ensures { Some result ≡ row_for (Attributes family) address_family entry.now }
{
    if is_protinfo(family, address_family, entry) {
        return Fields::Passed {
            form: forms::HELD,
            size: None,
        };
    }
    attribute_fields(family, entry.kind)
}

/// Returns the fields of attributes of a set with this type.
#[tactic(auto, using(link_entries::proofs::RowForms::label_fields))]
fn attribute_fields(family: Family, kind: u16) -> Fields
    ensures { result ≡ fields_at (table_of family) kind }
{
    fields_in(FamilySet { family }.label(kind))
}

/// Returns the fields of elements of this type, in the nested lists of type `list` of a set.
#[tactic(auto, using(link_entries::proofs::RowForms::label_fields))]
fn element_fields(family: Family, list: u16, inner: u16) -> Fields
    ensures { result ≡ fields_at (elements_at (table_of family) list) inner }
{
    fields_in(FamilyElements { family, list }.label(inner))
}

/// Checks whether a value is the `IFLA_PROTINFO` of an AF_BRIDGE request, as a list.
fn is_protinfo(family: Family, address_family: u8, entry: &Entry) -> bool
    ensures { result ≡ is_protinfo family address_family entry.now }
{
    family == Family::Link
        && address_family == AF_BRIDGE
        && entry.kind == IFLA_PROTINFO
        && entry.form == forms::HELD
}

/// Checks whether a value is in the list that it is meant for: an attribute of the message is marked as such, or names its form;
/// one of another set is not marked.
pub(crate) fn is_placed(scope: Scope, own: Fields, entry: &Entry) -> bool
    ensures { result ≡ is_placed scope own entry.now }
{
    match scope {
        Scope::Attributes(Family::Link) => entry.inner == OF_MESSAGE || names_form(own),
        Scope::Attributes(_) => entry.inner != OF_MESSAGE,
        _ => true,
    }
}

/// Checks whether values with these fields have to name their form.
fn names_form(own: Fields) -> bool
    ensures { result ≡ names_form own }
{
    matches!(own, Fields::Passed { size: None, .. } | Fields::Unknown)
}

/// Returns the `nla_type` of the value at this index of a list.
pub(crate) fn type_for(level: &Level<'_>, index: usize, own: Fields, entry: &Entry) -> u16
    ensures { result ≡ type_for level.now.scope level.now.context.address_family index own entry.now }
{
    match level.scope {
        Scope::Attributes(family) if is_protinfo(family, level.context.address_family, entry) => {
            NLA_F_NESTED | IFLA_PROTINFO
        }
        Scope::Attributes(_) => field_of(own, entry.kind, entry),
        Scope::Elements(..) => field_of(own, entry.inner, entry),
        _ => (index % 65536) as u16,
    }
}

/// Returns the set that reads the list in a value with these fields and this `nla_type`. If the value is not a list of another
/// set, the result is not used, and no set is looked for.
pub(crate) fn reader_for(level: &Level<'_>, own: Fields, nla_type: u16) -> Option<Family>
    ensures { is_held own ≡ true → result ≡ set_for level.now.scope (kinds_of level.now.context) nla_type }
{
    if !is_held(own) {
        return None;
    }
    set_for(level, nla_type)
}

/// Checks whether these fields are those of a list of another set.
fn is_held(own: Fields) -> bool
    ensures { result ≡ is_held own }
{
    matches!(
        own,
        Fields::Passed {
            form: forms::HELD,
            size: None
        }
    )
}

/// Returns the set that reads a list with this `nla_type`.
fn set_for(level: &Level<'_>, nla_type: u16) -> Option<Family>
    ensures { result ≡ set_for level.now.scope (kinds_of level.now.context) nla_type }
{
    match level.scope {
        Scope::Attributes(family) => set_at(&level.context, family, None, nla_type),
        Scope::Elements(family, list) => set_at(&level.context, family, Some(list), nla_type),
        _ => None,
    }
}

/// Checks whether Linux takes these bytes of a value.
pub(crate) fn is_allowed(scope: Scope, entry: &Entry, bytes: &[u8]) -> bool
    ensures { result ≡ is_allowed scope (kind_for scope entry.now) bytes.now }
{
    match scope {
        Scope::Attributes(family) if family == Family::Link && entry.kind == IFLA_IFNAME => {
            is_name(without_nul(bytes))
        }
        Scope::Elements(family, list) if family == Family::Link && list == IFLA_LINKINFO => {
            !matches!(entry.inner, IFLA_INFO_KIND | IFLA_INFO_SLAVE_KIND)
                || is_kind(without_nul(bytes))
        }
        _ => true,
    }
}

/// Returns the list that the values after one are in, if there is one. `reader` is the set that reads a list in the value.
pub(crate) fn scope_below(
    scope: Scope,
    reader: Option<Family>,
    own: Fields,
    entry: &Entry,
) -> Option<Scope>
    ensures { result ≡ scope_below scope reader own entry.now }
{
    match (scope, own) {
        (Scope::Attributes(family), Fields::List { .. }) => {
            Some(Scope::Elements(family, entry.kind))
        }
        (Scope::Attributes(_), Fields::Numbers { of }) => Some(Scope::Numbers(of, entry.kind)),
        (Scope::Attributes(_), Fields::Addresses { size }) => {
            Some(Scope::Addresses(size, entry.kind))
        }
        (
            _,
            Fields::Passed {
                form: forms::HELD,
                size: None,
            },
        ) => match reader {
            Some(family) => Some(Scope::Attributes(family)),
            None => None,
        },
        _ => None,
    }
}

/// Returns what decides which sets read the lists in a list. `entries` are its values, and those after them.
pub(crate) fn context_in<'a>(
    scope: Scope,
    depth: u8,
    context: Context<'a>,
    entries: &'a [Entry],
    octets: &'a [u8],
) -> Context<'a>
    ensures { kinds_of result ≡ kinds_in octets.now scope depth (kinds_of context.entry) entries.now }
{
    match scope {
        Scope::Elements(..) => context_among(depth, context.address_family, entries, octets),
        _ => context,
    }
}

/// Returns the context of the elements of a list: the kinds that are among them.
fn context_among<'a>(
    depth: u8,
    address_family: u8,
    entries: &'a [Entry],
    octets: &'a [u8],
) -> Context<'a>
    ensures { kinds_of result ≡ kinds_among octets.now depth address_family entries.now }
{
    let info_kind = text_among(depth, IFLA_INFO_KIND, entries, octets);
    let port_kind = text_among(depth, IFLA_INFO_SLAVE_KIND, entries, octets);
    Context {
        address_family,
        info_kind,
        port_kind: port_kind_in(info_kind, port_kind),
    }
}

/// Checks whether the first entry is deeper.
pub(crate) fn is_above(depth: u8, entries: &[Entry]) -> bool
    ensures { result ≡ is_above depth entries.now }
{
    !entries.is_empty() && entries[0].depth > depth
}

/// Checks whether the first entry has this depth, if there is one.
pub(crate) fn begins_at(depth: u8, entries: &[Entry]) -> bool
    ensures { result ≡ begins_at depth entries.now }
{
    entries.is_empty() || entries[0].depth == depth
}
