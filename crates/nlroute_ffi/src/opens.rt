//! Which attribute set reads the list in a value.

ghost use Rattle.std.specs.Prelude.{◌≡◌, ℕ, ◌+◌, ◌<◌, ◌^◌, List, length, Option, Some, IfOk, if◌then◌else◌};
ghost use Rattle.link_base.specs.declared.wire.fault.Cause.{Cause};
ghost use Rattle.link_base.specs.Buffer.{payload_of};
ghost use Rattle.link_messages.specs.Walk.{Item, Walk};
ghost use Rattle.nlroute_ffi.specs.Opens.{may_hold, type_of, is_around, around, found_in, OpensOf, OpensAt, Opens, OpensAnswers};

use crate::names::own_kind;
use crate::refusal::Refusal;
use link_base::NlaBuffer;
use link_base::views::content::Content;
use link_base::views::view::{Value, View};
use link_entries::{Entry, forms};
use netlink_packet_route::{Context, Family, FamilyElements, FamilySet, opened};

/// Returns the number of the attribute set that reads the list in `value`, a value of a list of `family` in a message of this
/// address family. `list` are the bytes of the list that has the value.
///
/// # Errors
///
/// `Absent` if none does.
pub(crate) fn opens(
    family: Family,
    address_family: u8,
    value: &Entry,
    list: &[u8],
) -> Result<usize, Refusal>
    ensures answer { OpensAnswers address_family value.now list.now family result }
    ensures bounded { IfOk result (λ n. n < 2 ^ 63) }
{
    match opened_by(&Context::of_message(address_family), family, value, list) {
        Some(set) => Ok(set.number() as usize),
        None => Err(Refusal::Absent),
    }
}

/// Returns the attribute set that reads the list in a value, or `None`.
fn opened_by(context: &Context<'_>, family: Family, value: &Entry, list: &[u8]) -> Option<Family>
    ensures { Opens context.now family value.now list.now result }
{
    if !may_hold(value.depth, value.form) {
        return None;
    }
    match value.depth {
        0 => opened(family, None, type_of(value), context),
        1 => opened_in(context, family, value, list),
        _ => None,
    }
}

/// Checks whether values of this depth and form may be lists of another set; a peer may not, if it is an element.
fn may_hold(depth: u8, form: u8) -> bool
    ensures { result ≡ may_hold depth form }
{
    form == forms::HELD || form == forms::UNKNOWN || (form == forms::PEER && depth == 0)
}

/// Returns the `nla_type` of a value, with its flags.
fn type_of(value: &Entry) -> u16
    ensures { result ≡ type_of value.now }
{
    own_kind(value) | value.flags
}

/// Returns the attribute set that reads the list in an element of a nested list, or `None`.
fn opened_in(context: &Context<'_>, family: Family, value: &Entry, list: &[u8]) -> Option<Family>
    ensures { OpensAt 1 context.now family value.now list.now result }
{
    match attribute_around(list, value.kind, value.offset) {
        Some(around) => opened_among(context, family, value, around),
        None => None,
    }
}

/// Returns the attribute set that reads the list in an element of `around`, or `None`.
fn opened_among(
    context: &Context<'_>,
    family: Family,
    value: &Entry,
    around: NlaBuffer<'_>,
) -> Option<Family>
    ensures { OpensOf context.now family value.now around.entry result }
{
    let Ok(attribute) = Value::new(around, FamilySet { family }) else {
        return None;
    };
    match attribute.content() {
        Content::List { list, .. } => {
            let nest = FamilyElements {
                family,
                list: attribute.kind(),
            };
            let elements = View::of_checked(list, nest);
            let inner = context.of_elements(&elements);
            opened(family, Some(value.kind), type_of(value), &inner)
        }
        _ => None,
    }
}

/// Returns the attribute of type `kind` whose payload has the byte at `offset`, or ends there; `None` if there is none before
/// the first malformed header.
fn attribute_around(list: &[u8], kind: u16, offset: u64) -> Option<NlaBuffer<'_>>
    ensures { (items : List Item) × (fault : Option (ℕ × Cause)) × Walk list.now items fault
        × (result ≡ found_in (around kind offset items)) }
{
    let mut found = None;
    let mut rest = list;
    while !rest.is_empty() {
        let at = list.len() - rest.len();
        match NlaBuffer::split_first(rest) {
            Ok((attribute, after)) => {
                found = later(found, attribute, at, kind, offset);
                rest = after;
            }
            Err(_) => return found,
        }
    }
    found
}

/// Returns `attribute`, which is at offset `at`, if it is of type `kind` and has the byte at `offset`, and otherwise `found`.
fn later<'a>(
    found: Option<NlaBuffer<'a>>,
    attribute: NlaBuffer<'a>,
    at: usize,
    kind: u16,
    offset: u64,
) -> Option<NlaBuffer<'a>>
    requires { at + 4 + length (payload_of attribute) < 2 ^ 64 }
    ensures { result ≡ (if is_around kind offset (at, attribute.entry) then Some attribute.entry else found.entry) }
{
    let start = (at + 4) as u64;
    let end = (at + 4 + attribute.value().len()) as u64;
    if attribute.kind() == kind && start <= offset && offset <= end {
        return Some(attribute);
    }
    found
}
