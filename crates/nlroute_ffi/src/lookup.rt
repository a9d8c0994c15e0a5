//! Attribute sets, attribute types and numbers, looked up by their names; and what entries of a type hold.

ghost use Rattle.std.specs.Prelude.{◌≡◌, ◌↔◌, ◌<◌, ◌^◌, Some, IfOk, OnErr, IsTrue};
ghost use Rattle.link_base.specs.Labels.{label_in, names_in};
ghost use Rattle.netlink_packet_route.specs.Family.{InfoKind, PortKind};
ghost use Rattle.nlroute_ffi.specs.Lookup.{FamilyNameAnswers, FamilyOfAnswers, HeldByAnswers, name_at, FindsKind, RowAnswers};
ghost use Rattle.nlroute_ffi.specs.Lookup.{number_in, number_named, NumberOfAnswers};

use crate::buffers::store;
use crate::names::label_of;
use crate::refusal::Refusal;
use link_base::NLA_TYPE_MASK;
use link_base::rows::label::{KindLabel, Name};
use link_base::views::attribute_set::AttributeSet;
use link_entries::{Entry, Row, row_for};
use netlink_packet_route::Family;

/// Stores the name of the attribute set. Returns its length.
pub(crate) fn store_family_name(family: Family, buffer: &mut [u8]) -> Result<usize, Refusal>
    ensures answer { FamilyNameAnswers buffer.old buffer.new family result }
    ensures bounded { IfOk result (λ n. n < 2 ^ 63) }
{
    Ok(store(family.name().as_bytes(), buffer))
}

/// Returns the number of the attribute set with this name.
///
/// # Errors
///
/// `NoFamily` if there is none.
pub(crate) fn family_of(name: &[u8]) -> Result<usize, Refusal>
    ensures answer { FamilyOfAnswers name.now result }
    ensures bounded { IfOk result (λ n. n < 2 ^ 63) }
{
    match str::from_utf8(name) {
        Ok(name) => match Family::from_name(name) {
            Some(family) => Ok(family.number() as usize),
            None => Err(Refusal::NoFamily),
        },
        Err(_) => Err(Refusal::NoFamily),
    }
}

/// Returns the number of the attribute set of the devices whose `IFLA_INFO_KIND` is `kind`, without a NUL at its end.
///
/// # Errors
///
/// `NoFamily` if there is none.
pub(crate) fn from_info_kind(kind: &[u8]) -> Result<usize, Refusal>
    ensures answer { HeldByAnswers (InfoKind kind.now) result }
    ensures bounded { IfOk result (λ n. n < 2 ^ 63) }
{
    match Family::from_info_kind(kind) {
        Some(family) => Ok(family.number() as usize),
        None => Err(Refusal::NoFamily),
    }
}

/// Returns the number of the attribute set of the ports whose `IFLA_INFO_SLAVE_KIND` is `kind`, without a NUL at its
/// end.
///
/// # Errors
///
/// `NoFamily` if there is none.
pub(crate) fn from_port_kind(kind: &[u8]) -> Result<usize, Refusal>
    ensures answer { HeldByAnswers (PortKind kind.now) result }
    ensures bounded { IfOk result (λ n. n < 2 ^ 63) }
{
    match Family::from_port_kind(kind) {
        Some(family) => Ok(family.number() as usize),
        None => Err(Refusal::NoFamily),
    }
}

/// Returns the attribute type of the set with this name.
///
/// # Errors
///
/// `Absent` if there is none.
pub(crate) fn kind_of<S: AttributeSet>(set: S, name: &[u8]) -> Result<usize, Refusal>
    ensures answer { FindsKind (S.rows set) name.now result }
    ensures bounded { IfOk result (λ n. n < 2 ^ 63) }
{
    for kind in 0..NLA_TYPE_MASK + 1 {
        if is_named(&set, kind, name) {
            return Ok(usize::from(kind));
        }
    }
    Err(Refusal::Absent)
}

/// Checks whether an attribute type has this name.
fn is_named<S: AttributeSet>(set: &S, kind: u16, name: &[u8]) -> bool
    ensures { IsTrue result ↔ (name_at (S.rows set.now) kind ≡ Some name.now) }
{
    match set.label(kind) {
        Some(label) => label.name.as_bytes() == name,
        None => false,
    }
}

/// Stores in `row` what entries of type `kind`, or of its element `inner` if `depth` is 1, hold, and returns 0.
///
/// # Errors
///
/// `BadElement` if it has no elements, or if `depth` is greater. Then `row` is unchanged.
pub(crate) fn store_row(
    family: Family,
    kind: u16,
    inner: u16,
    depth: u8,
    row: &mut Row,
) -> Result<usize, Refusal>
    ensures answer { RowAnswers kind inner depth row.new family result }
    ensures zero { IfOk result (λ n. n ≡ 0) }
    ensures unchanged { OnErr result (row.new ≡ row.old) }
{
    match row_for(family, kind, inner, depth) {
        Some(found) => {
            *row = found;
            Ok(0)
        }
        None => Err(Refusal::BadElement),
    }
}

/// Stores the number of the type of `value` that has this name in `number`, and returns 0.
///
/// # Errors
///
/// `Absent` if there is none. Then `number` is unchanged.
pub(crate) fn number_of(
    family: Family,
    value: &Entry,
    name: &[u8],
    number: &mut u64,
) -> Result<usize, Refusal>
    ensures answer { NumberOfAnswers value.now name.now number.new family result }
    ensures zero { IfOk result (λ n. n ≡ 0) }
    ensures unchanged { OnErr result (number.new ≡ number.old) }
{
    match number_named(label_of(family, value), name) {
        Some(found) => {
            *number = found;
            Ok(0)
        }
        None => Err(Refusal::Absent),
    }
}

fn number_named(label: Option<KindLabel>, name: &[u8]) -> Option<u64>
    ensures { result ≡ number_named (label_in label) name.now }
{
    number_in(label?.names, name)
}

/// Returns the first number with this name.
fn number_in(names: &[Name], name: &[u8]) -> Option<u64>
    ensures { result ≡ number_in (names_in names.now) name.now }
{
    for named in names {
        if named.text.as_bytes() == name {
            return Some(named.number);
        }
    }
    None
}
