//! Lists as arrays of values.

ghost use Rattle.std.specs.Prelude.{◌≡◌, ◌≤◌, ◌*◌, length, IfOk, OnErr};
ghost use Rattle.nlroute_ffi.specs.Calls.{PlacesAnswers, ValuesAnswers, FindAnswers, FindInAnswers};

use crate::refusal::Refusal;
use link_entries::{Entry, count, find, find_in, flatten};
use netlink_packet_route::Family;

/// Counts the values of a list, and the elements of those that are lists.
///
/// # Errors
///
/// `Fault` if the input is malformed.
pub(crate) fn count_places(family: Family, bytes: &[u8]) -> Result<usize, Refusal>
    ensures answer { PlacesAnswers bytes.now family result }
    ensures bounded { IfOk result (λ n. 2 * n ≤ length bytes.now) }
{
    match count(family, bytes) {
        Ok(count) => Ok(count),
        Err(_) => Err(Refusal::Fault),
    }
}

/// Stores the values of a list, each before its elements, in the first of `places`. Returns their number; the other places
/// are unchanged.
///
/// # Errors
///
/// `Fault` if the input is malformed; then all places are unchanged. `NoRoom` if there are too few places; then they hold
/// the first values.
pub(crate) fn store_values(
    family: Family,
    bytes: &[u8],
    places: &mut [Entry],
) -> Result<usize, Refusal>
    ensures answer { ValuesAnswers bytes.now places.old places.new family result }
    ensures bounded { IfOk result (λ n. 2 * n ≤ length bytes.now) }
{
    let room = places.len();
    match flatten(family, bytes, places) {
        Ok(count) if count <= room => Ok(count),
        Ok(_) => Err(Refusal::NoRoom),
        Err(_) => Err(Refusal::Fault),
    }
}

/// Stores the last value of type `kind` of a list in `value`, and returns 0.
///
/// # Errors
///
/// `Fault` if the input is malformed, `Absent` if it has no attribute of this type. On error `value` is unchanged.
pub(crate) fn find_value(
    family: Family,
    bytes: &[u8],
    kind: u16,
    value: &mut Entry,
) -> Result<usize, Refusal>
    ensures answer { FindAnswers bytes.now kind value.new family result }
    ensures zero { IfOk result (λ n. n ≡ 0) }
    ensures unchanged { OnErr result (value.new ≡ value.old) }
{
    match find(family, bytes, kind) {
        Ok(Some(found)) => {
            *value = found;
            Ok(0)
        }
        Ok(None) => Err(Refusal::Absent),
        Err(_) => Err(Refusal::Fault),
    }
}

/// Stores the last element `inner` of the last value of type `kind` of a list in `value`, and returns 0.
///
/// # Errors
///
/// `Fault` if the input is malformed, `Absent` if there is no such element. On error `value` is unchanged.
pub(crate) fn find_element(
    family: Family,
    bytes: &[u8],
    kind: u16,
    inner: u16,
    value: &mut Entry,
) -> Result<usize, Refusal>
    ensures answer { FindInAnswers bytes.now kind inner value.new family result }
    ensures zero { IfOk result (λ n. n ≡ 0) }
    ensures unchanged { OnErr result (value.new ≡ value.old) }
{
    match find_in(family, bytes, kind, inner) {
        Ok(Some(found)) => {
            *value = found;
            Ok(0)
        }
        Ok(None) => Err(Refusal::Absent),
        Err(_) => Err(Refusal::Fault),
    }
}
