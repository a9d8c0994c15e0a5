//! The entries of the numbers in an array.

ghost use Rattle.std.specs.Prelude.{◌≡◌, ◌≤◌, ◌<◌, ◌+◌, ◌*◌, ◌/◌, ◌^◌, length, slice_set};
ghost use Rattle.link_base.specs.Forms.{size_in};
ghost use Rattle.link_base.specs.Frame.{max_payload};
ghost use Rattle.link_base.specs.Layout.{number_at};
ghost use Rattle.link_base.specs.Number.{number};
ghost use Rattle.link_entries.specs.Flat.{held_number, number_entry, number_entries, Puts};

use crate::entry::Entry;
use crate::fields::array_number;
use crate::payload::form_in;
use link_base::FixedSize;
use link_base::rows::form::{ArrayOf, Order};
use link_base::views::content_by::number_in;

/// Stores the numbers of an array whose attribute type is `kind` and whose bytes start at offset `at`, the first in the
/// place `first`. Returns the place after them.
pub(crate) fn put_numbers(
    places: &mut [Entry],
    kind: u16,
    at: usize,
    first: usize,
    of: ArrayOf,
    bytes: &[u8],
) -> usize
    requires short { length bytes.now ≤ max_payload }
    requires offset { at + length bytes.now < 2 ^ 63 }
    requires place { first + length bytes.now < 2 ^ 63 }
    ensures { Puts places.old places.new first (number_entries kind at of bytes.now) result }
{
    // A loop of its own for each: the compiler then knows how many bytes each number has.
    match of {
        ArrayOf::U16 => put_each_number(places, kind, at, first, ArrayOf::U16, bytes),
        ArrayOf::U32 => put_each_number(places, kind, at, first, ArrayOf::U32, bytes),
        ArrayOf::U64 => put_each_number(places, kind, at, first, ArrayOf::U64, bytes),
        ArrayOf::I32 => put_each_number(places, kind, at, first, ArrayOf::I32, bytes),
    }
}

/// Stores numbers as [`put_numbers`] does.
#[inline(always)]
fn put_each_number(
    places: &mut [Entry],
    kind: u16,
    at: usize,
    first: usize,
    of: ArrayOf,
    bytes: &[u8],
) -> usize
    requires short { length bytes.now ≤ max_payload }
    requires offset { at + length bytes.now < 2 ^ 63 }
    requires place { first + length bytes.now < 2 ^ 63 }
    ensures { Puts places.old places.new first (number_entries kind at of bytes.now) result }
{
    let count = count_of(of, bytes);
    for i in 0..count {
        store_number(places, first + i, kind, at, of, i, bytes);
    }
    first + count
}

/// Returns how many numbers an array has.
#[inline]
pub(crate) fn count_of(of: ArrayOf, bytes: &[u8]) -> usize
    ensures count { result ≡ length bytes.now / size_in of }
    ensures within { result * size_in of ≤ length bytes.now }
    ensures fewer { result ≤ length bytes.now }
{
    bytes.len() / of.size()
}

/// Stores the entry of the number at an index of an array in the place `next`, if there is one.
#[inline(always)]
fn store_number(
    places: &mut [Entry],
    next: usize,
    kind: u16,
    at: usize,
    of: ArrayOf,
    index: usize,
    bytes: &[u8],
)
    requires within { (index + 1) * size_in of ≤ length bytes.now }
    requires short { length bytes.now ≤ max_payload }
    requires offset { at + length bytes.now < 2 ^ 63 }
    ensures { places.new ≡ slice_set places.old next (number_entry kind at of index
        (number_at (size_in of) (index * size_in of) bytes.now)) }
{
    if next < places.len() {
        places[next] = number_entry(kind, at, of, index, bytes);
    }
}

/// Returns the entry of the number at an index of an array.
#[inline(always)]
pub(crate) fn number_entry(kind: u16, at: usize, of: ArrayOf, index: usize, bytes: &[u8]) -> Entry
    requires within { (index + 1) * size_in of ≤ length bytes.now }
    requires short { length bytes.now ≤ max_payload }
    requires offset { at + length bytes.now < 2 ^ 63 }
    ensures { result ≡ number_entry kind at of index
        (number_at (size_in of) (index * size_in of) bytes.now) }
{
    let size = of.size();
    let start = index * size;
    let mut entry = Entry::blank(kind, index as u16, 1, (at + start) as u64, size as u32);
    entry.hold(
        form_in(array_number(of)),
        held_number(of, &bytes[start..start + size]),
    );
    entry
}

/// Returns the number of these bytes, as an entry has it.
#[inline(always)]
fn held_number(of: ArrayOf, octets: &[u8]) -> u64
    requires { length octets.now ≡ size_in of }
    ensures { result ≡ held_number of (number octets.now) }
{
    match of {
        ArrayOf::I32 => i64::from(i32::load(octets)).cast_unsigned(),
        _ => number_in(of.width(), Order::Little, octets),
    }
}
