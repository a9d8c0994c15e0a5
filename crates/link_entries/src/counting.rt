//! How many entries a list has.

ghost use Rattle.std.specs.Prelude.{◌≡◌, ◌≤◌, ◌<◌, ◌+◌, ◌*◌, ◌^◌, List, length, IfOk};
ghost use Rattle.link_base.specs.Borrowed.{HasValues, elements_at};
ghost use Rattle.link_base.specs.Viewed.{set_in, buffer_in, kind_in, payload_in};
ghost use Rattle.netlink_packet_route.specs.Family.{table_of};
ghost use Rattle.link_entries.specs.declared.entry.Entry.{Entry};
ghost use Rattle.link_entries.specs.Flat.{IsGroup, Flat, Counts};

use crate::flattening::put_below;
use link_base::views::attribute_set::{AttributeSet, ElementSet, Set};
use link_base::views::view::{Value, View};
use link_base::{Attribute, ListFault, check_list};
use netlink_packet_route::{Family, by_family};

/// Returns the number of entries that [`flatten`](crate::flatten) stores for a list, if there are so many places. Nothing is
/// allocated.
///
/// # Errors
///
/// The first error in the list, with the byte offset of its attribute.
pub fn count(family: Family, bytes: &[u8]) -> Result<usize, ListFault>
    ensures entries { Counts (table_of family) bytes.now result }
    ensures bounded { IfOk result (λ n. 2 * n ≤ length bytes.now) }
{
    by_family!(family, count_list(bytes))
}

/// Returns the number of entries of a list of attributes of the type `F`, as [`count`] does for a `Family`.
#[inline(always)]
fn count_list<F: Attribute>(bytes: &[u8]) -> Result<usize, ListFault>
    ensures entries { Counts F.table bytes.now result }
    ensures bounded { IfOk result (λ n. 2 * n ≤ length bytes.now) }
{
    check_list::<F>(bytes)?;
    Ok(count_entries::<F>(bytes))
}

/// Returns the number of entries of a list that decodes.
#[inline(never)]
fn count_entries<F: Attribute>(bytes: &[u8]) -> usize
    requires { HasValues F.table bytes.now }
    ensures { (es : List Entry) × Flat F.table bytes.now es × (result ≡ length es) × (2 * length es ≤ length bytes.now) }
{
    let mut rest = View::of_checked(bytes, Set::<F>::new());
    let mut count = 0;
    'values: loop {
        let at = bytes.len() - rest.bytes().len();
        match rest.next() {
            Some(value) => count += count_group(at, &value, ElementSet::<F>::new(value.kind())),
            None => return count,
        }
    }
}

/// Returns the number of entries of an attribute that starts at this offset. `elements` is the set of its elements.
#[inline(always)]
fn count_group<S: AttributeSet, E: AttributeSet>(
    at: usize,
    value: &Value<'_, S>,
    elements: E,
) -> usize
    requires elements { E.rows elements ≡ elements_at (S.rows (set_in value.now)) (kind_in value.now) }
    requires offset { at + (4 + length (payload_in value.now)) < 2 ^ 63 }
    ensures { (es : List Entry) × IsGroup (S.rows (set_in value.now)) (at, buffer_in value.now) es
        × (result ≡ length es) × (2 * length es ≤ 4 + length (payload_in value.now)) }
{
    let content = value.content();
    1 + put_below(&mut [], at + 4, 0, value, content, elements)
}
