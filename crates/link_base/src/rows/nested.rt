//! Attribute lists as the payload of an attribute (nested lists).

ghost use Rattle.std.specs.Prelude.{◌≡◌, ◌≤◌, length, map, Bool, None};
ghost use Rattle.std.specs.List.{AllByRecursion};
ghost use Rattle.link_base.specs.Frame.{frame_fault, max_payload};
ghost use Rattle.link_base.specs.Table.{Rows, Leaf, Case, Nested, Inner, ShapeGives, written_leaves};
ghost use Rattle.link_base.specs.Lift.{lift, lift_table};
ghost use Rattle.link_base.specs.Held.{LeafInRange};
ghost use Rattle.link_base.specs.Answers.{Answers, OnMemory, capped};

use crate::lists::reading::read_list;
use crate::lists::writing::{emit_list, list_len};
use crate::rows::attribute::Attribute;
use crate::wire::fault::DecodeError;
use std::alloc::Global;

/// An element of a nested list. Its table has no lists.
pub trait NestedAttribute: Attribute {
    /// The rows of the type's table: attribute types, and the classes of their payloads.
    ghost rows: { Rows };

    /// Whether `nla_type` of these lists is written with the nested flag (`NLA_F_NESTED`).
    const FLAGGED: bool;

    ghost FLAGGED: { Bool };

    /// The attribute that a value represents.
    ghost leaf: { Self → Leaf };

    /// The table of the type consists of these rows.
    ghost same_table: { Self.table ≡ lift_table rows };

    /// `means` is `leaf`, as an attribute of that table.
    ghost same_means: { (x : Self) → Self.means x ≡ lift (leaf x) };
}

/// Parses the payload of an attribute of type `kind` as a nested list.
///
/// # Errors
///
/// `NestedFrame` if the header of an element is malformed, `NestedValue` if its payload is. `Memory` if an allocation
/// fails, which is possible only if the payload starts with a whole element.
pub fn read_nested<E: NestedAttribute>(
    alloc: Global,
    kind: u16,
    payload: &[u8],
) -> Result<Vec<E>, DecodeError>
    ensures answer { Answers (λ vs. Case kind (Inner E.FLAGGED (map E.leaf vs.items))) result
        (ShapeGives (Nested E.FLAGGED E.rows) kind payload.now) }
    ensures memory { OnMemory result (frame_fault payload.now ≡ None) }
{
    match read_list(alloc, payload) {
        Ok(values) => Ok(values),
        Err(error) => Err(error.nested(kind)),
    }
}

/// Returns the length of a written nested list in bytes; saturates at `usize::MAX`.
#[inline(never)]
pub fn nested_len<E: NestedAttribute>(values: &[E]) -> usize
    ensures { result ≡ capped (length (written_leaves (map E.leaf values.now))) }
{
    list_len(values)
}

/// Writes a nested list. `buffer` must be exactly `nested_len(values)` bytes long, which must be at most 65531.
#[inline(never)]
pub fn emit_nested<E: NestedAttribute>(values: &[E], buffer: &mut [u8])
    requires fits { length (written_leaves (map E.leaf values.now)) ≤ max_payload }
    requires exact { length buffer.old ≡ length (written_leaves (map E.leaf values.now)) }
    ensures written { buffer.new ≡ written_leaves (map E.leaf values.now) }
    ensures in_range { AllByRecursion (LeafInRange E.rows) (map E.leaf values.now) }
{
    emit_list(values, buffer);
}
