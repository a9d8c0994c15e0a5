//! Copies that fail if an allocation fails.

ghost use Rattle.std.specs.Prelude.{◌≡◌, ◌<◌, IsTrue, IfOk, OnErr, length, map};
ghost use Rattle.std.specs.Cmp.Lexicographic.{pointwise};
ghost use Rattle.link_base.specs.Held.{HoldsMemory};

use crate::rows::attribute::Meaning;
use crate::rows::nested::NestedAttribute;
use std::alloc::{AllocError, Global};

/// A value that can be copied, unless an allocation fails.
pub trait TryClone: Meaning + PartialEq {
    /// Returns an equal value.
    ///
    /// # Errors
    ///
    /// `AllocError` if an allocation fails, which is possible only for `Other` and for variants that hold bytes, a
    /// string or a list.
    fn try_clone(&self, alloc: Global) -> Result<Self, AllocError>
        ensures copy { IfOk result (λ copy. Self.means copy ≡ Self.means self.now) }
        ensures equal { IfOk result (λ copy. IsTrue (Self.PartialEq.eq copy self.now)) }
        ensures memory { OnErr result (HoldsMemory Self.table (Self.means self.now)) };
}

/// Copies a list, for a copy of the attribute that contains it.
///
/// # Errors
///
/// `AllocError` if an allocation fails, which is possible only if the list is not empty.
pub fn try_clone_list<E: NestedAttribute + TryClone>(
    alloc: Global,
    values: &[E],
) -> Result<Vec<E>, AllocError>
    ensures copies { IfOk result (λ copies. map E.leaf copies.items ≡ map E.leaf values.now) }
    ensures equal { IfOk result (λ copies. IsTrue (pointwise E.PartialEq.eq copies.items values.now)) }
    ensures memory { OnErr result (0 < length values.now) }
{
    let mut copies = Vec::with_capacity(alloc, values.len())?;
    for value in values {
        let copy = value.try_clone(alloc)?;
        copies.push(copy)?;
    }
    Ok(copies)
}
