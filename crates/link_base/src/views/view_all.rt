//! Views of lists that may be malformed: each attribute that decodes, or its error.

ghost use Rattle.std.specs.Prelude.{◌≡◌, ◌+◌, ◌-◌, ◌/◌, ◌≤◌, length, IfSome};
ghost use Rattle.std.specs.Iterator.{at_most, UpTo};
ghost use Rattle.std.specs.Iterator.SizeHint.{IsWithinCount};

use crate::views::attribute_set::CheckedSet;
use crate::views::view::Value;
use crate::wire::buffer::NlaBuffer;
use crate::wire::fault::{DecodeFault, ListFault};
use crate::wire::iterator::count_bounds;

/// The attributes of a list that may be malformed: each that decodes, or its error. It borrows the bytes of the list.
///
/// A malformed payload does not end the iteration. A malformed header does, since nothing tells where the next attribute
/// starts: its error is the last item.
#[derive(Drop)]
pub struct ViewAll<'a, S> {
    bytes: &'a [u8],
    rest: &'a [u8],
    set: S,
    ghost within: { length rest.now ≤ length bytes.now },
}

impl<'a, S> ViewAll<'a, S> {
    ghost use Rattle.link_base.specs.Viewed.{all_set_of, IsAllOf};

    /// Returns a view of a list of attributes of `set`, which may be malformed.
    pub fn new(bytes: &'a [u8], set: S) -> Self
        ensures list { IsAllOf bytes.now result }
        ensures set { all_set_of result ≡ set }
    {
        ViewAll {
            bytes,
            rest: bytes,
            set,
        }
    }
}

impl<'a, S> ViewAll<'a, S> {
    ghost use Rattle.link_base.specs.Viewed.{whole_of, left_of};

    /// Returns the byte offset in the list of the attribute that comes next.
    #[inline]
    pub fn offset(&self) -> usize
        ensures { result ≡ length (whole_of self.now) - length (left_of self.now) }
    {
        self.bytes.len() - self.rest.len()
    }
}

impl<'a, S: CheckedSet> ViewAll<'a, S> {
    ghost use Rattle.link_base.specs.Viewed.{whole_of, left_of, all_set_of};

    /// Returns the same view at `rest`, a part of the list.
    #[inline(always)]
    fn at(&self, rest: &'a [u8]) -> Self
        requires { length rest.now ≤ length (left_of self.now) }
        ensures list { whole_of result ≡ whole_of self.now }
        ensures rest { left_of result ≡ rest.now }
        ensures set { all_set_of result ≡ all_set_of self.now }
    {
        ViewAll {
            bytes: self.bytes,
            rest,
            set: self.set,
        }
    }
}

impl<'a, S: CheckedSet> Iterator for ViewAll<'a, S> {
    ghost use Rattle.link_base.specs.Viewed.{left_of, all_set_of, NextOfAll};
    ghost use Rattle.link_base.specs.IteratorItems.{IsHint};

    type Item = Result<Value<'a, S>, ListFault>;

    ghost next_gives = { λ s r t. NextOfAll (S.rows (all_set_of s)) s r t };

    ghost remaining = { λ s. at_most ((length (left_of s) + 3) / 4) };

    fn next(&mut self) -> Option<Result<Value<'a, S>, ListFault>> {
        if self.rest.is_empty() {
            return None;
        }
        let set = self.set;
        let at = self.offset();
        match NlaBuffer::split_first(self.rest) {
            Ok((buffer, others)) => {
                *self = self.at(others);
                match Value::new(buffer, set) {
                    Ok(value) => Some(Ok(value)),
                    Err(fault) => Some(Err(ListFault { at, fault })),
                }
            }
            Err(cause) => {
                *self = self.at(&[]);
                let fault = DecodeFault::Frame(cause);
                Some(Err(ListFault { at, fault }))
            }
        }
    }

    /// Returns the bounds of [`count_bounds`] on the number of items that are left.
    fn size_hint(&self) -> (usize, Option<usize>)
        ensures lower { IsWithinCount result.0 (at_most ((length (left_of self.now) + 3) / 4)) }
        ensures upper { IfSome result.1 (UpTo (at_most ((length (left_of self.now) + 3) / 4))) }
        ensures bounds { IsHint (left_of self.now) result }
    {
        count_bounds(self.rest)
    }
}
