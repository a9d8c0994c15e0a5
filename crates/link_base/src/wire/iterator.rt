//! Iteration over the attributes of a list.

ghost use Rattle.std.specs.Prelude.{◌≡◌, length, ◌+◌, ◌/◌, IfSome};
ghost use Rattle.std.specs.Iterator.{at_most, UpTo};
ghost use Rattle.std.specs.Iterator.SizeHint.{IsWithinCount};
ghost use Rattle.link_base.specs.IteratorItems.{bytes_left, NextFrame, IsHint};

use crate::wire::buffer::NlaBuffer;
use crate::wire::fault::{DecodeError, DecodeFault};

/// Iterates over the attributes of a list. If an attribute's header is malformed, that error is the last item. The
/// iterator borrows the bytes, copies none, and does not allocate.
#[derive(Clone, Copy, Debug, PartialEq, Eq)]
pub struct NlasIterator<'a> {
    rest: &'a [u8],
}

impl<'a> NlasIterator<'a> {
    /// Returns an iterator over the attributes in `bytes`.
    pub fn new(bytes: &'a [u8]) -> Self
        ensures { bytes_left result ≡ bytes.now }
    {
        NlasIterator { rest: bytes }
    }
}

impl<'a> Iterator for NlasIterator<'a> {
    type Item = Result<NlaBuffer<'a>, DecodeError>;

    ghost next_gives = { λ s r t. NextFrame (bytes_left s) r (bytes_left t) };

    ghost remaining = { λ s. at_most ((length (bytes_left s) + 3) / 4) };

    fn next(&mut self) -> Option<Result<NlaBuffer<'a>, DecodeError>> {
        if self.rest.is_empty() {
            return None;
        }
        match NlaBuffer::split_first(self.rest) {
            Ok((buffer, after)) => {
                self.rest = after;
                Some(Ok(buffer))
            }
            Err(cause) => {
                self.rest = &[];
                Some(Err(DecodeError::Fault(DecodeFault::Frame(cause))))
            }
        }
    }

    /// Returns the bounds of [`count_bounds`] on the number of items that are left.
    fn size_hint(&self) -> (usize, Option<usize>)
        ensures lower { IsWithinCount result.0 (at_most ((length (bytes_left self.now) + 3) / 4)) }
        ensures upper { IfSome result.1 (UpTo (at_most ((length (bytes_left self.now) + 3) / 4))) }
        ensures bounds { IsHint (bytes_left self.now) result }
    {
        count_bounds(self.rest)
    }
}

/// Returns bounds on the number of attributes in these bytes, where an error counts as one: 1, or 0 if there are no bytes,
/// and the number of bytes, divided by four and rounded up.
#[inline]
pub(crate) fn count_bounds(bytes: &[u8]) -> (usize, Option<usize>)
    ensures { IsHint bytes.now result }
{
    let left = bytes.len();
    let least = left.min(1);
    let most = (left + 3) / 4;
    (least, Some(most))
}
