//! The offsets of all attributes of a list, found before any attribute is decoded.

ghost use Rattle.std.specs.Prelude.{◌≡◌, ◌+◌, ◌/◌, ◌<◌, IfOk, OnOk, OnErr, IsTrue, [], ◌↔◌, None, length, slice_index_or, vec_len, vec_capacity};
ghost use Rattle.link_base.specs.Frame.{frame_fault};
ghost use Rattle.link_base.specs.FrameOffsets.{BeginFrames, FindsBefore, Finds};

use crate::wire::buffer::{NlaBuffer, cause_at_front};
use crate::wire::fault::Cause;
use smallvec::SmallVec;
use std::alloc::{AllocError, Global};

/// The number of offsets that a table holds without allocating.
const INLINE: usize = 8;

/// The offsets of the attributes in some bytes and, if there is one, the first error in an attribute's header. The
/// table borrows the bytes and copies none. It allocates only for more than eight attributes: once, with space for one
/// offset per eight bytes that are left after these, and once more if attributes are shorter than that.
#[derive(Debug, PartialEq, Eq, Drop)]
pub struct FrameTable<'a> {
    bytes: &'a [u8],
    offsets: SmallVec<usize, INLINE>,
    fault: Option<(usize, Cause)>,
    ghost frames: { BeginFrames bytes.now offsets.items },
}

impl<'a> FrameTable<'a> {
    ghost use Rattle.link_base.specs.FrameTableParts.{walked_bytes, offsets_of, fault_of, IsFrameAt};

    /// Returns a table of the attributes in `bytes`. If a header is malformed, the table has the attributes before it,
    /// and `fault` returns the error.
    ///
    /// # Errors
    ///
    /// `AllocError` if an allocation fails, which is possible only if `bytes` start with a whole attribute.
    pub fn walk(alloc: Global, bytes: &'a [u8]) -> Result<FrameTable<'a>, AllocError>
        ensures bytes { IfOk result (λ t. walked_bytes t ≡ bytes.now) }
        ensures finds { IfOk result (λ t. Finds bytes.now (offsets_of t) (fault_of t)) }
        ensures memory { OnErr result (frame_fault bytes.now ≡ None) }
    {
        let mut table = FrameTable::before_walk(alloc, bytes);
        table.find_frames()?;
        Ok(table)
    }

    /// Returns a table in which no attribute has been found yet. Other functions of this crate fill it in place, so
    /// that it is never moved.
    #[inline]
    pub(crate) fn before_walk(alloc: Global, bytes: &'a [u8]) -> FrameTable<'a>
        ensures bytes { walked_bytes result ≡ bytes.now }
        ensures empty { offsets_of result ≡ [] }
    {
        FrameTable {
            bytes,
            offsets: SmallVec::new(alloc),
            fault: None,
        }
    }

    /// Finds the attributes. The table must hold no offset yet.
    #[inline(always)]
    pub(crate) fn find_frames(&mut self) -> Result<(), AllocError>
        requires { offsets_of self.old ≡ [] }
        ensures bytes { walked_bytes self.new ≡ walked_bytes self.old }
        ensures finds { OnOk result (Finds (walked_bytes self.old) (offsets_of self.new) (fault_of self.new)) }
        ensures memory { OnErr result (frame_fault (walked_bytes self.old) ≡ None) }
    {
        let bytes = self.bytes;
        self.fault = None;
        let mut rest = bytes;

        // The capacity is never less.
        prove!(INLINE <= self.offsets.capacity());
        for _place in 0..INLINE {
            if rest.is_empty() {
                return Ok(());
            }
            if let Some(cause) = cause_at_front(rest) {
                self.fault = Some((bytes.len() - rest.len(), cause));
                return Ok(());
            }
            self.offsets.push_reserved(bytes.len() - rest.len());
            rest = NlaBuffer::at_front(rest).step_over(rest);
        }
        find_others(&mut self.offsets, &mut self.fault, bytes, rest)
    }

    /// Returns the number of attributes.
    #[inline]
    pub fn len(&self) -> usize
        ensures { result ≡ length (offsets_of self.now) }
    {
        self.offsets.len()
    }

    /// Checks whether there are no attributes.
    #[inline]
    pub fn is_empty(&self) -> bool
        ensures { IsTrue result ↔ (length (offsets_of self.now) ≡ 0) }
    {
        self.offsets.is_empty()
    }

    /// Returns the byte offset of attribute `i`. `i` must be less than `len()`.
    #[inline]
    pub fn offset(&self, i: usize) -> usize
        requires { i < length (offsets_of self.now) }
        ensures { result ≡ slice_index_or (offsets_of self.now) i 0 }
    {
        self.offsets[i]
    }

    /// Returns attribute `i`, borrowed from the bytes. `i` must be less than `len()`.
    #[inline]
    pub fn frame(&self, i: usize) -> NlaBuffer<'a>
        requires { i < length (offsets_of self.now) }
        ensures { IsFrameAt self.now i result }
    {
        NlaBuffer::at_front(&self.bytes[self.offset(i)..])
    }

    /// Returns the byte offset and the cause of the first error in an attribute's header, if there is one.
    #[inline]
    pub fn fault(&self) -> Option<(usize, Cause)>
        ensures { result ≡ fault_of self.now }
    {
        self.fault
    }
}

/// Finds the attributes after the first eight, in one pass over `front`, the rest of `bytes`.
#[inline(never)]
fn find_others(
    offsets: &mut SmallVec<usize, INLINE>,
    fault: &mut Option<(usize, Cause)>,
    bytes: &[u8],
    front: &[u8],
) -> Result<(), AllocError>
    requires before { FindsBefore bytes.now offsets.old.items front.now }
    requires begin { BeginFrames bytes.now offsets.old.items }
    requires no_fault { fault.old ≡ None }
    ensures finds { OnOk result (Finds bytes.now offsets.new.items fault.new) }
    ensures begin { BeginFrames bytes.now offsets.new.items }
{
    if front.is_empty() {
        return Ok(());
    }
    if let Some(cause) = cause_at_front(front) {
        *fault = Some((bytes.len() - front.len(), cause));
        return Ok(());
    }
    // Most attributes have eight bytes or more.
    let room = offsets.len() + front.len() / 8 + 1;
    let mut all = Vec::with_capacity(*offsets.allocator(), room)?;
    all.extend_from_slice(offsets.as_slice())?;
    *fault = put_down(&mut all, bytes, front)?;
    *offsets = SmallVec::from_vec(all);
    Ok(())
}

/// Stores the offsets of the attributes in `front`, the rest of `bytes`. Returns the first error in a header, with its
/// offset.
#[inline(always)]
fn put_down(
    offsets: &mut Vec<usize>,
    bytes: &[u8],
    front: &[u8],
) -> Result<Option<(usize, Cause)>, AllocError>
    requires before { FindsBefore bytes.now offsets.old.items front.now }
    requires begin { BeginFrames bytes.now offsets.old.items }
    ensures finds { IfOk result (λ fault. Finds bytes.now offsets.new.items fault) }
    ensures begin { IfOk result (λ fault. BeginFrames bytes.now offsets.new.items) }
{
    let mut rest = front;
    while !rest.is_empty() {
        if let Some(cause) = cause_at_front(rest) {
            return Ok(Some((bytes.len() - rest.len(), cause)));
        }
        make_room(offsets, rest.len() / 4)?;
        offsets.push_reserved(bytes.len() - rest.len());
        rest = NlaBuffer::at_front(rest).step_over(rest);
    }
    Ok(None)
}

/// Reserves space for `most` offsets, at least one, if there is no space for the next.
#[inline(always)]
fn make_room(offsets: &mut Vec<usize>, most: usize) -> Result<(), AllocError>
    requires { 0 < most }
    ensures same { OnOk result (offsets.new.items ≡ offsets.old.items) }
    ensures room { OnOk result (vec_len offsets.new < vec_capacity offsets.new) }
{
    if offsets.len() < offsets.capacity() {
        return Ok(());
    }
    offsets.reserve_exact(most)
}
