//! One attribute of a list, as it is in the input.

ghost use Rattle.std.specs.Prelude.{◌≡◌, ◌+◌, ◌≤◌, ◌↔◌, IsTrue, IsBitSet, Some, None, length, drop, min, MatchResult, MatchOption, ◌≢◌};
ghost use Rattle.link_base.specs.Frame.{BeginsWith, kind_of, pad, frame_fault, max_payload};

use crate::wire::fault::{Cause, DecodeError, DecodeFault};
use crate::wire::padding::padded;

/// Flag of `nla_type`: the payload is a list of attributes (`include/uapi/linux/netlink.h`).
pub const NLA_F_NESTED: u16 = 0x8000;

/// Flag of `nla_type`: the payload is in network byte order (`include/uapi/linux/netlink.h`).
pub const NLA_F_NET_BYTEORDER: u16 = 0x4000;

/// The bits of `nla_type` that hold the attribute type: all except the two flags (`include/uapi/linux/netlink.h`).
pub const NLA_TYPE_MASK: u16 = 0x3FFF;

/// The attribute at the start of some bytes: a `struct nlattr` (`include/uapi/linux/netlink.h`) and its payload,
/// without padding. It borrows the bytes and copies none.
#[derive(Clone, Copy, Debug, PartialEq, Eq)]
pub struct NlaBuffer<'a> {
    kind_field: u16,
    payload: &'a [u8],
    ghost short: { length payload.now ≤ max_payload },
}

/// Checks whether `bytes` start with a whole attribute.
#[inline(always)]
pub(crate) fn has_whole_front(bytes: &[u8]) -> bool
    ensures { IsTrue result ↔ (frame_fault bytes.now ≡ None) }
{
    if bytes.len() < 4 {
        return false;
    }
    let length = usize::from(u16::from_le_bytes([bytes[0], bytes[1]]));
    // One test of both bounds: a length of less than four wraps around.
    length.wrapping_sub(4) <= bytes.len() - 4
}

/// Returns the reason why `bytes` do not start with a whole attribute. They must not.
pub(crate) fn cause_of(bytes: &[u8]) -> Cause
    requires { frame_fault bytes.now ≢ None }
    ensures { frame_fault bytes.now ≡ Some result }
{
    let left = bytes.len();
    if left < 4 {
        return Cause::ShortFrame { left };
    }
    let length = u16::from_le_bytes([bytes[0], bytes[1]]);
    if length < 4 {
        Cause::SmallLength { length }
    } else {
        Cause::Overrun { length, left }
    }
}

/// Returns the reason why `bytes` do not start with a whole attribute; `None` if they do.
#[inline]
pub(crate) fn cause_at_front(bytes: &[u8]) -> Option<Cause>
    ensures { result ≡ frame_fault bytes.now }
{
    if has_whole_front(bytes) {
        None
    } else {
        Some(cause_of(bytes))
    }
}

impl<'a> NlaBuffer<'a> {
    ghost use Rattle.link_base.specs.Buffer.{kind_field_of, payload_of, frame_of, IsFrameFault, SplitsFirst};

    /// Returns the attribute at the start of `bytes`; more bytes may follow.
    ///
    /// # Errors
    ///
    /// `Frame`, if `bytes` do not start with a whole attribute. The cause is the first of these that applies:
    /// `ShortFrame` if the header is truncated, `SmallLength` if `nla_len` is less than 4, `Overrun` if `nla_len` is
    /// greater than `bytes.len()`.
    pub fn new_checked(bytes: &'a [u8]) -> Result<NlaBuffer<'a>, DecodeError>
        ensures { MatchResult result (λ b. BeginsWith bytes.now (frame_of b)) (IsFrameFault bytes.now) }
    {
        match cause_at_front(bytes) {
            Some(cause) => Err(DecodeError::Fault(DecodeFault::Frame(cause))),
            None => Ok(NlaBuffer::at_front(bytes)),
        }
    }

    /// Returns the attribute at the start of `bytes`, and what follows its padding. If the padding is truncated, nothing
    /// follows.
    ///
    /// # Errors
    ///
    /// The cause, as for `new_checked`.
    #[inline(always)]
    pub fn split_first(bytes: &'a [u8]) -> Result<(NlaBuffer<'a>, &'a [u8]), Cause>
        ensures { MatchResult result (λ first. SplitsFirst bytes.now first.0 first.1.now)
            (λ cause. frame_fault bytes.now ≡ Some cause) }
    {
        match NlaBuffer::first(bytes) {
            Some(first) => Ok(first),
            None => Err(cause_of(bytes)),
        }
    }

    /// Returns the attribute at the start of `bytes`, and what follows its padding, as `split_first`; `None` if `bytes` do
    /// not start with a whole attribute.
    #[inline(always)]
    pub(crate) fn first(bytes: &'a [u8]) -> Option<(NlaBuffer<'a>, &'a [u8])>
        ensures { MatchOption result (frame_fault bytes.now ≢ None)
            (λ first. SplitsFirst bytes.now first.0 first.1.now) }
    {
        if !has_whole_front(bytes) {
            return None;
        }
        let first = NlaBuffer::at_front(bytes);
        Some((first, first.step_over(bytes)))
    }

    /// Returns the attribute at the start of `bytes`, which must start with a whole attribute.
    #[inline]
    pub(crate) fn at_front(bytes: &'a [u8]) -> NlaBuffer<'a>
        requires { frame_fault bytes.now ≡ None }
        ensures { BeginsWith bytes.now (frame_of result) }
    {
        let length = u16::from_le_bytes([bytes[0], bytes[1]]);
        let kind_field = u16::from_le_bytes([bytes[2], bytes[3]]);
        let payload = &bytes[4..usize::from(length)];
        NlaBuffer {
            kind_field,
            payload,
        }
    }

    /// Returns `nla_len`: the length of the header and the payload in bytes, 4 to 65535.
    #[inline]
    pub fn length(&self) -> u16
        ensures { result ≡ 4 + length (payload_of self.now) }
    {
        4 + self.payload.len() as u16
    }

    /// Returns the length of the payload in bytes: `nla_len` without the header.
    #[inline]
    pub fn value_length(&self) -> usize
        ensures { result ≡ length (payload_of self.now) }
    {
        self.payload.len()
    }

    /// Returns `nla_type` unchanged, including its two flags.
    #[inline]
    pub fn raw_kind(&self) -> u16
        ensures { result ≡ kind_field_of self.now }
    {
        self.kind_field
    }

    /// Returns the attribute type: the lower 14 bits of `nla_type` (`NLA_TYPE_MASK`).
    #[inline]
    pub fn kind(&self) -> u16
        ensures { result ≡ kind_of (kind_field_of self.now) }
    {
        self.kind_field & NLA_TYPE_MASK
    }

    /// Checks whether `nla_type` has the flag for nested attributes (`NLA_F_NESTED`, 0x8000).
    #[inline]
    pub fn nested_flag(&self) -> bool
        ensures { IsTrue result ↔ IsBitSet (kind_field_of self.now) 15 }
    {
        self.kind_field & NLA_F_NESTED != 0
    }

    /// Checks whether `nla_type` has the flag for network byte order (`NLA_F_NET_BYTEORDER`, 0x4000).
    #[inline]
    pub fn network_byte_order_flag(&self) -> bool
        ensures { IsTrue result ↔ IsBitSet (kind_field_of self.now) 14 }
    {
        self.kind_field & NLA_F_NET_BYTEORDER != 0
    }

    /// Returns the payload, a slice of the bytes that the attribute was taken from.
    #[inline]
    pub fn value(&self) -> &'a [u8]
        ensures { result.now ≡ payload_of self.now }
    {
        self.payload
    }

    /// Skips this attribute and its padding, with which `bytes` start, and returns the rest. If the padding is
    /// truncated, the rest is empty. Where only the rest is needed, this takes fewer instructions than `split_first`.
    #[inline(always)]
    pub(crate) fn step_over<'b>(&self, bytes: &'b [u8]) -> &'b [u8]
        ensures { result.now ≡ drop (min (pad (4 + length (payload_of self.now))) (length bytes.now)) bytes.now }
    {
        let step = padded(usize::from(self.length())).min(bytes.len());
        &bytes[step..]
    }
}
