//! Checks whether attributes and lists are canonical, by their bytes: nothing is decoded, and nothing is allocated.
//!
//! A check of one attribute takes the `NlaBuffer`. It returns true if and only if `nla_type` and the payload are what
//! would be written for the value that they decode to. Padding is checked with the list.

ghost use Rattle.std.specs.Prelude.{◌≡◌, ◌≢◌, ◌↔◌, ◌⊎◌, ℕ, ◌<◌, ◌≤◌, List, [], ◌∷◌, length, slice_index};
ghost use Rattle.std.specs.Prelude.{IsTrue, MatchOption, EachIndex, true};
ghost use Rattle.link_base.specs.Wire.{SplitsWhole};
ghost use Rattle.link_base.specs.Name.{IsCutText, IsNameField};
ghost use Rattle.link_base.specs.Class.{Bytes, Headed, Many, Limits, Optional};
ghost use Rattle.link_base.specs.Payloads.{class_by, is_fixed};
ghost use Rattle.link_base.specs.Table.{One, Nested, Addresses, AreAddresses, nested_flag};
ghost use Rattle.link_base.specs.Table.{Canonical, FirstNotCanonical};
ghost use Rattle.link_base.specs.Buffer.{kind_field_of, payload_of, IsCanonicalAs};
ghost use Rattle.link_base.specs.Frame.{kind_limit};

use crate::rows::attribute::Attribute;
use crate::rows::form::Form;
use crate::rows::nested::NestedAttribute;
use crate::wire::buffer::{NLA_F_NESTED, NlaBuffer, cause_at_front};

/// Checks whether a list is canonical: what would be written for the values that it decodes to is the list itself.
#[inline]
#[tactic(auto, using(crate::proofs::CanonicalLists::none_found, crate::proofs::CanonicalLists::not_canonical))]
pub fn list_is_canonical<F: Attribute>(bytes: &[u8]) -> bool
    ensures { IsTrue result ↔ Canonical F.table bytes.now }
{
    first_not_canonical::<F>(bytes).is_none()
}

/// Returns the byte offset of the first attribute that is not canonical, or of the bytes that do not start with a whole
/// attribute. Returns `None` if the list is canonical.
#[inline]
pub fn first_not_canonical<F: Attribute>(bytes: &[u8]) -> Option<usize>
    ensures { MatchOption result (Canonical F.table bytes.now) (λ at. FirstNotCanonical F.table bytes.now at) }
{
    let mut rest = bytes;
    while let Some((buffer, after)) = split_whole(rest) {
        if !F::canonical(&buffer) {
            return Some(bytes.len() - rest.len());
        }
        rest = after;
    }
    if rest.is_empty() {
        None
    } else {
        Some(bytes.len() - rest.len())
    }
}

/// Splits the attribute at the start of `bytes` from what follows. Returns `None` if there is no whole attribute, or if
/// its padding is truncated or not zero.
#[inline]
fn split_whole<'a>(bytes: &'a [u8]) -> Option<(NlaBuffer<'a>, &'a [u8])>
    ensures { MatchOption result ((f : ℕ) (p rest : List ℕ) → ¬ (SplitsWhole bytes.now f p rest))
        (λ found. SplitsWhole bytes.now (kind_field_of found.0) (payload_of found.0) found.1.now) }
{
    if cause_at_front(bytes).is_some() {
        return None;
    }
    let buffer = NlaBuffer::at_front(bytes);
    let (_frame, after) = bytes.split_at(4 + buffer.value_length());
    let over = buffer.value_length() % 4;
    if over == 0 {
        return Some((buffer, after));
    }
    let gap = 4 - over;
    if gap > after.len() || !is_padding(&after[..gap]) {
        return None;
    }
    Some((buffer, &after[gap..]))
}

/// Checks whether all of `bytes` are 0. `bytes.len()` must be at most 3.
#[inline]
fn is_padding(bytes: &[u8]) -> bool
    requires { length bytes.now ≤ 3 }
    ensures { IsTrue result ↔ EachIndex bytes.now (λ k. slice_index bytes.now k ≡ 0) }
{
    matches!(bytes, [] | [0] | [0, 0] | [0, 0, 0])
}

#[inline]
fn are_zeros(bytes: &[u8]) -> bool
    ensures { IsTrue result ↔ EachIndex bytes.now (λ k. slice_index bytes.now k ≡ 0) }
{
    bytes.iter().all(|b| *b == 0)
}

// ---- one attribute

/// Checks whether `nla_type` has neither flag.
#[inline]
fn has_no_flag(buffer: &NlaBuffer<'_>) -> bool
    ensures { IsTrue result ↔ (kind_field_of buffer.now < kind_limit) }
{
    buffer.kind() == buffer.raw_kind()
}

/// Checks whether an attribute is canonical as a value of a form that is written with one size.
#[inline(always)]
pub fn is_fixed(buffer: &NlaBuffer<'_>, form: Form) -> bool
    ensures { (names : List (ℕ × List ℕ)) → is_fixed form ≡ true
        → (IsTrue result ↔ IsCanonicalAs (One (class_by form names)) buffer.now) }
{
    let payload = buffer.value();
    has_no_flag(buffer)
        && match form {
            Form::Bool => matches!(payload, [0 | 1]),
            Form::Protocol => matches!(payload, [0x81, 0x00] | [0x88, 0xA8]),
            Form::LowFlags => matches!(payload, [_, 0]),
            Form::Nothing => payload.is_empty(),
            _ => payload.len() == form.lengths().kept(),
        }
}

/// Checks whether an attribute is canonical as a flag: no byte, 0 or 1.
#[inline]
pub(crate) fn is_flag_or_bool(buffer: &NlaBuffer<'_>) -> bool
    ensures { IsTrue result ↔ IsCanonicalAs (One Optional) buffer.now }
{
    has_no_flag(buffer) && matches!(buffer.value(), [] | [0 | 1])
}

/// Checks whether an attribute is canonical as bytes, of any length.
#[inline]
pub fn is_bytes(buffer: &NlaBuffer<'_>) -> bool
    ensures { IsTrue result ↔ IsCanonicalAs (One Bytes) buffer.now }
{
    has_no_flag(buffer)
}

/// Checks whether an attribute is canonical as a peer: a header of 16 bytes, and a list of any length.
#[inline]
pub(crate) fn is_peer(buffer: &NlaBuffer<'_>) -> bool
    ensures { IsTrue result ↔ IsCanonicalAs (One (Headed 16)) buffer.now }
{
    has_no_flag(buffer) && buffer.value().len() >= 16
}

/// Checks whether an attribute is canonical as an array of numbers of `width` bytes each. `width` must not be 0.
#[inline]
pub fn are_numbers(buffer: &NlaBuffer<'_>, width: usize) -> bool
    requires { 0 < width }
    ensures { IsTrue result ↔ IsCanonicalAs (One (Many width)) buffer.now }
{
    has_no_flag(buffer) && buffer.value().len() % width == 0
}

/// Checks whether an attribute is canonical as the limits of a CAN controller: the payload is a canonical name field of
/// 16 bytes and another 32 bytes.
#[inline]
pub fn is_limits(buffer: &NlaBuffer<'_>) -> bool
    ensures { IsTrue result ↔ IsCanonicalAs (One Limits) buffer.now }
{
    let payload = buffer.value();
    has_no_flag(buffer) && payload.len() == 48 && is_name_field(&payload[..16])
}

/// Checks whether a name field is canonical: a name of at most 15 bytes, then zeros. `field.len()` must be 16. It takes
/// a slice and is not inlined, so that its callers need no `NlaBuffer` in memory.
#[inline(never)]
fn is_name_field(field: &[u8]) -> bool
    requires { length field.now ≡ 16 }
    ensures { IsTrue result ↔ IsNameField field.now }
{
    match first_zero(field) {
        Some(end) => are_zeros(&field[end..]) && is_cut_text(&field[..end]),
        None => false,
    }
}

fn first_zero(bytes: &[u8]) -> Option<usize>
    ensures { MatchOption result (EachIndex bytes.now (λ k. slice_index bytes.now k ≢ 0))
        (λ end. (end < length bytes.now) × (slice_index bytes.now end ≡ 0)
        × ((k : ℕ) → k < end → slice_index bytes.now k ≢ 0)) }
{
    bytes.iter().position(|b| *b == 0)
}

/// Checks whether `bytes` are UTF-8, or 15 bytes that are UTF-8 followed by the first one or two bytes of U+FFFD, which
/// is truncated there.
fn is_cut_text(bytes: &[u8]) -> bool
    ensures { IsTrue result ↔ IsCutText bytes.now }
{
    match str::from_utf8(bytes) {
        Ok(_) => true,
        Err(error) => bytes.len() == 15 && is_cut_replacement(&bytes[error.valid_up_to()..]),
    }
}

/// Checks whether `bytes` are the first one or two bytes of U+FFFD.
fn is_cut_replacement(bytes: &[u8]) -> bool
    ensures { IsTrue result ↔ ((bytes.now ≡ 0xEF ∷ []) ⊎ (bytes.now ≡ 0xEF ∷ 0xBF ∷ [])) }
{
    matches!(bytes, [0xEF] | [0xEF, 0xBF])
}

/// Checks whether an attribute is canonical as a nested list.
#[inline]
pub fn is_nested<E: NestedAttribute>(buffer: &NlaBuffer<'_>) -> bool
    ensures { IsTrue result ↔ IsCanonicalAs (Nested E.FLAGGED E.rows) buffer.now }
{
    buffer.raw_kind() == buffer.kind() + nested_flag(E::FLAGGED)
        && list_is_canonical::<E>(buffer.value())
}

/// Returns the flag in `nla_type` with which a nested list is written.
#[inline]
fn nested_flag(flagged: bool) -> u16
    ensures { result ≡ nested_flag flagged }
{
    if flagged { NLA_F_NESTED } else { 0 }
}

/// Checks whether an attribute is canonical as a list of addresses of `size` bytes each: the attribute types of the
/// elements are 0, 1, 2 and so on.
#[inline]
pub fn is_address_list(buffer: &NlaBuffer<'_>, size: usize) -> bool
    ensures { IsTrue result ↔ IsCanonicalAs (Addresses size) buffer.now }
{
    has_no_flag(buffer) && are_addresses(buffer.value(), size)
}

fn are_addresses(payload: &[u8], size: usize) -> bool
    ensures { IsTrue result ↔ AreAddresses size payload.now }
{
    let mut rest = payload;
    let mut kind = 0usize;
    while let Some((element, after)) = split_whole(rest) {
        if usize::from(element.raw_kind()) != kind || element.value().len() != size {
            return false;
        }
        rest = after;
        kind += 1;
    }
    rest.is_empty()
}
