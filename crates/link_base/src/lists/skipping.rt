//! Skips attributes at the start of a list that decode because the first does: they have its type and length, or are
//! elements of a list of addresses. In long lists of attributes of one type, these are most. Only the speed of a check depends
//! on how many are skipped.

ghost use Rattle.std.specs.Prelude.{◌≡◌, ◌⊎◌, ℕ, ◌+◌, ◌≤◌, IfSome, IsTrue, length};
ghost use Rattle.link_base.specs.Layout.{number_at};
ghost use Rattle.link_base.specs.Buffer.{kind_field_of, payload_of, SplitsFirst};
ghost use Rattle.link_base.specs.Table.{Gives};
ghost use Rattle.link_base.specs.Default.{default_table};
ghost use Rattle.link_base.specs.Coherent.{is_single};
ghost use Rattle.link_base.specs.Checked.{Passes, AllDecode};

use crate::classes::records::u16_at;
use crate::rows::attribute::Attribute;
use crate::rows::default_nla::DefaultNla;
use crate::rows::form::Form;
use crate::rows::nested::NestedAttribute;
use crate::wire::buffer::NlaBuffer;
use crate::wire::padding::padded;

/// The length of a long list, in bytes. In shorter lists of attributes, none are skipped.
pub(crate) const LONG: usize = 64;

/// Skips attributes at the start of a list that decode: those with the type and the length of the first, if the second has
/// both. Returns their number, and the bytes after them.
#[inline(always)]
pub(crate) fn skip_alike<F: Attribute>(bytes: &[u8]) -> (usize, &[u8])
    ensures { Passes (Gives F.table) bytes.now result.0 result.1.now }
{
    match first_of_two(bytes) {
        Some((first, after)) => skip_decodable::<F>(bytes, first, after),
        None => (0, bytes),
    }
}

/// Skips attributes at the start of a nested list, as `skip_alike`, if the list is long.
#[inline(always)]
pub(crate) fn skip_leaves<E: NestedAttribute>(bytes: &[u8]) -> (usize, &[u8])
    ensures { Passes (Gives E.table) bytes.now result.0 result.1.now }
{
    if bytes.len() < LONG {
        return (0, bytes);
    }
    match first_of_two(bytes) {
        Some((first, after)) => skip_decodable_leaves::<E>(bytes, first, after),
        None => (0, bytes),
    }
}

/// Returns the first attribute and what follows it, if the second has the same type and length.
#[inline(always)]
fn first_of_two(bytes: &[u8]) -> Option<(NlaBuffer<'_>, &[u8])>
    ensures { IfSome result (λ first. SplitsFirst bytes.now first.0 first.1.now) }
{
    let (first, after) = NlaBuffer::first(bytes)?;
    if after.len() >= 4 && is_alike(after, &first, false) {
        Some((first, after))
    } else {
        None
    }
}

/// Skips the elements at the start of a list of addresses that are as long as the first. Any element decodes. Returns their
/// number, and the bytes after them.
#[inline(always)]
pub(crate) fn skip_elements(bytes: &[u8]) -> (usize, &[u8])
    ensures { Passes (Gives default_table) bytes.now result.0 result.1.now }
{
    match NlaBuffer::first(bytes) {
        Some((first, after)) => skip_run::<DefaultNla>(bytes, &first, after, true),
        None => (0, bytes),
    }
}

/// Skips attributes with the type and the length of the first; none, if the first does not show that they decode. `after` is
/// what follows the first. Returns their number, and the bytes after them.
#[inline(never)]
fn skip_decodable<'a, F: Attribute>(
    bytes: &'a [u8],
    first: NlaBuffer<'a>,
    after: &'a [u8],
) -> (usize, &'a [u8])
    requires { SplitsFirst bytes.now first after.now }
    ensures { Passes (Gives F.table) bytes.now result.0 result.1.now }
{
    if all_decode::<F>(&first) {
        skip_run::<F>(bytes, &first, after, false)
    } else {
        (0, bytes)
    }
}

/// Skips attributes of a nested list, as `skip_decodable`. None of them is a list.
#[inline(never)]
fn skip_decodable_leaves<'a, E: NestedAttribute>(
    bytes: &'a [u8],
    first: NlaBuffer<'a>,
    after: &'a [u8],
) -> (usize, &'a [u8])
    requires { SplitsFirst bytes.now first after.now }
    ensures { Passes (Gives E.table) bytes.now result.0 result.1.now }
{
    match E::check(&first) {
        Ok(()) => skip_run::<E>(bytes, &first, after, false),
        Err(_) => (0, bytes),
    }
}

/// Checks whether every attribute with the type and the length of this one decodes. If this one does and is no list, they do.
#[inline(always)]
fn all_decode<F: Attribute>(first: &NlaBuffer<'_>) -> bool
    ensures { IsTrue result → AllDecode (Gives F.table) (kind_field_of first.now) (length (payload_of first.now)) }
{
    match F::check(first) {
        Ok(()) => match F::label(None, first.kind()) {
            Some(label) => is_single(label.form),
            None => true,
        },
        Err(_) => false,
    }
}

/// Checks whether a form is no list's.
#[inline(always)]
fn is_single(form: Form) -> bool
    ensures { result ≡ is_single form }
{
    !matches!(form, Form::List { .. } | Form::Addresses { .. })
}

/// Skips attributes as long as the first, and of its type unless `of_any_type`; these must decode. `after` is what follows
/// the first. Returns their number, and the bytes after them.
#[inline(always)]
fn skip_run<'a, F: Attribute>(
    bytes: &'a [u8],
    first: &NlaBuffer<'a>,
    after: &'a [u8],
    of_any_type: bool,
) -> (usize, &'a [u8])
    requires first { SplitsFirst bytes.now first.now after.now }
    requires all_decode { (f : ℕ) → IsTrue of_any_type ⊎ (f ≡ kind_field_of first.now)
        → AllDecode (Gives F.table) f (length (payload_of first.now)) }
    ensures { Passes (Gives F.table) bytes.now result.0 result.1.now }
{
    let step = padded(usize::from(first.length()));
    let mut rest = after;
    let mut count = 1;
    while rest.len() >= step && is_alike(rest, first, of_any_type) {
        count += 1;
        let (_, others) = rest.split_at(step);
        rest = others;
    }
    (count, rest)
}

/// Checks whether `bytes` start with a header that has the length of `first`, and its type and flags unless `of_any_type`.
#[inline(always)]
fn is_alike(bytes: &[u8], first: &NlaBuffer<'_>, of_any_type: bool) -> bool
    requires { 4 ≤ length bytes.now }
    ensures length { IsTrue result → number_at 2 0 bytes.now ≡ 4 + length (payload_of first.now) }
    ensures kind { IsTrue result → IsTrue of_any_type ⊎ (number_at 2 2 bytes.now ≡ kind_field_of first.now) }
{
    u16_at(bytes, 0) == first.length() && (of_any_type || u16_at(bytes, 2) == first.raw_kind())
}
