//! Checks whether lists decode, by their bytes: no value is built, and nothing is allocated.

ghost use Rattle.std.specs.Prelude.{ℕ, ◌≤◌, length, IfOk};
ghost use Rattle.link_base.specs.Table.{Gives, Nested, Addresses, ShapeGives};
ghost use Rattle.link_base.specs.Checked.{Checks, ListChecks, Passes};

use crate::lists::skipping::{LONG, skip_alike, skip_elements, skip_leaves};
use crate::rows::attribute::Attribute;
use crate::rows::default_nla::DefaultNla;
use crate::rows::nested::NestedAttribute;
use crate::wire::buffer::{NlaBuffer, cause_of};
use crate::wire::fault::{DecodeFault, ListFault};

/// Checks whether a list decodes, and returns the number of its attributes.
///
/// # Errors
///
/// The error and the offset that `read_list` returns in `ListError::Fault`. For an error in a nested list, the offset is
/// that of the attribute that holds the list.
#[inline(always)]
pub fn check_list<F: Attribute>(bytes: &[u8]) -> Result<usize, ListFault>
    ensures answer { ListChecks (Gives F.table) bytes.now result }
    ensures bounded { IfOk result (λ n. n ≤ length bytes.now) }
{
    if bytes.len() < LONG {
        check_rest::<F>(bytes, 0, bytes)
    } else {
        check_long::<F>(bytes)
    }
}

/// Checks a long list, as `check_list`. This is a function of its own, so that short lists do not pay for it.
///
/// # Errors
///
/// Those of `check_list`.
#[inline(never)]
fn check_long<F: Attribute>(bytes: &[u8]) -> Result<usize, ListFault>
    ensures answer { ListChecks (Gives F.table) bytes.now result }
    ensures bounded { IfOk result (λ n. n ≤ length bytes.now) }
{
    let (count, rest) = skip_alike::<F>(bytes);
    check_rest::<F>(bytes, count, rest)
}

/// Checks the end of a list, `from`, as `check_list` checks all of it. `before` attributes that decode stand before it.
///
/// # Errors
///
/// Those of `check_list`.
#[inline(always)]
fn check_rest<F: Attribute>(bytes: &[u8], before: usize, from: &[u8]) -> Result<usize, ListFault>
    requires { Passes (Gives F.table) bytes.now before from.now }
    ensures answer { ListChecks (Gives F.table) bytes.now result }
    ensures bounded { IfOk result (λ n. n ≤ length bytes.now) }
{
    let mut rest = from;
    let mut count = before;
    while let Some((frame, after)) = NlaBuffer::first(rest) {
        if let Err(fault) = F::check(&frame) {
            let at = bytes.len() - rest.len();
            return Err(ListFault { at, fault });
        }
        count += 1;
        rest = after;
    }
    if rest.is_empty() {
        return Ok(count);
    }
    let at = bytes.len() - rest.len();
    let fault = DecodeFault::Frame(cause_of(rest));
    Err(ListFault { at, fault })
}

/// Checks whether the payload of an attribute of type `kind` decodes as a nested list.
///
/// # Errors
///
/// `NestedFrame` if the header of an element is malformed, `NestedValue` if its payload is.
pub(crate) fn check_nested<E: NestedAttribute>(kind: u16, payload: &[u8]) -> Result<(), DecodeFault>
    ensures { Checks (ShapeGives (Nested E.FLAGGED E.rows) kind payload.now) result }
{
    let (count, rest) = skip_leaves::<E>(payload);
    match check_rest::<E>(payload, count, rest) {
        Ok(_) => Ok(()),
        Err(error) => Err(error.nested(kind)),
    }
}

/// Checks whether the payload of an attribute of type `kind` consists of whole elements, whatever their payloads are:
/// whether it decodes as a list of addresses.
///
/// # Errors
///
/// `NestedFrame` if the header of an element is malformed.
pub(crate) fn check_elements(kind: u16, payload: &[u8]) -> Result<(), DecodeFault>
    ensures { (n : ℕ) → Checks (ShapeGives (Addresses n) kind payload.now) result }
{
    let (count, rest) = skip_elements(payload);
    match check_rest::<DefaultNla>(payload, count, rest) {
        Ok(_) => Ok(()),
        Err(error) => Err(error.nested(kind)),
    }
}
