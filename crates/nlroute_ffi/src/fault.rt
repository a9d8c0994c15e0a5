//! Reports the first decode error of a list.

ghost use Rattle.std.specs.Prelude.{◌≡◌, [], ◌∷◌, IfOk, OnErr};
ghost use Rattle.netlink_packet_route.specs.Family.{table_of};
ghost use Rattle.nlroute_ffi.specs.Numbers.{cause_numbers, fault_numbers};
ghost use Rattle.nlroute_ffi.specs.Error.{error_numbers, ErrorAnswers};
ghost use Rattle.nlroute_ffi.specs.ErrorText.{length_of, cause_by, fault_of};

use crate::refusal::Refusal;
use netlink_packet_route::link::{Cause, DecodeFault, ListFault};
use netlink_packet_route::{Family, count_values};

// The parts that may be malformed: `enum nlroute_place` of the header.
const FRAME: u32 = 0;

const PAYLOAD: u32 = 1;

const ELEMENT_FRAME: u32 = 2;

const ELEMENT_PAYLOAD: u32 = 3;

// Two more, which never occur in a list.
const BARE_PAYLOAD: u32 = 4;

const TEXT: u32 = 5;

// The causes: `enum nlroute_cause` of the header.
pub(crate) const SHORT_FRAME: u32 = 1;

pub(crate) const SMALL_LENGTH: u32 = 2;

pub(crate) const OVERRUN: u32 = 3;

const WRONG_LENGTH: u32 = 4;

pub(crate) const TOO_SHORT: u32 = 5;

const ADDRESS_LENGTH: u32 = 6;

/// An error in a list: `struct nlroute_fault` of the header.
#[repr(C)]
#[derive(Clone, Copy)]
pub struct FirstError {
    /// Offset of the attribute in the list, in bytes.
    pub at: u64,
    /// First number of the cause.
    pub first: u64,
    /// Second number of the cause, or 0.
    pub second: u64,
    /// The part that is malformed.
    pub place: u32,
    /// Attribute type without flags; 0 for an error in the framing of the list.
    pub kind: u32,
    /// Type of the list element without flags; 0 unless its payload is malformed.
    pub inner: u32,
    /// The cause.
    pub cause: u32,
}

/// Stores the first decode error of a list in `error`, and returns 0.
///
/// # Errors
///
/// `Absent` if the list has no error. Then `error` is unchanged.
pub(crate) fn store_error(
    family: Family,
    bytes: &[u8],
    error: &mut FirstError,
) -> Result<usize, Refusal>
    ensures answer { ErrorAnswers bytes.now error.new (table_of family) result }
    ensures zero { IfOk result (λ n. n ≡ 0) }
    ensures unchanged { OnErr result (error.new ≡ error.old) }
{
    if let Err(ListFault { at, fault }) = count_values(family, bytes) {
        *error = error_of(at as u64, fault);
        return Ok(0);
    }
    Err(Refusal::Absent)
}

fn error_of(at: u64, fault: DecodeFault) -> FirstError
    ensures { error_numbers result ≡ fault_numbers at fault }
{
    match fault {
        DecodeFault::Frame(cause) => with_cause(at, FRAME, 0, 0, cause),
        DecodeFault::Value { kind, cause } => with_cause(at, PAYLOAD, kind, 0, cause),
        DecodeFault::NestedFrame { kind, cause } => with_cause(at, ELEMENT_FRAME, kind, 0, cause),
        DecodeFault::NestedValue { kind, inner, cause } => with_cause(
            at,
            ELEMENT_PAYLOAD,
            kind,
            inner,
            cause,
        ),
        DecodeFault::Payload(cause) => with_cause(at, BARE_PAYLOAD, 0, 0, cause),
        DecodeFault::Text => FirstError {
            at,
            first: 0,
            second: 0,
            place: TEXT,
            kind: 0,
            inner: 0,
            cause: 0,
        },
    }
}

fn with_cause(at: u64, place: u32, kind: u16, inner: u16, cause: Cause) -> FirstError
    ensures { error_numbers result ≡ at ∷ place ∷ kind ∷ inner ∷ cause_numbers cause }
{
    let (cause, first, second) = numbers_of_cause(cause);
    FirstError {
        at,
        first,
        second,
        place,
        kind: kind.into(),
        inner: inner.into(),
        cause,
    }
}

fn numbers_of_cause(cause: Cause) -> (u32, u64, u64)
    ensures { result.0 ∷ result.1 ∷ result.2 ∷ [] ≡ cause_numbers cause }
{
    match cause {
        Cause::ShortFrame { left } => (SHORT_FRAME, left as u64, 0),
        Cause::SmallLength { length } => (SMALL_LENGTH, length as u64, 0),
        Cause::Overrun { length, left } => (OVERRUN, length as u64, left as u64),
        Cause::WrongLength { want, got } => (WRONG_LENGTH, want as u64, got as u64),
        Cause::TooShort { want, got } => (TOO_SHORT, want as u64, got as u64),
        Cause::AddressLength { got } => (ADDRESS_LENGTH, got as u64, 0),
    }
}

/// Returns the error in a struct; `None` if its numbers are not those of an error in a list.
pub(crate) fn fault_of(error: &FirstError) -> Option<DecodeFault>
    ensures { result ≡ fault_of error.now }
{
    let cause = cause_of(error)?;
    if error.kind > 0xFFFF || error.inner > 0xFFFF {
        return None;
    }
    let (kind, inner) = (error.kind as u16, error.inner as u16);
    match error.place {
        FRAME => Some(DecodeFault::Frame(cause)),
        PAYLOAD => Some(DecodeFault::Value { kind, cause }),
        ELEMENT_FRAME => Some(DecodeFault::NestedFrame { kind, cause }),
        ELEMENT_PAYLOAD => Some(DecodeFault::NestedValue { kind, inner, cause }),
        _ => None,
    }
}

fn cause_of(error: &FirstError) -> Option<Cause>
    ensures { result ≡ cause_by error.now.cause error.now.first error.now.second }
{
    let (first, second) = (error.first as usize, error.second as usize);
    match error.cause {
        SHORT_FRAME => Some(Cause::ShortFrame { left: first }),
        SMALL_LENGTH => Some(Cause::SmallLength {
            length: length_of(error.first)?,
        }),
        OVERRUN => Some(Cause::Overrun {
            length: length_of(error.first)?,
            left: second,
        }),
        WRONG_LENGTH => Some(Cause::WrongLength {
            want: first,
            got: second,
        }),
        TOO_SHORT => Some(Cause::TooShort {
            want: first,
            got: second,
        }),
        ADDRESS_LENGTH => Some(Cause::AddressLength { got: first }),
        _ => None,
    }
}

/// Returns a number as an `nla_len`; `None` if it is too great.
fn length_of(number: u64) -> Option<u16>
    ensures { result ≡ length_of number }
{
    if number > 0xFFFF {
        return None;
    }
    Some(number as u16)
}
