//! The options of an interface of a pcapng file: how its times are counted.

ghost use Rattle.std.specs.Prelude.{◌≡◌, MatchResult, MatchOption, List, [], ◌∷◌, Some};
ghost use Rattle.std.specs.Option.{option_or};
ghost use Rattle.link_capture.specs.Options.{Coded, HasNoOption, HasValues, AreOptions, clock_by, BeginsWithOption, IsOverrun, IsClock, first_value, value_of, digits_in, offset_in};

use crate::error::InputError;
use crate::front::gap;
use crate::order::Order;

/// The code of `if_tsresol`.
const RESOLUTION: u16 = 9;

/// The code of `if_tsoffset`.
const OFFSET: u16 = 14;

/// How the times of an interface are counted.
#[derive(Clone, Copy, Debug, Default, PartialEq, Eq)]
pub struct Clock {
    /// How many digits of a second they have: 0 to 9.
    pub digits: u8,
    /// Seconds to add to them.
    pub offset: i64,
}

/// An option, with the bytes after it.
#[derive(Clone, Copy)]
struct Found<'a> {
    code: u16,
    value: &'a [u8],
    rest: &'a [u8],
}

/// The values of the first options with these codes.
#[derive(Clone, Copy)]
struct Values<'a> {
    resolution: Option<&'a [u8]>,
    offset: Option<&'a [u8]>,
}

/// Parses the options of an interface.
///
/// # Errors
///
/// `OptionOverrun` if one is longer than the bytes that are left; then `ResolutionLength`, `Resolution` and `OffsetLength`.
pub(crate) fn read_clock(order: Order, options: &[u8]) -> Result<Clock, InputError>
    ensures { IsClock order options.now result }
{
    match read_values(order, options) {
        Ok(values) => clock_by(order, values),
        Err(error) => Err(error),
    }
}

/// Returns the values of the first `if_tsresol` and of the first `if_tsoffset`.
///
/// # Errors
///
/// `OptionOverrun` if an option is longer than the bytes that are left.
fn read_values(order: Order, options: &[u8]) -> Result<Values<'_>, InputError>
    ensures { MatchResult result (λ values. HasValues order options.now (value_of values.resolution) (value_of values.offset))
        (λ error. (options_before : List Coded) × AreOptions order options.now options_before (Some error)) }
{
    let mut rest = options;
    let mut resolution = None;
    let mut offset = None;
    loop {
        match next_option(order, rest) {
            Ok(Some(found)) => {
                resolution = or_value(resolution, RESOLUTION, found);
                offset = or_value(offset, OFFSET, found);
                rest = found.rest;
            }
            Ok(None) => return Ok(Values { resolution, offset }),
            Err(error) => return Err(error),
        }
    }
}

/// Returns how times are counted.
fn clock_by(order: Order, values: Values<'_>) -> Result<Clock, InputError>
    ensures { result ≡ clock_by (digits_in (value_of values.entry.resolution)) (offset_in order (value_of values.entry.offset)) }
{
    match (
        digits_in(values.resolution),
        offset_in(order, values.offset),
    ) {
        (Ok(digits), Ok(offset)) => Ok(Clock { digits, offset }),
        (Err(error), _) => Err(error),
        (Ok(_), Err(error)) => Err(error),
    }
}

/// Returns the value of an earlier option with this code, or that of `found`, if it has this code.
fn or_value<'a>(earlier: Option<&'a [u8]>, code: u16, found: Found<'a>) -> Option<&'a [u8]>
    ensures { value_of result ≡ option_or (value_of earlier.entry)
        (first_value code ((found.entry.code, found.entry.value.now) ∷ [])) }
{
    match earlier {
        Some(value) => Some(value),
        None if found.code == code => Some(found.value),
        None => None,
    }
}

/// Returns the option at the start of `bytes`, or `None` if there is none.
///
/// # Errors
///
/// `OptionOverrun` if it is longer than the bytes that are left.
fn next_option(order: Order, bytes: &[u8]) -> Result<Option<Found<'_>>, InputError>
    ensures { MatchResult result
        (λ next. MatchOption next (HasNoOption order bytes.now)
        (λ found. BeginsWithOption order bytes.now (found.code, found.value.now) found.rest.now))
        (IsOverrun order bytes.now) }
{
    if bytes.len() < 4 {
        return Ok(None);
    }
    let code = order.u16_at(bytes, 0);
    if code == 0 {
        return Ok(None);
    }
    let length = order.u16_at(bytes, 2);
    let left = bytes.len() - 4;
    let size = length as usize;
    if size > left {
        return Err(InputError::OptionOverrun { code, length, left });
    }
    let value = &bytes[4..4 + size];
    let end = (4 + size + gap(size)).min(bytes.len());
    let rest = &bytes[end..];
    Ok(Some(Found { code, value, rest }))
}

/// Returns the digits of a second by the value of `if_tsresol`.
fn digits_in(value: Option<&[u8]>) -> Result<u8, InputError>
    ensures { result ≡ digits_in (value_of value.entry) }
{
    match value {
        None => Ok(6),
        Some([digits]) if *digits <= 9 => Ok(*digits),
        Some([value]) => Err(InputError::Resolution { value: *value }),
        Some(value) => Err(InputError::ResolutionLength {
            length: value.len(),
        }),
    }
}

/// Returns the seconds to add by the value of `if_tsoffset`.
fn offset_in(order: Order, value: Option<&[u8]>) -> Result<i64, InputError>
    ensures { result ≡ offset_in order (value_of value.entry) }
{
    match value {
        None => Ok(0),
        Some(value) if value.len() == 8 => Ok(order.i64_at(value, 0)),
        Some(value) => Err(InputError::OffsetLength {
            length: value.len(),
        }),
    }
}
