//! Lists from arrays of values.

ghost use Rattle.std.specs.Prelude.{◌≡◌, ◌<◌, ◌^◌, IfOk, OnErr};
ghost use Rattle.nlroute_ffi.specs.Writing.{WriteAnswers, MeasureAnswers};

use crate::refusal::{Refusal, refused_for};
use link_entries::{Entry, measure, write};
use netlink_packet_route::Family;

/// The greatest length of a buffer, `PTRDIFF_MAX`.
const MOST_BYTES: usize = 0x7FFF_FFFF_FFFF_FFFF;

/// Writes values as a list to the start of `out`. Returns the number of bytes written; the rest of `out` is
/// unchanged.
///
/// # Errors
///
/// `NoRoom` if `out` is too small; otherwise why the first value that cannot be written cannot be. On error `out` is
/// unchanged.
pub(crate) fn write_values(
    family: Family,
    values: &[Entry],
    octets: &[u8],
    out: &mut [u8],
) -> Result<usize, Refusal>
    ensures answer { WriteAnswers values.now octets.now out.old out.new family result }
    ensures bounded { IfOk result (λ n. n < 2 ^ 63) }
    ensures unchanged { OnErr result (out.new ≡ out.old) }
{
    match write(family, values, octets, out) {
        Ok(Some(count)) => Ok(count),
        Ok(None) => Err(Refusal::NoRoom),
        Err(first) => Err(refused_for(first.misfit)),
    }
}

/// Returns the length of values that are written as a list.
///
/// # Errors
///
/// Why the first value that cannot be written cannot be. `at` is then its index; otherwise `at` is unchanged. `NoRoom` if no
/// buffer is as long as the list.
pub(crate) fn measure_values(
    family: Family,
    values: &[Entry],
    octets: &[u8],
    at: &mut usize,
) -> Result<usize, Refusal>
    ensures answer { MeasureAnswers values.now octets.now at.old at.new family result }
    ensures bounded { IfOk result (λ n. n < 2 ^ 63) }
{
    match measure(family, values, octets) {
        Ok(len) if len <= MOST_BYTES => Ok(len),
        Ok(_) => Err(Refusal::NoRoom),
        Err(first) => {
            *at = first.index;
            Err(refused_for(first.misfit))
        }
    }
}
