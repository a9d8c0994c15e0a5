//! Parses and re-encodes lists.

ghost use Rattle.std.specs.Prelude.{◌≡◌, ◌≤◌, ◌<◌, length, drop, Err, IfOk, OnErr};
ghost use Rattle.netlink_packet_route.specs.Frame.{pad};
ghost use Rattle.netlink_packet_route.specs.Family.{table_of};
ghost use Rattle.nlroute_ffi.specs.Calls.{CountAnswers, RewriteAnswers, StreamingAnswers};
ghost use Rattle.nlroute_ffi.specs.declared.refusal.Refusal.TheVariants.{NoRoom};

use crate::refusal::{Refusal, refused_by};
use netlink_packet_route::link::padded;
use netlink_packet_route::{Family, count_values, rewrite_streaming, rewrite_to_slice};
use std::alloc::Global;

/// Counts the values of a list.
///
/// # Errors
///
/// `Fault` if the input is malformed.
pub(crate) fn count(family: Family, bytes: &[u8]) -> Result<usize, Refusal>
    ensures answer { CountAnswers bytes.now (table_of family) result }
    ensures bounded { IfOk result (λ n. n ≤ length bytes.now) }
{
    match count_values(family, bytes) {
        Ok(count) => Ok(count),
        Err(_) => Err(Refusal::Fault),
    }
}

/// Re-encodes a list into `out`. Returns the number of bytes written; the rest of `out` is unchanged.
///
/// # Errors
///
/// `Fault`, `TooLong` or `Memory` as for `rewrite_to_slice`, `NoRoom` if `out` is too small. On error `out` is
/// unchanged.
pub(crate) fn rewrite(
    alloc: Global,
    family: Family,
    bytes: &[u8],
    out: &mut [u8],
) -> Result<usize, Refusal>
    ensures answer { RewriteAnswers bytes.now out.old out.new (table_of family) result }
    ensures unchanged { OnErr result (out.new ≡ out.old) }
{
    match rewrite_to_slice(alloc, family, bytes, out) {
        Ok(Some(count)) => Ok(count),
        Ok(None) => Err(Refusal::NoRoom),
        Err(error) => Err(refused_by(error)),
    }
}

/// Re-encodes a list into `out`, one attribute at a time. Returns the number of bytes written; the rest of `out` is
/// unchanged.
///
/// # Errors
///
/// Let `m` be `bytes.len()` rounded up to a multiple of four.
///
/// `NoRoom` if `out` has fewer than `m` bytes, and then it is unchanged. Otherwise `Fault`, `TooLong` or `Memory` as
/// for `rewrite_streaming`, and then `out[..m]` may have changed.
#[inline(always)]
pub(crate) fn rewrite_each(
    alloc: Global,
    family: Family,
    bytes: &[u8],
    out: &mut [u8],
) -> Result<usize, Refusal>
    ensures answer { StreamingAnswers bytes.now out.old out.new (table_of family) result }
    ensures behind { drop (pad (length bytes.now)) out.new ≡ drop (pad (length bytes.now)) out.old }
    ensures room { length out.old < pad (length bytes.now) → (result ≡ Err NoRoom) × (out.new ≡ out.old) }
{
    if out.len() < padded(bytes.len()) {
        return Err(Refusal::NoRoom);
    }
    match rewrite_streaming(alloc, family, bytes, out) {
        Ok(count) => Ok(count),
        Err(error) => Err(refused_by(error)),
    }
}
