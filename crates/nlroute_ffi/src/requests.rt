//! Requests from a head and an array of values.

ghost use Rattle.std.specs.Prelude.{◌≡◌, ◌<◌, ◌^◌, length, IfOk, OnErr};
ghost use Rattle.link_requests.specs.Request.{request_of};
ghost use Rattle.nlroute_ffi.specs.Requests.{RequestAnswers, refusal_of_request, index_of};

use crate::refusal::{Refusal, refused_for};
use link_entries::Entry;
use link_requests::{Head, RequestError, measure, write_request};

/// Writes the request of a head and values to the start of `out`. Returns the number of bytes written; the rest of
/// `out`, and `at`, are unchanged.
///
/// # Errors
///
/// Why the head, the first value that cannot be written, or the whole request cannot be. `at` is then the index of the value,
/// or the number of values. `NoRoom` if `out` is too small; `at` is then the length of the request. On error `out` is
/// unchanged.
pub(crate) fn store_request(
    head: &Head,
    values: &[Entry],
    octets: &[u8],
    out: &mut [u8],
    at: &mut usize,
) -> Result<usize, Refusal>
    ensures answer { RequestAnswers head.now values.now octets.now out.old out.new at.old at.new result }
    ensures bounded { IfOk result (λ n. n < 2 ^ 63) }
    ensures unchanged { OnErr result (out.new ≡ out.old) }
{
    match write_request(head, values, octets, out) {
        Ok(Some(count)) => Ok(count),
        Ok(None) => {
            *at = length_of(head, values, octets);
            Err(Refusal::NoRoom)
        }
        Err(error) => {
            *at = index_of(error, values.len());
            Err(refused_request(error))
        }
    }
}

/// Returns the length of a request that can be written.
fn length_of(head: &Head, values: &[Entry], octets: &[u8]) -> usize
    ensures { IfOk (request_of head.now octets.now values.now) (λ s. result ≡ length s) }
{
    match measure(head, values, octets) {
        Ok(len) => len,
        Err(_) => 0,
    }
}

/// Returns the index of the value that cannot be written, or the number of values if it is none of them.
fn index_of(error: RequestError, count: usize) -> usize
    ensures { result ≡ index_of count error }
{
    match error {
        RequestError::Value(first) => first.index,
        _ => count,
    }
}

/// Returns the `Refusal` for a request that cannot be written.
fn refused_request(error: RequestError) -> Refusal
    ensures { result ≡ refusal_of_request error }
{
    match error {
        RequestError::BadType => Refusal::BadType,
        RequestError::NoIndex => Refusal::NoIndex,
        RequestError::Value(first) => refused_for(first.misfit),
        RequestError::TooLarge => Refusal::TooLong,
    }
}
