//! Fixed-layout structs: payloads with fields at fixed offsets.

ghost use Rattle.std.specs.Prelude.{◌≡◌, ◌<◌, ◌≤◌, ◌+◌, ◌*◌, length, take, drop};
ghost use Rattle.link_base.specs.Number.{bytes_of};
ghost use Rattle.link_base.specs.Class.{accepted, AtLeast, Exactly, Fixed, Multiple};
ghost use Rattle.link_base.specs.Layout.{number_at, numbers_at, octets_of};
ghost use Rattle.link_base.specs.Name.{before_nul};
ghost use Rattle.link_base.specs.Answers.{payload_result};

use crate::classes::scalars::wrong_length;
use crate::wire::fault::{Cause, DecodeError, DecodeFault};
use bstr::ByteSlice;

/// Checks that a payload has at least `want` bytes.
///
/// # Errors
///
/// `Payload(TooShort)` if `payload.len() < want`.
pub fn check_at_least(payload: &[u8], want: usize) -> Result<(), DecodeError>
    ensures { result ≡ payload_result (accepted (AtLeast want) (λ _. tt) payload.now) }
{
    let got = payload.len();
    if got < want {
        let cause = Cause::TooShort { want, got };
        return Err(DecodeError::Fault(DecodeFault::Payload(cause)));
    }
    Ok(())
}

/// Checks that a payload has exactly `want` bytes.
///
/// # Errors
///
/// `Payload(TooShort)` if `payload.len() < want`, and `Payload(WrongLength)` if `payload.len() > want`.
pub fn check_length(payload: &[u8], want: usize) -> Result<(), DecodeError>
    ensures { result ≡ payload_result (accepted (Fixed want) (λ _. tt) payload.now) }
{
    check_at_least(payload, want)?;
    check_exactly(payload, want)
}

/// Checks that a payload has exactly `want` bytes. Unlike `check_length`, it reports a short payload as `WrongLength`
/// too.
///
/// # Errors
///
/// `Payload(WrongLength)` if `payload.len()` is not `want`.
pub fn check_exactly(payload: &[u8], want: usize) -> Result<(), DecodeError>
    ensures { result ≡ payload_result (accepted (Exactly want) (λ _. tt) payload.now) }
{
    let got = payload.len();
    if got != want {
        return Err(wrong_length(want, got));
    }
    Ok(())
}

/// Checks that the length of a payload is a multiple of `want`, which must not be 0.
///
/// # Errors
///
/// `Payload(WrongLength)` if it is not.
pub(crate) fn check_multiple(payload: &[u8], want: usize) -> Result<(), DecodeError>
    requires { 0 < want }
    ensures { result ≡ payload_result (accepted (Multiple want) (λ _. tt) payload.now) }
{
    let got = payload.len();
    if got % want != 0 {
        return Err(wrong_length(want, got));
    }
    Ok(())
}

/// Reads the little-endian `u16` at `bytes[offset..offset + 2]`, which must be within `bytes`.
#[inline]
pub fn u16_at(bytes: &[u8], offset: usize) -> u16
    requires { offset + 2 ≤ length bytes.now }
    ensures value { result ≡ number_at 2 offset bytes.now }
    ensures octets { bytes_of 2 result ≡ take 2 (drop offset bytes.now) }
{
    u16::from_le_bytes([bytes[offset], bytes[offset + 1]])
}

/// Reads the little-endian `u32` at `bytes[offset..offset + 4]`, which must be within `bytes`.
#[inline]
pub fn u32_at(bytes: &[u8], offset: usize) -> u32
    requires { offset + 4 ≤ length bytes.now }
    ensures value { result ≡ number_at 4 offset bytes.now }
    ensures octets { bytes_of 4 result ≡ take 4 (drop offset bytes.now) }
{
    u32::from_le_bytes([
        bytes[offset],
        bytes[offset + 1],
        bytes[offset + 2],
        bytes[offset + 3],
    ])
}

/// Reads `N` consecutive little-endian `u32`s at `bytes[offset..offset + 4 * N]`, which must be within `bytes`.
pub fn u32s_at<const N: usize>(bytes: &[u8], offset: usize) -> [u32; N]
    requires { offset + 4 * N ≤ length bytes.now }
    ensures value { result ≡ numbers_at 4 N offset bytes.now }
    ensures octets { octets_of 4 result ≡ take (4 * N) (drop offset bytes.now) }
{
    let mut numbers = [0; N];
    for i in 0..N {
        numbers[i] = u32_at(bytes, offset + 4 * i);
    }
    numbers
}

/// Returns the bytes of a field before the first NUL, or all of them if there is none.
#[inline]
#[tactic(auto, using(crate::proofs::NulLemmas::first_nul))]
pub fn before_nul<'a>(field: &'a [u8]) -> &'a [u8]
    ensures { result.now ≡ before_nul field.now }
{
    let end = field.find_byte(0).unwrap_or(field.len());
    &field[..end]
}
