//! Numbers and addresses as payloads.
//!
//! Parse functions take a whole payload and fail with `Payload`. Emit functions write to the start of `buffer` and
//! leave the rest unchanged. Numbers are little-endian unless their comment says big-endian. The types `NL_ATTR_TYPE_*`
//! are those of `include/uapi/linux/netlink.h`.

ghost use Rattle.std.specs.Prelude.{◌≡◌, ◌≤◌, ◌<◌, ◌∷◌, [], length, reverse};
ghost use Rattle.std.specs.Int.{w32, cast_unsigned};
ghost use Rattle.link_base.specs.declared.wire.fault.Cause.TheVariants.{WrongLength};
ghost use Rattle.link_base.specs.Number.{number, bytes_of};
ghost use Rattle.link_base.specs.Class.{accepted, integer, Exactly};
ghost use Rattle.link_base.specs.Layout.{octets_of};
ghost use Rattle.link_base.specs.IpAddress.{IsAddress};
ghost use Rattle.link_base.specs.Held.{IsOctets};
ghost use Rattle.link_base.specs.Answers.{payload_result, refused, OverwritesFront};

use crate::wire::fault::{Cause, DecodeError, DecodeFault};
use std::net::{IpAddr, Ipv4Addr, Ipv6Addr};

pub(crate) fn wrong_length(want: usize, got: usize) -> DecodeError
    ensures { result ≡ refused (WrongLength want got) }
{
    DecodeError::Fault(DecodeFault::Payload(Cause::WrongLength { want, got }))
}

/// Parses a `u8` (`NL_ATTR_TYPE_U8`).
///
/// # Errors
///
/// `Payload(WrongLength)` if `payload.len()` is not 1.
#[inline]
pub fn parse_u8(payload: &[u8]) -> Result<u8, DecodeError>
    ensures { result ≡ payload_result (accepted (Exactly 1) number payload.now) }
{
    match payload {
        [a] => Ok(*a),
        _ => Err(wrong_length(1, payload.len())),
    }
}

/// Parses a little-endian `u16` (`NL_ATTR_TYPE_U16`).
///
/// # Errors
///
/// `Payload(WrongLength)` if `payload.len()` is not 2.
#[inline]
pub fn parse_u16(payload: &[u8]) -> Result<u16, DecodeError>
    ensures { result ≡ payload_result (accepted (Exactly 2) number payload.now) }
{
    match payload {
        [a, b] => Ok(u16::from_le_bytes([*a, *b])),
        _ => Err(wrong_length(2, payload.len())),
    }
}

/// Parses a little-endian `u32` (`NL_ATTR_TYPE_U32`).
///
/// # Errors
///
/// `Payload(WrongLength)` if `payload.len()` is not 4.
#[inline]
pub fn parse_u32(payload: &[u8]) -> Result<u32, DecodeError>
    ensures { result ≡ payload_result (accepted (Exactly 4) number payload.now) }
{
    match payload {
        [a, b, c, d] => Ok(u32::from_le_bytes([*a, *b, *c, *d])),
        _ => Err(wrong_length(4, payload.len())),
    }
}

/// Parses a little-endian `u64` (`NL_ATTR_TYPE_U64`).
///
/// # Errors
///
/// `Payload(WrongLength)` if `payload.len()` is not 8.
#[inline]
pub fn parse_u64(payload: &[u8]) -> Result<u64, DecodeError>
    ensures { result ≡ payload_result (accepted (Exactly 8) number payload.now) }
{
    match payload.try_into() {
        Ok(octets) => Ok(u64::from_le_bytes(octets)),
        Err(_) => Err(wrong_length(8, payload.len())),
    }
}

/// Parses a little-endian `i32`, in two's complement (`NL_ATTR_TYPE_S32`).
///
/// # Errors
///
/// `Payload(WrongLength)` if `payload.len()` is not 4.
#[inline]
pub fn parse_i32(payload: &[u8]) -> Result<i32, DecodeError>
    ensures { result ≡ payload_result (accepted (Exactly 4) integer payload.now) }
{
    match payload {
        [a, b, c, d] => Ok(i32::from_le_bytes([*a, *b, *c, *d])),
        _ => Err(wrong_length(4, payload.len())),
    }
}

/// Parses a big-endian `u16` (`__be16`).
///
/// # Errors
///
/// `Payload(WrongLength)` if `payload.len()` is not 2.
#[inline]
pub fn parse_u16_be(payload: &[u8]) -> Result<u16, DecodeError>
    ensures { result ≡ payload_result (accepted (Exactly 2) (λ p. number (reverse p)) payload.now) }
{
    match payload {
        [a, b] => Ok(u16::from_be_bytes([*a, *b])),
        _ => Err(wrong_length(2, payload.len())),
    }
}

/// Parses a hardware address: six octets, in order (`ETH_ALEN`, `include/uapi/linux/if_ether.h`).
///
/// # Errors
///
/// `Payload(WrongLength)` if `payload.len()` is not 6.
#[inline]
pub fn parse_mac(payload: &[u8]) -> Result<[u8; 6], DecodeError>
    ensures { result ≡ payload_result (accepted (Exactly 6) (λ p. p) payload.now) }
{
    match payload.try_into() {
        Ok(octets) => Ok(octets),
        Err(_) => Err(wrong_length(6, payload.len())),
    }
}

/// Parses an IP address: the octets, in order, of an IPv4 address if there are 4, of an IPv6 address if there are 16.
///
/// # Errors
///
/// `Payload(AddressLength)` if `payload.len()` is neither 4 nor 16.
#[inline]
pub fn parse_ip(payload: &[u8]) -> Result<IpAddr, DecodeError>
    ensures { IsAddress payload.now result }
{
    match payload {
        [a, b, c, d] => Ok(IpAddr::V4(Ipv4Addr::new(*a, *b, *c, *d))),
        [a, b, c, d, e, f, g, h, i, j, k, l, m, n, o, p] => Ok(IpAddr::V6(Ipv6Addr::from_octets(
            [
                *a, *b, *c, *d, *e, *f, *g, *h, *i, *j, *k, *l, *m, *n, *o, *p,
            ],
        ))),
        _ => {
            let got = payload.len();
            Err(DecodeError::Fault(DecodeFault::Payload(Cause::AddressLength { got })))
        }
    }
}

/// Writes a `u8` to `buffer[..1]`. `buffer` must not be empty.
#[inline]
pub fn emit_u8(buffer: &mut [u8], value: u8)
    requires { 1 ≤ length buffer.old }
    ensures { OverwritesFront buffer.old buffer.new (bytes_of 1 value) }
{
    buffer[..1].copy_from_slice(&value.to_le_bytes());
}

/// Writes a little-endian `u16` to `buffer[..2]`. `buffer` must be at least 2 bytes long.
#[inline]
pub fn emit_u16(buffer: &mut [u8], value: u16)
    requires { 2 ≤ length buffer.old }
    ensures { OverwritesFront buffer.old buffer.new (bytes_of 2 value) }
{
    buffer[..2].copy_from_slice(&value.to_le_bytes());
}

/// Writes a little-endian `u32` to `buffer[..4]`. `buffer` must be at least 4 bytes long.
#[inline]
pub fn emit_u32(buffer: &mut [u8], value: u32)
    requires { 4 ≤ length buffer.old }
    ensures { OverwritesFront buffer.old buffer.new (bytes_of 4 value) }
{
    buffer[..4].copy_from_slice(&value.to_le_bytes());
}

/// Writes a little-endian `u64` to `buffer[..8]`. `buffer` must be at least 8 bytes long.
#[inline]
pub fn emit_u64(buffer: &mut [u8], value: u64)
    requires { 8 ≤ length buffer.old }
    ensures { OverwritesFront buffer.old buffer.new (bytes_of 8 value) }
{
    buffer[..8].copy_from_slice(&value.to_le_bytes());
}

/// Writes a little-endian `i32`, in two's complement, to `buffer[..4]`. `buffer` must be at least 4 bytes long.
#[inline]
pub fn emit_i32(buffer: &mut [u8], value: i32)
    requires { 4 ≤ length buffer.old }
    ensures { OverwritesFront buffer.old buffer.new (bytes_of 4 (cast_unsigned w32 value)) }
{
    let octets = value.to_le_bytes();
    buffer[..4].copy_from_slice(&octets);
}

/// Writes a big-endian `u16` to `buffer[..2]`. `buffer` must be at least 2 bytes long.
#[inline]
pub fn emit_u16_be(buffer: &mut [u8], value: u16)
    requires { 2 ≤ length buffer.old }
    ensures { OverwritesFront buffer.old buffer.new (reverse (bytes_of 2 value)) }
{
    buffer[..2].copy_from_slice(&value.to_be_bytes());
}

/// Writes a big-endian `u32` to `buffer[..4]`. `buffer` must be at least 4 bytes long.
#[inline]
pub fn emit_u32_be(buffer: &mut [u8], value: u32)
    requires { 4 ≤ length buffer.old }
    ensures { OverwritesFront buffer.old buffer.new (reverse (bytes_of 4 value)) }
{
    buffer[..4].copy_from_slice(&value.to_be_bytes());
}

/// Writes a big-endian `u64` to `buffer[..8]`. `buffer` must be at least 8 bytes long.
#[inline]
pub fn emit_u64_be(buffer: &mut [u8], value: u64)
    requires { 8 ≤ length buffer.old }
    ensures { OverwritesFront buffer.old buffer.new (reverse (bytes_of 8 value)) }
{
    buffer[..8].copy_from_slice(&value.to_be_bytes());
}

/// Writes a byte as a little-endian `u16`: the byte, then a zero. `buffer` must be exactly 2 bytes long.
#[inline]
pub fn emit_low(buffer: &mut [u8], low: u8)
    requires { length buffer.old ≡ 2 }
    ensures written { buffer.new ≡ low ∷ 0 ∷ [] }
    ensures in_range { low < 256 }
{
    buffer.copy_from_slice(&[low, 0]);
}

/// Writes two consecutive little-endian `u32`s to `buffer[..8]`. `buffer` must be at least 8 bytes long.
#[inline]
pub fn emit_u32_pair(buffer: &mut [u8], first: u32, second: u32)
    requires { 8 ≤ length buffer.old }
    ensures written { OverwritesFront buffer.old buffer.new (octets_of 4 (first ∷ second ∷ [])) }
    ensures octets { IsOctets 8 (octets_of 4 (first ∷ second ∷ [])) }
{
    let [a, b, c, d] = first.to_le_bytes();
    let [e, f, g, h] = second.to_le_bytes();
    buffer[..8].copy_from_slice(&[a, b, c, d, e, f, g, h]);
}

/// Writes the octets of a hardware address, in order, to `buffer[..6]`. `buffer` must be at least 6 bytes long.
#[inline]
pub fn emit_mac(buffer: &mut [u8], address: &[u8; 6])
    requires { length address.now ≤ length buffer.old }
    ensures written { OverwritesFront buffer.old buffer.new address.now }
    ensures octets { IsOctets 6 address.now }
{
    buffer[..6].copy_from_slice(address.as_slice());
}
