//! Tests numbers and addresses as payloads, one of each form.

use netlink_packet_route::link::{
    Cause, DecodeError, DecodeFault, emit_i32, emit_u16, emit_u16_be, emit_u32, emit_u64,
    expand_buffer_if_small, parse_i32, parse_ip, parse_mac, parse_u8, parse_u16, parse_u16_be,
    parse_u32, parse_u64,
};
use std::net::{IpAddr, Ipv4Addr, Ipv6Addr};
use std::process::Abort;

#[test]
fn numbers(rt: HostRuntime) {
    assert!(rt; parse_u8(&[0x81]) == Ok(0x81));
    assert!(rt; parse_u16(&[2, 1]) == Ok(0x0102));
    assert!(rt; parse_u16_be(&[1, 2]) == Ok(0x0102));
    assert!(rt; parse_u32(&[4, 3, 2, 1]) == Ok(0x0102_0304));
    assert!(rt; parse_i32(&[0xFE, 0xFF, 0xFF, 0xFF]) == Ok(-2));
    assert!(rt; parse_u64(&[8, 7, 6, 5, 4, 3, 2, 1]) == Ok(0x0102_0304_0506_0708));
    assert!(rt; parse_mac(&[2, 0, 0, 0, 0, 1]) == Ok([2, 0, 0, 0, 0, 1]));
}

/// Each number after the one before it. What follows the last is unchanged.
#[test]
fn written_numbers(rt: HostRuntime) {
    let mut buffer = [0xEE; 22];
    emit_u16(&mut buffer, 0x0102);
    emit_u16_be(&mut buffer[2..], 0x0102);
    emit_u32(&mut buffer[4..], 0x0102_0304);
    emit_i32(&mut buffer[8..], -2);
    emit_u64(&mut buffer[12..], 0x0102_0304_0506_0708);
    let wanted = [
        2, 1, 1, 2, 4, 3, 2, 1, 0xFE, 0xFF, 0xFF, 0xFF, 8, 7, 6, 5, 4, 3, 2, 1, 0xEE, 0xEE,
    ];
    assert!(rt; buffer == wanted);
}

fn is_refused<T: PartialEq + Drop>(rt: &impl Abort, answer: Result<T, DecodeError>, cause: Cause) {
    let fault = DecodeError::Fault(DecodeFault::Payload(cause));
    assert!(rt; answer == Err(fault), "by {cause}");
}

#[test]
fn other_lengths(rt: HostRuntime) {
    let want = |want, got| Cause::WrongLength { want, got };
    is_refused(&rt, parse_u8(&[0; 2]), want(1, 2));
    is_refused(&rt, parse_u16(&[0; 3]), want(2, 3));
    is_refused(&rt, parse_u16_be(&[0; 1]), want(2, 1));
    is_refused(&rt, parse_u32(&[]), want(4, 0));
    is_refused(&rt, parse_i32(&[0; 5]), want(4, 5));
    is_refused(&rt, parse_u64(&[0; 7]), want(8, 7));
    is_refused(&rt, parse_mac(&[0; 8]), want(6, 8));
    let got = Cause::AddressLength { got: 5 };
    is_refused(&rt, parse_ip(&[0; 5]), got);
}

#[test]
fn ip_addresses(rt: HostRuntime) {
    let local = IpAddr::V4(Ipv4Addr::new(192, 168, 0, 1));
    assert!(rt; parse_ip(&[192, 168, 0, 1]) == Ok(local));
    // an IPv4-mapped IPv6 address keeps its sixteen bytes
    let mapped = IpAddr::V6(Ipv6Addr::new(0, 0, 0, 0, 0, 0xFFFF, 0x0102, 0x0304));
    let octets = [0, 0, 0, 0, 0, 0, 0, 0, 0, 0, 0xFF, 0xFF, 1, 2, 3, 4];
    assert!(rt; parse_ip(&octets) == Ok(mapped));
}

#[test]
fn expanded_buffers(rt: HostRuntime) {
    for (got, size, wanted) in [
        ([1, 2].as_slice(), 4, [1, 2, 0, 0].as_slice()),
        (&[1, 2, 3], 2, &[1, 2, 3]),
        (&[], 3, &[0, 0, 0]),
    ] {
        let bytes = expand_buffer_if_small(rt.alloc(), got, size).expect(&rt, "memory");
        assert!(rt; bytes.as_slice() == wanted);
    }
}
