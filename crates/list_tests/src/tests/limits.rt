//! Tests payloads of the maximum length, and values that do not fit.

use crate::tests::{bytes, filled, holds};
use netlink_packet_route::link::{
    Attribute, DefaultNla, InfoBond, InfoCan, InfoDsa, InfoVlan, Nla, VlanQosMapping, WriteError,
    emit_list, list_fits, list_len, read_list, write_list,
};
use netlink_packet_route::{Family, RewriteError, report, rewrite};
use std::alloc::Global;
use std::net::{Ipv4Addr, Ipv6Addr};
use std::process::Abort;

/// Returns an attribute of type 99 with a payload of `length` zeros.
fn zeros(rt: &impl Abort, alloc: Global, length: usize) -> DefaultNla {
    DefaultNla::new(99, vec![in alloc; 0u8; length].expect(rt, "zeros"))
}

#[test]
fn lengths(rt: HostRuntime) {
    for (payload, frame, fits) in [
        (0, 4, true),
        (1, 8, true),
        (65531, 65536, true),
        (65532, 65536, false),
        (65533, 65540, false),
        (131_072, 131_076, false),
    ] {
        let value = zeros(&rt, rt.alloc(), payload);
        let lens = value.value_len() == payload && value.buffer_len() == frame;
        assert!(rt; lens && value.fits() == fits, "at {payload}");
    }
}

#[test]
fn the_first_value_that_does_not_fit(rt: HostRuntime) {
    let alloc = rt.alloc();
    let longest = zeros(&rt, alloc, 65531);
    let out = write_list(alloc, &[longest]).expect(&rt, "its bytes");
    assert!(rt; out.len() == 65536 && out.starts_with(&[0xFF, 0xFF, 0x63, 0]));
    let longer = [
        zeros(&rt, alloc, 4),
        zeros(&rt, alloc, 65532),
        zeros(&rt, alloc, 65533),
    ];
    assert!(rt; !list_fits(&longer));
    assert!(rt; write_list(alloc, &longer) == Err(WriteError::TooLong { index: 1 }));
}

#[test]
fn no_values(rt: HostRuntime) {
    let none: Vec<InfoBond> = read_list(rt.alloc(), &[]).expect(&rt, "no values");
    let out = write_list(rt.alloc(), &none).expect(&rt, "no bytes");
    let is_none = none.is_empty() && out.is_empty();
    assert!(rt; is_none && list_fits(&none) && list_len(&none) == 0);
}

#[test]
fn a_list_in_a_longer_buffer(rt: HostRuntime) {
    let alloc = rt.alloc();
    let written = bytes(&rt, alloc, "06006380 dead0000 05000100 2a000000");
    let values: Vec<DefaultNla> = read_list(alloc, &written).expect(&rt, "two values");
    let mut buffer = [0xFF; 18];
    assert!(rt; list_fits(&values) && list_len(&values) == 16);
    emit_list(&values, &mut buffer);
    assert!(rt; buffer.starts_with(&written) && buffer.ends_with(&[0xFF; 2]));
}

fn many_of_four(rt: &impl Abort, alloc: Global, count: usize) -> InfoBond {
    let address = Ipv4Addr::new(10, 0, 0, 1);
    InfoBond::ArpIpTarget(vec![in alloc; address; count].expect(rt, "addresses"))
}

fn many_of_sixteen(rt: &impl Abort, alloc: Global, count: usize) -> InfoBond {
    let address = Ipv6Addr::new(0, 0, 0, 0, 0, 0, 0, 1);
    InfoBond::NsIp6Target(vec![in alloc; address; count].expect(rt, "addresses"))
}

fn many_of_two(rt: &impl Abort, alloc: Global, count: usize) -> InfoCan {
    InfoCan::TerminationConst(vec![in alloc; 0x0102u16; count].expect(rt, "numbers"))
}

fn many_rates(rt: &impl Abort, alloc: Global, count: usize) -> InfoCan {
    InfoCan::BitrateConst(vec![in alloc; 0x0102_0304u32; count].expect(rt, "numbers"))
}

fn many_mappings(rt: &impl Abort, alloc: Global, count: usize) -> InfoVlan {
    let mut mappings = Vec::new(alloc);
    for _ in 0..count {
        let mapping = VlanQosMapping::Mapping(1, 2);
        mappings.push(mapping).expect(rt, "a mapping");
    }
    InfoVlan::EgressQos(mappings)
}

/// Asserts that the value fits, and decodes from its encoding, which has these bytes at its start and at its end.
fn is_written<F: Attribute>(rt: &impl Abort, alloc: Global, value: F, start: &[u8], end: &[u8]) {
    assert!(rt; value.fits());
    let mut values = Vec::new(alloc);
    values.push(value).expect(rt, "a value");
    let out = write_list(alloc, &values).expect(rt, "its bytes");
    let read: Vec<F> = read_list(alloc, &out).expect(rt, "the value");
    assert!(rt; read == values && out.starts_with(start) && out.ends_with(end));
}

#[test]
fn as_many_elements_as_fit(rt: HostRuntime) {
    let alloc = rt.alloc();
    // the last element has the attribute type 8190
    let (start, end) = (
        [0xFC, 0xFF, 8, 0, 8, 0, 0, 0],
        [8, 0, 0xFE, 0x1F, 10, 0, 0, 1],
    );
    is_written(&rt, alloc, many_of_four(&rt, alloc, 8191), &start, &end);
    let (start, end) = ([0xF4, 0xFF, 31, 0, 20, 0, 0, 0], [0, 0, 0, 0, 0, 0, 0, 1]);
    is_written(&rt, alloc, many_of_sixteen(&rt, alloc, 3276), &start, &end);
    let (start, end) = ([0xFE, 0xFF, 12, 0, 2, 1, 2, 1], [2, 1, 2, 1, 2, 1, 0, 0]);
    is_written(&rt, alloc, many_of_two(&rt, alloc, 32765), &start, &end);
    let (start, end) = ([0xFC, 0xFF, 13, 0, 4, 3, 2, 1], [4, 3, 2, 1, 4, 3, 2, 1]);
    is_written(&rt, alloc, many_rates(&rt, alloc, 16382), &start, &end);
    let (start, end) = ([0xF4, 0xFF, 3, 0, 12, 0, 1, 0], [1, 0, 0, 0, 2, 0, 0, 0]);
    is_written(&rt, alloc, many_mappings(&rt, alloc, 5460), &start, &end);
}

/// Asserts that the value, with a payload of `len` bytes, does not fit and is not written.
fn is_too_long<F: Attribute>(rt: &impl Abort, alloc: Global, value: F, len: usize) {
    assert!(rt; !value.fits() && value.value_len() == len);
    let mut values = Vec::new(alloc);
    values.push(value).expect(rt, "a value");
    assert!(rt; write_list(alloc, &values) == Err(WriteError::TooLong { index: 0 }));
}

#[test]
fn one_element_more(rt: HostRuntime) {
    let alloc = rt.alloc();
    is_too_long(&rt, alloc, many_of_four(&rt, alloc, 8192), 65536);
    is_too_long(&rt, alloc, many_of_sixteen(&rt, alloc, 3277), 65540);
    is_too_long(&rt, alloc, many_of_two(&rt, alloc, 32766), 65532);
    is_too_long(&rt, alloc, many_rates(&rt, alloc, 16383), 65532);
    is_too_long(&rt, alloc, many_mappings(&rt, alloc, 5461), 65532);
    let longer = InfoDsa::Other(zeros(&rt, alloc, 65532));
    is_too_long(&rt, alloc, longer, 65532);
}

/// Mappings after a value that fits.
#[test]
fn the_second_value(rt: HostRuntime) {
    let alloc = rt.alloc();
    let longest = [InfoVlan::Id(1), many_mappings(&rt, alloc, 5460)];
    assert!(rt; list_fits(&longest) && list_len(&longest) == 65532);
    let longer = [InfoVlan::Id(1), many_mappings(&rt, alloc, 5461)];
    assert!(rt; write_list(alloc, &longer) == Err(WriteError::TooLong { index: 1 }));
}

/// Returns the hex digits of a list that starts with these, has zeros up to `length` bytes, and ends with others.
fn long_text(rt: &impl Abort, alloc: Global, digits: &str, length: usize, end: &str) -> Vec<u8> {
    let mut text = digits.as_bytes().to_vec(alloc).expect(rt, digits);
    text.resize(length.saturating_mul(2), b'0')
        .expect(rt, digits);
    text.extend_from_slice(end.as_bytes()).expect(rt, digits);
    text
}

#[test]
fn reports_of_the_longest_payloads(rt: HostRuntime) {
    for (digits, length, lines, end) in [
        (
            "ffff6300",
            65535,
            "attr 99 len 65531\nout ",
            "00\nchanged\n",
        ),
        // the longest list whose last element is whole
        (
            "fcff0300f8ff6300",
            65532,
            "attr 3 len 65528\nout ",
            "\nsame\n",
        ),
    ] {
        let text = long_text(&rt, rt.alloc(), digits, length, "");
        let (shown, status) = report(rt.alloc(), Family::Vlan, &text).expect(&rt, digits);
        let mut wanted = lines.as_bytes().to_vec(rt.alloc()).expect(&rt, digits);
        wanted.extend_from_slice(&text).expect(&rt, digits);
        wanted.extend_from_slice(end.as_bytes()).expect(&rt, digits);
        holds(
            &rt,
            shown.as_bytes() == wanted.as_slice() && status == 0,
            digits,
        );
    }
}

/// Lists of mappings whose last element lacks one to three bytes of padding. With this padding, the payload has more
/// bytes than fit in an attribute.
#[test]
fn lists_that_grow(rt: HostRuntime) {
    for (digits, length, end, wanted, status) in [
        ("fdff0300f9ff6300", 65533, "", "too long at 0\n", 3),
        ("feff0300faff6300", 65534, "", "too long at 0\n", 3),
        ("ffff0300fbff6300", 65535, "", "too long at 0\n", 3),
        // two of the three bytes of padding, and all, before another attribute
        ("fdff0300f9ff6300", 65533, "0300", "too long at 0\n", 3),
        ("fdff0300f9ff6300", 65536, "04000900", "too long at 0\n", 3),
        (
            "060001000a000000fdff0300f9ff6300",
            65541,
            "",
            "too long at 1\n",
            3,
        ),
        // a decode error is reported before a value that does not fit
        (
            "fdff0300f9ff6300",
            65536,
            "0300",
            "fault at 65536: short frame 2\n",
            1,
        ),
        (
            "fdff0300f9ff6300",
            65536,
            "04000100",
            "fault at 65536: kind 1: wrong length 2 0\n",
            1,
        ),
    ] {
        let text = long_text(&rt, rt.alloc(), digits, length, end);
        let (out, answer) = report(rt.alloc(), Family::Vlan, &text).expect(&rt, wanted);
        holds(&rt, out.as_str() == wanted && answer == status, wanted);
    }
}

/// The value of such a list, which `rewrite` rejects.
#[test]
fn the_value_of_a_list_that_grows(rt: HostRuntime) {
    let alloc = rt.alloc();
    let list = filled(&rt, alloc, "fdff0300 f9ff6300", 65_533);
    let values: Vec<InfoVlan> = read_list(alloc, &list).expect(&rt, "a value");
    let other = VlanQosMapping::Other(zeros(&rt, alloc, 65_525));
    let mapping = Vec::from_array(alloc, [other]).expect(&rt, "a mapping");
    assert!(rt; values.as_slice() == [InfoVlan::EgressQos(mapping)].as_slice());
    let long = RewriteError::TooLong { index: 0 };
    assert!(rt; rewrite(alloc, Family::Vlan, &list) == Err(long));
}
