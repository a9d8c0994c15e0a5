//! Tests frames: their fields, their errors, and sequences and tables of them.

use crate::tests::{bytes, holds};
use netlink_packet_route::link::{
    Cause, DecodeError, DecodeFault, DefaultNla, FrameTable, NLA_F_NESTED, NLA_F_NET_BYTEORDER,
    NLA_TYPE_MASK, Nla, NlaBuffer, NlasIterator, Parseable,
};
use std::alloc::Global;
use std::process::Abort;

#[test]
fn fields(rt: HostRuntime) {
    let (nested, network) = (NLA_F_NESTED, NLA_F_NET_BYTEORDER);
    for (digits, kind, flags, value) in [
        ("08000100 2a000000", 1, 0, [42, 0, 0, 0].as_slice()),
        // both flags, and no padding
        ("060063c0 dead", 99, nested | network, &[0xDE, 0xAD]),
        // padding that is not zero
        ("06002f80 0102ffff", 47, nested, &[1, 2]),
        // the greatest attribute type, no payload, and another frame after it
        ("0400ff7f 04000100", 0x3FFF, network, &[]),
    ] {
        let bytes = bytes(&rt, rt.alloc(), digits);
        let frame = NlaBuffer::new_checked(&bytes).expect(&rt, digits);
        let kinds = frame.kind() == kind && frame.raw_kind() == kind | flags;
        holds(
            &rt,
            kinds && frame.raw_kind() & NLA_TYPE_MASK == kind,
            digits,
        );
        let is_nested = frame.nested_flag() == (flags & nested != 0);
        let is_network = frame.network_byte_order_flag() == (flags & network != 0);
        holds(&rt, is_nested && is_network, digits);
        let length = usize::from(frame.length()) == value.len().saturating_add(4);
        let is_value = frame.value() == value && frame.value_length() == value.len();
        holds(&rt, length && is_value, digits);
        let any = DefaultNla::parse(rt.alloc(), &frame).expect(&rt, digits);
        holds(&rt, any.kind() == kind | flags, digits);
    }
}

#[test]
fn faults(rt: HostRuntime) {
    for (digits, cause) in [
        ("", Cause::ShortFrame { left: 0 }),
        ("04", Cause::ShortFrame { left: 1 }),
        ("040009", Cause::ShortFrame { left: 3 }),
        ("00000100", Cause::SmallLength { length: 0 }),
        ("03000100 2a", Cause::SmallLength { length: 3 }),
        ("09000100 2a000000", Cause::Overrun { length: 9, left: 8 }),
    ] {
        let bytes = bytes(&rt, rt.alloc(), digits);
        let fault = DecodeError::Fault(DecodeFault::Frame(cause));
        holds(&rt, NlaBuffer::new_checked(&bytes) == Err(fault), digits);
    }
}

/// Asserts that the iterator over the bytes returns frames of these types, then this error, if any, and then `None`.
fn gives(rt: &impl Abort, alloc: Global, digits: &str, kinds: &[u16], last: Option<Cause>) {
    let bytes = bytes(rt, alloc, digits);
    let mut frames = NlasIterator::new(&bytes);
    for kind in kinds {
        match frames.next() {
            Some(Ok(frame)) => holds(rt, frame.kind() == *kind, digits),
            _ => holds(rt, false, digits),
        }
    }
    if let Some(cause) = last {
        let fault = DecodeError::Fault(DecodeFault::Frame(cause));
        holds(rt, frames.next() == Some(Err(fault)), digits);
    }
    let is_end = frames.next().is_none() && frames.next().is_none();
    holds(rt, is_end, digits);
}

#[test]
fn runs(rt: HostRuntime) {
    let alloc = rt.alloc();
    gives(&rt, alloc, "", &[], None);
    // the last frame lacks its padding
    gives(&rt, alloc, "05000100 2affffff 05000200 2b", &[1, 2], None);
    let short = Some(Cause::ShortFrame { left: 3 });
    gives(&rt, alloc, "04000100 000000", &[1], short);
    // a valid frame after an error is not returned
    let small = Some(Cause::SmallLength { length: 3 });
    gives(&rt, alloc, "04000100 03000200 04000300", &[1], small);
    let overrun = Some(Cause::Overrun { length: 9, left: 8 });
    gives(&rt, alloc, "04000100 09000200 04000300", &[1], overrun);
}

/// As many frames as there are, from none to a hundred.
#[test]
fn counts(rt: HostRuntime) {
    let mut bytes = Vec::new(rt.alloc());
    for count in 0..101usize {
        let frames = NlasIterator::new(&bytes);
        let whole = frames.filter(|it| it.is_ok()).count();
        let is_so = whole == count && NlasIterator::new(&bytes).count() == count;
        assert!(rt; is_so, "for {count}");
        bytes
            .extend_from_slice(&[4, 0, 9, 0])
            .expect(&rt, "a frame");
    }
}

#[test]
fn hints(rt: HostRuntime) {
    for (digits, least, most) in [
        ("", 0usize, 0usize),
        ("040001", 1, 1),
        // one frame without its padding; other input of this length can be a frame and a rest
        ("05000100 2a", 1, 2),
        ("04000100 04000200", 1, 2),
        ("0c000100 2a0000002b000000", 1, 3),
    ] {
        let bytes = bytes(&rt, rt.alloc(), digits);
        let frames = NlasIterator::new(&bytes);
        holds(&rt, frames.size_hint() == (least, Some(most)), digits);
        let count = frames.count();
        holds(&rt, least <= count && count <= most, digits);
    }
}

/// The offsets of the frames in some bytes, and their first framing error.
#[test]
fn tables(rt: HostRuntime) {
    let short = Some((8, Cause::ShortFrame { left: 2 }));
    let overrun = Some((0, Cause::Overrun { length: 9, left: 8 }));
    for (digits, offsets, fault) in [
        ("", [].as_slice(), None),
        // a payload that no attribute set accepts, and then a truncated header
        ("05000100 2a000000 0300", &[0], short),
        ("08000100 2a000000 08000100 2a000000", &[0, 8], None),
        ("09000100 2a000000", &[], overrun),
        // padding, and a last frame without padding
        ("05000100 2a000000 05000200 2b", &[0, 8], None),
    ] {
        let bytes = bytes(&rt, rt.alloc(), digits);
        let table = FrameTable::walk(rt.alloc(), &bytes).expect(&rt, digits);
        let is_empty = table.is_empty() == offsets.is_empty();
        holds(&rt, is_empty && table.fault() == fault, digits);
        holds(&rt, table.len() == offsets.len(), digits);
        for (i, offset) in offsets.iter().enumerate() {
            let is_there = i < table.len() && table.offset(i) == *offset;
            holds(&rt, is_there, digits);
        }
    }
}

/// More frames than a table holds without allocating.
#[test]
fn forty_frames(rt: HostRuntime) {
    let mut bytes = Vec::new(rt.alloc());
    for kind in 0..40u8 {
        let frame = [5, 0, kind, 0, 0x2A, 0, 0, 0];
        bytes.extend_from_slice(&frame).expect(&rt, "a frame");
    }
    let table = FrameTable::walk(rt.alloc(), &bytes).expect(&rt, "a table");
    assert!(rt; table.len() == 40 && table.fault().is_none());
    for i in 0..table.len() {
        let frame = table.frame(i);
        let is_so = usize::from(frame.kind()) == i && frame.value() == [0x2A].as_slice();
        holds(&rt, is_so && table.offset(i) / 8 == i, "a frame");
    }
}
