//! The tests, and the functions that several of them use.

mod can_names;
mod flags;
mod frames;
mod names;
mod payloads;
mod public_calls;
mod public_names;
mod records;
mod texts;
mod values;

use crate::{decodes_to, encodes_to, fails_with};
use netlink_packet_route::hex_text;
use netlink_packet_route::link::{
    Attribute, DecodeError, DecodeFault, ListFault, NlaBuffer, TryClone,
};
use std::alloc::Global;
use std::process::Abort;

/// Asserts `is_so`. A failure names `row`.
fn holds(rt: &impl Abort, is_so: bool, row: &str) {
    assert!(rt; is_so, "in {row}");
}

/// Decodes hex digits, which may have spaces among them.
fn bytes(rt: &impl Abort, alloc: Global, digits: &str) -> Vec<u8> {
    hex_text::decode(alloc, digits.as_bytes()).expect(rt, digits)
}

/// Returns a vector of these items.
fn list<T: Drop, const N: usize>(rt: &impl Abort, alloc: Global, items: [T; N]) -> Vec<T> {
    Vec::from_array(alloc, items).expect(rt, "a list")
}

/// Asserts that the bytes are one attribute, that it decodes to `wanted`, alone and as a list, and that the value has
/// an equal clone.
fn reads_as<F: Attribute + TryClone>(rt: &impl Abort, alloc: Global, digits: &str, wanted: F) {
    let bytes = bytes(rt, alloc, digits);
    let frame = NlaBuffer::new_checked(&bytes).expect(rt, digits);
    let value = F::parse(alloc, &frame).expect(rt, digits);
    let copy = value.try_clone(alloc).expect(rt, digits);
    let is_same = value == wanted && copy == wanted;
    let mut values = Vec::new(alloc);
    values.push(wanted).expect(rt, digits);
    holds(rt, is_same && decodes_to(alloc, &bytes, &values), digits);
}

/// Asserts that the value is encoded as these bytes, in a list and alone, whatever the buffer held, and that nothing is
/// written after them.
fn is_written<F: Attribute>(rt: &impl Abort, alloc: Global, digits: &str, value: F) {
    let mut wanted = bytes(rt, alloc, digits);
    let mut buffer = [0xFF; 100];
    assert!(rt; value.fits() && value.buffer_len() <= 100);
    value.emit(&mut buffer);
    let mut values = Vec::new(alloc);
    values.push(value).expect(rt, digits);
    holds(rt, encodes_to(alloc, &values, &wanted), digits);
    wanted.resize(100, 0xFF).expect(rt, digits);
    holds(rt, buffer.as_slice() == wanted.as_slice(), digits);
}

/// Asserts for each row that the bytes decode to this value, and that the value is encoded as these bytes.
fn are_kept<F: Attribute + TryClone>(rt: &impl Abort, alloc: Global, rows: &[(&str, F)]) {
    for (digits, value) in rows {
        let wanted = value.try_clone(alloc).expect(rt, digits);
        reads_as(rt, alloc, digits, wanted);
        let copy = value.try_clone(alloc).expect(rt, digits);
        is_written(rt, alloc, digits, copy);
    }
}

/// Asserts that the bytes of each row are one attribute, which has this decode error, alone and as a list.
fn are_refused<F: Attribute>(rt: &impl Abort, alloc: Global, rows: &[(&str, DecodeFault)]) {
    for (digits, fault) in rows {
        let bytes = bytes(rt, alloc, digits);
        let frame = NlaBuffer::new_checked(&bytes).expect(rt, digits);
        let alone = F::parse(alloc, &frame) == Err(DecodeError::Fault(*fault));
        let wanted = ListFault {
            at: 0,
            fault: *fault,
        };
        holds(rt, alone && fails_with::<F>(alloc, &bytes, wanted), digits);
    }
}
