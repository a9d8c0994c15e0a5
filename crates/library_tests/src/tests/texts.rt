//! Tests texts that no contract covers: the `Display` output of errors, and `Debug` output.

use crate::tests::{holds, list};
use netlink_packet_route::hex_text::HexError;
use netlink_packet_route::link::{
    AfSpecBridge, BridgeMode, Cause, DecodeError, DecodeFault, DefaultNla, FrameTable, ListError,
    NlaBuffer, NlasIterator, VecAfSpecBridge, WriteError,
};
use netlink_packet_route::{Family, RewriteError};
use std::alloc::{AllocError, Global};
use std::fmt::{Debug, Display};
use std::process::Abort;

/// Asserts the `Display` output of each value.
fn are_displayed<T: Display>(rt: &impl Abort, alloc: Global, rows: &[(T, &str)]) {
    for (value, text) in rows {
        let shown = format!(in alloc; "{value}").expect(rt, text);
        holds(rt, shown.as_str() == *text, text);
    }
}

const CAUSE: Cause = Cause::Overrun { length: 9, left: 6 };

const OF_ELEMENT: DecodeFault = DecodeFault::NestedValue {
    kind: 3,
    inner: 16383,
    cause: CAUSE,
};

#[test]
fn errors(rt: HostRuntime) {
    let alloc = rt.alloc();
    let text = "kind 3: list: kind 16383: overrun 9 6";
    let memory = DecodeError::Memory(AllocError);
    let fault = DecodeError::Fault(OF_ELEMENT);
    are_displayed(&rt, alloc, &[(memory, "no memory"), (fault, text)]);
    let (at, fault) = (65536, OF_ELEMENT);
    let text = "fault at 65536: kind 3: list: kind 16383: overrun 9 6";
    let memory = ListError::Memory(AllocError);
    let of_list = ListError::Fault { at, fault };
    are_displayed(&rt, alloc, &[(memory, "no memory"), (of_list, text)]);
    let memory = WriteError::Memory(AllocError);
    let long = WriteError::TooLong { index: 7 };
    are_displayed(
        &rt,
        alloc,
        &[(memory, "no memory"), (long, "too long at 7")],
    );
    let memory = HexError::Memory(AllocError);
    are_displayed(
        &rt,
        alloc,
        &[(memory, "no memory"), (HexError::BadHex, "bad hex")],
    );
    let memory = RewriteError::Memory(AllocError);
    let long = RewriteError::TooLong { index: 7 };
    let fault = RewriteError::Fault { at, fault };
    are_displayed(
        &rt,
        alloc,
        &[
            (memory, "no memory"),
            (long, "too long at 7"),
            (fault, text),
        ],
    );
}

/// Asserts the `Debug` output of a value.
fn is_debugged<T: Debug + Drop>(rt: &impl Abort, alloc: Global, value: T, wanted: &str) {
    let text = format!(in alloc; "{value:?}").expect(rt, wanted);
    holds(rt, text.as_str() == wanted, wanted);
}

#[test]
fn debug_texts_of_errors(rt: HostRuntime) {
    let alloc = rt.alloc();
    let fault = DecodeFault::Value {
        kind: 46,
        cause: CAUSE,
    };
    let wanted = "Fault(Value { kind: 46, cause: Overrun { length: 9, left: 6 } })";
    is_debugged(&rt, alloc, DecodeError::Fault(fault), wanted);
    let memory = DecodeError::Memory(AllocError);
    is_debugged(&rt, alloc, memory, "Memory(AllocError)");
    let (at, fault) = (8, DecodeFault::Text);
    let of_list = ListError::Fault { at, fault };
    is_debugged(&rt, alloc, of_list, "Fault { at: 8, fault: Text }");
    let long = WriteError::TooLong { index: 2 };
    is_debugged(&rt, alloc, long, "TooLong { index: 2 }");
    let of_bytes = RewriteError::Fault { at, fault };
    is_debugged(&rt, alloc, of_bytes, "Fault { at: 8, fault: Text }");
    is_debugged(&rt, alloc, HexError::BadHex, "BadHex");
}

/// What `nlshow --format debug` does not print.
#[test]
fn debug_texts(rt: HostRuntime) {
    let alloc = rt.alloc();
    is_debugged(&rt, alloc, Family::BondPort, "BondPort");
    let mode = AfSpecBridge::Mode(BridgeMode::Vepa);
    let af_spec = VecAfSpecBridge(list(&rt, alloc, [mode]));
    is_debugged(&rt, alloc, af_spec, "VecAfSpecBridge([Mode(Vepa)])");
    let frame = NlaBuffer::new_checked(&[6, 0, 99, 0, 222, 173]).expect(&rt, "a frame");
    let wanted = "NlaBuffer { kind_field: 99, payload: [222, 173] }";
    is_debugged(&rt, alloc, frame, wanted);
    let frames = NlasIterator::new(&[4, 0, 9, 0]);
    is_debugged(&rt, alloc, frames, "NlasIterator { rest: [4, 0, 9, 0] }");
    let table = FrameTable::walk(alloc, &[4, 0, 9, 0, 5, 0]).expect(&rt, "a table");
    let wanted =
        "FrameTable { bytes: [4, 0, 9, 0, 5, 0], offsets: [0], fault: Some((4, ShortFrame { left: 2 })) }";
    is_debugged(&rt, alloc, table, wanted);
}

/// A payload is shown as the list of its bytes, also in the multi-line form.
#[test]
fn debug_text_of_any_kind(rt: HostRuntime) {
    let alloc = rt.alloc();
    let value = DefaultNla::new(0xC063, list(&rt, alloc, [222, 173]));
    let text = format!(in alloc; "{value:#?}").expect(&rt, "a text");
    let wanted =
        "DefaultNla {\n    kind: 49251,\n    value: [\n        222,\n        173,\n    ],\n}";
    holds(&rt, text.as_str() == wanted, wanted);
    let wanted = "DefaultNla { kind: 49251, value: [222, 173] }";
    is_debugged(&rt, alloc, value, wanted);
}
