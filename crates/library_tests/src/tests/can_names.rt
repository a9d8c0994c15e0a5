//! Tests the name of a CAN controller's limits: what it is decoded to, written as, and re-encoded as.

use crate::tests::{bytes, holds, is_written, reads_as};
use netlink_packet_route::link::{CanBitTimingConst, InfoCan};
use netlink_packet_route::{Family, is_canonical, report, rewrite};
use std::alloc::Global;
use std::process::Abort;

/// The digits of eight `u32`s that are zero.
const NO_LIMITS: &str = "0000000000000000000000000000000000000000000000000000000000000000";

/// Returns the digits of limits whose numbers are zero, with this name field.
fn limits(rt: &impl Abort, alloc: Global, field: &str) -> String {
    format!(in alloc; "34000200 {field} {NO_LIMITS}").expect(rt, field)
}

/// Returns limits with this name, whose numbers are zero.
fn named(rt: &impl Abort, alloc: Global, name: &str) -> InfoCan {
    InfoCan::BitTimingConst(CanBitTimingConst::new(alloc, name).expect(rt, name))
}

/// Asserts that limits with this name field have this name, and are written with the second field.
fn is_name(rt: &impl Abort, alloc: Global, field: &str, name: &str, written: &str) {
    reads_as(rt, alloc, &limits(rt, alloc, field), named(rt, alloc, name));
    is_written(
        rt,
        alloc,
        &limits(rt, alloc, written),
        named(rt, alloc, name),
    );
}

#[test]
fn whole_fields(rt: HostRuntime) {
    for (field, name, written) in [
        (
            "00000000 00000000 00000000 00000000",
            "",
            "00000000 00000000 00000000 00000000",
        ),
        // what follows the first NUL is dropped
        (
            "61006200 00000000 00000000 00000000",
            "a",
            "61000000 00000000 00000000 00000000",
        ),
        (
            "f09f9880 61626300 00000000 00000000",
            "\u{1F600}abc",
            "f09f9880 61626300 00000000 00000000",
        ),
        // sixteen bytes that do not start a character
        (
            "ffffffff ffffffff ffffffff ffffffff",
            "\u{FFFD}\u{FFFD}\u{FFFD}\u{FFFD}\u{FFFD}\u{FFFD}\u{FFFD}\u{FFFD}\u{FFFD}\u{FFFD}\u{FFFD}\u{FFFD}\u{FFFD}\u{FFFD}\u{FFFD}\u{FFFD}",
            "efbfbdef bfbdefbf bdefbfbd efbfbd00",
        ),
    ] {
        is_name(&rt, rt.alloc(), field, name, written);
        becomes(&rt, rt.alloc(), [field, written, written]);
    }
}

/// A character that fits whole, after letters. The field does not change.
#[test]
fn whole_characters(rt: HostRuntime) {
    let alloc = rt.alloc();
    for letters in 0..12 {
        let mut field = String::new(alloc);
        let mut name = String::new(alloc);
        for _ in 0..letters {
            field.push_str("61").expect(&rt, "a letter");
            name.push('a').expect(&rt, "a letter");
        }
        field.push_str("f09f9880").expect(&rt, "a character");
        name.push('\u{1F600}').expect(&rt, "a character");
        for _ in letters..12 {
            field.push_str("00").expect(&rt, "a NUL");
        }
        is_name(&rt, alloc, &field, &name, &field);
        becomes(&rt, alloc, [&field, &field, &field]);
    }
}

/// The last four bytes of a field whose first twelve are `a`: as they are read, the end of the name, as it is written,
/// and as the result is written in turn. From then on the field does not change.
#[test]
fn ends_of_fields(rt: HostRuntime) {
    let alloc = rt.alloc();
    for (read, name, once, twice) in [
        ("62630000", "bc", "62630000", "62630000"),
        ("62636400", "bcd", "62636400", "62636400"),
        ("62636465", "bcde", "62636400", "62636400"),
        // a character is truncated, not dropped; its first bytes decode to U+FFFD
        ("f09f9880", "\u{1F600}", "f09f9800", "efbfbd00"),
        ("61e4bda0", "a\u{4F60}", "61e4bd00", "61efbf00"),
        ("61f09f98", "a\u{FFFD}", "61efbf00", "61efbf00"),
        ("6161f09f", "aa\u{FFFD}", "6161ef00", "6161ef00"),
        ("6161e400", "aa\u{FFFD}", "6161ef00", "6161ef00"),
        ("616161f0", "aaa\u{FFFD}", "61616100", "61616100"),
        ("61efbf00", "a\u{FFFD}", "61efbf00", "61efbf00"),
        ("6161ef00", "aa\u{FFFD}", "6161ef00", "6161ef00"),
    ] {
        let field = |end: &str| format!(in alloc; "616161616161616161616161 {end}").expect(
            &rt, end,
        );
        let whole = format!(in alloc; "aaaaaaaaaaaa{name}").expect(&rt, name);
        is_name(&rt, alloc, &field(read), &whole, &field(once));
        becomes(&rt, alloc, [&field(read), &field(once), &field(twice)]);
    }
}

/// Asserts that limits with the first name field are re-encoded with the second, those with the third, and these as
/// themselves, also by `report`, and that limits are canonical if and only if they do not change.
fn becomes(rt: &impl Abort, alloc: Global, fields: [&str; 3]) {
    let [first, once, twice] = fields;
    for (before, after) in [(first, once), (once, twice), (twice, twice)] {
        let list = bytes(rt, alloc, &limits(rt, alloc, before));
        let wanted = bytes(rt, alloc, &limits(rt, alloc, after));
        let out = rewrite(alloc, Family::Can, &list).expect(rt, before);
        let is_same = list == wanted;
        let is_judged = is_canonical(Family::Can, &list) == is_same;
        assert!(rt; is_judged && out == wanted, "in {before}");
        let verdict = if is_same { "same\n" } else { "changed\n" };
        is_reported(rt, alloc, &limits(rt, alloc, before), &wanted, verdict);
    }
}

/// Asserts that the output of `nlroute` for limits has these bytes and this last line.
fn is_reported(rt: &impl Abort, alloc: Global, digits: &str, wanted: &[u8], verdict: &str) {
    let (text, status) = report(alloc, Family::Can, digits.as_bytes()).expect(rt, digits);
    let rest = text.strip_prefix("attr 2 len 48\nout ");
    let (out, last) = rest.and_then(|it| it.split_once('\n')).expect(rt, digits);
    let is_so = bytes(rt, alloc, out).as_slice() == wanted && last == verdict;
    holds(rt, is_so && status == 0, digits);
}

/// A name that is longer than the field, or has a NUL in it.
#[test]
fn names_of_any_length(rt: HostRuntime) {
    for (name, field) in [
        ("a\0b", "61006200 00000000 00000000 00000000"),
        (
            "abcdefghijklmnopqrstuvwxyz",
            "61626364 65666768 696a6b6c 6d6e6f00",
        ),
        (
            "abcdefghijklmn\u{4F60}",
            "61626364 65666768 696a6b6c 6d6ee400",
        ),
    ] {
        is_written(
            &rt,
            rt.alloc(),
            &limits(&rt, rt.alloc(), field),
            named(&rt, rt.alloc(), name),
        );
    }
}

#[test]
fn made_limits(rt: HostRuntime) {
    let alloc = rt.alloc();
    let new = CanBitTimingConst::new(alloc, "a\0b").expect(&rt, "limits");
    let made = CanBitTimingConst {
        name: String::from_str(alloc, "a\0b").expect(&rt, "a name"),
        tseg1_min: 0,
        tseg1_max: 0,
        tseg2_min: 0,
        tseg2_max: 0,
        sjw_max: 0,
        brp_min: 0,
        brp_max: 0,
        brp_inc: 0,
    };
    assert!(rt; new == made && new.try_clone(alloc) == Ok(made));
    assert!(rt; CanBitTimingConst::new(alloc, "") == Ok(CanBitTimingConst::empty(alloc)));
}
