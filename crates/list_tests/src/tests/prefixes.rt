//! Tests every prefix of the canonical lists: it has the values of its whole attributes, or the error of a truncated one.

use crate::tests::{CANONICAL, bytes, holds};
use netlink_packet_route::link::NlaBuffer;
use netlink_packet_route::{Family, report};
use std::alloc::Global;
use std::process::Abort;

/// An attribute with its padding, as hex digits; its `nla_len`; and the line of its value.
type Frame<'a> = (&'a str, usize, &'a str);

/// Returns a report with these value lines and these output digits, each in two parts.
fn rewriting(
    rt: &impl Abort,
    alloc: Global,
    lines: [&str; 2],
    digits: [&str; 2],
    verdict: &str,
) -> String {
    let mut text = String::new(alloc);
    let gap = if digits == ["", ""] { "out" } else { "out " };
    for part in [lines[0], lines[1], gap, digits[0], digits[1], verdict] {
        text.push_str(part).expect(rt, verdict);
    }
    text
}

/// Returns the report for whole attributes and the first `cut` bytes of another one, which starts at offset `at`.
fn cut_frame(
    rt: &impl Abort,
    alloc: Global,
    whole: (&str, &str),
    at: usize,
    cut: usize,
    frame: Frame<'_>,
) -> (String, u8) {
    let (lines, digits) = whole;
    let (bytes, length, line) = frame;
    if cut == 0 {
        let text = rewriting(rt, alloc, [lines, ""], [digits, ""], "\nsame\n");
        return (text, 0);
    }
    if cut >= length {
        let text = rewriting(rt, alloc, [lines, line], [digits, bytes], "\nchanged\n");
        return (text, 0);
    }
    let text = if cut < 4 {
        format!(in alloc; "fault at {at}: short frame {cut}\n")
    } else {
        format!(in alloc; "fault at {at}: overrun {length} {cut}\n")
    };
    (text.expect(rt, bytes), 1)
}

/// Asserts the report for each prefix of the list of a line, and for the list itself.
fn prefixes_are(rt: &impl Abort, alloc: Global, row: &str) {
    let mut words = row.split_ascii_whitespace();
    let family = words.next().and_then(Family::from_name).expect(rt, row);
    let mut prefix = Vec::new(alloc);
    let mut lines = String::new(alloc);
    let mut digits = String::new(alloc);
    for word in words {
        let attribute = bytes(rt, alloc, word);
        let buffer = NlaBuffer::new_checked(&attribute).expect(rt, row);
        let (kind, length) = (buffer.raw_kind(), buffer.value().len());
        let line = format!(in alloc; "attr {kind} len {length}\n").expect(rt, row);
        let frame = (word, usize::from(buffer.length()), line.as_str());
        let at = prefix.len() / 2;
        for (cut, pair) in word.as_bytes().chunks(2).enumerate() {
            let whole = (lines.as_str(), digits.as_str());
            let wanted = cut_frame(rt, alloc, whole, at, cut, frame);
            let answer = report(alloc, family, &prefix).expect(rt, row);
            holds(rt, answer == wanted, row);
            prefix.extend_from_slice(pair).expect(rt, row);
        }
        lines.push_str(&line).expect(rt, row);
        digits.push_str(word).expect(rt, row);
    }
    let (lines, digits) = ([lines.as_str(), ""], [digits.as_str(), ""]);
    let wanted = rewriting(rt, alloc, lines, digits, "\nsame\n");
    let answer = report(alloc, family, &prefix).expect(rt, row);
    holds(rt, answer == (wanted, 0), row);
}

#[test]
fn prefixes(rt: HostRuntime) {
    for row in CANONICAL {
        prefixes_are(&rt, rt.alloc(), row);
    }
}
