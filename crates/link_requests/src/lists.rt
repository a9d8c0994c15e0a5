//! The lists of which a message has one.

ghost use Rattle.std.specs.Prelude.{◌≡◌, ◌≤◌, [], length};
ghost use Rattle.link_requests.specs.Lists.{is_single, is_among, is_repeated, unrepeated};

use link_entries::Entry;
use link_messages::link_types::{IFLA_AF_SPEC, IFLA_LINKINFO, IFLA_PROTINFO};

/// Returns the number of values before the first that repeats a list of the message; of all values if none does.
pub(crate) fn unrepeated(values: &[Entry]) -> usize
    ensures index { result ≡ unrepeated [] values.now }
    ensures bounded { result ≤ length values.now }
{
    let mut rest = values;
    while let Some((entry, others)) = rest.split_first() {
        let count = values.len() - rest.len();
        if is_repeated(&values[..count], entry) {
            return count;
        }
        rest = others;
    }
    values.len()
}

/// Checks whether a value repeats a list of the message that is among the values before it.
fn is_repeated(before: &[Entry], entry: &Entry) -> bool
    ensures { result ≡ is_repeated before.now entry.now }
{
    entry.depth == 0 && is_single(entry.kind) && is_among(before, entry.kind)
}

/// Checks whether Linux takes one attribute of this type, and ignores others.
fn is_single(kind: u16) -> bool
    ensures { result ≡ is_single kind }
{
    matches!(kind, IFLA_PROTINFO | IFLA_LINKINFO | IFLA_AF_SPEC)
}

/// Checks whether an attribute of the message among these values has this type.
fn is_among(before: &[Entry], kind: u16) -> bool
    ensures { result ≡ is_among before.now kind }
{
    before
        .iter()
        .any(|entry| entry.depth == 0 && entry.kind == kind)
}
