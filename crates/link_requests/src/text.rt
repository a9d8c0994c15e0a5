//! The bytes of values, and the texts among elements.

ghost use Rattle.std.specs.Prelude.{◌≡◌, ◌≤◌, None, IfOk, length};
ghost use Rattle.std.specs.Option.{option_copied};
ghost use Rattle.link_base.specs.Frame.{max_payload};
ghost use Rattle.link_entries.specs.Payload.{slice_value};
ghost use Rattle.link_requests.specs.Value.{value_bytes};
ghost use Rattle.link_requests.specs.Values.{last_among, text_among};

use link_entries::payload::{has_size, passed};
use link_entries::{Entry, Misfit};
use netlink_packet_route::without_nul;

/// The `offset` of a value that refers to no bytes. Those of a text, of bytes or of a struct are the first `length` of its
/// `octets`; after a list of another set, the values of this list follow.
pub const INLINE: u64 = u64::MAX;

/// Returns the bytes of a value: its own octets, or those that it refers to. Their number is `size`, if that is given.
///
/// # Errors
///
/// `BadOctets` if there are not so many; `TooLong` if they do not fit in an attribute.
pub(crate) fn value_bytes<'a>(
    size: Option<usize>,
    entry: &'a Entry,
    octets: &'a [u8],
) -> Result<&'a [u8], Misfit>
    ensures value { slice_value result ≡ value_bytes size entry.now octets.now }
    ensures short { IfOk result (λ p. length p.now ≤ max_payload) }
{
    if entry.offset != INLINE {
        return passed(size, entry, octets);
    }
    let length = entry.length as usize;
    if !has_size(size, entry) || length > 16 {
        return Err(Misfit::BadOctets);
    }
    Ok(&entry.octets[..length])
}

/// Returns the text of the last element of type `inner` of a list at this depth, without a NUL at its end.
pub(crate) fn text_among<'a>(
    depth: u8,
    inner: u16,
    entries: &'a [Entry],
    octets: &'a [u8],
) -> Option<&'a [u8]>
    ensures { option_copied result ≡ text_among octets.now depth inner entries.now }
{
    match value_bytes(None, last_among(depth, inner, entries)?, octets) {
        Ok(text) => Some(without_nul(text)),
        Err(_) => None,
    }
}

/// Returns the last element of type `inner` of a list at this depth.
fn last_among(depth: u8, inner: u16, entries: &[Entry]) -> Option<&Entry>
    ensures { option_copied result ≡ last_among depth inner None entries.now }
{
    let mut found = None;
    let mut rest = entries;
    while let Some((entry, others)) = rest.split_first() {
        if entry.depth < depth {
            return found;
        }
        if entry.depth == depth && entry.inner == inner {
            found = Some(entry);
        }
        rest = others;
    }
    found
}
