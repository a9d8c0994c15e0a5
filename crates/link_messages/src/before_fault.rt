//! The attributes of a list up to its first malformed header.

ghost use Rattle.std.specs.Prelude.{◌≡◌, ℕ, ◌+◌, ◌<◌, ◌^◌, ◌==◌, List, length, Option, Some, if◌then◌else◌};
ghost use Rattle.std.specs.Option.{option_map};
ghost use Rattle.link_base.specs.declared.wire.fault.Cause.{Cause};
ghost use Rattle.link_base.specs.Frame.{kind_of};
ghost use Rattle.link_base.specs.Buffer.{kind_field_of, payload_of};
ghost use Rattle.link_messages.specs.Finding.{stretch_of};
ghost use Rattle.link_messages.specs.Walk.{Item, Walk};
ghost use Rattle.link_messages.specs.BeforeFault.{OfWalk, latest};

use crate::buffer_parts::Payload;
use netlink_packet_route::link::NlaBuffer;

/// Returns the payload of the last attribute of type `kind` before the first malformed header of a list, or `None` if
/// there is none.
pub fn last_before_fault<'a>(list: Payload<'a>, kind: u16) -> Option<Payload<'a>>
    ensures walk { (items : List Item) × (fault : Option (ℕ × Cause)) × Walk list.entry.bytes.now items fault }
    ensures last { OfWalk list.entry.bytes.now
        (λ items _. option_map stretch_of result ≡ latest list.entry.at kind items) }
{
    let mut found = None;
    let mut rest = list.bytes;
    while let Ok((attribute, after)) = NlaBuffer::split_first(rest) {
        let at = list.at + (list.bytes.len() - rest.len());
        found = later(found, &attribute, at, kind);
        rest = after;
    }
    found
}

/// Returns the payload of `attribute`, which is at offset `at`, if its type is `kind`, and otherwise `found`.
fn later<'a>(
    found: Option<Payload<'a>>,
    attribute: &NlaBuffer<'a>,
    at: usize,
    kind: u16,
) -> Option<Payload<'a>>
    requires { at + 4 + length (payload_of attribute.now) < 2 ^ 64 }
    ensures { option_map stretch_of result
        ≡ (if kind_of (kind_field_of attribute.now) == kind
        then Some (at + 4, payload_of attribute.now)
        else option_map stretch_of found.entry) }
{
    if attribute.kind() != kind {
        return found;
    }
    let bytes = attribute.value();
    Some(Payload { at: at + 4, bytes })
}
