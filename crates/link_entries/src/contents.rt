//! Entries by the content of their attribute.

ghost use Rattle.std.specs.Prelude.{◌≡◌, ◌≤◌, take, drop, reverse, length};
ghost use Rattle.link_base.specs.Number.{number};
ghost use Rattle.link_base.specs.IpAddress.{four_octets, sixteen_octets};
ghost use Rattle.link_entries.specs.Forms.{form_ipv4, form_ipv6, form_bridge_id};
ghost use Rattle.link_entries.specs.Entry.{padded};
ghost use Rattle.link_entries.specs.Content.{with_struct, filled};

use crate::entry::Entry;
use crate::fields::{look_form, role_form};
use crate::forms;
use link_base::classes::flag_or_bool::flag_is_on;
use link_base::rows::form::Layout;
use link_base::views::content::Content;
use link_base::{NLA_TYPE_MASK, u16_at, u32_at};
use std::net::{Ipv4Addr, Ipv6Addr};

/// Stores the content of an attribute whose `nla_type` is `kind_field` in the entry `place`. `start` has set what does
/// not depend on the content. If the attribute is a list, `below` elements follow.
#[inline(always)]
pub(crate) fn fill(place: &mut Entry, kind_field: u16, content: Content<'_>, below: usize)
    ensures { place.new ≡ filled kind_field content.entry below (record place.old { number = 0 }) }
{
    match content {
        Content::Nothing => {
            place.hold(forms::EMPTY, 0);
            place.length = 0;
        }
        Content::Bool(is_on) => place.hold(forms::BOOL, is_on.into()),
        // `start` has set `length`, which says whether there is a byte.
        Content::FlagOrBool(flag) => place.hold(forms::BOOL, flag_is_on(flag).into()),
        Content::Number { number, role, .. } => place.hold(role_form(role), number),
        Content::Signed(number) => place.hold(forms::SIGNED, i64::from(number).cast_unsigned()),
        Content::LowFlags(bits) => place.hold(forms::FLAGS, bits.into()),
        Content::MaskedFlags { flags, mask } => place.hold_both(forms::MASKED, flags, mask),
        Content::Pair(from, to) => place.hold_both(forms::QOS_MAPPING, from, to),
        Content::Protocol(protocol) => place.hold(forms::NAMED, u16::from(protocol).into()),
        Content::Mac(address) => place.hold_octets(forms::MAC, 0, &address),
        Content::Ipv4(address) => hold_ipv4(place, address),
        Content::Ipv6(address) => hold_ipv6(place, address),
        Content::Bytes { look, .. } => place.hold(look_form(look), 0),
        Content::Struct { layout, bytes } => fill_struct(place, layout, bytes),
        Content::Limits { .. } => {
            place.hold(forms::BITTIMING_CONST, 0);
            place.length = 48;
        }
        Content::Numbers { .. } | Content::Addresses { .. } | Content::List { .. } => place.hold(
            forms::LIST,
            below as u64,
        ),
        Content::Other(_) => {
            place.hold(forms::UNKNOWN, 0);
            place.flags = kind_field - (kind_field & NLA_TYPE_MASK);
        }
    }
}

/// Stores an IPv4 address.
#[inline(always)]
fn hold_ipv4(place: &mut Entry, address: Ipv4Addr)
    ensures { place.new ≡ record place.old { form = form_ipv4; number = 0; octets = padded (four_octets address) } }
{
    place.hold_octets(forms::IPV4, 0, &address.octets());
}

/// Stores an IPv6 address.
#[inline(always)]
fn hold_ipv6(place: &mut Entry, address: Ipv6Addr)
    ensures { place.new ≡ record place.old { form = form_ipv6; number = 0; octets = padded (sixteen_octets address) } }
{
    place.hold_octets(forms::IPV6, 0, &address.octets());
}

/// Stores the struct in these bytes in the entry of its attribute; the bytes, if they are too few, or if the struct has no
/// form of its own.
#[inline(always)]
fn fill_struct(place: &mut Entry, layout: Layout, bytes: &[u8])
    ensures { place.new ≡ with_struct layout bytes.now (record place.old { number = 0 }) }
{
    let length = bytes.len();
    match layout {
        Layout::BridgeId if length >= 8 => fill_bridge_id(place, bytes),
        Layout::VlanInfo if length >= 4 => {
            let (flags, id) = (u16_at(bytes, 0), u16_at(bytes, 2));
            place.length = 4;
            place.hold_both(forms::VLAN_INFO, id.into(), flags.into());
        }
        Layout::BooleanOptions if length >= 8 => {
            place.length = 8;
            place.hold_both(forms::MASKED, u32_at(bytes, 0), u32_at(bytes, 4));
        }
        Layout::BitTiming if length >= 32 => {
            place.hold(forms::BITTIMING, 0);
            place.length = 32;
        }
        Layout::Clock if length >= 4 => {
            place.length = 4;
            place.hold(forms::UNSIGNED, u32_at(bytes, 0).into());
        }
        Layout::CtrlMode if length >= 8 => {
            place.length = 8;
            place.hold_both(forms::MASKED, u32_at(bytes, 4), u32_at(bytes, 0));
        }
        Layout::BerrCounter if length >= 4 => {
            let (sent, received) = (u16_at(bytes, 0), u16_at(bytes, 2));
            place.length = 4;
            place.hold_both(forms::BERR_COUNTER, sent.into(), received.into());
        }
        Layout::Other(_) if length < place.length as usize => {
            place.hold(forms::BYTES, 0);
            place.length = length as u32;
        }
        _ => place.hold(forms::BYTES, 0),
    }
}

/// Stores the bridge ID in the first eight of these bytes in the entry of its attribute.
#[inline(always)]
fn fill_bridge_id(place: &mut Entry, bytes: &[u8])
    requires { 8 ≤ length bytes.now }
    ensures { place.new ≡ record place.old {
      form = form_bridge_id;
      length = 8;
      number = number (reverse (take 2 bytes.now));
      octets = padded (take 6 (drop 2 bytes.now));
    } }
{
    place.length = 8;
    let priority = u16::from_be_bytes([bytes[0], bytes[1]]);
    place.hold_octets(forms::BRIDGE_ID, priority.into(), &bytes[2..8]);
}
