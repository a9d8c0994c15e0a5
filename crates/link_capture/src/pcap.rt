//! The units of a pcap file.

ghost use Rattle.std.specs.Prelude.{◌≡◌, ◌≤◌, ◌^◌, ◌-◌, length};
ghost use Rattle.link_capture.specs.Pcap.{form_after, recorded, nanoseconds};
ghost use Rattle.link_capture.specs.Meaning.{meaning_of};

use crate::error::InputError;
use crate::event::{Event, Packet, Time};
use crate::form::Form;
use crate::order::Order;

/// The link type of netlink (LINKTYPE_NETLINK).
pub const NETLINK: u16 = 253;

/// The bits of the field of the link type that have it. Of those above, bit 26 says that the length of the frame check
/// sequence (FCS) of packets is known, and bits 28 to 31 have that length, in units of 16 bits.
const LINK_TYPE_BITS: u32 = 26;

/// Returns the form of what follows the header of a pcap file.
///
/// # Errors
///
/// `PcapVersion` if the version is not 2.4; `LinkType` if the link type is not that of netlink.
pub(crate) fn read_header(order: Order, digits: u8, unit: &[u8]) -> Result<Form, InputError>
    requires { 24 ≤ length unit.now }
    ensures { result ≡ form_after order digits unit.now }
{
    let major = order.u16_at(unit, 4);
    let minor = order.u16_at(unit, 6);
    if major != 2 || minor != 4 {
        return Err(InputError::PcapVersion { major, minor });
    }
    let link_type = order.u32_at(unit, 20) % (1 << LINK_TYPE_BITS);
    if link_type != NETLINK.into() {
        return Err(InputError::LinkType { link_type });
    }
    Ok(Form::Records { order, digits })
}

/// Returns the packet of a record.
pub(crate) fn read_record(order: Order, digits: u8, unit: &[u8]) -> Event<'_>
    requires { 16 ≤ length unit.now }
    ensures { meaning_of result ≡ recorded order digits unit.now }
{
    let nanosecond = nanoseconds(digits, order.u32_at(unit, 0), order.u32_at(unit, 4));
    Event::Packet(Packet {
        time: Time {
            nanosecond: nanosecond.into(),
            digits,
        },
        original: order.u32_at(unit, 12),
        link_type: NETLINK,
        bytes: &unit[16..],
    })
}

/// Returns the nanoseconds in seconds and parts of a second, of which 10 to the power of `digits` are one.
pub(crate) fn nanoseconds(digits: u8, seconds: u32, parts: u32) -> u64
    ensures { result ≡ nanoseconds digits seconds parts }
{
    u64::from(seconds) * 1_000_000_000 + u64::from(parts) * part_of_second(digits)
}

/// Returns how many nanoseconds a part of a second has, of which 10 to the power of `digits` are one.
pub(crate) fn part_of_second(digits: u8) -> u64
    ensures value { result ≡ 10 ^ (9 - digits) }
    ensures most { result ≤ 10 ^ 9 }
{
    10u64.pow(9 - u32::from(digits.min(9)))
}
