//! The blocks of a pcapng file.

ghost use Rattle.std.specs.Prelude.{◌≡◌, ◌+◌, ◌<◌, ◌≤◌, List, length, take, drop, slice_get, Some, IsErr, IfErr, OnOk};
ghost use Rattle.link_capture.specs.Block.{IsBlock, IsDescribed, sectioned, packed, packet_from, units_in, time_in, instant, options_in, after_block};
ghost use Rattle.link_capture.specs.declared.pcapng.Interface.{Interface};
ghost use Rattle.link_capture.specs.declared.error.InputError.TheVariants as errors;

use crate::error::{InputError, Size};
use crate::event::{Event, Packet, Time};
use crate::form::SECTION;
use crate::options::{Clock, read_clock};
use crate::order::Order;
use crate::pcap::part_of_second;
use arrayvec::ArrayVec;

/// The most interfaces of a section.
const MOST_INTERFACES: usize = 256;

/// The type of an interface description.
const INTERFACE: u32 = 1;

/// The types of packets that are not read: the obsolete one, and the one without a time.
const OBSOLETE_PACKET: u32 = 2;

const SIMPLE_PACKET: u32 = 3;

/// The type of an enhanced packet.
const PACKET: u32 = 6;

/// An interface of a section.
#[derive(Clone, Copy, Debug, Default, PartialEq, Eq)]
pub struct Interface {
    /// The link type (`LINKTYPE_`) of its packets.
    pub link_type: u16,
    /// How their times are counted.
    pub clock: Clock,
}

/// The interfaces of a section.
pub(crate) type Interfaces = ArrayVec<Interface, MOST_INTERFACES>;

/// Returns what a block means.
///
/// # Errors
///
/// As for [`crate::Capture::next`]. The interfaces stay the same.
pub(crate) fn read_block<'a>(
    order: Order,
    interfaces: &mut Interfaces,
    unit: &'a [u8],
) -> Result<Event<'a>, InputError>
    requires { 12 ≤ length unit.now }
    ensures after { IsBlock order interfaces.old.items unit.now (after_block order interfaces.new.items result) }
    ensures kept { IsErr result → interfaces.new.items ≡ interfaces.old.items }
{
    let first = unit.len();
    let last = order.u32_at(unit, first - 4);
    if last as usize != first {
        return Err(InputError::Unequal { first, last });
    }
    match order.u32_at(unit, 0) {
        SECTION => read_section(order, interfaces, unit),
        INTERFACE => read_interface(order, interfaces, unit),
        PACKET => read_packet(order, interfaces.as_slice(), unit),
        kind @ (OBSOLETE_PACKET | SIMPLE_PACKET) => Err(InputError::Unread { kind }),
        _ => Ok(Event::Nothing),
    }
}

/// Begins a section, which has no interfaces yet.
fn read_section<'a>(
    order: Order,
    interfaces: &mut Interfaces,
    unit: &'a [u8],
) -> Result<Event<'a>, InputError>
    requires { 12 ≤ length unit.now }
    ensures after { after_block order interfaces.new.items result ≡ sectioned order unit.now }
    ensures kept { IsErr result → interfaces.new.items ≡ interfaces.old.items }
{
    check_least(Size::Section, unit, 28)?;
    let major = order.u16_at(unit, 12);
    let minor = order.u16_at(unit, 14);
    if major != 1 || (minor != 0 && minor != 2) {
        return Err(InputError::PcapngVersion { major, minor });
    }
    interfaces.clear();
    Ok(Event::Nothing)
}

/// Adds an interface to those of the section.
fn read_interface<'a>(
    order: Order,
    interfaces: &mut Interfaces,
    unit: &'a [u8],
) -> Result<Event<'a>, InputError>
    requires { 12 ≤ length unit.now }
    ensures after { IsDescribed order interfaces.old.items unit.now (after_block order interfaces.new.items result) }
    ensures kept { IsErr result → interfaces.new.items ≡ interfaces.old.items }
{
    let length = unit.len();
    if length < 20 {
        let size = Size::Interface;
        return Err(InputError::Small {
            size,
            length,
            least: 20,
        });
    }
    if interfaces.is_full() {
        return Err(InputError::Interfaces);
    }
    match read_clock(order, options_in(unit)) {
        Ok(clock) => {
            let link_type = order.u16_at(unit, 8);
            interfaces.push(Interface { link_type, clock });
            Ok(Event::Nothing)
        }
        Err(error) => Err(error),
    }
}

/// Returns the bytes of the options of an interface.
fn options_in(unit: &[u8]) -> &[u8]
    requires { 20 ≤ length unit.now }
    ensures { result.now ≡ options_in unit.now }
{
    let count = unit.len() - 20;
    &unit[16..16 + count]
}

/// Returns an enhanced packet.
fn read_packet<'a>(
    order: Order,
    interfaces: &[Interface],
    unit: &'a [u8],
) -> Result<Event<'a>, InputError>
    requires { 12 ≤ length unit.now }
    ensures { after_block order interfaces.now result ≡ packed order interfaces.now unit.now }
{
    check_least(Size::Packet, unit, 32)?;
    let index = order.u32_at(unit, 8);
    match nth(interfaces, index as usize) {
        Some(interface) => packet_from(order, interface, unit),
        None => Err(InputError::Interface { index }),
    }
}

/// Returns an interface by its index.
fn nth(interfaces: &[Interface], index: usize) -> Option<Interface>
    ensures { result ≡ slice_get interfaces.now index }
{
    interfaces.get(index).copied()
}

/// Returns a packet of this interface.
fn packet_from<'a>(
    order: Order,
    interface: Interface,
    unit: &'a [u8],
) -> Result<Event<'a>, InputError>
    requires { 32 ≤ length unit.now }
    ensures { (is : List Interface) → after_block order is result ≡ packet_from order is unit.now (Some interface) }
{
    let length = order.u32_at(unit, 20) as usize;
    let left = unit.len() - 32;
    if length > left {
        return Err(InputError::Overrun {
            size: Size::Captured,
            length,
            left,
        });
    }
    Ok(Event::Packet(Packet {
        time: time_of(order, interface.clock, unit),
        original: order.u32_at(unit, 24),
        link_type: interface.link_type,
        bytes: bytes_of(unit, length),
    }))
}

/// Returns the captured bytes of a packet.
fn bytes_of(unit: &[u8], count: usize) -> &[u8]
    requires { 32 + count ≤ length unit.now }
    ensures { result.now ≡ take count (drop 28 unit.now) }
{
    &unit[28..28 + count]
}

/// Returns when a packet was captured.
fn time_of(order: Order, clock: Clock, unit: &[u8]) -> Time
    requires { 32 ≤ length unit.now }
    ensures { result ≡ time_in order clock unit.now }
{
    Time {
        nanosecond: instant(clock, units_in(order, unit)),
        digits: clock.digits,
    }
}

/// Returns the time of a packet, in units of its interface.
fn units_in(order: Order, unit: &[u8]) -> u64
    requires { 32 ≤ length unit.now }
    ensures { result ≡ units_in order unit.now }
{
    let high = u64::from(order.u32_at(unit, 12));
    high * 0x1_0000_0000 + u64::from(order.u32_at(unit, 16))
}

/// Returns an instant in nanoseconds.
fn instant(clock: Clock, units: u64) -> i128
    ensures { result ≡ instant clock units }
{
    let nanoseconds = i128::from(units) * i128::from(part_of_second(clock.digits));
    nanoseconds + i128::from(clock.offset) * 1_000_000_000
}

/// Checks that a block has at least so many bytes.
fn check_least(size: Size, unit: &[u8], least: usize) -> Result<(), InputError>
    ensures enough { OnOk result (least ≤ length unit.now) }
    ensures small { IfErr result (λ error. (length unit.now < least) × (error ≡ errors.Small size (length unit.now) least)) }
{
    let length = unit.len();
    if length < least {
        return Err(InputError::Small {
            size,
            length,
            least,
        });
    }
    Ok(())
}
