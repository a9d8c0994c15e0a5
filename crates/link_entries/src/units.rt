//! What the numbers of entries count: `enum nlroute_unit` of the C API.

ghost use Rattle.std.specs.Prelude.{◌≡◌};
ghost use Rattle.link_entries.specs.Units.{unit_of};

use link_base::rows::label::Quantity;

/// Nothing: a count, a priority, the number of an enum, or no number at all.
pub const NONE: u32 = 0;

/// Clock ticks of 1/100 s (`USER_HZ`).
pub const CLOCK_TICKS: u32 = 1;

/// Milliseconds.
pub const MILLISECONDS: u32 = 2;

/// Seconds.
pub const SECONDS: u32 = 3;

/// Bits per second.
pub const BITS_PER_SECOND: u32 = 4;

/// Ohms.
pub const OHMS: u32 = 5;

/// Nanoseconds.
pub const NANOSECONDS: u32 = 6;

/// Hertz.
pub const HERTZ: u32 = 7;

/// The interface index of a link.
pub const INTERFACE_INDEX: u32 = 8;

/// A bit mask, or a port identifier with a priority in its upper bits.
pub const MASK: u32 = 9;

/// Returns the number that represents what the numbers of an attribute type count.
pub(crate) fn unit_of(quantity: Quantity) -> u32
    ensures { result ≡ unit_of quantity }
{
    match quantity {
        Quantity::Number => NONE,
        Quantity::ClockTicks => CLOCK_TICKS,
        Quantity::Milliseconds => MILLISECONDS,
        Quantity::Seconds => SECONDS,
        Quantity::BitsPerSecond => BITS_PER_SECOND,
        Quantity::Ohms => OHMS,
        Quantity::Nanoseconds => NANOSECONDS,
        Quantity::Hertz => HERTZ,
        Quantity::InterfaceIndex => INTERFACE_INDEX,
        Quantity::Mask => MASK,
    }
}
