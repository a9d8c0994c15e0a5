//! The units of a raw stream of messages.

ghost use Rattle.std.specs.Prelude.{◌≡◌, ◌≤◌, length};
ghost use Rattle.link_capture.specs.Raw.{streamed};
ghost use Rattle.link_capture.specs.Meaning.{meaning_of};

use crate::event::{Event, Time};
use crate::order::Order;
use crate::pcap::nanoseconds;

/// The type of the messages that `rtmon` writes before others: the time at which it received them.
const TIMESTAMP: u16 = 15;

/// Returns a message, or a time.
pub(crate) fn read_message(unit: &[u8]) -> Event<'_>
    requires { 16 ≤ length unit.now }
    ensures { meaning_of result ≡ streamed unit.now }
{
    if Order::Little.u16_at(unit, 4) == TIMESTAMP && unit.len() == 24 {
        let nanosecond = nanoseconds(
            6,
            Order::Little.u32_at(unit, 16),
            Order::Little.u32_at(unit, 20),
        );
        return Event::Time(Time {
            nanosecond: nanosecond.into(),
            digits: 6,
        });
    }
    Event::Message(unit)
}
