//! Captures of netlink: pcap and pcapng files, and raw streams of messages. An input is cut into units, one after
//! another. A [`Capture`] takes them one at a time from bytes that the caller has read, and returns packets and messages, or
//! the first error. Nothing allocates. [`laws`] has theorems, such as that there is one reading of each input.
#![tactic(auto)]

mod capture;
mod error;
mod event;
mod form;
mod front;
pub mod laws;
mod messages;
mod options;
mod order;
mod other_format;
mod pcap;
mod pcapng;
mod raw;

pub use capture::{Capture, Next};
pub use error::{Bytes, Head, InputError, Size};
pub use event::{Event, Packet, Time};
pub use form::Form;
pub use options::Clock;
pub use order::Order;
pub use other_format::OtherFormat;
pub use pcap::NETLINK;
pub use pcapng::Interface;
