//! Requests about links (`include/uapi/linux/rtnetlink.h`): whole messages, written from a head and an array of values. Nothing
//! is allocated.
//!
//! - [`Head`] has the fields of the headers `struct nlmsghdr` and `struct ifinfomsg`.
//! - Values are [`Entry`](link_entries::Entry)s of the set `link`, in the order of the message. The elements of a list follow
//!   it, one deeper. A value of form [`HELD`](link_entries::forms::HELD) whose offset is [`INLINE`] is followed by the values of
//!   its list, one deeper too; another set reads them, which [`opened`](netlink_packet_route::opened) tells.
//! - Depth decides what a value is: 0 is the message, 1 `IFLA_LINKINFO`, 2 `IFLA_INFO_DATA`. So that a value whose depth was
//!   forgotten is an error, attributes of the message are marked: their `inner` is [`OF_MESSAGE`].
//! - [`write_request`] writes the message, and [`measure`] returns its length. [`laws`] has theorems about it.
#![tactic(auto)]

mod context;
mod head;
pub mod laws;
mod level;
mod lists;
mod misfit;
mod names;
#[cfg(test)]
mod tests;
mod text;
mod value;
mod values;
mod writing;

pub use head::Head;
pub use level::OF_MESSAGE;
pub use misfit::RequestError;
pub use text::INLINE;
pub use writing::{measure, write_request};
