//! Finds the attribute lists in netlink messages about links.
//!
//! A message about a link is a `struct nlmsghdr`, a `struct ifinfomsg`, and a list of attributes. The lists that a
//! [`Family`](netlink_packet_route::Family) parses are this list, those that some of these attributes hold, and those in
//! these. A buffer, such as one that `recvmsg` filled, holds several messages.
//!
//! - [`next_message`] parses the header of the message at an offset of the buffer, a [`Message`].
//! - [`any_message`] parses the header of any message, and [`read_acknowledgement`] what an NLMSG_ERROR or an NLMSG_DONE
//!   says, the kernel's reply to a request.
//! - [`link_header`] parses the `struct ifinfomsg` of a message about a link, a [`LinkHeader`], and returns the list of its
//!   attributes.
//! - [`read_lists`] returns the lists of such a message that a `Family` parses, and [`lists_of`] those from any list on. Each is
//!   a [`Part`]: a `Family`, and the bytes that it parses.
//! - [`visit_list`] calls a [`ListVisitor`] for the attributes of a list, and of the lists in it, to write them in a form of
//!   yours. `read_lists` is one such call.
//! - [`last_before_fault`] looks up one attribute of a list, up to the first malformed header.
//! - [`message_types`] has the types of messages, such as RTM_NEWLINK, and [`laws`] theorems about these types.
//!
//! Messages and lists borrow the buffer; nothing is copied. Each has its offset in the buffer, and each [`MessageError`] has
//! the offset of the bytes that caused it. Only `read_lists` and `lists_of` allocate: the `Vec` that they return.
//!
//! Numbers are read as little-endian. Netlink uses the byte order of the machine.
#![tactic(auto)]

mod acknowledgement;
mod before_fault;
mod buffer_parts;
mod header;
mod held;
pub mod laws;
pub mod link_types;
mod list_visitor;
mod lists;
mod message;
pub mod message_types;
mod visiting;

pub use acknowledgement::{Acknowledgement, read_acknowledgement};
pub use before_fault::last_before_fault;
pub use buffer_parts::{Message, Part, Payload};
pub use header::{LinkHeader, is_any_link_type, link_header, peer_parts};
pub use held::{MOST_LEVELS, opened_at};
pub use list_visitor::{HeldList, ListVisitor};
pub use lists::{ListsError, lists_of, read_lists};
pub use message::{MessageError, any_message, next_message};
pub use netlink_packet_route::without_nul;
pub use visiting::visit_list;
