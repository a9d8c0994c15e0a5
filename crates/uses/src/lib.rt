//! Examples of using `netlink_packet_route` and `link_requests`: short functions to start from. To find the lists in a
//! message, see `link_messages`.
#![tactic(auto)]

mod building;
mod changing;
mod faults;
mod ipoib;
mod normalising;
mod printing;
mod reading;
mod requests;

// Look up values in a list.
pub use reading::{forward_delay, last_forward_delay, monitoring};

// Read the lists of an attribute set of your own.
pub use ipoib::{InfoIpoib, ipoib_mode};

// Find the first error of a list.
pub use faults::{first_fault, read_front};

// Print a list as text.
pub use printing::print_list;

// Build a list to send.
pub use building::{
    BufferError, bond_request, bridge_request, error_equality, vlan_request, write_into,
};

// Write a whole message to send.
pub use requests::{bond_message, delete_link, join};

// Change one attribute of a list.
pub use changing::{ChangeError, with_attribute, with_vlan_id};

// Make a list canonical.
pub use normalising::{canonical, normalised};
