//! The texts of link attributes, for people: of values, of numbers with what they count, of enums and sets of flags by
//! name, of structs, and of errors. Each call writes to a [`Sink`] of the caller's, such as an `io::Write`, and allocates
//! nothing.
#![tactic(auto, using(crate::specs::Gained::chains))]

mod addresses;
mod attributes;
mod counters;
pub mod errno;
mod families;
mod faults;
mod flags;
mod front;
mod held;
mod indent;
mod ip;
pub mod laws;
mod line_options;
mod links;
mod lists;
mod message_errors;
pub mod message_names;
mod messages;
mod numbers;
mod octets;
mod page;
mod pieces;
mod quoted;
mod replies;
mod sets;
mod sink;
mod structs;
mod values;
mod verdicts;

pub use addresses::{write_addresses, write_ip};
pub use attributes::{TYPE_FLAGS, write_attribute};
pub use counters::names_from;
pub use families::write_family_list;
pub use faults::write_fault;
pub use flags::{write_enum, write_flags};
pub use front::{Words, store_front};
pub use held::is_state;
pub use ip::{write_ipv4, write_ipv6};
pub use line_options::LineOptions;
pub use links::write_link;
pub use message_errors::{offset_of, write_message_error, write_reason};
pub use messages::{are_zeros_after, is_general, write_message, write_messages};
pub use numbers::{number_at, signed_at, write_number};
pub use octets::{write_address, write_hex};
pub use page::print_messages;
pub use quoted::write_quoted;
pub use replies::{errno_name, has_result, write_acknowledgement};
pub use sets::ListSet;
pub use sink::Sink;
pub use structs::{
    MASKED_FIELDS, PAIR_FIELDS, bytes_of_two, field_bytes, has_fields, names_for, write_struct,
};
pub use values::{counted_in, protocol_name, write_content, write_value};
pub use verdicts::write_verdict;
