//! Lists of netlink attributes: their framing, what they decode to, and how they are written.
#![tactic(auto)]

pub mod classes;
pub mod lists;
pub mod names;
pub mod rows;
pub mod views;
pub mod wire;

pub use classes::address_list::{Address, addresses_len, emit_addresses, read_addresses};
pub use classes::be::{Be, BeFlagBits};
pub use classes::coded::{Coded, NumberNames};
pub use classes::field_list::FieldList;
pub use classes::fixed_size::FixedSize;
pub use classes::flags_class::{FlagBits, LowFlagBits, MaskedFlags};
pub use classes::lengths::Lengths;
pub use classes::list_classes::{AddressList, NestedList};
pub use classes::named_class::Named;
pub use classes::number_lists::{ArrayWord, emit_numbers, numbers_len, parse_numbers};
pub use classes::payload_class::PayloadClass;
pub use classes::records::{
    before_nul, check_at_least, check_exactly, check_length, u16_at, u32_at, u32s_at,
};
pub use classes::scalars::{
    emit_i32, emit_low, emit_mac, emit_u8, emit_u16, emit_u16_be, emit_u32, emit_u32_be,
    emit_u32_pair, emit_u64, emit_u64_be, parse_i32, parse_ip, parse_mac, parse_u8, parse_u16,
    parse_u16_be, parse_u32, parse_u64,
};
pub use classes::struct_class::{PayloadStruct, Struct};
pub use classes::word::Word;
pub use lists::canonical::{
    are_numbers, first_not_canonical, is_address_list, is_bytes, is_fixed, is_limits, is_nested,
    list_is_canonical,
};
pub use lists::checking::check_list;
pub use lists::reading::read_list;
pub use lists::rewriting::rewrite_list;
pub use lists::writing::{emit_list, list_fits, list_len, measure_list, write_list};
pub use names::named::NamedNumber;
pub use names::vlan_protocol::VlanProtocol;
pub use rows::attribute::{Attribute, MAX_PAYLOAD, Meaning, Nla, Parseable};
pub use rows::default_nla::DefaultNla;
pub use rows::nested::{NestedAttribute, emit_nested, nested_len, read_nested};
pub use rows::place::{Place, keep};
pub use rows::try_clone::{TryClone, try_clone_list};
pub use wire::buffer::{NLA_F_NESTED, NLA_F_NET_BYTEORDER, NLA_TYPE_MASK, NlaBuffer};
pub use wire::buffer_tool::expand_buffer_if_small;
pub use wire::emitable::Emitable;
pub use wire::fault::{
    Cause, DecodeError, DecodeFault, ListError, ListFault, RewriteError, TooLong, WriteError,
};
pub use wire::frame_table::FrameTable;
pub use wire::iterator::NlasIterator;
pub use wire::padding::padded;
