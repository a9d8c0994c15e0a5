//! What a crate needs to write an attribute set of its own: the traits, the classes of payloads, and the functions that
//! classes and structs are made of. The calls that read, write, check and view lists are in [`link`](crate::link) and
//! [`views`](crate::views). They accept every type that implements [`Attribute`].
//!
//! The macros `by_rows!`, `by_names!`, `by_flags!`, `by_fields!`, `fields!` and `names!` are those of `link_base`. A crate
//! that calls a macro must depend on the crate that defines it, so list `link_base` in `crates.txt` too.

// The traits of an attribute set, what their methods take and return, and the functions that `by_rows!` calls.
pub use link_base::rows::by_rows;
pub use link_base::rows::fields::Field;
pub use link_base::rows::form::{ArrayOf, Form, Layout, Look, Order, Role, Width};
pub use link_base::rows::label::{KindLabel, Name, Quantity};
pub use link_base::views::content::{Content, Known};
pub use link_base::{
    Attribute, Cause, DecodeError, DecodeFault, DefaultNla, ListError, Meaning, NLA_F_NESTED,
    NestedAttribute, Nla, NlaBuffer, Parseable, Place, TryClone, keep,
};

// The classes of payloads, and the traits of enums, sets of flags and structs.
pub use link_base::classes::coded::{CodedFlags, Counters};
pub use link_base::classes::flag_or_bool::flag_is_on;
pub use link_base::classes::peer::{PEER_HEADER, Peer};
pub use link_base::classes::shown::{Held, Shown, Text};
pub use link_base::names::flag_laws::{self, FlagSet, KnownBits};
pub use link_base::names::named_laws;
pub use link_base::{
    Address, AddressList, ArrayWord, Be, BeFlagBits, Coded, Emitable, FieldList, FixedSize,
    FlagBits, Lengths, LowFlagBits, MaskedFlags, Named, NamedNumber, NestedList, NumberNames,
    PayloadClass, PayloadStruct, Struct, VlanProtocol,
};

// Parse and write the fields of a struct.
pub use link_base::{
    check_at_least, check_exactly, check_length, emit_mac, emit_numbers, emit_u16, emit_u16_be,
    emit_u32, emit_u32_be, emit_u64, emit_u64_be, u16_at, u32_at, u32s_at,
};
