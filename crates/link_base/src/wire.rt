//! The bytes of a list: attributes and their headers, one after another, and errors with their offsets.

pub(crate) mod buffer;
pub(crate) mod buffer_tool;
pub(crate) mod emitable;
pub(crate) mod fault;
pub(crate) mod frame_table;
pub(crate) mod iterator;
pub(crate) mod octets;
pub(crate) mod padding;
