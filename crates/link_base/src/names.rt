//! Enums and sets of flags, and the names of their numbers and bits.

pub(crate) mod by_flags;
pub(crate) mod by_names;
pub mod flag_laws;
pub(crate) mod named;
pub mod named_laws;
pub(crate) mod vlan_protocol;
