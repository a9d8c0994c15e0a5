//! Classes of payloads: how each is checked, decoded, encoded, and borrowed.

pub(crate) mod address_list;
pub(crate) mod be;
pub mod coded;
pub(crate) mod field_list;
pub(crate) mod fixed_size;
pub mod flag_or_bool;
pub(crate) mod flags_class;
pub(crate) mod lengths;
pub(crate) mod list_classes;
pub(crate) mod named_class;
pub(crate) mod number_lists;
pub(crate) mod payload_class;
pub mod peer;
pub(crate) mod records;
pub(crate) mod scalar_classes;
pub(crate) mod scalars;
pub mod shown;
pub(crate) mod struct_class;
pub(crate) mod word;
