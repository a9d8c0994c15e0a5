//! Attribute sets: an attribute type in each row, and what is done with an attribute by its row.

pub(crate) mod attribute;
pub mod by_rows;
pub(crate) mod default_nla;
pub mod fields;
pub mod form;
pub mod label;
pub mod limits;
pub(crate) mod nested;
pub(crate) mod place;
pub(crate) mod try_clone;
pub(crate) mod visitors;
