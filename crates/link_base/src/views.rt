//! Lists that are read where they lie, without a copy.

pub mod attribute_set;
pub mod content;
pub mod content_by;
pub(crate) mod typed;
pub mod view;
pub mod view_all;
pub mod view_laws;
pub mod viewing;
