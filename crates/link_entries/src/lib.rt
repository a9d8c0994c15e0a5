//! Lists of link attributes as arrays of fixed-size entries: one for each attribute, and after an attribute that is a list
//! one for each element. [`flatten`] stores a list, [`find`] and [`find_in`] look an entry up, and [`write`](fn@write)
//! writes entries as a list. Nothing is allocated.
//!
//! [`Entry`] has the layout of `struct nlroute_value` in the C API. [`forms`] has the numbers of its forms, and [`units`] those
//! of what its numbers count.
#![tactic(auto)]

mod arrays;
mod contents;
mod counting;
mod elements;
pub mod encoding;
mod entry;
pub mod fields;
mod finding;
mod finding_elements;
mod flattening;
pub mod forms;
pub mod laws;
mod misfit;
mod name;
pub mod octets;
pub mod payload;
mod row;
pub mod storing;
pub mod units;
mod writing;

pub use counting::count;
pub use entry::Entry;
pub use finding::find;
pub use finding_elements::find_in;
pub use flattening::flatten;
pub use misfit::{Misfit, MisfitAt};
pub use row::{Row, row_for};
pub use writing::{measure, write};
