//! What the program `nlshow` writes as JSON: a document for each message, line or packet, and for what ends an input.
//!
//! [`Json`] is a form of output, as `show_lines::Options` is: give it to `show_captures::run`.
//!
//! It is a library apart from the program, which has the tests: a crate with tests is proved twice.
#![tactic(auto)]

mod by_json;
mod clocks;
pub mod laws;
mod lines;
mod places;
mod stops;
mod units;
mod unopened;

pub use by_json::Json;
pub use unopened::write_unopened;
