//! What the program `nlshow` does, on any reader and writer: what its arguments ask for, and what it prints for each line
//! of its input.
//!
//! It is a library apart from the program, which has the tests: a crate with tests is proved twice.
#![tactic(auto)]

mod arguments;
mod asking;
mod bare;
mod by_options;
mod debug;
mod digits;
mod held;
pub mod laws;
mod lists;
mod messages;
mod parts;
mod plain;
mod repeating;
mod replies;
mod running;
mod show;
mod showing;

pub use arguments::{Format, Options, Output, Request, Task, parse, wrong};
pub use asking::Asked;
pub use bare::write_bare;
pub use replies::{Reply, USAGE, VERSION};
pub use running::{Stop, read_more, show_lines};
pub use show::ShowLines;
