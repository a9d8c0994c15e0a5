//! What the program `nlshow` does with an input: lines, or a capture of netlink. [`ShowUnits`] writes the output.
//!
//! It is a library apart from the program, which has the tests: a crate with tests is proved twice.
#![tactic(auto)]

mod captures;
mod first;
pub mod laws;
mod packets;
mod place;
mod protocols;
mod reasons;
mod running;
mod show;
mod times;
mod units;

pub use packets::{Carried, carried_by, protocol_in};
pub use protocols::name_of_protocol;
pub use reasons::tell_reason;
pub use running::run;
pub use show::ShowUnits;
pub use times::utc_text;
