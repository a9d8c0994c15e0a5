//! Netlink attributes of network links. This crate selects an attribute set by name ([`Family`]), checks, views and
//! re-encodes lists, and produces the output of the program `nlroute`. The enums of attributes, and the functions for
//! single attributes and for lists, are in [`link`]; the types of views are in [`views`]. To write an attribute set of
//! your own, see [`implementing`].
#![tactic(auto)]

mod counting;
mod family;
pub mod hex_text;
pub mod implementing;
mod judging;
pub mod laws;
pub mod link;
mod opening;
mod reporting;
mod rewriting;
mod rewriting_streaming;
mod rewriting_to_slice;
mod viewing;
pub mod views;

pub use counting::count_values;
pub use family::{Family, Holder};
pub use judging::{first_not_canonical, is_canonical};
pub use link::RewriteError;
pub use opening::{Context, announced_port_kind, opened, port_kind_in, without_nul};
pub use reporting::{MOST_TEXT, report};
pub use rewriting::rewrite;
pub use rewriting_streaming::rewrite_streaming;
pub use rewriting_to_slice::rewrite_to_slice;
pub use viewing::{FamilyElements, FamilySet, view_all, view_elements, view_list};
