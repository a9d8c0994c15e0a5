//! Link attributes and messages as JSON: a document for each message, which is a line.
//!
//! [`write_documents`] writes the documents for the messages of a buffer. Each begins with the members of a [`Place`], which
//! says where it is from. [`write_place`], [`write_fault`], [`write_list_document`] and [`write_check`] write a document that
//! is not of a message. A [`Document`] is a document that is being written, and is used again for the next.
#![tactic(auto)]

mod document;
mod documents;
mod elements;
pub mod laws;
mod links;
mod lists;
mod messages;
mod numbers;
mod others;
mod parts;
mod place;
mod replies;
mod structs;
mod texts;
mod values;

pub use document::Document;
pub use messages::{Failure, print_document, write_documents};
pub use others::{write_check, write_fault, write_list_document, write_place};
pub use parts::{write_named, write_number_field};
pub use place::Place;
