//! Lists of attributes: decoded, encoded, checked, and the theorems about them.

pub(crate) mod canonical;
pub(crate) mod checking;
pub mod examples;
pub mod laws;
pub(crate) mod reading;
pub(crate) mod rewriting;
pub(crate) mod skipping;
pub(crate) mod writing;
