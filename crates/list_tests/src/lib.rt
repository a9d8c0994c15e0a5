//! The tests of calls on whole lists: re-encoding, canonical form, counts, reports, views, and the theorems. The tests
//! of attributes and their values are in `library_tests`, whose first page says how to add a test. The two are apart so
//! that they are proved side by side. Without its tests, this one has a comparison, whose contract says what a test has
//! shown that passes.
#![tactic(auto)]

mod comparing;
#[cfg(test)]
mod tests;

pub use comparing::is_judged;
