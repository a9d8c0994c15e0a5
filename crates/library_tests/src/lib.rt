//! The tests of attributes and values: headers, payloads, values, names, flags and texts. Those of whole lists are in
//! `list_tests`. Both cover what no contract covers: inputs and outputs that were computed by hand, and that calls
//! succeed. `rt try --test` runs them without proofs, and `rt test` with them.
//!
//! They are in crates of their own because a crate with tests is proved twice, with and without them. This one has
//! little without them: comparisons, whose contracts say what a test has shown that passes.
//!
//! To add a test, find the file in `tests/` whose first line names its subject, or add a file and its `mod` line in
//! `tests.rt`. Write a row in the table of a test, or a function with `#[test]` and the parameter `rt: HostRuntime`.
//! `tests.rt` has the functions that decode hex digits and compare values. Compute the expected values by hand or take
//! them from the kernel, never from the library's output.
#![tactic(auto)]

mod comparing;
#[cfg(test)]
mod tests;

pub use comparing::{decodes_to, encodes_to, fails_with};
