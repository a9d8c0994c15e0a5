//! Tests of what no contract covers: that allocations succeed, and readers and writers that fail or transfer few bytes
//! at a time.

mod devices;
mod names;
