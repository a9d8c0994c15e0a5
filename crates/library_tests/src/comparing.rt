//! Comparisons of what the library returns with what a test expects. Each returns true only if the model says the same.

ghost use Rattle.std.specs.Prelude.{◌≡◌, IsTrue, map};
ghost use Rattle.std.specs.List.{AllByRecursion};
ghost use Rattle.link_base.specs.Table.{Gives, Fits, written_list};
ghost use Rattle.link_base.specs.Wire.{Wire, FirstFault};

use link_base::lists::laws::{equality, fault_equality};
use netlink_packet_route::link::{Attribute, ListError, ListFault, read_list, write_list};
use std::alloc::Global;

/// Checks that the bytes are a list of these values.
pub fn decodes_to<F: Attribute>(alloc: Global, bytes: &[u8], wanted: &[F]) -> bool
    ensures { IsTrue result → Wire (Gives F.table) bytes.now (map F.means wanted.now) }
{
    equality::<F>();
    match read_list::<F>(alloc, bytes) {
        Ok(values) => values.as_slice() == wanted,
        Err(_) => false,
    }
}

/// Checks that the values fit, and are written as these bytes.
pub fn encodes_to<F: Attribute>(alloc: Global, values: &[F], wanted: &[u8]) -> bool
    ensures fit { IsTrue result → AllByRecursion Fits (map F.means values.now) }
    ensures written { IsTrue result → written_list (map F.means values.now) ≡ wanted.now }
{
    match write_list(alloc, values) {
        Ok(out) => out.as_slice() == wanted,
        Err(_) => false,
    }
}

/// Checks that the bytes have this first error.
pub fn fails_with<F: Attribute>(alloc: Global, bytes: &[u8], wanted: ListFault) -> bool
    ensures { IsTrue result → FirstFault (Gives F.table) bytes.now wanted.at wanted.fault }
{
    fault_equality();
    match read_list::<F>(alloc, bytes) {
        Err(ListError::Fault { at, fault }) => ListFault { at, fault } == wanted,
        _ => false,
    }
}
