//! Re-encodes a list into a new vector.

ghost use Rattle.std.specs.Prelude.{◌≡◌, ◌≤◌, ◌↔◌, None, length, map, IfOk};
ghost use Rattle.link_base.specs.Frame.{pad, frame_fault};
ghost use Rattle.link_base.specs.Table.{Canonical, Decodes};
ghost use Rattle.link_base.specs.Answers.{OnRewriteMemory};
ghost use Rattle.link_base.specs.Rewritten.{IsUnfit};
ghost use Rattle.netlink_packet_route.specs.Family.{table_of};
ghost use Rattle.netlink_packet_route.specs.Rewrite.{ReadAndWritten, RewriteAnswers};
ghost use Rattle.netlink_packet_route.specs.Rewrite.{RewriteFaultUnless, TooLongIff, SucceedsIf, ReadsBack, Converges};

use crate::by_family;
use crate::family::Family;
use link_base::{Attribute, RewriteError, read_list, write_list};
use std::alloc::Global;

/// Re-encodes an attribute list: parses it and serializes its values. A canonical list is returned unchanged and never
/// rejected.
///
/// # Errors
///
/// `Fault` if and only if the input does not decode, and `TooLong` if and only if it decodes and one of its values does
/// not fit, each unless an allocation fails. `Memory` if an allocation fails, which is possible only if the input
/// starts with a whole attribute.
pub fn rewrite(alloc: Global, family: Family, bytes: &[u8]) -> Result<Vec<u8>, RewriteError>
    ensures answer { RewriteAnswers (table_of family) bytes.now result }
    ensures fault { RewriteFaultUnless result (Decodes (table_of family) bytes.now) }
    ensures too_long { TooLongIff result (IsUnfit (table_of family) bytes.now) }
    ensures memory { OnRewriteMemory result (frame_fault bytes.now ≡ None) }
    // A canonical input is never rejected.
    ensures canonical { SucceedsIf (Canonical (table_of family) bytes.now) (λ out. out.items ≡ bytes.now) result }
    // Equal to the input if and only if the input is canonical. Never longer than the input length, rounded up to a
    // multiple of four.
    ensures same { IfOk result (λ out. (out.items ≡ bytes.now) ↔ Canonical (table_of family) bytes.now) }
    ensures no_longer { IfOk result (λ out. length out.items ≤ pad (length bytes.now)) }
    // Decodes to the same values, except that CAN controller names are truncated.
    ensures back { IfOk result (λ out. ReadsBack (table_of family) bytes.now out.items) }
    // Re-encoding the output gives a canonical list, and re-encoding that list returns it unchanged.
    ensures converges { IfOk result (λ out. Converges (table_of family) out.items) }
{
    by_family!(family, rewrite_as(alloc, bytes))
}

/// Re-encodes a list of attributes of the type `F`, as [`rewrite`] does for a `Family`. `F` can be the enum of any
/// attribute set, for example one of your own.
///
/// # Errors
///
/// As for `rewrite`.
pub fn rewrite_as<F: Attribute>(alloc: Global, bytes: &[u8]) -> Result<Vec<u8>, RewriteError>
    ensures answer { RewriteAnswers F.table bytes.now result }
    ensures fault { RewriteFaultUnless result (Decodes F.table bytes.now) }
    ensures too_long { TooLongIff result (IsUnfit F.table bytes.now) }
    ensures memory { OnRewriteMemory result (frame_fault bytes.now ≡ None) }
    ensures canonical { SucceedsIf (Canonical F.table bytes.now) (λ out. out.items ≡ bytes.now) result }
    ensures same { IfOk result (λ out. (out.items ≡ bytes.now) ↔ Canonical F.table bytes.now) }
    ensures no_longer { IfOk result (λ out. length out.items ≤ pad (length bytes.now)) }
    ensures back { IfOk result (λ out. ReadsBack F.table bytes.now out.items) }
    ensures converges { IfOk result (λ out. Converges F.table out.items) }
{
    let (_values, out) = read_and_write::<F>(alloc, bytes)?;
    Ok(out)
}

/// Parses a list and serializes its values. Returns the values and the serialized bytes.
pub(crate) fn read_and_write<F: Attribute>(
    alloc: Global,
    bytes: &[u8],
) -> Result<(Vec<F>, Vec<u8>), RewriteError>
    ensures answer { ReadAndWritten (λ vs. map F.means vs.items) F.table bytes.now result }
    ensures memory { OnRewriteMemory result (frame_fault bytes.now ≡ None) }
{
    let values: Vec<F> = read_list(alloc, bytes)?;
    let out = write_list(alloc, &values)?;
    Ok((values, out))
}
