//! Re-encodes a list into the caller's buffer, if the buffer is large enough.

ghost use Rattle.std.specs.Prelude.{◌≡◌, None};
ghost use Rattle.link_base.specs.Frame.{frame_fault};
ghost use Rattle.link_base.specs.Table.{Canonical, Decodes};
ghost use Rattle.link_base.specs.Answers.{OnRewriteMemory};
ghost use Rattle.link_base.specs.Rewritten.{IsUnfit};
ghost use Rattle.netlink_packet_route.specs.Family.{table_of};
ghost use Rattle.netlink_packet_route.specs.Rewrite.{RewriteToSliceAnswers, UnlessWritten};
ghost use Rattle.netlink_packet_route.specs.Rewrite.{RewriteFaultUnless, TooLongIff, SucceedsIf, KeepsOrLacksRoom};

use crate::by_family;
use crate::family::Family;
use link_base::{Attribute, RewriteError, emit_list, measure_list, read_list};
use std::alloc::Global;

/// Re-encodes an attribute list into `buffer`, as [`rewrite`](crate::rewrite) does. Returns `Some(n)`, where `n` is the
/// number of bytes written, and leaves `buffer[n..]` unchanged; or returns `None` if the buffer is too small.
///
/// # Errors
///
/// As for `rewrite`. The buffer is unchanged unless the result is `Ok(Some(n))`.
#[inline(always)]
pub fn rewrite_to_slice(
    alloc: Global,
    family: Family,
    bytes: &[u8],
    buffer: &mut [u8],
) -> Result<Option<usize>, RewriteError>
    ensures answer { RewriteToSliceAnswers (table_of family) bytes.now buffer.old buffer.new result }
    ensures fault { RewriteFaultUnless result (Decodes (table_of family) bytes.now) }
    ensures too_long { TooLongIff result (IsUnfit (table_of family) bytes.now) }
    ensures memory { OnRewriteMemory result (frame_fault bytes.now ≡ None) }
    // A canonical input is never rejected.
    ensures canonical { SucceedsIf (Canonical (table_of family) bytes.now)
        (KeepsOrLacksRoom bytes.now buffer.old buffer.new) result }
    ensures unchanged { UnlessWritten result (buffer.new ≡ buffer.old) }
{
    by_family!(family, rewrite_to_slice_as(alloc, bytes, buffer))
}

/// Re-encodes a list of attributes of the type `F` into `buffer`, as [`rewrite_to_slice`] does for a `Family`. Returns
/// the number of bytes written, or `None` if the buffer is too small.
///
/// # Errors
///
/// As for `rewrite_to_slice`.
#[inline(always)]
pub fn rewrite_to_slice_as<F: Attribute>(
    alloc: Global,
    bytes: &[u8],
    buffer: &mut [u8],
) -> Result<Option<usize>, RewriteError>
    ensures answer { RewriteToSliceAnswers F.table bytes.now buffer.old buffer.new result }
    ensures fault { RewriteFaultUnless result (Decodes F.table bytes.now) }
    ensures too_long { TooLongIff result (IsUnfit F.table bytes.now) }
    ensures memory { OnRewriteMemory result (frame_fault bytes.now ≡ None) }
    ensures canonical { SucceedsIf (Canonical F.table bytes.now)
        (KeepsOrLacksRoom bytes.now buffer.old buffer.new) result }
    ensures unchanged { UnlessWritten result (buffer.new ≡ buffer.old) }
{
    let values: Vec<F> = read_list(alloc, bytes)?;
    let len = measure_list(&values)?;
    if len > buffer.len() {
        return Ok(None);
    }
    emit_list(&values, buffer);
    Ok(Some(len))
}
