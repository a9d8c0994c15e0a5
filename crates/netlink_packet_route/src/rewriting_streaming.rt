//! Re-encodes a list into the caller's buffer, one attribute at a time.

ghost use Rattle.std.specs.Prelude.{◌≡◌, ◌≤◌, length, take, drop};
ghost use Rattle.link_base.specs.Frame.{pad};
ghost use Rattle.link_base.specs.Table.{Canonical, Decodes};
ghost use Rattle.link_base.specs.Answers.{OnRewriteMemory};
ghost use Rattle.link_base.specs.Rewritten.{IsUnfit, NeedsMemory};
ghost use Rattle.netlink_packet_route.specs.Family.{table_of};
ghost use Rattle.netlink_packet_route.specs.Rewrite.{RewriteStreamingAnswers, RewriteFaultUnless, TooLongIff};
ghost use Rattle.netlink_packet_route.specs.Rewrite.{SucceedsIf};

use crate::by_family;
use crate::family::Family;
use link_base::{Attribute, RewriteError, rewrite_list};
use std::alloc::Global;

/// Re-encodes an attribute list into `buffer`, as [`rewrite`](crate::rewrite) does, but one attribute at a time. No
/// list of values is built. Returns the number of bytes written; the rest of the buffer is unchanged.
///
/// Let `m` be `bytes.len()` rounded up to a multiple of four. `buffer` must have at least `m` bytes, which is always
/// enough.
///
/// # Errors
///
/// As for `rewrite`, except that `Memory` is possible only for an attribute whose value is heap-allocated and that does
/// not follow the first error. On error, `buffer[..m]` may have changed.
#[inline(always)]
pub fn rewrite_streaming(
    alloc: Global,
    family: Family,
    bytes: &[u8],
    buffer: &mut [u8],
) -> Result<usize, RewriteError>
    requires { pad (length bytes.now) ≤ length buffer.old }
    // The guarantees of `rewrite` for its output hold for the `n` bytes that are written.
    ensures answer { RewriteStreamingAnswers (table_of family) bytes.now buffer.old buffer.new result }
    ensures fault { RewriteFaultUnless result (Decodes (table_of family) bytes.now) }
    ensures too_long { TooLongIff result (IsUnfit (table_of family) bytes.now) }
    ensures behind { drop (pad (length bytes.now)) buffer.new ≡ drop (pad (length bytes.now)) buffer.old }
    ensures memory { OnRewriteMemory result (NeedsMemory (table_of family) bytes.now) }
    // A canonical input is never rejected.
    ensures canonical { SucceedsIf (Canonical (table_of family) bytes.now) (λ n. take n buffer.new ≡ bytes.now) result }
{
    by_family!(family, rewrite_streaming_as(alloc, bytes, buffer))
}

/// Re-encodes a list of attributes of the type `F` into `buffer`, as [`rewrite_streaming`] does for a `Family`, and with
/// the same condition on the length of `buffer`. Returns the number of bytes written.
///
/// # Errors
///
/// As for `rewrite_streaming`.
#[inline(always)]
pub fn rewrite_streaming_as<F: Attribute>(
    alloc: Global,
    bytes: &[u8],
    buffer: &mut [u8],
) -> Result<usize, RewriteError>
    requires { pad (length bytes.now) ≤ length buffer.old }
    ensures answer { RewriteStreamingAnswers F.table bytes.now buffer.old buffer.new result }
    ensures fault { RewriteFaultUnless result (Decodes F.table bytes.now) }
    ensures too_long { TooLongIff result (IsUnfit F.table bytes.now) }
    ensures behind { drop (pad (length bytes.now)) buffer.new ≡ drop (pad (length bytes.now)) buffer.old }
    ensures memory { OnRewriteMemory result (NeedsMemory F.table bytes.now) }
    ensures canonical { SucceedsIf (Canonical F.table bytes.now) (λ n. take n buffer.new ≡ bytes.now) result }
{
    rewrite_list::<F>(alloc, bytes, buffer)
}
